// The namespace declarations in force at an element, and the names that are read by them.
ghost use Rattle.std.specs.Prelude.{◌≡◌, false, [], ◌++◌, find, bytes_eq};
ghost use Rattle.std.specs.Option.{option_copied, option_or, option_map_or};
ghost use Rattle.xmi_text.specs.Markup.{is_text, ecore_space, uri_in, names_local as names_local_of, names as names_of, is_typed as is_typed_of};
ghost use Rattle.xmi_text.specs.Scopes.{declared_of, scope_of, Leaves1, Leaves5};

use crate::cut::place_of;
use crate::level::{Declared, Levels, declared_by, declared_in};
use crate::markup::{ECORE, XSI, given_in};
use doc_text::tree::{Element, Prefix};

/// No element of the outline stands deeper.
pub const DEEPEST: usize = 6;

/// The declarations that are in force at an element: its own, its parent's, and so on. None of the outline stands
/// deeper than six.
#[derive(Clone, Copy)]
pub struct Scope<'a> {
    pub levels: &'a Levels<'a>,
    pub first: Declared<'a>,
    pub second: Declared<'a>,
    pub third: Declared<'a>,
    pub fourth: Declared<'a>,
    pub fifth: Declared<'a>,
    pub sixth: Declared<'a>,
}

/// The declarations in force at an element below.
pub fn within<'a>(outer: Scope<'a>, element: &'a Element) -> Scope<'a>
    requires { Leaves1 outer }
    ensures scope { scope_of result ≡ element.now.declared ++ scope_of outer.entry }
    ensures second { declared_of result.second ≡ declared_of outer.entry.first }
    ensures third { declared_of result.third ≡ declared_of outer.entry.second }
    ensures fourth { declared_of result.fourth ≡ declared_of outer.entry.third }
    ensures fifth { declared_of result.fifth ≡ declared_of outer.entry.fourth }
    ensures sixth { declared_of result.sixth ≡ declared_of outer.entry.fifth }
{
    Scope {
        levels: outer.levels,
        first: declared_by(outer.levels, element),
        second: outer.first,
        third: outer.second,
        fourth: outer.third,
        fifth: outer.fourth,
        sixth: outer.fifth,
    }
}

/// The declarations in force at the root.
pub fn root_scope<'a>(levels: &'a Levels<'a>, root: &'a Element) -> Scope<'a>
    ensures scope { scope_of result ≡ root.now.declared ++ [] }
    ensures leaves { Leaves5 result }
{
    Scope {
        levels,
        first: declared_by(levels, root),
        second: Declared::Few(&[]),
        third: Declared::Few(&[]),
        fourth: Declared::Few(&[]),
        fifth: Declared::Few(&[]),
        sixth: Declared::Few(&[]),
    }
}

// What is found already, or else the first here.
fn or_declared<'a>(
    inner: Option<&'a Prefix>,
    outer: &Declared<'a>,
    prefix: &[u8],
) -> Option<&'a Prefix>
    ensures { option_copied result ≡ option_or (option_copied inner.entry) (find (λ d. bytes_eq d.prefix prefix.now) (declared_of outer.now)) }
{
    match inner {
        Some(found) => Some(found),
        None => declared_in(outer, prefix),
    }
}

// The innermost declaration of a prefix.
fn declared<'a>(scope: &Scope<'a>, prefix: &[u8]) -> Option<&'a Prefix>
    ensures { option_copied result ≡ find (λ d. bytes_eq d.prefix prefix.now) (scope_of scope.now) }
{
    let one = declared_in(&scope.first, prefix);
    let two = or_declared(one, &scope.second, prefix);
    let three = or_declared(two, &scope.third, prefix);
    let four = or_declared(three, &scope.fourth, prefix);
    let five = or_declared(four, &scope.fifth, prefix);
    or_declared(five, &scope.sixth, prefix)
}

// Whether a prefix stands for Ecore's namespace.
fn is_ecore_prefix(scope: &Scope<'_>, prefix: &[u8]) -> bool
    ensures { result ≡ option_map_or (is_text ecore_space) (uri_in (scope_of scope.now) prefix.now) false }
{
    match declared(scope, prefix) {
        Some(found) => found.uri.as_str() == ECORE,
        None => false,
    }
}

fn names_local(scope: &Scope<'_>, prefix: &[u8], local: &[u8], name: &str) -> bool
    ensures { result ≡ names_local_of (scope_of scope.now) prefix.now local.now name.now }
{
    is_ecore_prefix(scope, prefix) && local == name.as_bytes()
}

/// Whether a text in an attribute names this, in Ecore's namespace.
pub fn names(scope: &Scope<'_>, text: &[u8], name: &str) -> bool
    ensures { result ≡ names_of (scope_of scope.now) text.now name.now }
{
    let at = place_of(b':', text);
    if at < text.len() {
        return names_local(scope, &text[..at], &text[at + 1..], name);
    }
    names_local(scope, &[], text, name)
}

/// Whether an element has this type of Ecore's.
pub fn is_typed(name: &str, element: &Element, scope: &Scope<'_>) -> bool
    ensures { result ≡ is_typed_of name.now (record { element = element.now; scope = scope_of scope.now }) }
{
    match given_in(XSI, "type", element) {
        Some(text) => names(scope, text.bytes(), name),
        None => false,
    }
}
