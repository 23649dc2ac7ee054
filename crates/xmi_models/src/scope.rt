// The namespace declarations in force at an element.
ghost use Rattle.std.specs.Prelude.{◌≡◌, find, bytes_eq};
ghost use Rattle.std.specs.Option.{option_copied};
ghost use Rattle.xmi_text.specs.Markup.{uri_in};
ghost use Rattle.xmi_models.specs.Scopes.{scope_of};

use doc_text::tree::Prefix;
use xmi_text::level::{Declared, declared_in};

/// The declarations that are in force at an element: its own, and those around it.
#[derive(Clone, Copy)]
pub(crate) enum Scope<'d, 's> {
    /// Around the root of a file.
    Outside,
    Within(Declared<'d>, &'s Scope<'d, 's>),
}

// The innermost declaration of a prefix.
fn declared<'d>(scope: &Scope<'d, '_>, prefix: &[u8]) -> Option<&'d Prefix>
    ensures { option_copied result ≡ find (λ d. bytes_eq d.prefix prefix.now) (scope_of scope.now) }
{
    match scope {
        Scope::Outside => None,
        Scope::Within(own, outer) => match declared_in(own, prefix) {
            Some(found) => Some(found),
            None => declared(outer, prefix),
        },
    }
}

/// The namespace of a prefix. Without a declaration the empty prefix has none.
pub(crate) fn uri_of<'d>(scope: &Scope<'d, '_>, prefix: &[u8]) -> Option<&'d [u8]>
    ensures { option_copied result ≡ uri_in (scope_of scope.now) prefix.now }
{
    if let Some(found) = declared(scope, prefix) {
        return Some(found.uri.bytes());
    }
    if prefix.is_empty() {
        return Some(&[]);
    }
    None
}
