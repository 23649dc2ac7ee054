// Why reading stops at a character that is not taken, or at the end.
ghost use Rattle.std.specs.Prelude.{◌≡◌, ◌∷◌, List, if◌then◌else◌};
ghost use Rattle.atl_base.specs.declared.place.Place.{Place as SomePlace};
ghost use Rattle.doc_text.specs.Answers.{refusal_of};
ghost use Rattle.doc_text.specs.Faults.{BadByte, Expected, Trailing};
ghost use Rattle.doc_text.specs.Machine.{begins as begins_of, declares as declares_of, declared as declared_of, reason as reason_of};
ghost use Rattle.doc_text.specs.Nexts.{around_of, content_of, markup_of, state_of};
ghost use Rattle.doc_text.specs.State.{Banged, BangDash, Begun};
ghost use Rattle.doc_text.specs.Stopping.{refused, why_of};
ghost use Rattle.doc_text.specs.Symbols.{Symbol as SomeSymbol, is_good as is_good_of};

use crate::cursor::Cursor;
use crate::reading::kinds::{char_of, is_good};
use crate::reading::next::{Around, Content, Markup, Next};
use crate::refusal::{DocRefusal, Fault};
use crate::symbol::Symbol;
use atl_base::place::Place;

/// What counts where a character is not taken.
#[derive(Clone, Copy)]
pub enum Why {
    /// Markup begins there, after the root.
    Trailing(Place),
    /// The character stands after the root.
    AfterRoot,
    /// `<!` stands there.
    Declares(Place),
    /// The form needs something else.
    Unwanted,
}

// Markup after the root is refused where it begins.
fn why_begun(around: &Around, less: Place) -> Why
    ensures { (end : SomePlace) (ss : List SomeSymbol) → reason_of end (Begun (around_of around.now) less) ss ≡ why_of result end ss }
{
    match around {
        Around::After(_) => Why::Trailing(less),
        Around::First => Why::Unwanted,
        Around::Before => Why::Unwanted,
        Around::Within(_, _) => Why::Unwanted,
    }
}

fn why_bang_dash(around: &Around, less: Place) -> Why
    ensures { (end : SomePlace) (ss : List SomeSymbol) → reason_of end (BangDash (around_of around.now) less) ss ≡ why_of result end ss }
{
    match around {
        Around::After(_) => Why::Trailing(less),
        Around::First => Why::Unwanted,
        Around::Before => Why::Unwanted,
        Around::Within(_, _) => Why::Unwanted,
    }
}

fn why_banged(around: &Around, less: Place) -> Why
    ensures { (end : SomePlace) (ss : List SomeSymbol) → reason_of end (Banged (around_of around.now) less) ss ≡ why_of result end ss }
{
    match around {
        Around::After(_) => Why::Trailing(less),
        Around::First => Why::Declares(less),
        Around::Before => Why::Declares(less),
        Around::Within(_, _) => Why::Declares(less),
    }
}

/// What counts in markup.
pub fn why_markup(markup: &Markup) -> Why
    ensures { (end : SomePlace) (ss : List SomeSymbol) → reason_of end (markup_of markup.now) ss ≡ why_of result end ss }
{
    match markup {
        Markup::Begun(around, less) => why_begun(around, *less),
        Markup::Banged(around, less) => why_banged(around, *less),
        Markup::BangDash(around, less) => why_bang_dash(around, *less),
        Markup::Remarking(_) => Why::Unwanted,
        Markup::RemarkDash(_) => Why::Unwanted,
        Markup::RemarkEnd(_) => Why::Unwanted,
        Markup::Asked(_) => Why::Unwanted,
        Markup::Targeting(_, _) => Why::Unwanted,
        Markup::TargetEnd(_) => Why::Unwanted,
        Markup::Telling(_, _) => Why::Unwanted,
    }
}

fn why_content(content: &Content) -> Why
    ensures { (end : SomePlace) (ss : List SomeSymbol) → reason_of end (content_of content.now) ss ≡ why_of result end ss }
{
    match content {
        Content::Beginning => Why::Unwanted,
        Content::InProlog => Why::Unwanted,
        Content::Inside(_, _, _) => Why::Unwanted,
        Content::Epilog(_) => Why::AfterRoot,
    }
}

/// What counts where reading stands.
pub fn why_next(next: &Next) -> Why
    ensures { (end : SomePlace) (ss : List SomeSymbol) → reason_of end (state_of next.now) ss ≡ why_of result end ss }
{
    match next {
        Next::InContent(content) => why_content(content),
        Next::InMarkup(markup) => why_markup(markup),
        Next::InDeclaration(_) => Why::Unwanted,
        Next::InName(_) => Why::Unwanted,
        Next::InTag(_) => Why::Unwanted,
        Next::InReference(_, _, _) => Why::Unwanted,
    }
}

/// The refusal of this kind.
pub fn refusal(fault: Fault, at: Place) -> DocRefusal
    ensures { result ≡ refusal_of fault at }
{
    match fault {
        Fault::BadEncoding => DocRefusal::BadEncoding(at),
        Fault::BadByte => DocRefusal::BadByte(at),
        Fault::Expected => DocRefusal::Expected(at),
        Fault::MismatchedEnd => DocRefusal::MismatchedEnd(at),
        Fault::TwiceAttribute => DocRefusal::TwiceAttribute(at),
        Fault::Entity => DocRefusal::Entity(at),
        Fault::Prefix => DocRefusal::Prefix(at),
        Fault::TooDeep => DocRefusal::TooDeep(at),
        Fault::Trailing => DocRefusal::Trailing(at),
        Fault::Unsupported => DocRefusal::Unsupported(at),
    }
}

// The form needs something else than this character.
fn unwanted(symbol: Symbol) -> DocRefusal
    ensures { result ≡ refused (if is_good_of symbol.kind then Expected else BadByte, symbol.at) }
{
    if is_good(symbol.kind) {
        return DocRefusal::Expected(symbol.at);
    }
    DocRefusal::BadByte(symbol.at)
}

// This character should not stand after the root.
fn after_root(symbol: Symbol) -> DocRefusal
    ensures { result ≡ refused (if is_good_of symbol.kind then Trailing else BadByte, symbol.at) }
{
    if is_good(symbol.kind) {
        return DocRefusal::Trailing(symbol.at);
    }
    DocRefusal::BadByte(symbol.at)
}

// The characters begin with this word.
fn begins(word: &[u8], rest: &Cursor) -> bool
    ensures { result ≡ begins_of word.now rest.now.symbols }
{
    let mut left = rest.copy();
    for i in 0..word.len() {
        match left.next() {
            Some(symbol) => {
                if char_of(symbol.kind) != char::from(word[i]) {
                    return false;
                }
            }
            None => return false,
        }
    }
    true
}

// This character, with those that follow it, begins with this word.
fn begins_with(word: &[u8], symbol: Symbol, rest: &Cursor) -> bool
    ensures { result ≡ begins_of word.now (symbol ∷ rest.now.symbols) }
{
    match word {
        [] => true,
        [c, more @ ..] => char_of(symbol.kind) == char::from(*c) && begins(more, rest),
    }
}

// A document type declaration or CDATA follows `<!`.
fn declares(symbol: Symbol, rest: &Cursor) -> bool
    ensures { result ≡ declares_of (symbol ∷ rest.now.symbols) }
{
    begins_with(b"DOCTYPE", symbol, rest) || begins_with(b"[CDATA[", symbol, rest)
}

// After `<!`.
fn declared(less: Place, symbol: Symbol, rest: &Cursor) -> DocRefusal
    ensures { result ≡ refused (declared_of rest.now.end less (symbol ∷ rest.now.symbols)) }
{
    if declares(symbol, rest) {
        return DocRefusal::Unsupported(less);
    }
    unwanted(symbol)
}

/// The refusal at this character, which those that follow it may tell more of.
pub fn reason(why: Why, symbol: Symbol, rest: &Cursor) -> DocRefusal
    ensures { result ≡ refused (why_of why rest.now.end (symbol ∷ rest.now.symbols)) }
{
    match why {
        Why::Trailing(less) => DocRefusal::Trailing(less),
        Why::AfterRoot => after_root(symbol),
        Why::Declares(less) => declared(less, symbol, rest),
        Why::Unwanted => unwanted(symbol),
    }
}
