// Between markup: before the root, in elements, after the root.
ghost use Rattle.std.specs.Prelude.{◌≡◌, ◌&&◌, nat_eq, IfOk, true};
ghost use Rattle.doc_text.specs.Symbols.{IsSound, is_text as is_text_of, is_greater as is_greater_of};
ghost use Rattle.doc_text.specs.Form.{bracketed as bracketed_of};
ghost use Rattle.doc_text.specs.Nexts.{content_of, step_of};
ghost use Rattle.doc_text.specs.Steps.{step as stepped};
ghost use Rattle.doc_text.specs.declared.reading.next.Content.TheVariants as C;

use crate::reading::kinds::{char_of, is_text};
use crate::reading::next::{Around, Citing, Content, Markup, Move, Next};
use crate::reading::open::{Open, grow};
use crate::state::Cited;
use crate::symbol::{Kind, Symbol};
use sqlite_items::Items;
use std::alloc::{AllocError, Global};

fn beginning(symbol: Symbol) -> Move
    ensures { stepped true (content_of C.Beginning) symbol.kind symbol.at ≡ step_of result }
{
    match symbol.kind {
        Kind::Less => Move::Goes(Next::InMarkup(Markup::Begun(Around::First, symbol.at))),
        Kind::Blank(_) => Move::Goes(Next::InContent(Content::InProlog)),
        _ => Move::Stops,
    }
}

fn in_prolog(symbol: Symbol) -> Move
    ensures { stepped true (content_of C.InProlog) symbol.kind symbol.at ≡ step_of result }
{
    match symbol.kind {
        Kind::Less => Move::Goes(Next::InMarkup(Markup::Begun(Around::Before, symbol.at))),
        Kind::Blank(_) => Move::Goes(Next::InContent(Content::InProlog)),
        _ => Move::Stops,
    }
}

fn epilog(root: Open, symbol: Symbol) -> Move
    ensures { stepped true (content_of (C.Epilog root)) symbol.kind symbol.at ≡ step_of result }
{
    match symbol.kind {
        Kind::Less => Move::Goes(Next::InMarkup(Markup::Begun(Around::After(root), symbol.at))),
        Kind::Blank(_) => Move::Goes(Next::InContent(Content::Epilog(root))),
        _ => Move::Stops,
    }
}

// The closing brackets that stand together, two for more.
fn bracketed(brackets: u8, kind: Kind) -> u8
    ensures { result ≡ bracketed_of brackets kind }
{
    match kind {
        Kind::Bracket => {
            if brackets == 0 {
                return 1;
            }
            2
        }
        _ => 0,
    }
}

// It is the end of `]]>`.
fn ends_brackets(brackets: u8, kind: Kind) -> bool
    ensures { result ≡ is_greater_of kind && nat_eq brackets 2 }
{
    match kind {
        Kind::Greater => brackets == 2,
        _ => false,
    }
}

// A character of text.
fn in_text(
    alloc: Global,
    brackets: u8,
    innermost: Open,
    outer: Items<Open>,
    symbol: Symbol,
) -> Result<Move, AllocError>
    requires sound { IsSound symbol.kind }
    requires text { is_text_of symbol.kind ≡ true }
    ensures { IfOk result (λ m. stepped true (content_of (C.Inside brackets innermost outer)) symbol.kind symbol.at ≡ step_of m) }
{
    if ends_brackets(brackets, symbol.kind) {
        return Ok(Move::Stops);
    }
    let innermost = grow(alloc, innermost, char_of(symbol.kind))?;
    Ok(Move::Goes(Next::InContent(Content::Inside(
        bracketed(brackets, symbol.kind),
        innermost,
        outer,
    ))))
}

// In an element.
fn inside(
    alloc: Global,
    brackets: u8,
    innermost: Open,
    outer: Items<Open>,
    symbol: Symbol,
) -> Result<Move, AllocError>
    requires { IsSound symbol.kind }
    ensures { IfOk result (λ m. stepped true (content_of (C.Inside brackets innermost outer)) symbol.kind symbol.at ≡ step_of m) }
{
    match symbol.kind {
        Kind::Less => Ok(Move::Goes(Next::InMarkup(Markup::Begun(
            Around::Within(innermost, outer),
            symbol.at,
        )))),
        Kind::And => Ok(Move::Goes(Next::InReference(
            Citing::InText(innermost, outer),
            symbol.at,
            Cited::Nameless,
        ))),
        Kind::Bad => Ok(Move::Stops),
        _ => in_text(alloc, brackets, innermost, outer, symbol),
    }
}

/// One character between markup.
pub fn step(alloc: Global, content: Content, symbol: Symbol) -> Result<Move, AllocError>
    requires { IsSound symbol.kind }
    ensures { IfOk result (λ m. stepped true (content_of content) symbol.kind symbol.at ≡ step_of m) }
{
    match content {
        Content::Beginning => Ok(beginning(symbol)),
        Content::InProlog => Ok(in_prolog(symbol)),
        Content::Inside(brackets, innermost, outer) => {
            inside(alloc, brackets, innermost, outer, symbol)
        }
        Content::Epilog(root) => Ok(epilog(root, symbol)),
    }
}
