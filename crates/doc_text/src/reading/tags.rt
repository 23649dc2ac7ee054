// Tags, beside their names.
ghost use Rattle.std.specs.Prelude.{◌≡◌, [], IfOk, true, false};
ghost use Rattle.doc_text.specs.Raw.{Also, Node, Nil};
ghost use Rattle.doc_text.specs.RawTrees.{open_of, stack_of, trees_of};
ghost use Rattle.doc_text.specs.Symbols.{IsSound, is_quote as is_quote_of, is_value as is_value_of};
ghost use Rattle.doc_text.specs.State.{Goes, Inside, Valuing as InValuing, opened};
ghost use Rattle.doc_text.specs.Nexts.{root_of, state_of, step_of, tag_of};
ghost use Rattle.doc_text.specs.Steps.{attribute_goes as attribute_goes_of, end_goes as end_goes_of, ended as ended_of, further as further_of, judged as judged_of, opening_quote as opening_quote_of, tag_goes as tag_goes_of};
ghost use Rattle.doc_text.specs.Steps.{step as stepped};
ghost use Rattle.doc_text.specs.declared.reading.next.Tag.TheVariants as T;

use crate::reading::kinds::{is_and, is_quote, is_value, push_value, text_of};
use crate::reading::next::{Bearer, Citing, Content, Move, Naming, Next, Tag, Valuing};
use crate::reading::open::Open;
use crate::reading::raw::{RawTree, RawTrees};
use crate::reading::tag_fault::tag_fault;
use crate::state::{Cited, Name, Pair, Start};
use crate::symbol::{Kind, Symbol};
use atl_base::text::Text;
use sqlite_items::{Boxed, Items};
use std::alloc::{AllocError, Global};

// An element ends in another one.
fn ended_in(parent: Open, outer: Items<Open>, closed: Open) -> Result<Next, AllocError>
    ensures { IfOk result (λ n. Inside 0 (opened parent.tag (Also (trees_of parent.children) (root_of closed))) (stack_of outer) ≡ state_of n) }
{
    let Open { tag, children } = closed;
    let mut parent = parent;
    parent
        .children
        .push(RawTree::Node(tag, children.into_items()))?;
    Ok(Next::InContent(Content::Inside(0, parent, outer)))
}

/// An element ends.
pub fn ended(outer: Items<Open>, closed: Open) -> Result<Next, AllocError>
    ensures { IfOk result (λ n. ended_of (stack_of outer) (root_of closed) ≡ state_of n) }
{
    let mut outer = outer;
    match outer.pop() {
        None => Ok(Next::InContent(Content::Epilog(closed))),
        Some(parent) => ended_in(parent, outer, closed),
    }
}

// `>` of a start tag.
fn opens(alloc: Global, outer: Items<Open>, tag: Boxed<Start>) -> Result<Move, AllocError>
    ensures { IfOk result (λ m. judged_of true (stack_of outer) tag (Goes (Inside 0 (opened tag Nil) (stack_of outer))) ≡ step_of m) }
{
    if let Some((fault, at)) = tag_fault(alloc, outer.as_slice(), tag.get())? {
        return Ok(Move::Breaks(fault, at));
    }
    let innermost = Open {
        tag,
        children: RawTrees::new(alloc),
    };
    Ok(Move::Goes(Next::InContent(Content::Inside(0, innermost, outer))))
}

// `/>`
fn opens_and_ends(alloc: Global, outer: Items<Open>, tag: Boxed<Start>) -> Result<Move, AllocError>
    ensures { IfOk result (λ m. judged_of true (stack_of outer) tag (Goes (ended_of (stack_of outer) (Node tag Nil))) ≡ step_of m) }
{
    if let Some((fault, at)) = tag_fault(alloc, outer.as_slice(), tag.get())? {
        return Ok(Move::Breaks(fault, at));
    }
    let closed = Open {
        tag,
        children: RawTrees::new(alloc),
    };
    Ok(Move::Goes(ended(outer, closed)?))
}

/// After a name or a value in a start tag.
pub fn tag_goes(
    alloc: Global,
    outer: Items<Open>,
    tag: Boxed<Start>,
    kind: Kind,
) -> Result<Move, AllocError>
    ensures { IfOk result (λ m. tag_goes_of true (stack_of outer) tag kind ≡ step_of m) }
{
    match kind {
        Kind::Blank(_) => Ok(Move::Goes(Next::InTag(Tag::Spaced(outer, tag)))),
        Kind::Slash => Ok(Move::Goes(Next::InTag(Tag::Shutting(outer, tag)))),
        Kind::Greater => opens(alloc, outer, tag),
        _ => Ok(Move::Stops),
    }
}

/// After an attribute's name.
pub fn attribute_goes(outer: Items<Open>, tag: Boxed<Start>, name: Name, kind: Kind) -> Move
    ensures { attribute_goes_of (stack_of outer) tag name kind ≡ step_of result }
{
    match kind {
        Kind::Blank(_) => Move::Goes(Next::InTag(Tag::Equalling(outer, tag, name))),
        Kind::Equals => Move::Goes(Next::InTag(Tag::Opening(outer, tag, name))),
        _ => Move::Stops,
    }
}

/// After an end tag's name.
pub fn end_goes(innermost: Open, outer: Items<Open>, kind: Kind) -> Result<Move, AllocError>
    ensures { IfOk result (λ m. end_goes_of (open_of innermost) (stack_of outer) kind ≡ step_of m) }
{
    match kind {
        Kind::Blank(_) => Ok(Move::Goes(Next::InTag(Tag::Closing(innermost, outer)))),
        Kind::Greater => Ok(Move::Goes(ended(outer, innermost)?)),
        _ => Ok(Move::Stops),
    }
}

// Blanks in a start tag.
fn spaced(
    alloc: Global,
    outer: Items<Open>,
    tag: Boxed<Start>,
    symbol: Symbol,
) -> Result<Move, AllocError>
    requires { IsSound symbol.kind }
    ensures { IfOk result (λ m. stepped true (tag_of (T.Spaced outer tag)) symbol.kind symbol.at ≡ step_of m) }
{
    match symbol.kind {
        Kind::Letter(_) => {
            let name = text_of(alloc, symbol.kind)?;
            Ok(Move::Goes(Next::InName(Naming::Plain(
                Bearer::OfAttribute(outer, tag),
                symbol.at,
                name,
            ))))
        }
        _ => tag_goes(alloc, outer, tag, symbol.kind),
    }
}

// After `/` in a start tag.
fn shutting(
    alloc: Global,
    outer: Items<Open>,
    tag: Boxed<Start>,
    symbol: Symbol,
) -> Result<Move, AllocError>
    ensures { IfOk result (λ m. stepped true (tag_of (T.Shutting outer tag)) symbol.kind symbol.at ≡ step_of m) }
{
    match symbol.kind {
        Kind::Greater => opens_and_ends(alloc, outer, tag),
        _ => Ok(Move::Stops),
    }
}

// A value in these quotes begins.
fn value_begins(
    alloc: Global,
    double: bool,
    outer: Items<Open>,
    tag: Boxed<Start>,
    name: Name,
) -> Move
    ensures { Goes (InValuing double (stack_of outer) tag name []) ≡ step_of result }
{
    Move::Goes(Next::InTag(Tag::Valuing(Valuing {
        double,
        outer,
        tag,
        name,
        value: Text::new(alloc),
    })))
}

// After `=`.
fn opening(alloc: Global, outer: Items<Open>, tag: Boxed<Start>, name: Name, kind: Kind) -> Move
    ensures { opening_quote_of (stack_of outer) tag name kind ≡ step_of result }
{
    match kind {
        Kind::Quote => value_begins(alloc, true, outer, tag, name),
        Kind::Apostrophe => value_begins(alloc, false, outer, tag, name),
        Kind::Blank(_) => Move::Goes(Next::InTag(Tag::Opening(outer, tag, name))),
        _ => Move::Stops,
    }
}

// A start tag with an attribute more.
fn further(
    alloc: Global,
    tag: Boxed<Start>,
    name: Name,
    value: Text,
) -> Result<Boxed<Start>, AllocError>
    ensures { IfOk result (λ t. t ≡ further_of tag name value) }
{
    let mut tag = tag.into_inner();
    tag.pairs.push(Pair { name, value })?;
    Boxed::new(alloc, tag)
}

// A value's closing quote.
fn value_ends(alloc: Global, valuing: Valuing, symbol: Symbol) -> Result<Move, AllocError>
    requires { is_quote_of valuing.double symbol.kind ≡ true }
    ensures { IfOk result (λ m. stepped true (tag_of (T.Valuing valuing)) symbol.kind symbol.at ≡ step_of m) }
{
    let Valuing {
        double: _,
        outer,
        tag,
        name,
        value,
    } = valuing;
    let longer = further(alloc, tag, name, value)?;
    Ok(Move::Goes(Next::InTag(Tag::Valued(outer, longer))))
}

// A character of a value.
fn value_goes(valuing: Valuing, symbol: Symbol) -> Result<Move, AllocError>
    requires sound { IsSound symbol.kind }
    requires value { is_value_of valuing.double symbol.kind ≡ true }
    ensures { IfOk result (λ m. stepped true (tag_of (T.Valuing valuing)) symbol.kind symbol.at ≡ step_of m) }
{
    let Valuing {
        double,
        outer,
        tag,
        name,
        value,
    } = valuing;
    let longer = push_value(value, symbol.kind)?;
    Ok(Move::Goes(Next::InTag(Tag::Valuing(Valuing {
        double,
        outer,
        tag,
        name,
        value: longer,
    }))))
}

// What neither belongs to a value nor ends it.
fn value_breaks_off(valuing: Valuing, symbol: Symbol) -> Move
    requires value { is_value_of valuing.double symbol.kind ≡ false }
    requires quote { is_quote_of valuing.double symbol.kind ≡ false }
    ensures { stepped true (tag_of (T.Valuing valuing)) symbol.kind symbol.at ≡ step_of result }
{
    if is_and(symbol.kind) {
        return Move::Goes(Next::InReference(Citing::InValue(valuing), symbol.at, Cited::Nameless));
    }
    Move::Stops
}

// In a value.
fn in_value(alloc: Global, valuing: Valuing, symbol: Symbol) -> Result<Move, AllocError>
    requires { IsSound symbol.kind }
    ensures { IfOk result (λ m. stepped true (tag_of (T.Valuing valuing)) symbol.kind symbol.at ≡ step_of m) }
{
    if is_value(valuing.double, symbol.kind) {
        return value_goes(valuing, symbol);
    }
    if is_quote(valuing.double, symbol.kind) {
        return value_ends(alloc, valuing, symbol);
    }
    Ok(value_breaks_off(valuing, symbol))
}

// After `</`.
fn ending(
    alloc: Global,
    innermost: Open,
    outer: Items<Open>,
    symbol: Symbol,
) -> Result<Move, AllocError>
    requires { IsSound symbol.kind }
    ensures { IfOk result (λ m. stepped true (tag_of (T.Ending innermost outer)) symbol.kind symbol.at ≡ step_of m) }
{
    match symbol.kind {
        Kind::Letter(_) => {
            let name = text_of(alloc, symbol.kind)?;
            Ok(Move::Goes(Next::InName(Naming::Plain(
                Bearer::OfEnd(innermost, outer),
                symbol.at,
                name,
            ))))
        }
        _ => Ok(Move::Stops),
    }
}

/// One character in a tag, beside names.
pub fn step(alloc: Global, tag: Tag, symbol: Symbol) -> Result<Move, AllocError>
    requires { IsSound symbol.kind }
    ensures { IfOk result (λ m. stepped true (tag_of tag) symbol.kind symbol.at ≡ step_of m) }
{
    match tag {
        Tag::Spaced(outer, tag) => spaced(alloc, outer, tag, symbol),
        Tag::Valued(outer, tag) => tag_goes(alloc, outer, tag, symbol.kind),
        Tag::Shutting(outer, tag) => shutting(alloc, outer, tag, symbol),
        Tag::Equalling(outer, tag, name) => Ok(attribute_goes(outer, tag, name, symbol.kind)),
        Tag::Opening(outer, tag, name) => Ok(opening(alloc, outer, tag, name, symbol.kind)),
        Tag::Valuing(value) => in_value(alloc, value, symbol),
        Tag::Ending(innermost, outer) => ending(alloc, innermost, outer, symbol),
        Tag::Closing(innermost, outer) => end_goes(innermost, outer, symbol.kind),
    }
}
