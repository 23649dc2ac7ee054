// Names, and what follows them.
ghost use Rattle.std.specs.Prelude.{◌≡◌, [], IfOk, true};
ghost use Rattle.doc_text.specs.Raw.{called, same_name as same_name_of};
ghost use Rattle.doc_text.specs.RawTrees.{open_of, stack_of};
ghost use Rattle.doc_text.specs.Symbols.{IsSound};
ghost use Rattle.doc_text.specs.Nexts.{bearer_of, naming_of, step_of};
ghost use Rattle.doc_text.specs.Steps.{named as named_of, matched as matched_of, end_goes as end_goes_of};
ghost use Rattle.doc_text.specs.Steps.{step as stepped};
ghost use Rattle.doc_text.specs.declared.reading.next.Naming.TheVariants as N;

use crate::pairs::Pairs;
use crate::reading::kinds::{is_colon, is_name, push, text_of};
use crate::reading::next::{Bearer, Move, Naming, Next};
use crate::reading::open::Open;
use crate::reading::tags::{attribute_goes, end_goes, tag_goes};
use crate::refusal::Fault;
use crate::state::{Name, Start};
use crate::symbol::{Kind, Symbol};
use atl_base::place::Place;
use atl_base::text::Text;
use sqlite_items::{Boxed, Items};
use std::alloc::{AllocError, Global};

/// Names that are written alike.
pub fn same_name(one: &Name, other: &Name) -> bool
    ensures { result ≡ same_name_of one.now other.now }
{
    one.prefix == other.prefix && one.local == other.local
}

// An end tag's name is over.
fn matched(innermost: Open, outer: Items<Open>, name: Name, kind: Kind) -> Result<Move, AllocError>
    ensures { IfOk result (λ m. matched_of true (open_of innermost) name (end_goes_of (open_of innermost) (stack_of outer) kind) ≡ step_of m) }
{
    if same_name(&name, &innermost.tag.get().name) {
        return end_goes(innermost, outer, kind);
    }
    Ok(Move::Breaks(Fault::MismatchedEnd, name.at))
}

// A name is over.
fn named(alloc: Global, bearer: Bearer, name: Name, kind: Kind) -> Result<Move, AllocError>
    ensures { IfOk result (λ m. named_of true (bearer_of bearer) name kind ≡ step_of m) }
{
    match bearer {
        Bearer::OfStart(outer, less) => {
            let tag = Start {
                at: less,
                name,
                pairs: Pairs::new(alloc),
            };
            tag_goes(alloc, outer, Boxed::new(alloc, tag)?, kind)
        }
        Bearer::OfAttribute(outer, tag) => Ok(attribute_goes(outer, tag, name, kind)),
        Bearer::OfEnd(innermost, outer) => matched(innermost, outer, name, kind),
    }
}

// In a name before a colon.
fn plain(
    alloc: Global,
    bearer: Bearer,
    at: Place,
    name: Text,
    symbol: Symbol,
) -> Result<Move, AllocError>
    requires { IsSound symbol.kind }
    ensures { IfOk result (λ m. stepped true (naming_of (N.Plain bearer at name)) symbol.kind symbol.at ≡ step_of m) }
{
    if is_colon(symbol.kind) {
        return Ok(Move::Goes(Next::InName(Naming::Coloned(bearer, at, name))));
    }
    if is_name(symbol.kind) {
        let longer = push(name, symbol.kind)?;
        return Ok(Move::Goes(Next::InName(Naming::Plain(bearer, at, longer))));
    }
    let name = Name {
        at,
        prefix: Text::new(alloc),
        local: name,
    };
    named(alloc, bearer, name, symbol.kind)
}

// After the colon.
fn coloned(
    alloc: Global,
    bearer: Bearer,
    at: Place,
    prefix: Text,
    symbol: Symbol,
) -> Result<Move, AllocError>
    requires { IsSound symbol.kind }
    ensures { IfOk result (λ m. stepped true (naming_of (N.Coloned bearer at prefix)) symbol.kind symbol.at ≡ step_of m) }
{
    match symbol.kind {
        Kind::Letter(_) => {
            let local = text_of(alloc, symbol.kind)?;
            Ok(Move::Goes(Next::InName(Naming::Local(bearer, at, prefix, local))))
        }
        _ => Ok(Move::Stops),
    }
}

// In a name behind its prefix.
fn local(
    alloc: Global,
    bearer: Bearer,
    at: Place,
    prefix: Text,
    name: Text,
    symbol: Symbol,
) -> Result<Move, AllocError>
    requires { IsSound symbol.kind }
    ensures { IfOk result (λ m. stepped true (naming_of (N.Local bearer at prefix name)) symbol.kind symbol.at ≡ step_of m) }
{
    if is_name(symbol.kind) {
        let longer = push(name, symbol.kind)?;
        return Ok(Move::Goes(Next::InName(Naming::Local(bearer, at, prefix, longer))));
    }
    let name = Name {
        at,
        prefix,
        local: name,
    };
    named(alloc, bearer, name, symbol.kind)
}

/// One character in a name.
pub fn step(alloc: Global, naming: Naming, symbol: Symbol) -> Result<Move, AllocError>
    requires { IsSound symbol.kind }
    ensures { IfOk result (λ m. stepped true (naming_of naming) symbol.kind symbol.at ≡ step_of m) }
{
    match naming {
        Naming::Plain(bearer, at, name) => plain(alloc, bearer, at, name, symbol),
        Naming::Coloned(bearer, at, prefix) => coloned(alloc, bearer, at, prefix, symbol),
        Naming::Local(bearer, at, prefix, name) => local(alloc, bearer, at, prefix, name, symbol),
    }
}
