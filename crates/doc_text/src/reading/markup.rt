// Markup before its name, comments and instructions.
ghost use Rattle.std.specs.Prelude.{◌≡◌, ◌++◌, ◌∷◌, [], IfOk, true};
ghost use Rattle.doc_text.specs.Symbols.{IsSound, is_good};
ghost use Rattle.doc_text.specs.Markup.{is_xml as is_xml_of, is_reserved as is_reserved_of};
ghost use Rattle.doc_text.specs.RawTrees.{stack_of};
ghost use Rattle.doc_text.specs.Nexts.{around_of, markup_of, state_of, step_of};
ghost use Rattle.doc_text.specs.Steps.{back as back_of, begins_in as begins_in_of, element_begins as element_begins_of, end_begins as end_begins_of, target_goes as target_goes_of, targeted as targeted_of, telling as telling_of};
ghost use Rattle.doc_text.specs.Steps.{step as stepped, titled as titled_of};
ghost use Rattle.doc_text.specs.declared.reading.next.Markup.TheVariants as M;

use crate::reading::kinds::{is_name, push, text_of};
use crate::reading::next::{Around, Bearer, Content, Declaration, Markup, Move, Naming, Next, Tag};
use crate::reading::open::Open;
use crate::refusal::Fault;
use crate::state::Stage;
use crate::symbol::{Kind, Symbol};
use atl_base::place::Place;
use atl_base::text::Text;
use sqlite_items::Items;
use std::alloc::{AllocError, Global};

/// Where markup ends.
pub fn back(around: Around) -> Next
    ensures { state_of result ≡ back_of (around_of around) }
{
    match around {
        Around::First => Next::InContent(Content::InProlog),
        Around::Before => Next::InContent(Content::InProlog),
        Around::Within(innermost, outer) => Next::InContent(Content::Inside(0, innermost, outer)),
        Around::After(root) => Next::InContent(Content::Epilog(root)),
    }
}

fn end_begins(around: Around) -> Move
    ensures { end_begins_of (around_of around) ≡ step_of result }
{
    match around {
        Around::First => Move::Stops,
        Around::Before => Move::Stops,
        Around::Within(innermost, outer) => Move::Goes(Next::InTag(Tag::Ending(innermost, outer))),
        Around::After(_root) => Move::Stops,
    }
}

// A start tag's name begins in these open elements.
fn begins_in(
    alloc: Global,
    outer: Items<Open>,
    less: Place,
    symbol: Symbol,
) -> Result<Move, AllocError>
    requires sound { IsSound symbol.kind }
    requires good { is_good symbol.kind ≡ true }
    ensures { IfOk result (λ m. begins_in_of true (stack_of outer) less symbol.kind symbol.at ≡ step_of m) }
{
    if outer.len() >= 200 {
        return Ok(Move::Breaks(Fault::TooDeep, less));
    }
    let name = text_of(alloc, symbol.kind)?;
    Ok(Move::Goes(Next::InName(Naming::Plain(Bearer::OfStart(outer, less), symbol.at, name))))
}

// One element more is open.
fn with(outer: Items<Open>, innermost: Open) -> Result<Items<Open>, AllocError>
    ensures { IfOk result (λ fs. fs ≡ outer ++ (innermost ∷ [])) }
{
    let mut all = outer;
    all.push(innermost)?;
    Ok(all)
}

fn element_begins(
    alloc: Global,
    around: Around,
    less: Place,
    symbol: Symbol,
) -> Result<Move, AllocError>
    requires sound { IsSound symbol.kind }
    requires good { is_good symbol.kind ≡ true }
    ensures { IfOk result (λ m. element_begins_of true (around_of around) less symbol.kind symbol.at ≡ step_of m) }
{
    match around {
        Around::First => begins_in(alloc, Items::new(alloc), less, symbol),
        Around::Before => begins_in(alloc, Items::new(alloc), less, symbol),
        Around::Within(innermost, outer) => begins_in(alloc, with(outer, innermost)?, less, symbol),
        Around::After(_root) => Ok(Move::Stops),
    }
}

// After `<`.
fn begun(alloc: Global, around: Around, less: Place, symbol: Symbol) -> Result<Move, AllocError>
    requires { IsSound symbol.kind }
    ensures { IfOk result (λ m. stepped true (markup_of (M.Begun around less)) symbol.kind symbol.at ≡ step_of m) }
{
    match symbol.kind {
        Kind::Bang => Ok(Move::Goes(Next::InMarkup(Markup::Banged(around, less)))),
        Kind::Question => Ok(Move::Goes(Next::InMarkup(Markup::Asked(around)))),
        Kind::Slash => Ok(end_begins(around)),
        Kind::Letter(_) => element_begins(alloc, around, less, symbol),
        _ => Ok(Move::Stops),
    }
}

// After `<!`.
fn banged(around: Around, less: Place, symbol: Symbol) -> Move
    ensures { stepped true (markup_of (M.Banged around less)) symbol.kind symbol.at ≡ step_of result }
{
    match symbol.kind {
        Kind::Dash => Move::Goes(Next::InMarkup(Markup::BangDash(around, less))),
        _ => Move::Stops,
    }
}

// After `<!-`.
fn bang_dash(around: Around, less: Place, symbol: Symbol) -> Move
    ensures { stepped true (markup_of (M.BangDash around less)) symbol.kind symbol.at ≡ step_of result }
{
    match symbol.kind {
        Kind::Dash => Move::Goes(Next::InMarkup(Markup::Remarking(around))),
        _ => Move::Stops,
    }
}

// In a comment.
fn remarking(around: Around, symbol: Symbol) -> Move
    ensures { stepped true (markup_of (M.Remarking around)) symbol.kind symbol.at ≡ step_of result }
{
    match symbol.kind {
        Kind::Dash => Move::Goes(Next::InMarkup(Markup::RemarkDash(around))),
        Kind::Bad => Move::Stops,
        _ => Move::Goes(Next::InMarkup(Markup::Remarking(around))),
    }
}

// After `-` in a comment.
fn remark_dash(around: Around, symbol: Symbol) -> Move
    ensures { stepped true (markup_of (M.RemarkDash around)) symbol.kind symbol.at ≡ step_of result }
{
    match symbol.kind {
        Kind::Dash => Move::Goes(Next::InMarkup(Markup::RemarkEnd(around))),
        Kind::Bad => Move::Stops,
        _ => Move::Goes(Next::InMarkup(Markup::Remarking(around))),
    }
}

// After `--` in a comment.
fn remark_end(around: Around, symbol: Symbol) -> Move
    ensures { stepped true (markup_of (M.RemarkEnd around)) symbol.kind symbol.at ≡ step_of result }
{
    match symbol.kind {
        Kind::Greater => Move::Goes(back(around)),
        _ => Move::Stops,
    }
}

// After `<?`.
fn asked(alloc: Global, around: Around, symbol: Symbol) -> Result<Move, AllocError>
    requires { IsSound symbol.kind }
    ensures { IfOk result (λ m. stepped true (markup_of (M.Asked around)) symbol.kind symbol.at ≡ step_of m) }
{
    match symbol.kind {
        Kind::Letter(_) => {
            let target = text_of(alloc, symbol.kind)?;
            Ok(Move::Goes(Next::InMarkup(Markup::Targeting(around, target))))
        }
        _ => Ok(Move::Stops),
    }
}

fn is_xml(target: &Text) -> bool
    ensures { result ≡ is_xml_of target.now }
{
    matches!(target.bytes(), [b'x', b'm', b'l'])
}

// `xml`, in any case.
fn is_reserved(target: &Text) -> bool
    ensures { result ≡ is_reserved_of target.now }
{
    matches!(target.bytes(), [b'x' | b'X', b'm' | b'M', b'l' | b'L'])
}

// After a target.
fn target_goes(around: Around, kind: Kind) -> Move
    ensures { target_goes_of (around_of around) kind ≡ step_of result }
{
    match kind {
        Kind::Blank(_) => Move::Goes(Next::InMarkup(Markup::Telling(false, around))),
        Kind::Question => Move::Goes(Next::InMarkup(Markup::TargetEnd(around))),
        _ => Move::Stops,
    }
}

// After `<?xml` at the text's start.
fn titled(kind: Kind) -> Move
    ensures { titled_of kind ≡ step_of result }
{
    match kind {
        Kind::Blank(_) => Move::Goes(Next::InDeclaration(Declaration::Declaring(Stage::Untold))),
        _ => Move::Stops,
    }
}

// A target is over.
fn targeted(around: Around, target: &Text, kind: Kind) -> Move
    ensures { targeted_of (around_of around) target.now kind ≡ step_of result }
{
    if !is_reserved(target) {
        return target_goes(around, kind);
    }
    if !is_xml(target) {
        return Move::Stops;
    }
    match around {
        Around::First => titled(kind),
        Around::Before => Move::Stops,
        Around::Within(_innermost, _outer) => Move::Stops,
        Around::After(_root) => Move::Stops,
    }
}

// In a target.
fn targeting(around: Around, target: Text, symbol: Symbol) -> Result<Move, AllocError>
    requires { IsSound symbol.kind }
    ensures { IfOk result (λ m. stepped true (markup_of (M.Targeting around target)) symbol.kind symbol.at ≡ step_of m) }
{
    if !is_name(symbol.kind) {
        return Ok(targeted(around, &target, symbol.kind));
    }
    let longer = push(target, symbol.kind)?;
    Ok(Move::Goes(Next::InMarkup(Markup::Targeting(around, longer))))
}

// After `?` behind a target.
fn target_end(around: Around, symbol: Symbol) -> Move
    ensures { stepped true (markup_of (M.TargetEnd around)) symbol.kind symbol.at ≡ step_of result }
{
    match symbol.kind {
        Kind::Greater => Move::Goes(back(around)),
        _ => Move::Stops,
    }
}

// In an instruction.
fn telling(asked: bool, around: Around, kind: Kind) -> Move
    ensures { telling_of (around_of around) asked kind ≡ step_of result }
{
    match kind {
        Kind::Bad => Move::Stops,
        Kind::Question => Move::Goes(Next::InMarkup(Markup::Telling(true, around))),
        Kind::Greater => {
            if asked {
                return Move::Goes(back(around));
            }
            Move::Goes(Next::InMarkup(Markup::Telling(false, around)))
        }
        _ => Move::Goes(Next::InMarkup(Markup::Telling(false, around))),
    }
}

/// One character in markup.
pub fn step(alloc: Global, markup: Markup, symbol: Symbol) -> Result<Move, AllocError>
    requires { IsSound symbol.kind }
    ensures { IfOk result (λ m. stepped true (markup_of markup) symbol.kind symbol.at ≡ step_of m) }
{
    match markup {
        Markup::Begun(around, less) => begun(alloc, around, less, symbol),
        Markup::Banged(around, less) => Ok(banged(around, less, symbol)),
        Markup::BangDash(around, less) => Ok(bang_dash(around, less, symbol)),
        Markup::Remarking(around) => Ok(remarking(around, symbol)),
        Markup::RemarkDash(around) => Ok(remark_dash(around, symbol)),
        Markup::RemarkEnd(around) => Ok(remark_end(around, symbol)),
        Markup::Asked(around) => asked(alloc, around, symbol),
        Markup::Targeting(around, target) => targeting(around, target, symbol),
        Markup::TargetEnd(around) => Ok(target_end(around, symbol)),
        Markup::Telling(asked, around) => Ok(telling(asked, around, symbol.kind)),
    }
}
