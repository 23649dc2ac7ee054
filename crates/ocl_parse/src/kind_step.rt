// The reader's step within a type.
ghost use Rattle.std.specs.Prelude.{◌≡◌, List, true, IfOk};
ghost use Rattle.ocl_parse.specs.Machine.{step_of, kind_closed as kind_closed_of, kind_given as kind_given_of, kind_sign as kind_sign_of, a_kind as a_kind_of, have_kind as have_kind_of, step as stepped};
ghost use Rattle.ocl_parse.specs.declared.frame.Frame.{Frame as SomeFrame};
ghost use Rattle.ocl_parse.specs.declared.frame.Next.TheVariants as N;

use crate::frame::{Frame, Move, Next};
use crate::sign::{Ender, Sign};
use crate::stack::Stack;
use crate::symbol::Symbol;
use atl_base::place::Place;
use atl_tree::expr::BinaryOp;
use atl_tree::kind::{CollWord, KindNode, KindSort};
use atl_tree::name::{ClassRef, Name};
use sqlite_items::Boxed;
use std::alloc::{AllocError, Global};

fn kind_sign(sign: Sign, place: Place) -> Move
    ensures { (stack : List SomeFrame) → kind_sign_of stack sign place ≡ step_of stack result }
{
    match sign {
        Sign::Basic(word) => Move::Goes(Next::HaveKind(KindNode {
            what: KindSort::Basic(word),
            place,
        })),
        Sign::Coll(word) => Move::Goes(Next::KindOpen(word, place)),
        _ => Move::Refuses,
    }
}

/// A type begins.
pub(crate) fn a_kind(symbol: Symbol, place: Place) -> Move
    ensures { (stack : List SomeFrame) → a_kind_of stack symbol place ≡ step_of stack result }
{
    match symbol {
        Symbol::Name(text) => Move::Goes(Next::KindBang(Name { text, place })),
        Symbol::Fixed(sign) => kind_sign(sign, place),
        _ => Move::Refuses,
    }
}

/// The `(` of a collection's type.
pub(crate) fn kind_open(
    stack: &mut Stack,
    word: CollWord,
    at: Place,
    symbol: Symbol,
    place: Place,
) -> Result<Move, AllocError>
    ensures { IfOk result (λ m. stepped true stack.old (N.KindOpen word at) symbol place ≡ step_of stack.new m) }
{
    match symbol {
        Symbol::Fixed(Sign::Open) => {
            stack.push(Frame::CollKind(word, at))?;
            Ok(Move::Goes(Next::Kind))
        }
        _ => Ok(Move::Refuses),
    }
}

/// The `!` of a class.
pub(crate) fn kind_bang(meta: Name, symbol: Symbol, place: Place) -> Move
    ensures { (stack : List SomeFrame) → stepped true stack (N.KindBang meta) symbol place ≡ step_of stack result }
{
    match symbol {
        Symbol::Fixed(Sign::Bang) => Move::Goes(Next::KindClass(meta)),
        _ => Move::Refuses,
    }
}

/// The name of a class.
pub(crate) fn kind_class(meta: Name, symbol: Symbol, place: Place) -> Move
    ensures { (stack : List SomeFrame) → stepped true stack (N.KindClass meta) symbol place ≡ step_of stack result }
{
    match symbol {
        Symbol::Name(class) => Move::Goes(Next::HaveKind(KindNode {
            place: meta.place,
            what: KindSort::Class(ClassRef {
                meta: meta.text,
                class,
                place: meta.place,
            }),
        })),
        _ => Move::Refuses,
    }
}

// `)`
fn kind_closed(alloc: Global, stack: &mut Stack, kind: KindNode) -> Result<Move, AllocError>
    ensures { IfOk result (λ m. kind_closed_of stack.old kind ≡ step_of stack.new m) }
{
    match stack.pop() {
        Some(Frame::CollKind(word, place)) => Ok(Move::Goes(Next::HaveKind(KindNode {
            what: KindSort::Coll(word, Boxed::new(alloc, kind)?),
            place,
        }))),
        Some(frame) => {
            stack.push(frame)?;
            Ok(Move::Refuses)
        }
        None => Ok(Move::Refuses),
    }
}

// `=`
fn kind_given(stack: &mut Stack, kind: KindNode) -> Result<Move, AllocError>
    ensures { IfOk result (λ m. kind_given_of stack.old kind ≡ step_of stack.new m) }
{
    match stack.pop() {
        Some(Frame::LetKind(place, name)) => {
            stack.push(Frame::Value(place, name, kind))?;
            Ok(Move::Goes(Next::Operand))
        }
        Some(Frame::OutcomeKind(callee, variable, outcome)) => {
            stack.push(Frame::Start(callee, variable, outcome, kind))?;
            Ok(Move::Goes(Next::Operand))
        }
        Some(frame) => {
            stack.push(frame)?;
            Ok(Move::Refuses)
        }
        None => Ok(Move::Refuses),
    }
}

/// A symbol behind a type.
pub(crate) fn have_kind(
    alloc: Global,
    stack: &mut Stack,
    kind: KindNode,
    symbol: Symbol,
) -> Result<Move, AllocError>
    ensures { IfOk result (λ m. have_kind_of stack.old kind symbol ≡ step_of stack.new m) }
{
    match symbol {
        Symbol::Fixed(Sign::End(Ender::Close)) => kind_closed(alloc, stack, kind),
        Symbol::Fixed(Sign::Operator(BinaryOp::Eq)) => kind_given(stack, kind),
        _ => Ok(Move::Refuses),
    }
}
