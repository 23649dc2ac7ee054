// The symbols that end an operand, for what is open round it.
ghost use Rattle.std.specs.Prelude.{◌≡◌, IfOk};
ghost use Rattle.ocl_parse.specs.Trees.{call as call_of, iterator as iterator_of, iterate as iterate_of};
ghost use Rattle.ocl_parse.specs.Machine.{step_of, at as at_of, at_close, at_close_brace, at_comma, at_bar, at_then, at_else, at_endif, at_in};

use crate::frame::{Callee, Frame, Move, Next};
use crate::sign::Ender;
use crate::stack::Stack;
use atl_tree::expr::{Expr, ExprKind};
use atl_tree::kind::KindNode;
use atl_tree::name::Name;
use sqlite_items::{Boxed, Items};
use std::alloc::{AllocError, Global};

/// The call of these arguments.
pub(crate) fn call(callee: Callee, arguments: Items<Expr>) -> Expr
    ensures { result ≡ call_of callee arguments }
{
    let Callee {
        source,
        arrow,
        name,
    } = callee;
    let Name { text, place } = name;
    Expr {
        what: ExprKind::Call(source, arrow, text, arguments),
        place,
    }
}

fn iterator(callee: Callee, variable: Name, body: Boxed<Expr>) -> Expr
    ensures { result ≡ iterator_of callee variable body }
{
    let Callee {
        source,
        arrow: _,
        name,
    } = callee;
    let Name { text, place } = name;
    Expr {
        what: ExprKind::Loop(source, text, variable, body),
        place,
    }
}

fn iterate(
    callee: Callee,
    variable: Name,
    outcome: Name,
    kind: KindNode,
    start: Boxed<Expr>,
    body: Boxed<Expr>,
) -> Expr
    ensures { result ≡ iterate_of callee variable outcome kind start body }
{
    let Callee {
        source,
        arrow: _,
        name,
    } = callee;
    let Name { text, place } = name;
    drop(text);
    Expr {
        what: ExprKind::Iterate(source, variable, outcome, kind, start, body),
        place,
    }
}

// `)`
fn close(alloc: Global, stack: &mut Stack, e: Expr) -> Result<Move, AllocError>
    ensures { IfOk result (λ m. at_close stack.old e ≡ step_of stack.new m) }
{
    match stack.pop() {
        Some(Frame::Round) => Ok(Move::Goes(Next::Have(e))),
        Some(Frame::Arguments(callee, arguments)) => {
            let mut arguments = arguments;
            arguments.push(e)?;
            Ok(Move::Goes(Next::Have(call(callee, arguments))))
        }
        Some(Frame::Body(callee, variable)) => {
            let e = Boxed::new(alloc, e)?;
            Ok(Move::Goes(Next::Have(iterator(callee, variable, e))))
        }
        Some(Frame::Fold(callee, variable, outcome, kind, start)) => {
            let e = Boxed::new(alloc, e)?;
            Ok(Move::Goes(Next::Have(iterate(callee, variable, outcome, kind, start, e))))
        }
        Some(frame) => {
            stack.push(frame)?;
            Ok(Move::Stops(e))
        }
        None => Ok(Move::Stops(e)),
    }
}

// `}`
fn close_brace(stack: &mut Stack, e: Expr) -> Result<Move, AllocError>
    ensures { IfOk result (λ m. at_close_brace stack.old e ≡ step_of stack.new m) }
{
    match stack.pop() {
        Some(Frame::Elements(word, place, elements)) => {
            let mut elements = elements;
            elements.push(e)?;
            Ok(Move::Goes(Next::Have(Expr {
                what: ExprKind::Coll(word, elements),
                place,
            })))
        }
        Some(frame) => {
            stack.push(frame)?;
            Ok(Move::Stops(e))
        }
        None => Ok(Move::Stops(e)),
    }
}

fn comma(stack: &mut Stack, e: Expr) -> Result<Move, AllocError>
    ensures { IfOk result (λ m. at_comma stack.old e ≡ step_of stack.new m) }
{
    match stack.pop() {
        Some(Frame::Arguments(callee, arguments)) => {
            let mut arguments = arguments;
            arguments.push(e)?;
            stack.push(Frame::Arguments(callee, arguments))?;
            Ok(Move::Goes(Next::Operand))
        }
        Some(Frame::Elements(word, place, elements)) => {
            let mut elements = elements;
            elements.push(e)?;
            stack.push(Frame::Elements(word, place, elements))?;
            Ok(Move::Goes(Next::Operand))
        }
        Some(frame) => {
            stack.push(frame)?;
            Ok(Move::Stops(e))
        }
        None => Ok(Move::Stops(e)),
    }
}

// `|`
fn bar(alloc: Global, stack: &mut Stack, e: Expr) -> Result<Move, AllocError>
    ensures { IfOk result (λ m. at_bar stack.old e ≡ step_of stack.new m) }
{
    match stack.pop() {
        Some(Frame::Start(callee, variable, outcome, kind)) => {
            let e = Boxed::new(alloc, e)?;
            stack.push(Frame::Fold(callee, variable, outcome, kind, e))?;
            Ok(Move::Goes(Next::Operand))
        }
        Some(frame) => {
            stack.push(frame)?;
            Ok(Move::Stops(e))
        }
        None => Ok(Move::Stops(e)),
    }
}

fn then(alloc: Global, stack: &mut Stack, e: Expr) -> Result<Move, AllocError>
    ensures { IfOk result (λ m. at_then stack.old e ≡ step_of stack.new m) }
{
    match stack.pop() {
        Some(Frame::Condition(place)) => {
            let e = Boxed::new(alloc, e)?;
            stack.push(Frame::Then(place, e))?;
            Ok(Move::Goes(Next::Operand))
        }
        Some(frame) => {
            stack.push(frame)?;
            Ok(Move::Stops(e))
        }
        None => Ok(Move::Stops(e)),
    }
}

fn otherwise(alloc: Global, stack: &mut Stack, e: Expr) -> Result<Move, AllocError>
    ensures { IfOk result (λ m. at_else stack.old e ≡ step_of stack.new m) }
{
    match stack.pop() {
        Some(Frame::Then(place, condition)) => {
            let e = Boxed::new(alloc, e)?;
            stack.push(Frame::Else(place, condition, e))?;
            Ok(Move::Goes(Next::Operand))
        }
        Some(frame) => {
            stack.push(frame)?;
            Ok(Move::Stops(e))
        }
        None => Ok(Move::Stops(e)),
    }
}

fn end_if(alloc: Global, stack: &mut Stack, e: Expr) -> Result<Move, AllocError>
    ensures { IfOk result (λ m. at_endif stack.old e ≡ step_of stack.new m) }
{
    match stack.pop() {
        Some(Frame::Else(place, condition, left)) => Ok(Move::Goes(Next::Have(Expr {
            what: ExprKind::If(condition, left, Boxed::new(alloc, e)?),
            place,
        }))),
        Some(frame) => {
            stack.push(frame)?;
            Ok(Move::Stops(e))
        }
        None => Ok(Move::Stops(e)),
    }
}

fn inside(alloc: Global, stack: &mut Stack, e: Expr) -> Result<Move, AllocError>
    ensures { IfOk result (λ m. at_in stack.old e ≡ step_of stack.new m) }
{
    match stack.pop() {
        Some(Frame::Value(place, name, kind)) => {
            let e = Boxed::new(alloc, e)?;
            stack.push(Frame::Within(place, name, kind, e))?;
            Ok(Move::Goes(Next::Operand))
        }
        Some(frame) => {
            stack.push(frame)?;
            Ok(Move::Stops(e))
        }
        None => Ok(Move::Stops(e)),
    }
}

/// The symbol ends the operand, in the construct that is open round it.
pub(crate) fn at(
    alloc: Global,
    stack: &mut Stack,
    ender: Ender,
    e: Expr,
) -> Result<Move, AllocError>
    ensures { IfOk result (λ m. at_of ender stack.old e ≡ step_of stack.new m) }
{
    match ender {
        Ender::Close => close(alloc, stack, e),
        Ender::CloseBrace => close_brace(stack, e),
        Ender::Comma => comma(stack, e),
        Ender::Bar => bar(alloc, stack, e),
        Ender::Then => then(alloc, stack, e),
        Ender::Else => otherwise(alloc, stack, e),
        Ender::Endif => end_if(alloc, stack, e),
        Ender::In => inside(alloc, stack, e),
    }
}
