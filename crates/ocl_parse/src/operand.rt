// Where an operand begins.
ghost use Rattle.std.specs.Prelude.{◌≡◌, ◌∷◌, true, IfOk};
ghost use Rattle.ocl_parse.specs.Depth.{deep, is_shallow as is_shallow_at};
ghost use Rattle.ocl_parse.specs.Trees.{expr, name as name_of, constant as constant_of};
ghost use Rattle.ocl_parse.specs.Machine.{Goes, step_of, begins, at_let, operand_sign as operand_sign_of, operand as operand_of};
ghost use Rattle.ocl_parse.specs.declared.frame.Frame.TheVariants as F;
ghost use Rattle.ocl_parse.specs.declared.frame.Next.TheVariants as N;

use crate::frame::{Frame, Move, Next};
use crate::sign::{Constant, Sign};
use crate::stack::Stack;
use crate::symbol::Symbol;
use atl_base::place::Place;
use atl_base::text::Text;
use atl_tree::expr::{BinaryOp, Expr, ExprKind, UnaryOp};
use atl_tree::kind::CollWord;
use atl_tree::name::Name;
use std::alloc::AllocError;

/// Whether an expression may begin so deep.
pub(crate) fn is_shallow(stack: &Stack) -> bool
    ensures { result ≡ is_shallow_at true (deep stack.now) }
{
    stack.depth() <= 200
}

fn constant(constant: Constant) -> ExprKind
    ensures { result ≡ constant_of constant }
{
    match constant {
        Constant::True => ExprKind::Truth(true),
        Constant::False => ExprKind::Truth(false),
        Constant::Undefined => ExprKind::Undefined,
        Constant::Own => ExprKind::Own,
        Constant::Module => ExprKind::Module,
    }
}

// An operand of one symbol.
fn lone(stack: &Stack, what: ExprKind, place: Place) -> Move
    ensures { begins true stack.now place (Goes stack.now (N.Have (expr place what))) ≡ step_of stack.now result }
{
    if !is_shallow(stack) {
        return Move::TooDeep(place);
    }
    Move::Goes(Next::Have(Expr { what, place }))
}

fn open_unary(stack: &mut Stack, op: UnaryOp, place: Place) -> Result<Move, AllocError>
    ensures { IfOk result (λ m. begins true stack.old place (Goes (F.Unary op place ∷ stack.old) N.Operand) ≡ step_of stack.new m) }
{
    if !is_shallow(stack) {
        return Ok(Move::TooDeep(place));
    }
    stack.push(Frame::Unary(op, place))?;
    Ok(Move::Goes(Next::Operand))
}

fn open_round(stack: &mut Stack, place: Place) -> Result<Move, AllocError>
    ensures { IfOk result (λ m. begins true stack.old place (Goes (F.Round ∷ stack.old) N.Operand) ≡ step_of stack.new m) }
{
    if !is_shallow(stack) {
        return Ok(Move::TooDeep(place));
    }
    stack.push(Frame::Round)?;
    Ok(Move::Goes(Next::Operand))
}

fn open_condition(stack: &mut Stack, place: Place) -> Result<Move, AllocError>
    ensures { IfOk result (λ m. begins true stack.old place (Goes (F.Condition place ∷ stack.old) N.Operand) ≡ step_of stack.new m) }
{
    if !is_shallow(stack) {
        return Ok(Move::TooDeep(place));
    }
    stack.push(Frame::Condition(place))?;
    Ok(Move::Goes(Next::Operand))
}

// A let that is no operand.
fn open_let(stack: &Stack, place: Place) -> Move
    ensures { begins true stack.now place (Goes stack.now (N.LetName place)) ≡ step_of stack.now result }
{
    if !is_shallow(stack) {
        return Move::TooDeep(place);
    }
    Move::Goes(Next::LetName(place))
}

fn begin_let(stack: &mut Stack, place: Place) -> Result<Move, AllocError>
    ensures { IfOk result (λ m. at_let true stack.old place ≡ step_of stack.new m) }
{
    match stack.pop() {
        None => Ok(open_let(stack, place)),
        Some(Frame::Left(_, _, _)) => Ok(Move::Refuses),
        Some(Frame::Unary(_, _)) => Ok(Move::Refuses),
        Some(frame) => {
            stack.push(frame)?;
            Ok(open_let(stack, place))
        }
    }
}

fn open_collection(stack: &Stack, word: CollWord, place: Place) -> Move
    ensures { begins true stack.now place (Goes stack.now (N.Brace word place)) ≡ step_of stack.now result }
{
    if !is_shallow(stack) {
        return Move::TooDeep(place);
    }
    Move::Goes(Next::Brace(word, place))
}

fn open_literal(stack: &Stack, place: Place) -> Move
    ensures { begins true stack.now place (Goes stack.now (N.Literal place)) ≡ step_of stack.now result }
{
    if !is_shallow(stack) {
        return Move::TooDeep(place);
    }
    Move::Goes(Next::Literal(place))
}

fn open_word(stack: &Stack, text: Text, place: Place) -> Move
    ensures { begins true stack.now place (Goes stack.now (N.Word (name_of place text))) ≡ step_of stack.now result }
{
    if !is_shallow(stack) {
        return Move::TooDeep(place);
    }
    Move::Goes(Next::Word(Name { text, place }))
}

// A keyword or a mark.
fn operand_sign(stack: &mut Stack, sign: Sign, place: Place) -> Result<Move, AllocError>
    ensures { IfOk result (λ m. operand_sign_of true stack.old sign place ≡ step_of stack.new m) }
{
    match sign {
        Sign::Constant(word) => Ok(lone(stack, constant(word), place)),
        Sign::Basic(word) => Ok(lone(stack, ExprKind::Basic(word), place)),
        Sign::Coll(word) => Ok(open_collection(stack, word, place)),
        Sign::Operator(BinaryOp::Minus) => open_unary(stack, UnaryOp::Neg, place),
        Sign::Not => open_unary(stack, UnaryOp::Not, place),
        Sign::Open => open_round(stack, place),
        Sign::If => open_condition(stack, place),
        Sign::Hash => Ok(open_literal(stack, place)),
        Sign::Let => begin_let(stack, place),
        _ => Ok(Move::Refuses),
    }
}

/// A symbol where an operand is to begin.
pub(crate) fn operand(stack: &mut Stack, symbol: Symbol, place: Place) -> Result<Move, AllocError>
    ensures { IfOk result (λ m. operand_of true stack.old symbol place ≡ step_of stack.new m) }
{
    match symbol {
        Symbol::Number(n) => Ok(lone(stack, ExprKind::Number(n), place)),
        Symbol::Words(text) => Ok(lone(stack, ExprKind::Words(text), place)),
        Symbol::Name(text) => Ok(open_word(stack, text, place)),
        Symbol::Fixed(sign) => operand_sign(stack, sign, place),
    }
}
