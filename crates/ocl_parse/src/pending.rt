// Operators and lets that end where what follows is none of theirs.
ghost use Rattle.std.specs.Prelude.{◌≡◌, List, ℕ, IfOk};
ghost use Rattle.atl_tree.specs.declared.expr.Expr.{Expr as SomeExpr};
ghost use Rattle.ocl_parse.specs.declared.frame.Frame.{Frame as SomeFrame};
ghost use Rattle.ocl_parse.specs.Trees.{level as level_of, binary as binary_of, unary as unary_of, within as within_of};
ghost use Rattle.ocl_parse.specs.Machine.{Step, before, closed};

use crate::frame::Frame;
use crate::stack::Stack;
use atl_base::place::Place;
use atl_tree::expr::{BinaryOp, Expr, ExprKind, UnaryOp};
use atl_tree::kind::KindNode;
use atl_tree::name::Name;
use sqlite_items::Boxed;
use std::alloc::{AllocError, Global};

/// How strongly the operator binds: one of a greater level binds more strongly.
pub(crate) fn level(op: BinaryOp) -> u32
    ensures { result ≡ level_of op }
{
    match op {
        BinaryOp::And | BinaryOp::Or | BinaryOp::Xor | BinaryOp::Implies => 1,
        BinaryOp::Eq | BinaryOp::Ne | BinaryOp::Lt | BinaryOp::Gt | BinaryOp::Le | BinaryOp::Ge =>
            2,
        BinaryOp::Plus | BinaryOp::Minus => 3,
        BinaryOp::Times | BinaryOp::Div | BinaryOp::Mod => 4,
    }
}

fn binary(
    alloc: Global,
    left: Boxed<Expr>,
    place: Place,
    op: BinaryOp,
    right: Expr,
) -> Result<Expr, AllocError>
    ensures { IfOk result (λ e. e ≡ binary_of left place op right) }
{
    Ok(Expr {
        what: ExprKind::Binary(op, left, Boxed::new(alloc, right)?),
        place,
    })
}

fn unary(alloc: Global, place: Place, op: UnaryOp, operand: Expr) -> Result<Expr, AllocError>
    ensures { IfOk result (λ e. e ≡ unary_of place op operand) }
{
    Ok(Expr {
        what: ExprKind::Unary(op, Boxed::new(alloc, operand)?),
        place,
    })
}

fn within(
    alloc: Global,
    place: Place,
    name: Name,
    kind: KindNode,
    value: Boxed<Expr>,
    body: Expr,
) -> Result<Expr, AllocError>
    ensures { IfOk result (λ e. e ≡ within_of place name kind value body) }
{
    Ok(Expr {
        what: ExprKind::Let(name, kind, value, Boxed::new(alloc, body)?),
        place,
    })
}

/// Ends the operators that bind at least so strongly. No more are pending at one place than nest, times the levels.
pub(crate) fn end_before(
    alloc: Global,
    stack: &mut Stack,
    least: u32,
    operand: Expr,
) -> Result<Expr, AllocError>
    ensures { IfOk result (λ e. (k : List SomeFrame → SomeExpr → Step) → before least stack.old operand k ≡ k stack.new e) }
{
    match stack.pop() {
        None => Ok(operand),
        Some(Frame::Left(left, place, op)) => {
            if level(op) >= least {
                let whole = binary(alloc, left, place, op, operand)?;
                return end_before(alloc, stack, least, whole);
            }
            stack.push(Frame::Left(left, place, op))?;
            Ok(operand)
        }
        Some(Frame::Unary(op, place)) => {
            let whole = unary(alloc, place, op, operand)?;
            end_before(alloc, stack, least, whole)
        }
        Some(frame) => {
            stack.push(frame)?;
            Ok(operand)
        }
    }
}

/// Ends the operators and each let whose body ends at a closing symbol.
pub(crate) fn end_all(alloc: Global, stack: &mut Stack, operand: Expr) -> Result<Expr, AllocError>
    ensures { IfOk result (λ e. (k : List SomeFrame → SomeExpr → Step) → closed stack.old operand k ≡ k stack.new e) }
{
    match stack.pop() {
        None => Ok(operand),
        Some(Frame::Left(left, place, op)) => {
            let whole = binary(alloc, left, place, op, operand)?;
            end_all(alloc, stack, whole)
        }
        Some(Frame::Unary(op, place)) => {
            let whole = unary(alloc, place, op, operand)?;
            end_all(alloc, stack, whole)
        }
        Some(Frame::Within(place, name, kind, value)) => {
            let whole = within(alloc, place, name, kind, value, operand)?;
            end_all(alloc, stack, whole)
        }
        Some(frame) => {
            stack.push(frame)?;
            Ok(operand)
        }
    }
}
