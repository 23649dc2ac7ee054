// Expressions. Parentheses make no node.
ghost use Rattle.std.specs.Prelude.{◌≡◌};

use crate::kind::{BasicWord, CollWord, KindNode};
use crate::name::{ClassRef, Name};
use atl_base::place::Place;
use atl_base::text::Text;
use sqlite_items::{Boxed, Items};

/// An operator before its operand.
#[derive(Clone, Copy, Debug, PartialEq, Eq)]
pub enum UnaryOp {
    /// `not`
    Not,
    /// `-`
    Neg,
}

/// An operator between two operands.
#[derive(Clone, Copy, Debug, PartialEq, Eq)]
pub enum BinaryOp {
    And,
    Or,
    Xor,
    Implies,
    /// `=`
    Eq,
    /// `<>`
    Ne,
    /// `<`
    Lt,
    /// `>`
    Gt,
    /// `<=`
    Le,
    /// `>=`
    Ge,
    Plus,
    Minus,
    Times,
    Div,
    Mod,
}

/// An expression. The place of a binary operation is that of its operator, of a call or a feature that of its
/// name, and of any other node that of its first token. A long chain is let go by a loop; `into_parts` takes an
/// expression apart.
#[derive(Debug)]
#[cycle(expr)]
pub struct Expr {
    pub what: ExprKind,
    pub place: Place,
}

/// What an expression is.
#[derive(Debug, Drop)]
#[cycle(expr)]
pub enum ExprKind {
    Number(i64),
    /// A text, with its escapes resolved.
    Words(Text),
    Truth(bool),
    /// `OclUndefined`
    Undefined,
    /// `#name`
    Literal(Text),
    Var(Text),
    /// `self`
    Own,
    /// `thisModule`
    Module,
    Class(ClassRef),
    Basic(BasicWord),
    /// A collection, and its elements.
    Coll(CollWord, Items<Expr>),
    /// The condition, and the two branches.
    If(Boxed<Expr>, Boxed<Expr>, Boxed<Expr>),
    /// The variable, its type, its value, and the body.
    Let(Name, KindNode, Boxed<Expr>, Boxed<Expr>),
    Unary(UnaryOp, Boxed<Expr>),
    Binary(BinaryOp, Boxed<Expr>, Boxed<Expr>),
    /// `source.name`
    Read(Boxed<Expr>, Text),
    /// `source.name(..)`, or `source->name(..)` where the flag is true.
    Call(Boxed<Expr>, bool, Text, Items<Expr>),
    /// `source->iterator(variable | body)`
    Loop(Boxed<Expr>, Text, Name, Boxed<Expr>),
    /// `source->iterate(variable; result : type = start | body)`
    Iterate(Boxed<Expr>, Name, Name, KindNode, Boxed<Expr>, Boxed<Expr>),
}

impl Expr {
    /// What the expression is, and its place.
    pub fn into_parts(self) -> (ExprKind, Place)
        ensures what { result.0 ≡ self.what }
        ensures place { result.1 ≡ self.place }
    {
        let Expr { what, place } = self;
        (what, place)
    }
}

impl Drop for Expr {
    // A chain of operators or calls leans to the left, and may be long: a loop goes down it.
    #[cycle(expr)]
    fn drop(mut self) {
        loop {
            let Expr { what, place: _ } = self;
            match what {
                ExprKind::Binary(_op, left, right) => {
                    drop(right);
                    self = left.into_inner();
                }
                ExprKind::Read(source, name) => {
                    drop(name);
                    self = source.into_inner();
                }
                ExprKind::Call(source, _arrow, name, arguments) => {
                    drop(name);
                    drop(arguments);
                    self = source.into_inner();
                }
                ExprKind::Loop(source, name, variable, body) => {
                    drop(name);
                    drop(variable);
                    drop(body);
                    self = source.into_inner();
                }
                ExprKind::Iterate(source, variable, outcome, kind, start, body) => {
                    drop(variable);
                    drop(outcome);
                    drop(kind);
                    drop(start);
                    drop(body);
                    self = source.into_inner();
                }
                other => {
                    drop(other);
                    return;
                }
            }
        }
    }
}

#[cfg(test)]
mod tests {
    use super::*;
    use std::alloc::{AllocError, Global};
    use std::test::Fail;

    const PLACE: Place = Place { line: 1, column: 1 };

    // `1 + 1 + 1 ..`, with a feature of each sum.
    fn long_chain(alloc: Global, links: u32) -> Result<Expr, AllocError> {
        let mut chain = Expr {
            what: ExprKind::Number(1),
            place: PLACE,
        };
        for _ in 0..links {
            let one = Expr {
                what: ExprKind::Number(1),
                place: PLACE,
            };
            let sum = Expr {
                what: ExprKind::Binary(
                    BinaryOp::Plus,
                    Boxed::new(alloc, chain)?,
                    Boxed::new(alloc, one)?,
                ),
                place: PLACE,
            };
            chain = Expr {
                what: ExprKind::Read(Boxed::new(alloc, sum)?, Text::new(alloc)),
                place: PLACE,
            };
        }
        Ok(chain)
    }

    #[test]
    fn a_long_chain_is_let_go(rt: HostRuntime) -> Result<(), Fail> {
        let (what, place) = long_chain(rt.alloc(), 500_000)?.into_parts();
        assert!(rt; matches!(what, ExprKind::Read(_, _)));
        assert_eq!(rt; place, PLACE);
        Ok(())
    }
}
