// What is still to be printed, as a stack of parts of which the last is printed first. No part holds another, so a long
// chain and a deep nest take no deeper calls.
ghost use Rattle.std.specs.Prelude.{◌≡◌, ◌++◌, reverse, OnOk};

use atl_base::text::Text;
use atl_tree::expr::Expr;
use atl_tree::kind::KindNode;
use atl_tree::module::Stat;
use module_grammar::keyword::Keyword;
use ocl_parse::sign::Sign;
use std::alloc::AllocError;

/// A part of the text.
#[derive(Clone, Copy)]
pub(crate) enum Part<'a> {
    Fixed(Sign),
    Keyword(Keyword),
    Number(u64),
    Words(&'a Text),
    Name(&'a Text),
    /// `iterate`
    Iterate,
    Kind(&'a KindNode),
    /// An expression where operators of this level or above may stand. Where the flag is true, its leftmost
    /// `if .. endif` stands in parentheses.
    Expression(&'a Expr, u32, bool),
    /// Expressions with commas between.
    Elements(&'a [Expr]),
    /// Expressions with a comma before each.
    Others(&'a [Expr]),
    Statements(&'a [Stat]),
}

/// Puts parts on the stack, in the order in which they are printed.
pub(crate) fn push_all<'a>(stack: &mut Vec<Part<'a>>, parts: &[Part<'a>]) -> Result<(), AllocError>
    ensures { OnOk result (reverse stack.new.items ≡ parts.now ++ reverse stack.old.items) }
{
    let count = parts.len();
    for i in 0..count {
        stack.push(parts[count - 1 - i])?;
    }
    Ok(())
}
