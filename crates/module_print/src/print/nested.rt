// The printing of what nests: of types, expressions and blocks of statements.
ghost use Rattle.std.specs.Prelude.{◌≡◌, ◌++◌, ◌∷◌, ◌<◌, [], false, reverse, flat_map, OnOk};
ghost use Rattle.module_print.specs.Pending.{pending, work, kind_text, expr_text, stat_text, put};

use crate::print::expression::{open_elements, open_expression, open_kind, open_others};
use crate::print::part::Part;
use crate::print::statement::open_statements;
use crate::print::token::{push_keyword, push_name, push_number, push_sign, push_words};
use atl_base::text::Text;
use atl_tree::expr::Expr;
use atl_tree::kind::KindNode;
use atl_tree::module::Stat;
use std::alloc::{AllocError, Global};

// Prints a part that is one token, or takes another apart.
fn push_part<'a>(
    alloc: Global,
    out: &mut Text,
    stack: &mut Vec<Part<'a>>,
    part: Part<'a>,
) -> Result<(), AllocError>
    ensures text { OnOk result (out.new ++ pending (reverse stack.new.items) ≡ out.old ++ put part.entry (pending (reverse stack.old.items))) }
    ensures less { OnOk result (work (reverse stack.new.items) < work (part.entry ∷ reverse stack.old.items)) }
{
    match part {
        Part::Fixed(sign) => push_sign(out, sign),
        Part::Keyword(keyword) => push_keyword(out, keyword),
        Part::Number(number) => push_number(out, number),
        Part::Words(words) => push_words(out, words),
        Part::Name(name) => push_name(alloc, out, name),
        Part::Iterate => out.push_ascii("iterate "),
        Part::Kind(kind) => open_kind(stack, kind),
        Part::Expression(expr, least, first) => open_expression(stack, expr, least, first),
        Part::Elements(elements) => open_elements(stack, elements),
        Part::Others(elements) => open_others(stack, elements),
        Part::Statements(stats) => open_statements(stack, stats),
    }
}

fn push_parts(alloc: Global, out: &mut Text, part: Part) -> Result<(), AllocError>
    ensures { OnOk result (out.new ≡ out.old ++ put part.entry []) }
{
    let mut stack = Vec::new(alloc);
    stack.push(part)?;
    while let Some(next) = stack.pop() {
        push_part(alloc, out, &mut stack, next)?;
    }
    Ok(())
}

/// Adds a type.
pub(crate) fn push_kind(alloc: Global, out: &mut Text, kind: &KindNode) -> Result<(), AllocError>
    ensures { OnOk result (out.new ≡ out.old ++ kind_text kind.now) }
{
    push_parts(alloc, out, Part::Kind(kind))
}

/// Adds an expression that stands in no other.
pub(crate) fn push_expression(alloc: Global, out: &mut Text, expr: &Expr) -> Result<(), AllocError>
    ensures { OnOk result (out.new ≡ out.old ++ expr_text false 0 expr.now) }
{
    push_parts(alloc, out, Part::Expression(expr, 0, false))
}

/// Adds statements.
pub(crate) fn push_statements(
    alloc: Global,
    out: &mut Text,
    stats: &[Stat],
) -> Result<(), AllocError>
    ensures { OnOk result (out.new ≡ out.old ++ flat_map stat_text stats.now) }
{
    push_parts(alloc, out, Part::Statements(stats))
}
