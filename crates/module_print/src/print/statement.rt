// The parts of statements.
ghost use Rattle.std.specs.Prelude.{◌≡◌, ◌∷◌, ◌++◌, [], map, reverse, flat_map, OnOk};
ghost use Rattle.ocl_parse.specs.declared.sign.Ender.TheVariants as E;
ghost use Rattle.ocl_parse.specs.declared.sign.Sign.TheVariants as S;
ghost use Rattle.ocl_parse.specs.Grammar.{spelt};
ghost use Rattle.module_grammar.specs.Marks.{sign};
ghost use Rattle.module_grammar.specs.Grammar.{Eval, Assign, If, For, NoStats, begins_if, stat_marks, stats_marks};
ghost use Rattle.module_print.specs.Writing.{here, name_here, expr_written, whole_written, stat_written, beginning, more_stats};
ghost use Rattle.module_print.specs.Pending.{Opens, spaced, stat_text, branch_written, begins_open};

use crate::print::expression::{is_enclosed, level};
use crate::print::part::{Part, push_all};
use atl_tree::expr::{Expr, ExprKind};
use atl_tree::module::Stat;
use atl_tree::name::Name;
use module_grammar::keyword::Keyword;
use ocl_parse::sign::{Ender, Sign};
use sqlite_items::Items;
use std::alloc::AllocError;

// Whether the text of an expression begins with a parenthesis.
fn begins_enclosed(expr: &Expr) -> bool
    ensures { result ≡ begins_open (spelt (expr_written expr.now 0)) }
{
    let mut expr = expr;
    let mut least = 0;
    'down: loop {
        if is_enclosed(&expr.what, least, false) {
            return true;
        }
        match &expr.what {
            ExprKind::Binary(op, left, _) => {
                expr = left.get();
                least = level(*op);
            }
            ExprKind::Read(source, _) => {
                expr = source.get();
                least = 6;
            }
            ExprKind::Call(source, _, _, _) => {
                expr = source.get();
                least = 6;
            }
            ExprKind::Loop(source, _, _, _) => {
                expr = source.get();
                least = 6;
            }
            ExprKind::Iterate(source, _, _, _, _, _) => {
                expr = source.get();
                least = 6;
            }
            ExprKind::Number(_) => return false,
            ExprKind::Words(_) => return false,
            ExprKind::Truth(_) => return false,
            ExprKind::Undefined => return false,
            ExprKind::Literal(_) => return false,
            ExprKind::Var(_) => return false,
            ExprKind::Own => return false,
            ExprKind::Module => return false,
            ExprKind::Class(_) => return false,
            ExprKind::Basic(_) => return false,
            ExprKind::Coll(_, _) => return false,
            ExprKind::If(_, _, _) => return false,
            ExprKind::Let(_, _, _, _) => return false,
            ExprKind::Unary(_, _) => return false,
        }
    }
}

// Whether the text of an expression begins as the statement form of `if` does.
fn begins_statement(expr: &Expr) -> bool
    ensures { result ≡ begins_if (spelt (expr_written expr.now 0)) }
{
    let mut expr = expr;
    let mut least = 0;
    'down: loop {
        if is_enclosed(&expr.what, least, false) {
            return false;
        }
        match &expr.what {
            ExprKind::If(condition, _, _) => return begins_enclosed(condition.get()),
            ExprKind::Binary(op, left, _) => {
                expr = left.get();
                least = level(*op);
            }
            ExprKind::Read(source, _) => {
                expr = source.get();
                least = 6;
            }
            ExprKind::Call(source, _, _, _) => {
                expr = source.get();
                least = 6;
            }
            ExprKind::Loop(source, _, _, _) => {
                expr = source.get();
                least = 6;
            }
            ExprKind::Iterate(source, _, _, _, _, _) => {
                expr = source.get();
                least = 6;
            }
            ExprKind::Number(_) => return false,
            ExprKind::Words(_) => return false,
            ExprKind::Truth(_) => return false,
            ExprKind::Undefined => return false,
            ExprKind::Literal(_) => return false,
            ExprKind::Var(_) => return false,
            ExprKind::Own => return false,
            ExprKind::Module => return false,
            ExprKind::Class(_) => return false,
            ExprKind::Basic(_) => return false,
            ExprKind::Coll(_, _) => return false,
            ExprKind::Let(_, _, _, _) => return false,
            ExprKind::Unary(_, _) => return false,
        }
    }
}

fn open_value<'a>(stack: &mut Vec<Part<'a>>, value: &'a Expr) -> Result<(), AllocError>
    ensures { OnOk result (Opens 0 (reverse stack.old.items) (reverse stack.new.items) (spaced (stat_marks (Eval (beginning (whole_written value.now)) here)))) }
{
    let first = begins_statement(value);
    push_all(
        stack,
        &[
            Part::Expression(value, 0, first),
            Part::Fixed(Sign::Semicolon),
        ],
    )
}

fn open_assignment<'a>(
    stack: &mut Vec<Part<'a>>,
    object: &'a Expr,
    feature: &'a Name,
    value: &'a Expr,
) -> Result<(), AllocError>
    ensures { OnOk result (Opens 0 (reverse stack.old.items) (reverse stack.new.items) (spaced (stat_marks (Assign (beginning (whole_written object.now)) here (name_here feature.now) here (whole_written value.now) here)))) }
{
    let first = begins_statement(object);
    push_all(
        stack,
        &[
            Part::Expression(object, 0, first),
            Part::Fixed(Sign::Dot),
            Part::Name(&feature.text),
            Part::Keyword(Keyword::Gives),
            Part::Expression(value, 0, false),
            Part::Fixed(Sign::Semicolon),
        ],
    )
}

fn open_if<'a>(
    stack: &mut Vec<Part<'a>>,
    condition: &'a Expr,
    body: &'a [Stat],
) -> Result<(), AllocError>
    ensures { OnOk result (Opens 0 (reverse stack.old.items) (reverse stack.new.items) (spaced (stat_marks (If here here (whole_written condition.now) here here (more_stats NoStats (map stat_written body.now)) here)))) }
{
    push_all(
        stack,
        &[
            Part::Fixed(Sign::OpenBrace),
            Part::Statements(body),
            Part::Fixed(Sign::End(Ender::CloseBrace)),
        ],
    )?;
    push_all(
        stack,
        &[
            Part::Fixed(Sign::If),
            Part::Fixed(Sign::Open),
            Part::Expression(condition, 0, false),
            Part::Fixed(Sign::End(Ender::Close)),
        ],
    )
}

fn open_else<'a>(stack: &mut Vec<Part<'a>>, body: &'a [Stat]) -> Result<(), AllocError>
    ensures { OnOk result (Opens 0 (reverse stack.old.items) (reverse stack.new.items) (spaced (sign here (S.End E.Else) ∷ sign here S.OpenBrace ∷ (stats_marks (more_stats NoStats (map stat_written body.now)) ++ (sign here (S.End E.CloseBrace) ∷ []))))) }
{
    push_all(
        stack,
        &[
            Part::Fixed(Sign::End(Ender::Else)),
            Part::Fixed(Sign::OpenBrace),
            Part::Statements(body),
            Part::Fixed(Sign::End(Ender::CloseBrace)),
        ],
    )
}

fn open_for<'a>(
    stack: &mut Vec<Part<'a>>,
    variable: &'a Name,
    values: &'a Expr,
    body: &'a [Stat],
) -> Result<(), AllocError>
    ensures { OnOk result (Opens 0 (reverse stack.old.items) (reverse stack.new.items) (spaced (stat_marks (For here here (name_here variable.now) here (whole_written values.now) here here (more_stats NoStats (map stat_written body.now)) here)))) }
{
    push_all(
        stack,
        &[
            Part::Expression(values, 0, false),
            Part::Fixed(Sign::End(Ender::Close)),
            Part::Fixed(Sign::OpenBrace),
            Part::Statements(body),
            Part::Fixed(Sign::End(Ender::CloseBrace)),
        ],
    )?;
    push_all(
        stack,
        &[
            Part::Keyword(Keyword::For),
            Part::Fixed(Sign::Open),
            Part::Name(&variable.text),
            Part::Fixed(Sign::End(Ender::In)),
        ],
    )
}

// An `if`, and its `else` where it has one.
fn open_branches<'a>(
    stack: &mut Vec<Part<'a>>,
    condition: &'a Expr,
    body: &'a [Stat],
    others: &'a Option<Items<Stat>>,
) -> Result<(), AllocError>
    ensures { OnOk result (Opens 0 (reverse stack.old.items) (reverse stack.new.items) (spaced (stat_marks (branch_written condition.now body.now others.now)))) }
{
    match others {
        None => open_if(stack, condition, body),
        Some(others) => {
            open_else(stack, others.as_slice())?;
            open_if(stack, condition, body)
        }
    }
}

fn open_statement<'a>(stack: &mut Vec<Part<'a>>, stat: &'a Stat) -> Result<(), AllocError>
    ensures { OnOk result (Opens 0 (reverse stack.old.items) (reverse stack.new.items) (stat_text stat.now)) }
{
    match stat {
        Stat::Eval(value) => open_value(stack, value),
        Stat::Assign(object, feature, value) => open_assignment(stack, object, feature, value),
        Stat::If(condition, body, others) => {
            open_branches(stack, condition, body.as_slice(), others)
        }
        Stat::For(variable, values, body) => { open_for(stack, variable, values, body.as_slice()) }
    }
}

/// Takes the first from statements.
pub(crate) fn open_statements<'a>(
    stack: &mut Vec<Part<'a>>,
    stats: &'a [Stat],
) -> Result<(), AllocError>
    ensures { OnOk result (Opens 1 (reverse stack.old.items) (reverse stack.new.items) (flat_map stat_text stats.now)) }
{
    match stats.split_first() {
        None => Ok(()),
        Some((stat, others)) => {
            push_all(stack, &[Part::Statements(others)])?;
            open_statement(stack, stat)
        }
    }
}
