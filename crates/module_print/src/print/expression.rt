// The parts of types and expressions.
ghost use Rattle.std.specs.Prelude.{◌≡◌, ◌++◌, ◌∷◌, [], suc, nat_abs, map, reverse, OnOk, codes, if◌then◌else◌};
ghost use Rattle.ocl_parse.specs.Trees.{level as level_of, name};
ghost use Rattle.ocl_parse.specs.Grammar.{spelt, fixed, unary_sign as unary_sign_of, dot_or_arrow as dot_or_arrow_of, Round, Elements, If, Let, Unary, Binary, Read, Call, Loop, Iterate};
ghost use Rattle.module_print.specs.Fragments.{class_text};
ghost use Rattle.module_print.specs.Writing.{here, name_here, truth as truth_of, arguments as arguments_of, expr_written, what_written, kind_written};
ghost use Rattle.module_print.specs.Pending.{Opens, spelling, begun, bare, kind_text, others_text, elements_text, expr_text};

use crate::print::part::{Part, push_all};
use atl_base::text::Text;
use atl_tree::expr::{BinaryOp, Expr, ExprKind, UnaryOp};
use atl_tree::kind::{CollWord, KindNode, KindSort};
use atl_tree::name::{ClassRef, Name};
use ocl_parse::sign::{Constant, Ender, Sign};
use std::alloc::AllocError;

/// How strongly an operator binds: one of a greater level binds more strongly.
pub(crate) fn level(op: BinaryOp) -> u32
    ensures { result ≡ level_of op }
{
    match op {
        BinaryOp::And => 1,
        BinaryOp::Or => 1,
        BinaryOp::Xor => 1,
        BinaryOp::Implies => 1,
        BinaryOp::Eq => 2,
        BinaryOp::Ne => 2,
        BinaryOp::Lt => 2,
        BinaryOp::Gt => 2,
        BinaryOp::Le => 2,
        BinaryOp::Ge => 2,
        BinaryOp::Plus => 3,
        BinaryOp::Minus => 3,
        BinaryOp::Times => 4,
        BinaryOp::Div => 4,
        BinaryOp::Mod => 4,
    }
}

/// Whether what an expression is stands in parentheses where operators of the level and above may stand; where the
/// flag is true, so does a leftmost `if .. endif`. 5 is the level of an operator before its operand.
pub(crate) fn is_enclosed(what: &ExprKind, least: u32, first: bool) -> bool
    ensures { begun first (what_written what.now least) ≡ (if result then Round here (what_written what.now 0) here else bare first (what_written what.now 0)) }
{
    match what {
        ExprKind::Number(_) => false,
        ExprKind::Words(_) => false,
        ExprKind::Truth(_) => false,
        ExprKind::Undefined => false,
        ExprKind::Literal(_) => false,
        ExprKind::Var(_) => false,
        ExprKind::Own => false,
        ExprKind::Module => false,
        ExprKind::Class(_) => false,
        ExprKind::Basic(_) => false,
        ExprKind::Coll(_, _) => false,
        ExprKind::If(_, _, _) => first,
        ExprKind::Let(_, _, _, _) => 0 < least,
        ExprKind::Unary(_, _) => 5 < least,
        ExprKind::Binary(op, _, _) => level(*op) < least,
        ExprKind::Read(_, _) => false,
        ExprKind::Call(_, _, _, _) => false,
        ExprKind::Loop(_, _, _, _) => false,
        ExprKind::Iterate(_, _, _, _, _, _) => false,
    }
}

// The number without its sign; none is negative.
fn magnitude(number: &i64) -> u64
    ensures { result ≡ nat_abs number.now }
{
    let value = *number;
    value.unsigned_abs()
}

fn truth_sign(is_true: bool) -> Sign
    ensures { spelt (truth_of is_true) ≡ fixed here result ∷ [] }
{
    if is_true {
        Sign::Constant(Constant::True)
    } else {
        Sign::Constant(Constant::False)
    }
}

fn unary_sign(op: UnaryOp) -> Sign
    ensures { result ≡ unary_sign_of op }
{
    match op {
        UnaryOp::Not => Sign::Not,
        UnaryOp::Neg => Sign::Operator(BinaryOp::Minus),
    }
}

fn dot_or_arrow(arrow: bool) -> Sign
    ensures { result ≡ dot_or_arrow_of arrow }
{
    if arrow { Sign::Arrow } else { Sign::Dot }
}

fn open_class<'a>(stack: &mut Vec<Part<'a>>, class: &'a ClassRef) -> Result<(), AllocError>
    ensures { OnOk result (Opens 0 (reverse stack.old.items) (reverse stack.new.items) (class_text class.now)) }
{
    push_all(
        stack,
        &[
            Part::Name(&class.meta),
            Part::Fixed(Sign::Bang),
            Part::Name(&class.class),
        ],
    )
}

/// Takes a type apart.
pub(crate) fn open_kind<'a>(stack: &mut Vec<Part<'a>>, kind: &'a KindNode) -> Result<(), AllocError>
    ensures { OnOk result (Opens 0 (reverse stack.old.items) (reverse stack.new.items) (kind_text kind.now)) }
{
    match &kind.what {
        KindSort::Basic(word) => push_all(stack, &[Part::Fixed(Sign::Basic(*word))]),
        KindSort::Class(class) => open_class(stack, class),
        KindSort::Coll(word, inner) => push_all(
            stack,
            &[
                Part::Fixed(Sign::Coll(*word)),
                Part::Fixed(Sign::Open),
                Part::Kind(inner.get()),
                Part::Fixed(Sign::End(Ender::Close)),
            ],
        ),
    }
}

fn open_collection<'a>(
    stack: &mut Vec<Part<'a>>,
    word: CollWord,
    elements: &'a [Expr],
) -> Result<(), AllocError>
    ensures { OnOk result (Opens 0 (reverse stack.old.items) (reverse stack.new.items)
        (spelling (spelt (Elements here word here (arguments_of (map (λ f. f 0) (map expr_written elements.now))) here)))) }
{
    push_all(
        stack,
        &[
            Part::Fixed(Sign::Coll(word)),
            Part::Fixed(Sign::OpenBrace),
            Part::Elements(elements),
            Part::Fixed(Sign::End(Ender::CloseBrace)),
        ],
    )
}

fn open_choice<'a>(
    stack: &mut Vec<Part<'a>>,
    condition: &'a Expr,
    left: &'a Expr,
    right: &'a Expr,
) -> Result<(), AllocError>
    ensures { OnOk result (Opens 0 (reverse stack.old.items) (reverse stack.new.items)
        (spelling (spelt (If here (expr_written condition.now 0) here (expr_written left.now 0) here (expr_written right.now 0) here)))) }
{
    push_all(
        stack,
        &[
            Part::Fixed(Sign::If),
            Part::Expression(condition, 0, false),
            Part::Fixed(Sign::End(Ender::Then)),
            Part::Expression(left, 0, false),
            Part::Fixed(Sign::End(Ender::Else)),
            Part::Expression(right, 0, false),
            Part::Fixed(Sign::End(Ender::Endif)),
        ],
    )
}

fn open_let<'a>(
    stack: &mut Vec<Part<'a>>,
    variable: &'a Name,
    kind: &'a KindNode,
    value: &'a Expr,
    body: &'a Expr,
) -> Result<(), AllocError>
    ensures { OnOk result (Opens 0 (reverse stack.old.items) (reverse stack.new.items)
        (spelling (spelt (Let here (name_here variable.now) here (kind_written kind.now) here (expr_written value.now 0) here (expr_written body.now 0))))) }
{
    push_all(
        stack,
        &[
            Part::Fixed(Sign::Operator(BinaryOp::Eq)),
            Part::Expression(value, 0, false),
            Part::Fixed(Sign::End(Ender::In)),
            Part::Expression(body, 0, false),
        ],
    )?;
    push_all(
        stack,
        &[
            Part::Fixed(Sign::Let),
            Part::Name(&variable.text),
            Part::Fixed(Sign::Colon),
            Part::Kind(kind),
        ],
    )
}

fn open_unary<'a>(
    stack: &mut Vec<Part<'a>>,
    op: UnaryOp,
    operand: &'a Expr,
) -> Result<(), AllocError>
    ensures { OnOk result (Opens 0 (reverse stack.old.items) (reverse stack.new.items) (spelling (spelt (Unary here op (expr_written operand.now 5))))) }
{
    push_all(
        stack,
        &[
            Part::Fixed(unary_sign(op)),
            Part::Expression(operand, 5, false),
        ],
    )
}

fn open_binary<'a>(
    stack: &mut Vec<Part<'a>>,
    op: BinaryOp,
    left: &'a Expr,
    right: &'a Expr,
    first: bool,
) -> Result<(), AllocError>
    ensures { OnOk result (Opens 0 (reverse stack.old.items) (reverse stack.new.items)
        (spelling (spelt (Binary (begun first (expr_written left.now (level_of op))) here op (expr_written right.now (suc (level_of op))))))) }
{
    let own = level(op);
    push_all(
        stack,
        &[
            Part::Expression(left, own, first),
            Part::Fixed(Sign::Operator(op)),
            Part::Expression(right, own + 1, false),
        ],
    )
}

fn open_call<'a>(
    stack: &mut Vec<Part<'a>>,
    source: &'a Expr,
    arrow: bool,
    called: &'a Text,
    arguments: &'a [Expr],
    first: bool,
) -> Result<(), AllocError>
    ensures { OnOk result (Opens 0 (reverse stack.old.items) (reverse stack.new.items)
        (spelling (spelt (Call (begun first (expr_written source.now 6)) arrow here (name here called.now) here (arguments_of (map (λ f. f 0) (map expr_written arguments.now))) here)))) }
{
    push_all(
        stack,
        &[
            Part::Expression(source, 6, first),
            Part::Fixed(dot_or_arrow(arrow)),
            Part::Name(called),
            Part::Fixed(Sign::Open),
            Part::Elements(arguments),
            Part::Fixed(Sign::End(Ender::Close)),
        ],
    )
}

fn open_loop<'a>(
    stack: &mut Vec<Part<'a>>,
    source: &'a Expr,
    called: &'a Text,
    variable: &'a Name,
    body: &'a Expr,
    first: bool,
) -> Result<(), AllocError>
    ensures { OnOk result (Opens 0 (reverse stack.old.items) (reverse stack.new.items)
        (spelling (spelt (Loop (begun first (expr_written source.now 6)) here (name here called.now) here (name_here variable.now) here (expr_written body.now 0) here)))) }
{
    push_all(
        stack,
        &[
            Part::Expression(source, 6, first),
            Part::Fixed(Sign::Arrow),
            Part::Name(called),
            Part::Fixed(Sign::Open),
            Part::Name(&variable.text),
            Part::Fixed(Sign::End(Ender::Bar)),
            Part::Expression(body, 0, false),
            Part::Fixed(Sign::End(Ender::Close)),
        ],
    )
}

fn open_iterate<'a>(
    stack: &mut Vec<Part<'a>>,
    source: &'a Expr,
    variables: (&'a Name, &'a Name),
    kind: &'a KindNode,
    start: &'a Expr,
    body: &'a Expr,
    first: bool,
) -> Result<(), AllocError>
    ensures { OnOk result (Opens 0 (reverse stack.old.items) (reverse stack.new.items)
        (spelling (spelt (Iterate (begun first (expr_written source.now 6)) here (name here (codes "iterate")) here (name_here variables.entry.0.now) here (name_here variables.entry.1.now) here
        (kind_written kind.now) here (expr_written start.now 0) here (expr_written body.now 0) here)))) }
{
    push_all(
        stack,
        &[
            Part::Expression(start, 0, false),
            Part::Fixed(Sign::End(Ender::Bar)),
            Part::Expression(body, 0, false),
            Part::Fixed(Sign::End(Ender::Close)),
        ],
    )?;
    push_all(
        stack,
        &[
            Part::Fixed(Sign::Semicolon),
            Part::Name(&variables.1.text),
            Part::Fixed(Sign::Colon),
            Part::Kind(kind),
            Part::Fixed(Sign::Operator(BinaryOp::Eq)),
        ],
    )?;
    push_all(
        stack,
        &[
            Part::Expression(source, 6, first),
            Part::Fixed(Sign::Arrow),
            Part::Iterate,
            Part::Fixed(Sign::Open),
            Part::Name(&variables.0.text),
        ],
    )
}

fn open_read<'a>(
    stack: &mut Vec<Part<'a>>,
    source: &'a Expr,
    feature: &'a Text,
    first: bool,
) -> Result<(), AllocError>
    ensures { OnOk result (Opens 0 (reverse stack.old.items) (reverse stack.new.items)
        (spelling (spelt (Read (begun first (expr_written source.now 6)) here (name here feature.now))))) }
{
    push_all(
        stack,
        &[
            Part::Expression(source, 6, first),
            Part::Fixed(Sign::Dot),
            Part::Name(feature),
        ],
    )
}

// Takes an expression apart that stands in no parentheses.
fn open_bare<'a>(
    stack: &mut Vec<Part<'a>>,
    what: &'a ExprKind,
    first: bool,
) -> Result<(), AllocError>
    ensures { OnOk result (Opens 0 (reverse stack.old.items) (reverse stack.new.items) (spelling (spelt (bare first (what_written what.now 0))))) }
{
    match what {
        ExprKind::Number(number) => push_all(stack, &[Part::Number(magnitude(number))]),
        ExprKind::Words(words) => push_all(stack, &[Part::Words(words)]),
        ExprKind::Truth(is_true) => push_all(stack, &[Part::Fixed(truth_sign(*is_true))]),
        ExprKind::Undefined => {
            push_all(stack, &[Part::Fixed(Sign::Constant(Constant::Undefined))])
        }
        ExprKind::Literal(literal) => {
            push_all(stack, &[Part::Fixed(Sign::Hash), Part::Name(literal)])
        }
        ExprKind::Var(variable) => push_all(stack, &[Part::Name(variable)]),
        ExprKind::Own => push_all(stack, &[Part::Fixed(Sign::Constant(Constant::Own))]),
        ExprKind::Module => push_all(stack, &[Part::Fixed(Sign::Constant(Constant::Module))]),
        ExprKind::Class(class) => open_class(stack, class),
        ExprKind::Basic(word) => push_all(stack, &[Part::Fixed(Sign::Basic(*word))]),
        ExprKind::Coll(word, elements) => open_collection(stack, *word, elements.as_slice()),
        ExprKind::If(condition, left, right) => {
            open_choice(stack, condition.get(), left.get(), right.get())
        }
        ExprKind::Let(variable, kind, value, body) => {
            open_let(stack, variable, kind, value.get(), body.get())
        }
        ExprKind::Unary(op, operand) => open_unary(stack, *op, operand.get()),
        ExprKind::Binary(op, left, right) => {
            open_binary(stack, *op, left.get(), right.get(), first)
        }
        ExprKind::Read(source, feature) => open_read(stack, source.get(), feature, first),
        ExprKind::Call(source, arrow, called, arguments) => open_call(
            stack,
            source.get(),
            *arrow,
            called,
            arguments.as_slice(),
            first,
        ),
        ExprKind::Loop(source, called, variable, body) => {
            open_loop(stack, source.get(), called, variable, body.get(), first)
        }
        ExprKind::Iterate(source, variable, outcome, kind, start, body) => open_iterate(
            stack,
            source.get(),
            (variable, outcome),
            kind,
            start.get(),
            body.get(),
            first,
        ),
    }
}

/// Takes an expression apart.
pub(crate) fn open_expression<'a>(
    stack: &mut Vec<Part<'a>>,
    expr: &'a Expr,
    least: u32,
    first: bool,
) -> Result<(), AllocError>
    ensures { OnOk result (Opens 0 (reverse stack.old.items) (reverse stack.new.items) (expr_text first least expr.now)) }
{
    if is_enclosed(&expr.what, least, first) {
        return push_all(
            stack,
            &[
                Part::Fixed(Sign::Open),
                Part::Expression(expr, 0, false),
                Part::Fixed(Sign::End(Ender::Close)),
            ],
        );
    }
    open_bare(stack, &expr.what, first)
}

/// Takes the first from expressions with a comma before each.
pub(crate) fn open_others<'a>(
    stack: &mut Vec<Part<'a>>,
    elements: &'a [Expr],
) -> Result<(), AllocError>
    ensures { OnOk result (Opens 1 (reverse stack.old.items) (reverse stack.new.items) (others_text elements.now)) }
{
    match elements.split_first() {
        None => Ok(()),
        Some((element, others)) => push_all(
            stack,
            &[
                Part::Fixed(Sign::End(Ender::Comma)),
                Part::Expression(element, 0, false),
                Part::Others(others),
            ],
        ),
    }
}

/// Takes the first from expressions with commas between.
pub(crate) fn open_elements<'a>(
    stack: &mut Vec<Part<'a>>,
    elements: &'a [Expr],
) -> Result<(), AllocError>
    ensures { OnOk result (Opens 2 (reverse stack.old.items) (reverse stack.new.items) (elements_text elements.now)) }
{
    match elements.split_first() {
        None => Ok(()),
        Some((element, others)) => push_all(
            stack,
            &[Part::Expression(element, 0, false), Part::Others(others)],
        ),
    }
}
