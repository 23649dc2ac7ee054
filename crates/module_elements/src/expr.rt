// Expressions, and what stands behind them.
ghost use Rattle.std.specs.Prelude.{◌≡◌, ◌++◌, ◌∷◌, [], IfOk, true};
ghost use Rattle.ocl_parse.specs.Machine.{over as over_of, step as stepped};
ghost use Rattle.ocl_parse.specs.declared.frame.Next.TheVariants as N;
ghost use Rattle.module_grammar.specs.Marks.{Word, symbol as symbol_in};
ghost use Rattle.module_states.specs.Machine.{AtStat, ForAssigned, InExpr, a_semicolon as a_semicolon_of, expr_end as expr_end_of, expr_goes as expr_goes_of, in_expr as in_expr_of, whole as whole_of, Goes};
ghost use Rattle.module_states.specs.Nexts.{blocks_of, for_expr_of, meant, signed, state_of, step_of};
ghost use Rattle.module_grammar.specs.declared.keyword.Keyword.TheVariants as W;
ghost use Rattle.module_states.specs.declared.next.ForExpr.TheVariants as E;

use crate::target::bound;
use atl_base::place::Place;
use atl_tree::expr::Expr;
use atl_tree::kind::KindNode;
use atl_tree::module::{Bind, Helper, Item, LocalVar, Stat, Target};
use atl_tree::name::Name;
use module_grammar::keyword::Keyword;
use module_states::content::{Content, sign, symbol};
use module_states::next::{
    Block, Draft, ForExpr, Move, Next, Part, Point, Signature, Stating, TargetPoint,
};
use module_states::parts::{with_bind, with_guard, with_item, with_local};
use ocl_parse::frame::{Move as MoveInside, Next as NextInside};
use ocl_parse::parse::over;
use ocl_parse::sign::{Ender, Sign};
use ocl_parse::stack::Stack;
use ocl_parse::step::step as step_inside;
use sqlite_items::Boxed;
use std::alloc::{AllocError, Global};

/// An expression begins.
pub fn begin(alloc: Global, purpose: ForExpr) -> Result<Next, AllocError>
    ensures { IfOk result (λ n. InExpr (for_expr_of purpose) [] N.Operand ≡ state_of n) }
{
    let purpose = Boxed::new(alloc, purpose)?;
    Ok(Next::InExpr(
        purpose,
        Part {
            stack: Stack::new(alloc),
            next: NextInside::Operand,
        },
    ))
}

// Behind a helper's body.
fn body_end(signature: Signature, kind: KindNode, e: Expr, sign: Sign) -> Result<Move, AllocError>
    ensures { IfOk result (λ m. expr_end_of (for_expr_of (E.Body signature kind)) e (signed sign) ≡ step_of m) }
{
    match sign {
        Sign::Semicolon => {
            let Signature {
                before,
                context,
                name,
                params,
            } = signature;
            let helper = Helper {
                context,
                name,
                params,
                result: kind,
                body: e,
            };
            let before = with_item(before, Item::Help(helper))?;
            Ok(Move::Goes(Next::Item(before)))
        }
        _ => Ok(Move::Refuses),
    }
}

fn guard_end(alloc: Global, draft: Boxed<Draft>, e: Expr, sign: Sign) -> Result<Move, AllocError>
    ensures { IfOk result (λ m. expr_end_of (for_expr_of (E.Guard draft)) e (signed sign) ≡ step_of m) }
{
    match sign {
        Sign::End(Ender::Close) => {
            let draft = with_guard(alloc, draft, e)?;
            Ok(Move::Goes(Next::InRule(Point::Rest, draft)))
        }
        _ => Ok(Move::Refuses),
    }
}

// Behind a variable's value.
fn local_end(
    alloc: Global,
    draft: Boxed<Draft>,
    name: Name,
    kind: KindNode,
    e: Expr,
    sign: Sign,
) -> Result<Move, AllocError>
    ensures { IfOk result (λ m. expr_end_of (for_expr_of (E.Local draft name kind)) e (signed sign) ≡ step_of m) }
{
    match sign {
        Sign::Semicolon => {
            let local = LocalVar {
                name,
                kind,
                value: e,
            };
            let draft = with_local(alloc, draft, local)?;
            Ok(Move::Goes(Next::InRule(Point::Local, draft)))
        }
        _ => Ok(Move::Refuses),
    }
}

// Behind a binding's value.
fn bind_end(
    alloc: Global,
    draft: Boxed<Draft>,
    target: Target,
    feature: Name,
    e: Expr,
    sign: Sign,
) -> Result<Move, AllocError>
    ensures { IfOk result (λ m. expr_end_of (for_expr_of (E.Bind draft target feature)) e (signed sign) ≡ step_of m) }
{
    let target = with_bind(target, Bind { feature, value: e })?;
    match sign {
        Sign::End(Ender::Comma) => Ok(Move::Goes(Next::InTarget(TargetPoint::Bind, draft, target))),
        Sign::End(Ender::Close) => Ok(Move::Goes(bound(alloc, draft, target)?)),
        _ => Ok(Move::Refuses),
    }
}

/// The statement is over.
pub fn stat_ends(block: Block, stat: Stat) -> Result<Next, AllocError>
    ensures { IfOk result (λ n. AtStat (blocks_of block) (block.stats ++ (stat ∷ [])) ≡ state_of n) }
{
    let mut block = block;
    block.stats.push(stat)?;
    Ok(Next::InBlock(Stating::Statement(block)))
}

fn stat_end(block: Block, stat: Stat, sign: Sign) -> Result<Move, AllocError>
    ensures { IfOk result (λ m. a_semicolon_of (signed sign) (AtStat (blocks_of block) (block.stats ++ (stat ∷ []))) ≡ step_of m) }
{
    match sign {
        Sign::Semicolon => Ok(Move::Goes(stat_ends(block, stat)?)),
        _ => Ok(Move::Refuses),
    }
}

fn condition_end(block: Block, e: Expr, sign: Sign) -> Move
    ensures { expr_end_of (for_expr_of (E.Condition block)) e (signed sign) ≡ step_of result }
{
    match sign {
        Sign::End(Ender::Close) => Move::Goes(Next::InBlock(Stating::IfBrace(block, e))),
        _ => Move::Refuses,
    }
}

fn values_end(block: Block, name: Name, e: Expr, sign: Sign) -> Move
    ensures { expr_end_of (for_expr_of (E.Values block name)) e (signed sign) ≡ step_of result }
{
    match sign {
        Sign::End(Ender::Close) => Move::Goes(Next::InBlock(Stating::ForBrace(block, name, e))),
        _ => Move::Refuses,
    }
}

// An expression, and the sign behind it.
fn expr_end(alloc: Global, purpose: ForExpr, e: Expr, sign: Sign) -> Result<Move, AllocError>
    ensures { IfOk result (λ m. expr_end_of (for_expr_of purpose) e (signed sign) ≡ step_of m) }
{
    match purpose {
        ForExpr::Body(signature, kind) => body_end(signature, kind, e, sign),
        ForExpr::Guard(draft) => guard_end(alloc, draft, e, sign),
        ForExpr::Local(draft, name, kind) => local_end(alloc, draft, name, kind, e, sign),
        ForExpr::Bind(draft, target, feature) => bind_end(alloc, draft, target, feature, e, sign),
        ForExpr::Eval(block) => stat_end(block, Stat::Eval(e), sign),
        ForExpr::Assigned(block, object, feature) => {
            stat_end(block, Stat::Assign(object, feature, e), sign)
        }
        ForExpr::Condition(block) => Ok(condition_end(block, e, sign)),
        ForExpr::Values(block, name) => Ok(values_end(block, name, e, sign)),
    }
}

// The operand ends the expression, where all that is open ends there.
fn stops(
    alloc: Global,
    purpose: Boxed<ForExpr>,
    stack: Stack,
    e: Expr,
    sign: Sign,
) -> Result<Move, AllocError>
    ensures { IfOk result (λ m. whole_of (over_of stack e []) (λ x. expr_end_of (for_expr_of purpose) x (signed sign)) ≡ step_of m) }
{
    let mut stack = stack;
    match over(alloc, &mut stack, e)? {
        Some(whole) => expr_end(alloc, purpose.into_inner(), whole, sign),
        None => Ok(Move::Refuses),
    }
}

// More of an expression, or what stands behind it.
#[tactic(auto, using(crate::proofs::Behind::goes_by_sign))]
fn expr_goes(
    alloc: Global,
    purpose: Boxed<ForExpr>,
    part: Part,
    content: Content,
    place: Place,
) -> Result<Move, AllocError>
    ensures { IfOk result (λ m. expr_goes_of (for_expr_of purpose) (meant content) (stepped true part.stack part.next (symbol_in (meant content)) place) ≡ step_of m) }
{
    let Part { stack, next } = part;
    let mut stack = stack;
    let behind = sign(&content);
    match step_inside(alloc, &mut stack, next, symbol(content), place)? {
        MoveInside::Goes(next) => Ok(Move::Goes(Next::InExpr(purpose, Part { stack, next }))),
        MoveInside::Stops(e) => stops(alloc, purpose, stack, e, behind),
        MoveInside::Refuses => Ok(Move::Refuses),
        MoveInside::TooDeep(at) => Ok(Move::TooDeep(at)),
    }
}

// `<-` behind a statement's last `. name`: it assigns to what stands before them.
fn assigns(
    alloc: Global,
    block: Block,
    stack: Stack,
    object: Boxed<Expr>,
    feature: Name,
) -> Result<Move, AllocError>
    ensures { IfOk result (λ m. whole_of (over_of stack object []) (λ x. Goes (InExpr (ForAssigned (blocks_of block) block.stats x feature) [] N.Operand)) ≡ step_of m) }
{
    let mut stack = stack;
    match over(alloc, &mut stack, object.into_inner())? {
        Some(whole) => Ok(Move::Goes(begin(alloc, ForExpr::Assigned(block, whole, feature))?)),
        None => Ok(Move::Refuses),
    }
}

// `<-` in a statement.
fn gives_in_stat(alloc: Global, block: Block, part: Part, place: Place) -> Result<Move, AllocError>
    ensures { IfOk result (λ m. in_expr_of true (for_expr_of (E.Eval block)) part.stack part.next (Word W.Gives) place ≡ step_of m) }
{
    let Part { stack, next } = part;
    match next {
        NextInside::Named(object, feature) => assigns(alloc, block, stack, object, feature),
        next => {
            let gives = Content::Word(Keyword::Gives);
            let purpose = Boxed::new(alloc, ForExpr::Eval(block))?;
            expr_goes(alloc, purpose, Part { stack, next }, gives, place)
        }
    }
}

// `<-` in an expression.
fn gives(
    alloc: Global,
    purpose: Boxed<ForExpr>,
    part: Part,
    place: Place,
) -> Result<Move, AllocError>
    ensures { IfOk result (λ m. in_expr_of true (for_expr_of purpose) part.stack part.next (Word W.Gives) place ≡ step_of m) }
{
    match purpose.into_inner() {
        ForExpr::Eval(block) => gives_in_stat(alloc, block, part, place),
        other => {
            let purpose = Boxed::new(alloc, other)?;
            expr_goes(alloc, purpose, part, Content::Word(Keyword::Gives), place)
        }
    }
}

/// One token of an expression, or behind it.
pub fn step(
    alloc: Global,
    purpose: Boxed<ForExpr>,
    part: Part,
    content: Content,
    place: Place,
) -> Result<Move, AllocError>
    ensures { IfOk result (λ m. in_expr_of true (for_expr_of purpose) part.stack part.next (meant content) place ≡ step_of m) }
{
    match content {
        Content::Word(Keyword::Gives) => gives(alloc, purpose, part, place),
        other => expr_goes(alloc, purpose, part, other, place),
    }
}
