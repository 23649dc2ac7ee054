// Types, and what stands behind them.
ghost use Rattle.std.specs.Prelude.{◌≡◌, [], IfOk, true};
ghost use Rattle.ocl_parse.specs.Machine.{step as stepped};
ghost use Rattle.ocl_parse.specs.declared.frame.Next.TheVariants as N;
ghost use Rattle.module_states.specs.Machine.{AtParam, ForParam, InKind, comma_or_close as comma_or_close_of, kind_goes as kind_goes_of, with_all as with_all_of, at_context as at_context_of, in_kind as in_kind_of, kind_end as kind_end_of};
ghost use Rattle.module_grammar.specs.Marks.{symbol as symbol_in};
ghost use Rattle.module_states.specs.Nexts.{for_kind_of, is_coll as is_coll_of, meant, owner_of, state_of, step_of};
ghost use Rattle.module_states.specs.declared.next.ForKind.TheVariants as K;

use crate::expr::begin as begin_expr;
use crate::params::with_all;
use atl_base::place::Place;
use atl_tree::kind::KindNode;
use atl_tree::module::{Module, Param};
use atl_tree::name::Name;
use module_states::content::{Content, symbol};
use module_states::next::{
    Draft, ForExpr, ForKind, Helping, Move, Next, Owner, Params, Part, Signature,
};
use module_states::wanted::{a_def, an_equal};
use ocl_parse::frame::{Move as MoveInside, Next as NextInside};
use ocl_parse::sign::{Ender, Sign};
use ocl_parse::stack::Stack;
use ocl_parse::step::step as step_inside;
use ocl_parse::symbol::Symbol;
use sqlite_items::{Boxed, Items};
use std::alloc::{AllocError, Global};

/// A type begins.
pub fn begin(alloc: Global, purpose: ForKind) -> Result<Next, AllocError>
    ensures { IfOk result (λ n. InKind (for_kind_of purpose) [] N.Kind ≡ state_of n) }
{
    let purpose = Boxed::new(alloc, purpose)?;
    Ok(Next::InKind(
        purpose,
        Part {
            stack: Stack::new(alloc),
            next: NextInside::Kind,
        },
    ))
}

// Behind a parameter's type.
fn param_end(
    alloc: Global,
    owner: Owner,
    params: Items<Param>,
    content: Content,
) -> Result<Move, AllocError>
    ensures { IfOk result (λ m. comma_or_close_of (meant content) (AtParam (owner_of owner) params) (with_all_of (owner_of owner) params) ≡ step_of m) }
{
    match content {
        Content::Shared(Symbol::Fixed(Sign::End(Ender::Comma))) => {
            Ok(Move::Goes(Next::InParams(Params::Further(owner, params))))
        }
        Content::Shared(Symbol::Fixed(Sign::End(Ender::Close))) => {
            Ok(Move::Goes(with_all(alloc, owner, params)?))
        }
        _ => Ok(Move::Refuses),
    }
}

fn param(
    alloc: Global,
    owner: Owner,
    params: Items<Param>,
    name: Name,
    kind: KindNode,
    content: Content,
) -> Result<Move, AllocError>
    ensures { IfOk result (λ m. kind_end_of (ForParam (owner_of owner) params name) kind (meant content) ≡ step_of m) }
{
    let mut params = params;
    params.push(Param { name, kind })?;
    param_end(alloc, owner, params, content)
}

fn outcome(
    alloc: Global,
    signature: Signature,
    kind: KindNode,
    content: Content,
) -> Result<Move, AllocError>
    ensures { IfOk result (λ m. kind_end_of (for_kind_of (K.Outcome signature)) kind (meant content) ≡ step_of m) }
{
    let then = begin_expr(alloc, ForExpr::Body(signature, kind))?;
    Ok(an_equal(content, then))
}

fn local(
    alloc: Global,
    draft: Boxed<Draft>,
    name: Name,
    kind: KindNode,
    content: Content,
) -> Result<Move, AllocError>
    ensures { IfOk result (λ m. kind_end_of (for_kind_of (K.Local draft name)) kind (meant content) ≡ step_of m) }
{
    let then = begin_expr(alloc, ForExpr::Local(draft, name, kind))?;
    Ok(an_equal(content, then))
}

fn context(before: Module, kind: KindNode, content: Content) -> Move
    ensures { kind_end_of (for_kind_of (K.Context before)) kind (meant content) ≡ step_of result }
{
    a_def(
        content,
        Next::InHelper(Helping::DefColon(before, Some(kind))),
    )
}

// A type, and what stands behind it.
fn kind_end(
    alloc: Global,
    purpose: ForKind,
    kind: KindNode,
    content: Content,
) -> Result<Move, AllocError>
    ensures { IfOk result (λ m. kind_end_of (for_kind_of purpose) kind (meant content) ≡ step_of m) }
{
    match purpose {
        ForKind::Context(before) => Ok(context(before, kind, content)),
        ForKind::Param(owner, params, name) => param(alloc, owner, params, name, kind, content),
        ForKind::Outcome(signature) => outcome(alloc, signature, kind, content),
        ForKind::Local(draft, name) => local(alloc, draft, name, kind, content),
    }
}

// More of a type.
fn kind_goes(
    alloc: Global,
    purpose: Boxed<ForKind>,
    part: Part,
    content: Content,
    place: Place,
) -> Result<Move, AllocError>
    ensures { IfOk result (λ m. kind_goes_of (for_kind_of purpose) (stepped true part.stack part.next (symbol_in (meant content)) place) ≡ step_of m) }
{
    let Part { stack, next } = part;
    let mut stack = stack;
    match step_inside(alloc, &mut stack, next, symbol(content), place)? {
        MoveInside::Goes(next) => Ok(Move::Goes(Next::InKind(purpose, Part { stack, next }))),
        MoveInside::Stops(_) => Ok(Move::Refuses),
        MoveInside::Refuses => Ok(Move::Refuses),
        MoveInside::TooDeep(_) => Ok(Move::Refuses),
    }
}

// Behind a type, which ends there unless it is within another.
fn have_kind(
    alloc: Global,
    purpose: Boxed<ForKind>,
    stack: Stack,
    kind: KindNode,
    content: Content,
    place: Place,
) -> Result<Move, AllocError>
    ensures { IfOk result (λ m. in_kind_of (for_kind_of purpose) (N.HaveKind kind) stack (meant content) place ≡ step_of m) }
{
    let mut stack = stack;
    match stack.pop() {
        None => kind_end(alloc, purpose.into_inner(), kind, content),
        Some(frame) => {
            stack.push(frame)?;
            let next = NextInside::HaveKind(kind);
            kind_goes(alloc, purpose, Part { stack, next }, content, place)
        }
    }
}

/// One token of a type, or behind it.
pub fn step(
    alloc: Global,
    purpose: Boxed<ForKind>,
    part: Part,
    content: Content,
    place: Place,
) -> Result<Move, AllocError>
    ensures { IfOk result (λ m. in_kind_of (for_kind_of purpose) part.next part.stack (meant content) place ≡ step_of m) }
{
    let Part { stack, next } = part;
    match next {
        NextInside::HaveKind(kind) => have_kind(alloc, purpose, stack, kind, content, place),
        next => kind_goes(alloc, purpose, Part { stack, next }, content, place),
    }
}

// Whether it is a word for a kind of collection.
fn is_coll(content: &Content) -> bool
    ensures { result ≡ is_coll_of (meant content.now) }
{
    matches!(content, Content::Shared(Symbol::Fixed(Sign::Coll(_))))
}

// A context, which is no collection.
fn context_goes(
    alloc: Global,
    before: Module,
    content: Content,
    place: Place,
) -> Result<Move, AllocError>
    ensures { IfOk result (λ m. in_kind_of (for_kind_of (K.Context before)) N.Kind [] (meant content) place ≡ step_of m) }
{
    let part = Part {
        stack: Stack::new(alloc),
        next: NextInside::Kind,
    };
    let purpose = Boxed::new(alloc, ForKind::Context(before))?;
    kind_goes(alloc, purpose, part, content, place)
}

/// The first token of a context, which is no collection.
#[tactic(auto, using(crate::proofs::Contexts::context_refuses, crate::proofs::Contexts::context_begins))]
pub fn context_begins(
    alloc: Global,
    before: Module,
    content: Content,
    place: Place,
) -> Result<Move, AllocError>
    ensures { IfOk result (λ m. at_context_of before (meant content) place ≡ step_of m) }
{
    if is_coll(&content) {
        return Ok(Move::Refuses);
    }
    let moved = context_goes(alloc, before, content, place)?;
    Ok(moved)
}
