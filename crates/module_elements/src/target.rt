// The classes of sources and targets, and the bindings of targets.
ghost use Rattle.std.specs.Prelude.{◌≡◌, IfOk, true};
ghost use Rattle.module_states.specs.Machine.{AtGives, AtTargetEnd, Goes, a_name as a_name_of, at_binds as at_binds_of, classed as classed_of, first_bind as first_bind_of, step as stepped, target_end as target_end_of};
ghost use Rattle.module_grammar.specs.Parts.{class as class_with, with_target as with_target_of};
ghost use Rattle.module_states.specs.Nexts.{class_of, classing_of, meant, state_of, step_of, target_of};
ghost use Rattle.module_states.specs.declared.next.Class.TheVariants as C;

use crate::expr::begin;
use crate::rule::target_end;
use atl_base::place::Place;
use atl_tree::module::{Pattern, Target};
use atl_tree::name::{ClassRef, Name};
use module_states::content::Content;
use module_states::next::{
    Class, Classing, Draft, ForExpr, Move, Next, Point, Purpose, TargetPoint,
};
use module_states::parts::{new_target, with_source, with_target};
use module_states::wanted::{a_bang, a_gives, a_name};
use ocl_parse::sign::{Ender, Sign};
use ocl_parse::symbol::Symbol;
use sqlite_items::Boxed;
use std::alloc::{AllocError, Global};

fn meta(classing: Classing, content: Content, place: Place) -> Move
    ensures { stepped true (class_of (C.Meta classing)) (meant content) place ≡ step_of result }
{
    match a_name(content, place) {
        Some(name) => Move::Goes(Next::InClass(Class::Bang(classing, name))),
        None => Move::Refuses,
    }
}

// The class of a source or a target has been read.
fn classed(alloc: Global, classing: Classing, class: ClassRef) -> Result<Next, AllocError>
    ensures { IfOk result (λ n. classed_of (classing_of classing) class ≡ state_of n) }
{
    let Classing {
        purpose,
        draft,
        name,
    } = classing;
    match purpose {
        Purpose::Source => {
            let draft = with_source(alloc, draft, Pattern { name, class })?;
            Ok(Next::InRule(Point::SourceEnd, draft))
        }
        Purpose::Target => Ok(Next::InTarget(
            TargetPoint::Binds,
            draft,
            new_target(alloc, name, class),
        )),
    }
}

// The class of a metamodel's name and its own.
fn class(meta: Name, name: Name) -> ClassRef
    ensures { result ≡ class_with meta name }
{
    let Name { text: meta, place } = meta;
    let Name {
        text: class,
        place: _,
    } = name;
    ClassRef { meta, class, place }
}

fn class_name(
    alloc: Global,
    classing: Classing,
    meta: Name,
    content: Content,
    place: Place,
) -> Result<Move, AllocError>
    ensures { IfOk result (λ m. stepped true (class_of (C.ClassName classing meta)) (meant content) place ≡ step_of m) }
{
    match a_name(content, place) {
        Some(name) => Ok(Move::Goes(classed(alloc, classing, class(meta, name))?)),
        None => Ok(Move::Refuses),
    }
}

/// One token of a class.
pub fn step_class(
    alloc: Global,
    class: Class,
    content: Content,
    place: Place,
) -> Result<Move, AllocError>
    ensures { IfOk result (λ m. stepped true (class_of class) (meant content) place ≡ step_of m) }
{
    match class {
        Class::Meta(classing) => Ok(meta(classing, content, place)),
        Class::Bang(classing, name) => {
            Ok(a_bang(content, Next::InClass(Class::ClassName(classing, name))))
        }
        Class::ClassName(classing, name) => class_name(alloc, classing, name, content, place),
    }
}

// Behind a target without bindings.
fn unbound(
    alloc: Global,
    draft: Boxed<Draft>,
    target: Target,
    content: Content,
) -> Result<Move, AllocError>
    ensures { IfOk result (λ m. target_end_of draft.before (with_target_of draft.rule target) (meant content) ≡ step_of m) }
{
    let draft = with_target(alloc, draft, target)?;
    target_end(draft, content)
}

fn at_binds(
    alloc: Global,
    draft: Boxed<Draft>,
    target: Target,
    content: Content,
) -> Result<Move, AllocError>
    ensures { IfOk result (λ m. at_binds_of draft.before draft.rule target (meant content) ≡ step_of m) }
{
    match content {
        Content::Shared(Symbol::Fixed(Sign::Open)) => {
            Ok(Move::Goes(Next::InTarget(TargetPoint::FirstBind, draft, target)))
        }
        other => unbound(alloc, draft, target, other),
    }
}

fn bind(draft: Boxed<Draft>, target: Target, content: Content, place: Place) -> Move
    ensures { a_name_of (meant content) place (λ n. Goes (AtGives draft.before draft.rule target n)) ≡ step_of result }
{
    match a_name(content, place) {
        Some(name) => Move::Goes(Next::Gives(draft, target, name)),
        None => Move::Refuses,
    }
}

/// The target is over, behind its bindings.
pub fn bound(alloc: Global, draft: Boxed<Draft>, target: Target) -> Result<Next, AllocError>
    ensures { IfOk result (λ n. AtTargetEnd draft.before (with_target_of draft.rule target) ≡ state_of n) }
{
    let draft = with_target(alloc, draft, target)?;
    Ok(Next::InRule(Point::TargetEnd, draft))
}

fn first_bind(
    alloc: Global,
    draft: Boxed<Draft>,
    target: Target,
    content: Content,
    place: Place,
) -> Result<Move, AllocError>
    ensures { IfOk result (λ m. first_bind_of draft.before draft.rule target (meant content) place ≡ step_of m) }
{
    match content {
        Content::Shared(Symbol::Fixed(Sign::End(Ender::Close))) => {
            Ok(Move::Goes(bound(alloc, draft, target)?))
        }
        other => Ok(bind(draft, target, other, place)),
    }
}

/// One token behind a target's class.
pub fn step(
    alloc: Global,
    point: TargetPoint,
    draft: Boxed<Draft>,
    target: Target,
    content: Content,
    place: Place,
) -> Result<Move, AllocError>
    ensures { IfOk result (λ m. stepped true (target_of point draft.before draft.rule target) (meant content) place ≡ step_of m) }
{
    match point {
        TargetPoint::Binds => at_binds(alloc, draft, target, content),
        TargetPoint::FirstBind => first_bind(alloc, draft, target, content, place),
        TargetPoint::Bind => Ok(bind(draft, target, content, place)),
    }
}

/// `<-` behind a feature.
pub fn gives(
    alloc: Global,
    draft: Boxed<Draft>,
    target: Target,
    feature: Name,
    content: Content,
    place: Place,
) -> Result<Move, AllocError>
    ensures { IfOk result (λ m. stepped true (AtGives draft.before draft.rule target feature) (meant content) place ≡ step_of m) }
{
    let then = begin(alloc, ForExpr::Bind(draft, target, feature))?;
    Ok(a_gives(content, then))
}
