// In a rule: its sources, its guard, `using`, `do`.
ghost use Rattle.std.specs.Prelude.{◌≡◌, [], IfOk, true};
ghost use Rattle.ocl_parse.specs.declared.frame.Next.TheVariants as N;
ghost use Rattle.atl_tree.specs.declared.module.Item.TheVariants as I;
ghost use Rattle.module_states.specs.Machine.{AtClass, AtItem, AtLocalColon, ForLocalKind, Goes, InKind, a_colon as a_colon_of, a_name as a_name_of, at_do as at_do_of, at_from as at_from_of, at_guard as at_guard_of, at_local as at_local_of, at_rest as at_rest_of, at_to as at_to_of, source_end as source_end_of, step as stepped, target_end as target_end_of};
ghost use Rattle.module_grammar.specs.Parts.{with_item as with_item_of};
ghost use Rattle.module_states.specs.Nexts.{colon_of, is_using as is_using_of, meant, purpose_of, rule_of, step_of};
ghost use Rattle.module_states.specs.declared.next.Point.TheVariants as R;

use crate::expr::begin as begin_expr;
use crate::kind::begin as begin_kind;
use atl_base::place::Place;
use atl_tree::module::{Item, RuleSort};
use atl_tree::name::Name;
use atl_tree::statements::Statements;
use module_grammar::keyword::Keyword;
use module_states::content::Content;
use module_states::next::{
    Block, Class, Classing, Colon, Draft, ForExpr, ForKind, Move, Next, Point, Purpose, Stating,
};
use module_states::parts::{with_item, with_parent};
use module_states::wanted::{a_brace, a_close, a_colon, a_name};
use ocl_parse::sign::{Ender, Sign};
use ocl_parse::symbol::Symbol;
use sqlite_items::{Boxed, Items};
use std::alloc::{AllocError, Global};

fn parent(
    alloc: Global,
    draft: Boxed<Draft>,
    content: Content,
    place: Place,
) -> Result<Move, AllocError>
    ensures { IfOk result (λ m. stepped true (rule_of R.Parent draft.before draft.rule) (meant content) place ≡ step_of m) }
{
    match a_name(content, place) {
        Some(name) => {
            let draft = with_parent(alloc, draft, name)?;
            Ok(Move::Goes(Next::InRule(Point::Brace, draft)))
        }
        None => Ok(Move::Refuses),
    }
}

fn from(draft: Boxed<Draft>, content: Content) -> Move
    ensures { at_from_of draft.before draft.rule (meant content) ≡ step_of result }
{
    match content {
        Content::Word(Keyword::From) => Move::Goes(Next::InRule(Point::Source, draft)),
        _ => Move::Refuses,
    }
}

// A name behind which a colon is wanted.
fn source(draft: Boxed<Draft>, content: Content, place: Place) -> Move
    ensures { stepped true (rule_of R.Source draft.before draft.rule) (meant content) place ≡ step_of result }
{
    match a_name(content, place) {
        Some(name) => Move::Goes(Next::BeforeColon(Colon::Source, draft, name)),
        None => Move::Refuses,
    }
}

fn target(draft: Boxed<Draft>, content: Content, place: Place) -> Move
    ensures { stepped true (rule_of R.Target draft.before draft.rule) (meant content) place ≡ step_of result }
{
    match a_name(content, place) {
        Some(name) => Move::Goes(Next::BeforeColon(Colon::Target, draft, name)),
        None => Move::Refuses,
    }
}

// The rule is over.
fn rule_ends(draft: Boxed<Draft>) -> Result<Move, AllocError>
    ensures { IfOk result (λ m. Goes (AtItem (with_item_of draft.before (I.Make draft.rule))) ≡ step_of m) }
{
    let Draft { before, rule } = draft.into_inner();
    let before = with_item(before, Item::Make(rule))?;
    Ok(Move::Goes(Next::Item(before)))
}

// `do`, or the end of a rule.
fn at_do(draft: Boxed<Draft>, content: Content) -> Result<Move, AllocError>
    ensures { IfOk result (λ m. at_do_of draft.before draft.rule (meant content) ≡ step_of m) }
{
    match content {
        Content::Word(Keyword::Do) => Ok(Move::Goes(Next::InRule(Point::Do, draft))),
        Content::Shared(Symbol::Fixed(Sign::End(Ender::CloseBrace))) => rule_ends(draft),
        _ => Ok(Move::Refuses),
    }
}

fn at_to(draft: Boxed<Draft>, content: Content) -> Result<Move, AllocError>
    ensures { IfOk result (λ m. at_to_of draft.before draft.rule (meant content) ≡ step_of m) }
{
    match content {
        Content::Word(Keyword::To) => Ok(Move::Goes(Next::InRule(Point::Target, draft))),
        other => at_do(draft, other),
    }
}

fn is_using(content: &Content) -> bool
    ensures { result ≡ is_using_of (meant content.now) }
{
    matches!(content, Content::Word(Keyword::Using))
}

#[tactic(auto, using(crate::proofs::Contexts::rest_using, crate::proofs::Contexts::rest_else))]
fn at_rest(draft: Boxed<Draft>, content: Content) -> Result<Move, AllocError>
    ensures { IfOk result (λ m. at_rest_of draft.before draft.rule (meant content) ≡ step_of m) }
{
    if is_using(&content) {
        return Ok(Move::Goes(Next::InRule(Point::Using, draft)));
    }
    let moved = at_to(draft, content)?;
    Ok(moved)
}

// A guard, where the rule is not lazy.
fn at_guard(alloc: Global, draft: Boxed<Draft>) -> Result<Move, AllocError>
    ensures { IfOk result (λ m. at_guard_of draft.before draft.rule draft.rule.sort ≡ step_of m) }
{
    match draft.get().rule.sort {
        RuleSort::Matched => Ok(Move::Goes(begin_expr(alloc, ForExpr::Guard(draft))?)),
        RuleSort::Lazy => Ok(Move::Refuses),
        RuleSort::Unique => Ok(Move::Refuses),
        RuleSort::Called => Ok(Move::Refuses),
        RuleSort::Entry => Ok(Move::Refuses),
        RuleSort::End => Ok(Move::Refuses),
    }
}

fn source_end(alloc: Global, draft: Boxed<Draft>, content: Content) -> Result<Move, AllocError>
    ensures { IfOk result (λ m. source_end_of draft.before draft.rule (meant content) ≡ step_of m) }
{
    match content {
        Content::Shared(Symbol::Fixed(Sign::End(Ender::Comma))) => {
            Ok(Move::Goes(Next::InRule(Point::Source, draft)))
        }
        Content::Shared(Symbol::Fixed(Sign::Open)) => at_guard(alloc, draft),
        other => at_rest(draft, other),
    }
}

// A variable of `using`.
fn local_name(draft: Boxed<Draft>, content: Content, place: Place) -> Move
    ensures { a_name_of (meant content) place (λ n. Goes (AtLocalColon draft.before draft.rule n)) ≡ step_of result }
{
    match a_name(content, place) {
        Some(name) => Move::Goes(Next::BeforeColon(Colon::Local, draft, name)),
        None => Move::Refuses,
    }
}

fn at_local(draft: Boxed<Draft>, content: Content, place: Place) -> Move
    ensures { at_local_of draft.before draft.rule (meant content) place ≡ step_of result }
{
    match content {
        Content::Shared(Symbol::Fixed(Sign::End(Ender::CloseBrace))) => {
            Move::Goes(Next::InRule(Point::To, draft))
        }
        other => local_name(draft, other, place),
    }
}

/// Behind a target, or its bindings.
pub fn target_end(draft: Boxed<Draft>, content: Content) -> Result<Move, AllocError>
    ensures { IfOk result (λ m. target_end_of draft.before draft.rule (meant content) ≡ step_of m) }
{
    match content {
        Content::Shared(Symbol::Fixed(Sign::End(Ender::Comma))) => {
            Ok(Move::Goes(Next::InRule(Point::Target, draft)))
        }
        other => at_do(draft, other),
    }
}

// `{` behind `do`.
fn do_brace(alloc: Global, draft: Boxed<Draft>, content: Content, place: Place) -> Move
    ensures { stepped true (rule_of R.Do draft.before draft.rule) (meant content) place ≡ step_of result }
{
    let block = Block {
        draft,
        outer: Items::new(alloc),
        stats: Statements::new(alloc),
    };
    a_brace(content, Next::InBlock(Stating::Statement(block)))
}

// `}` behind the statements of `do`.
fn rule_end(draft: Boxed<Draft>, content: Content, place: Place) -> Result<Move, AllocError>
    ensures { IfOk result (λ m. stepped true (rule_of R.RuleEnd draft.before draft.rule) (meant content) place ≡ step_of m) }
{
    match content {
        Content::Shared(Symbol::Fixed(Sign::End(Ender::CloseBrace))) => rule_ends(draft),
        _ => Ok(Move::Refuses),
    }
}

/// One token in a rule.
pub fn step(
    alloc: Global,
    point: Point,
    draft: Boxed<Draft>,
    content: Content,
    place: Place,
) -> Result<Move, AllocError>
    ensures { IfOk result (λ m. stepped true (rule_of point draft.before draft.rule) (meant content) place ≡ step_of m) }
{
    match point {
        Point::Parent => parent(alloc, draft, content, place),
        Point::Brace => Ok(a_brace(content, Next::InRule(Point::From, draft))),
        Point::NoParams => Ok(a_close(content, Next::InRule(Point::CalledBrace, draft))),
        Point::CalledBrace => Ok(a_brace(content, Next::InRule(Point::Rest, draft))),
        Point::From => Ok(from(draft, content)),
        Point::Source => Ok(source(draft, content, place)),
        Point::SourceEnd => source_end(alloc, draft, content),
        Point::Rest => at_rest(draft, content),
        Point::Using => Ok(a_brace(content, Next::InRule(Point::Local, draft))),
        Point::Local => Ok(at_local(draft, content, place)),
        Point::To => at_to(draft, content),
        Point::Target => Ok(target(draft, content, place)),
        Point::TargetEnd => target_end(draft, content),
        Point::Do => Ok(do_brace(alloc, draft, content, place)),
        Point::RuleEnd => rule_end(draft, content, place),
    }
}

// `:` before a class.
fn class_colon(purpose: Purpose, draft: Boxed<Draft>, name: Name, content: Content) -> Move
    ensures { a_colon_of (meant content) (AtClass (purpose_of purpose draft.before draft.rule name)) ≡ step_of result }
{
    let classing = Classing {
        purpose,
        draft,
        name,
    };
    a_colon(content, Next::InClass(Class::Meta(classing)))
}

// `:` behind a variable's name.
fn local_colon(
    alloc: Global,
    draft: Boxed<Draft>,
    name: Name,
    content: Content,
) -> Result<Move, AllocError>
    ensures { IfOk result (λ m. a_colon_of (meant content) (InKind (ForLocalKind draft.before draft.rule name) [] N.Kind) ≡ step_of m) }
{
    let then = begin_kind(alloc, ForKind::Local(draft, name))?;
    Ok(a_colon(content, then))
}

/// `:` behind the name of a source, a variable or a target.
pub fn colon(
    alloc: Global,
    kind: Colon,
    draft: Boxed<Draft>,
    name: Name,
    content: Content,
    place: Place,
) -> Result<Move, AllocError>
    ensures { IfOk result (λ m. stepped true (colon_of kind draft.before draft.rule name) (meant content) place ≡ step_of m) }
{
    match kind {
        Colon::Source => Ok(class_colon(Purpose::Source, draft, name, content)),
        Colon::Local => local_colon(alloc, draft, name, content),
        Colon::Target => Ok(class_colon(Purpose::Target, draft, name, content)),
    }
}
