// The parts of a module's tree, and what they become as they grow.
ghost use Rattle.std.specs.Prelude.{◌≡◌, [], IfOk};
ghost use Rattle.module_grammar.specs.Parts.{bare as bare_of, with_item as with_item_of, with_parent as with_parent_of, with_params as with_params_of, with_source as with_source_of, with_guard as with_guard_of, with_local as with_local_of, with_target as with_target_of, with_block as with_block_of, with_bind as with_bind_of, target as target_with};
ghost use Rattle.module_states.specs.Nexts.{drafted};

use crate::next::Draft;
use atl_tree::expr::Expr;
use atl_tree::module::{Bind, Item, LocalVar, Module, Param, Pattern, Rule, RuleSort, Target};
use atl_tree::name::{ClassRef, Name};
use atl_tree::statements::Statements;
use sqlite_items::{Boxed, Items};
use std::alloc::{AllocError, Global};

/// A module with one item more.
pub fn with_item(before: Module, item: Item) -> Result<Module, AllocError>
    ensures { IfOk result (λ m. m ≡ with_item_of before item) }
{
    let mut before = before;
    before.items.push(item)?;
    Ok(before)
}

/// A rule of which the name alone is read.
pub fn bare(alloc: Global, sort: RuleSort, is_abstract: bool, name: Name) -> Rule
    ensures { result ≡ bare_of sort is_abstract name }
{
    Rule {
        sort,
        is_abstract,
        name,
        parent: None,
        params: Items::new(alloc),
        sources: Items::new(alloc),
        guard: None,
        locals: Items::new(alloc),
        targets: Items::new(alloc),
        block: None,
    }
}

/// A rule that extends another.
pub fn with_parent(
    alloc: Global,
    draft: Boxed<Draft>,
    parent: Name,
) -> Result<Boxed<Draft>, AllocError>
    ensures { IfOk result (λ d. d ≡ drafted draft.before (with_parent_of draft.rule parent)) }
{
    let mut draft = draft.into_inner();
    draft.rule.parent = Some(parent);
    Boxed::new(alloc, draft)
}

/// A called rule.
pub fn with_params(
    alloc: Global,
    draft: Boxed<Draft>,
    sort: RuleSort,
    params: Items<Param>,
) -> Result<Boxed<Draft>, AllocError>
    ensures { IfOk result (λ d. d ≡ drafted draft.before (with_params_of draft.rule sort params)) }
{
    let mut draft = draft.into_inner();
    draft.rule.sort = sort;
    draft.rule.params = params;
    Boxed::new(alloc, draft)
}

/// A rule with one source more.
pub fn with_source(
    alloc: Global,
    draft: Boxed<Draft>,
    source: Pattern,
) -> Result<Boxed<Draft>, AllocError>
    ensures { IfOk result (λ d. d ≡ drafted draft.before (with_source_of draft.rule source)) }
{
    let mut draft = draft.into_inner();
    draft.rule.sources.push(source)?;
    Boxed::new(alloc, draft)
}

/// A rule whose sources have a condition.
pub fn with_guard(
    alloc: Global,
    draft: Boxed<Draft>,
    guard: Expr,
) -> Result<Boxed<Draft>, AllocError>
    ensures { IfOk result (λ d. d ≡ drafted draft.before (with_guard_of draft.rule guard)) }
{
    let mut draft = draft.into_inner();
    draft.rule.guard = Some(guard);
    Boxed::new(alloc, draft)
}

/// A rule with one variable of `using` more.
pub fn with_local(
    alloc: Global,
    draft: Boxed<Draft>,
    local: LocalVar,
) -> Result<Boxed<Draft>, AllocError>
    ensures { IfOk result (λ d. d ≡ drafted draft.before (with_local_of draft.rule local)) }
{
    let mut draft = draft.into_inner();
    draft.rule.locals.push(local)?;
    Boxed::new(alloc, draft)
}

/// A rule with one target more.
pub fn with_target(
    alloc: Global,
    draft: Boxed<Draft>,
    target: Target,
) -> Result<Boxed<Draft>, AllocError>
    ensures { IfOk result (λ d. d ≡ drafted draft.before (with_target_of draft.rule target)) }
{
    let mut draft = draft.into_inner();
    draft.rule.targets.push(target)?;
    Boxed::new(alloc, draft)
}

/// A rule with the statements of its `do`.
pub fn with_block(
    alloc: Global,
    draft: Boxed<Draft>,
    stats: Statements,
) -> Result<Boxed<Draft>, AllocError>
    ensures { IfOk result (λ d. d ≡ drafted draft.before (with_block_of draft.rule stats)) }
{
    let mut draft = draft.into_inner();
    draft.rule.block = Some(stats);
    Boxed::new(alloc, draft)
}

/// A target of that class, without bindings.
pub fn new_target(alloc: Global, name: Name, class: ClassRef) -> Target
    ensures { result ≡ target_with name class [] }
{
    Target {
        name,
        class,
        binds: Items::new(alloc),
    }
}

/// A target with one binding more.
pub fn with_bind(target: Target, bind: Bind) -> Result<Target, AllocError>
    ensures { IfOk result (λ t. t ≡ with_bind_of target bind) }
{
    let mut target = target;
    target.binds.push(bind)?;
    Ok(target)
}
