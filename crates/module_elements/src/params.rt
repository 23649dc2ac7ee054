// Parameters, of helpers and rules.
ghost use Rattle.std.specs.Prelude.{◌≡◌, [], IfOk, true};
ghost use Rattle.ocl_parse.specs.declared.frame.Next.TheVariants as N;
ghost use Rattle.module_states.specs.Machine.{AtParamColon, ForParam, Goes, InKind, a_colon as a_colon_of, a_name as a_name_of, first_param as first_param_of, step as stepped, with_all as with_all_of};
ghost use Rattle.module_states.specs.Nexts.{meant, owner_of, params_of, state_of, step_of};
ghost use Rattle.module_states.specs.declared.next.Params.TheVariants as P;

use crate::kind::begin;
use atl_base::place::Place;
use atl_tree::module::{Param, RuleSort};
use atl_tree::name::Name;
use module_states::content::Content;
use module_states::next::{ForKind, Helping, Move, Next, Owner, Params, Point, Signature};
use module_states::parts::with_params;
use module_states::wanted::{a_colon, a_name};
use ocl_parse::sign::{Ender, Sign};
use ocl_parse::symbol::Symbol;
use sqlite_items::Items;
use std::alloc::{AllocError, Global};

/// Behind all parameters.
pub fn with_all(alloc: Global, owner: Owner, params: Items<Param>) -> Result<Next, AllocError>
    ensures { IfOk result (λ n. with_all_of (owner_of owner) params ≡ state_of n) }
{
    match owner {
        Owner::OfHelper(before, context, name) => Ok(Next::InHelper(Helping::ResultColon(
            Signature {
                before,
                context,
                name,
                params: Some(params),
            },
        ))),
        Owner::OfRule(draft) => {
            let draft = with_params(alloc, draft, RuleSort::Called, params)?;
            Ok(Next::InRule(Point::CalledBrace, draft))
        }
    }
}

// A parameter where none has been read.
fn first_name(alloc: Global, owner: Owner, content: Content, place: Place) -> Move
    ensures { a_name_of (meant content) place (λ n. Goes (AtParamColon (owner_of owner) [] n)) ≡ step_of result }
{
    match a_name(content, place) {
        Some(name) => Move::Goes(Next::InParams(Params::Colon(owner, Items::new(alloc), name))),
        None => Move::Refuses,
    }
}

fn first(alloc: Global, owner: Owner, content: Content, place: Place) -> Result<Move, AllocError>
    ensures { IfOk result (λ m. first_param_of (owner_of owner) (meant content) place ≡ step_of m) }
{
    match content {
        Content::Shared(Symbol::Fixed(Sign::End(Ender::Close))) => {
            Ok(Move::Goes(with_all(alloc, owner, Items::new(alloc))?))
        }
        other => Ok(first_name(alloc, owner, other, place)),
    }
}

fn further(owner: Owner, params: Items<Param>, content: Content, place: Place) -> Move
    ensures { stepped true (params_of (P.Further owner params)) (meant content) place ≡ step_of result }
{
    match a_name(content, place) {
        Some(name) => Move::Goes(Next::InParams(Params::Colon(owner, params, name))),
        None => Move::Refuses,
    }
}

// `:` behind a parameter.
fn colon(
    alloc: Global,
    owner: Owner,
    params: Items<Param>,
    name: Name,
    content: Content,
) -> Result<Move, AllocError>
    ensures { IfOk result (λ m. a_colon_of (meant content) (InKind (ForParam (owner_of owner) params name) [] N.Kind) ≡ step_of m) }
{
    let then = begin(alloc, ForKind::Param(owner, params, name))?;
    Ok(a_colon(content, then))
}

/// One token of parameters.
pub fn step(
    alloc: Global,
    params: Params,
    content: Content,
    place: Place,
) -> Result<Move, AllocError>
    ensures { IfOk result (λ m. stepped true (params_of params) (meant content) place ≡ step_of m) }
{
    match params {
        Params::First(owner) => first(alloc, owner, content, place),
        Params::Further(owner, params) => Ok(further(owner, params, content, place)),
        Params::Colon(owner, params, name) => colon(alloc, owner, params, name, content),
    }
}
