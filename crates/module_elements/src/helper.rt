// Helpers, up to their types.
ghost use Rattle.std.specs.Prelude.{◌≡◌, [], IfOk, true};
ghost use Rattle.ocl_parse.specs.declared.frame.Next.TheVariants as N;
ghost use Rattle.module_states.specs.Machine.{InKind, a_colon as a_colon_of, at_helper as at_helper_of, at_signature as at_signature_of, step as stepped};
ghost use Rattle.module_states.specs.Nexts.{for_kind_of, helping_of, meant, step_of};
ghost use Rattle.module_states.specs.declared.next.ForKind.TheVariants as K;
ghost use Rattle.module_states.specs.declared.next.Helping.TheVariants as L;

use crate::kind::{begin, context_begins};
use atl_base::place::Place;
use atl_tree::kind::KindNode;
use atl_tree::module::Module;
use atl_tree::name::Name;
use module_grammar::keyword::Keyword;
use module_states::content::Content;
use module_states::next::{ForKind, Helping, Move, Next, Owner, Params, Signature};
use module_states::wanted::{a_colon, a_name};
use ocl_parse::sign::Sign;
use ocl_parse::symbol::Symbol;
use std::alloc::{AllocError, Global};

fn begun(before: Module, content: Content) -> Move
    ensures { at_helper_of before (meant content) ≡ step_of result }
{
    match content {
        Content::Word(Keyword::Context) => Move::Goes(Next::InHelper(Helping::Context(before))),
        Content::Word(Keyword::Def) => Move::Goes(Next::InHelper(Helping::DefColon(before, None))),
        _ => Move::Refuses,
    }
}

fn helper_name(before: Module, context: Option<KindNode>, content: Content, place: Place) -> Move
    ensures { stepped true (helping_of (L.HelperName before context)) (meant content) place ≡ step_of result }
{
    match a_name(content, place) {
        Some(name) => Move::Goes(Next::InHelper(Helping::Named(before, context, name))),
        None => Move::Refuses,
    }
}

// Behind a helper's name.
fn named(
    alloc: Global,
    before: Module,
    context: Option<KindNode>,
    name: Name,
    content: Content,
) -> Result<Move, AllocError>
    ensures { IfOk result (λ m. at_signature_of before context name (meant content) ≡ step_of m) }
{
    match content {
        Content::Shared(Symbol::Fixed(Sign::Open)) => Ok(Move::Goes(Next::InParams(Params::First(
            Owner::OfHelper(before, context, name),
        )))),
        Content::Shared(Symbol::Fixed(Sign::Colon)) => {
            let signature = Signature {
                before,
                context,
                name,
                params: None,
            };
            Ok(Move::Goes(begin(alloc, ForKind::Outcome(signature))?))
        }
        _ => Ok(Move::Refuses),
    }
}

// `:` behind parameters.
fn result_colon(alloc: Global, signature: Signature, content: Content) -> Result<Move, AllocError>
    ensures { IfOk result (λ m. a_colon_of (meant content) (InKind (for_kind_of (K.Outcome signature)) [] N.Kind) ≡ step_of m) }
{
    let then = begin(alloc, ForKind::Outcome(signature))?;
    Ok(a_colon(content, then))
}

/// One token of a helper.
pub fn step(
    alloc: Global,
    helping: Helping,
    content: Content,
    place: Place,
) -> Result<Move, AllocError>
    ensures { IfOk result (λ m. stepped true (helping_of helping) (meant content) place ≡ step_of m) }
{
    match helping {
        Helping::Begun(before) => Ok(begun(before, content)),
        Helping::Context(before) => context_begins(alloc, before, content, place),
        Helping::DefColon(before, context) => Ok(a_colon(
            content,
            Next::InHelper(Helping::HelperName(before, context)),
        )),
        Helping::HelperName(before, context) => Ok(helper_name(before, context, content, place)),
        Helping::Named(before, context, name) => named(alloc, before, context, name, content),
        Helping::ResultColon(signature) => result_colon(alloc, signature, content),
    }
}
