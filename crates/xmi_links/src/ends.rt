// Single-valued ends of references, and what each has been given.
ghost use Rattle.std.specs.Prelude.{◌≡◌, ◌∷◌, [], IfOk};
ghost use Rattle.ecore_meta.specs.declared.parts.Parts.{Parts};
ghost use Rattle.xmi_links.specs.Found.{AreEnds, IsGiven, link_in, maybe_link};
ghost use Rattle.xmi_links.specs.References.{both_ways};

use crate::links::Link;
use ecore_meta::metamodel::Metamodel;
use model_store::lookups::{is_many, opposite};
use std::alloc::{AllocError, Global};
use std::collections::HashMap;

/// The object that each single-valued end has been given.
#[derive(Drop)]
pub(crate) struct Ends {
    pub given: HashMap<(u32, u32), u32>,
}

/// No end has been given anything.
pub(crate) fn no_ends(alloc: Global) -> Ends
    ensures { (meta : Parts) → AreEnds meta [] result }
{
    Ends {
        given: HashMap::new(alloc),
    }
}

// Gives an object to an end, and says whether it had another.
fn give(meta: &Metamodel, ends: &mut Ends, end: Link) -> Result<bool, AllocError>
    ensures { IfOk result (λ clash. IsGiven meta.now ends.old (link_in end ∷ []) clash ends.new) }
{
    if is_many(meta, end.by) {
        return Ok(false);
    }
    if let Some(known) = ends.given.get(&(end.from.0, end.by.0)) {
        return Ok(*known != end.to.0);
    }
    ends.given.insert((end.from.0, end.by.0), end.to.0)?;
    Ok(false)
}

// The other end of a link.
fn turned(meta: &Metamodel, link: Link) -> Option<Link>
    ensures { both_ways meta.now (link_in link) ≡ link_in link ∷ maybe_link result }
{
    let by = opposite(meta, link.by)?;
    Some(Link {
        from: link.to,
        by,
        to: link.from,
    })
}

/// Gives both ends of a link what it says, and says whether one of them had another object.
pub(crate) fn clashes(meta: &Metamodel, ends: &mut Ends, link: Link) -> Result<bool, AllocError>
    ensures { IfOk result (λ clash. IsGiven meta.now ends.old (both_ways meta.now (link_in link)) clash ends.new) }
{
    if give(meta, ends, link)? {
        return Ok(true);
    }
    match turned(meta, link) {
        Some(other) => give(meta, ends, other),
        None => Ok(false),
    }
}
