// What is wrong with the names of a start tag that has been read to its end.
ghost use Rattle.std.specs.Prelude.{◌≡◌, ◌∷◌, [], IfOk};
ghost use Rattle.doc_text.specs.Namespaces.{tag_fault as tag_fault_of, pairs_fault as pairs_fault_of};
ghost use Rattle.doc_text.specs.RawTrees.{stack_of};
ghost use Rattle.doc_text.specs.State.{tags};

use crate::reading::keys::{is_among, key_of};
use crate::reading::names::uri_of;
use crate::reading::open::Open;
use crate::refusal::Fault;
use crate::state::Start;
use atl_base::place::Place;
use indexmap::IndexSet;
use std::alloc::{AllocError, Global};

// As many attributes are compared with one another. More than these are looked up in a set.
const FEW: usize = 16;

// The first fault of the attributes, each compared with those before it.
fn few_fault(
    alloc: Global,
    tag: &Start,
    outer: &[Open],
) -> Result<Option<(Fault, Place)>, AllocError>
    ensures { IfOk result (λ f. f ≡ pairs_fault_of (tag.now ∷ tags (stack_of outer.now)) [] tag.now.pairs) }
{
    let mut seen = Vec::new(alloc);
    for pair in tag.pairs.as_slice() {
        let Some(key) = key_of(&pair.name, tag, outer) else {
            return Ok(Some((Fault::Prefix, pair.name.at)));
        };
        if is_among(&seen, &key) {
            return Ok(Some((Fault::TwiceAttribute, pair.name.at)));
        }
        seen.push(key)?;
    }
    Ok(None)
}

// The first fault of the attributes, each looked up among those before it.
fn many_fault(
    alloc: Global,
    tag: &Start,
    outer: &[Open],
) -> Result<Option<(Fault, Place)>, AllocError>
    ensures { IfOk result (λ f. f ≡ pairs_fault_of (tag.now ∷ tags (stack_of outer.now)) [] tag.now.pairs) }
{
    let mut seen = IndexSet::new(alloc);
    for pair in tag.pairs.as_slice() {
        let Some(key) = key_of(&pair.name, tag, outer) else {
            return Ok(Some((Fault::Prefix, pair.name.at)));
        };
        let is_new = seen.insert(key)?;
        if !is_new {
            return Ok(Some((Fault::TwiceAttribute, pair.name.at)));
        }
    }
    Ok(None)
}

// The first fault of the attributes.
fn pairs_fault(
    alloc: Global,
    tag: &Start,
    outer: &[Open],
) -> Result<Option<(Fault, Place)>, AllocError>
    ensures { IfOk result (λ f. f ≡ pairs_fault_of (tag.now ∷ tags (stack_of outer.now)) [] tag.now.pairs) }
{
    if tag.pairs.len() <= FEW {
        few_fault(alloc, tag, outer)
    } else {
        many_fault(alloc, tag, outer)
    }
}

/// The first thing wrong with the names of a start tag in the open elements, the innermost last.
pub fn tag_fault(
    alloc: Global,
    outer: &[Open],
    tag: &Start,
) -> Result<Option<(Fault, Place)>, AllocError>
    ensures { IfOk result (λ f. f ≡ tag_fault_of (tags (stack_of outer.now)) tag.now) }
{
    match uri_of(&tag.name.prefix, tag, outer) {
        Some(_) => pairs_fault(alloc, tag, outer),
        None => Ok(Some((Fault::Prefix, tag.name.at))),
    }
}
