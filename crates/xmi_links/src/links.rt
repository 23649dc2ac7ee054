// The links of a file: what its references say, in document order, or the first thing that is wrong with them.
ghost use Rattle.std.specs.Prelude.{◌≡◌, ◌≤◌, ◌++◌, ◌∷◌, [], ℕ, List, map, filter_map, flat_map, false, suc, OnOk, IfOk, if◌then◌else◌};
ghost use Rattle.atl_base.specs.declared.numbers.ObjId.{ObjId as SomeObjId};
ghost use Rattle.xmi_models.specs.Outline.{Entry as SomeEntry, is_object as is_object_of, objects_in};
ghost use Rattle.xmi_models.specs.Faults.{objects};
ghost use Rattle.xmi_models.specs.Entries.{entries_of, entry_of, part_in};
ghost use Rattle.xmi_models.specs.FoundFaults.{fault_in};
ghost use Rattle.xmi_links.specs.References.{Link as SomeLink, link as link_of, object_named, both_ways, links_of as links_of_reference, links_from, ends_of, reference_fault_from};
ghost use Rattle.xmi_links.specs.Found.{AreBearers, AreEnds, AreTexts, IsGiven, links_in, reference_in, references_in, token_in};
ghost use Rattle.xmi_links.specs.Linking.{AreLinks, IsLinked, IsLinkedAt, IsStep};

use crate::ends::{Ends, clashes, no_ends};
use crate::ids::Ids;
use crate::objects::object_no;
use crate::reference_fault::{feature_name, tokens_fault};
use crate::references::{Reference, Token, references_at};
use crate::tokens::Named;
use atl_base::numbers::{FeatId, ObjId};
use ecore_meta::metamodel::Metamodel;
use model_store::sketch::Sketch;
use std::alloc::{AllocError, Global};
use xmi_models::fault::{Fault, FoundFault, Kind};
use xmi_models::part::{Entry, Part, is_object};

/// One object refers to another by a feature.
#[derive(Clone, Copy)]
pub(crate) struct Link {
    pub from: ObjId,
    pub by: FeatId,
    pub to: ObjId,
}

/// The links so far, and what single-valued ends have.
#[derive(Drop)]
pub(crate) struct Linked {
    pub links: Vec<Link>,
    pub ends: Ends,
}

// The link that a token of a reference is, where it names an object.
fn push_token(
    links: &mut Vec<Link>,
    from: ObjId,
    by: FeatId,
    token: &Token<'_>,
) -> Result<(), AllocError>
    ensures { OnOk result (links_in links.new.items ≡ links_in links.old.items ++ map (link_of from by) (filter_map (λ t. object_named t.named) (token_in token.now ∷ []))) }
{
    if let Named::Object(to) = token.named {
        links.push(Link { from, by, to })?;
    }
    Ok(())
}

// The links that a reference is.
fn links_of_tokens(
    alloc: Global,
    from: ObjId,
    by: FeatId,
    tokens: &[Token<'_>],
) -> Result<Vec<Link>, AllocError>
    ensures { IfOk result (λ links. links_in links.items ≡ map (link_of from by) (filter_map (λ t. object_named t.named) (map token_in tokens.now))) }
{
    let mut links = Vec::new(alloc);
    for i in 0..tokens.len() {
        push_token(&mut links, from, by, &tokens[i])?;
    }
    Ok(links)
}

// Gives the ends of links what they say, and says whether one of them had another object.
fn give_all(meta: &Metamodel, ends: &mut Ends, links: &[Link]) -> Result<bool, AllocError>
    ensures { IfOk result (λ clash. IsGiven meta.now ends.old (flat_map (both_ways meta.now) (links_in links.now)) clash ends.new) }
{
    for i in 0..links.len() {
        if clashes(meta, ends, links[i])? {
            return Ok(true);
        }
    }
    Ok(false)
}

fn push_links(links: &mut Vec<Link>, more: &[Link]) -> Result<(), AllocError>
    ensures { OnOk result (links_in links.new.items ≡ links_in links.old.items ++ links_in more.now) }
{
    for i in 0..more.len() {
        links.push(more[i])?;
    }
    Ok(())
}

// Adds the links of a reference, and says whether one of them gives an end a second object.
fn push_reference(
    alloc: Global,
    meta: &Metamodel,
    found: &mut Linked,
    reference: &Reference<'_>,
) -> Result<bool, AllocError>
    ensures ends { IfOk result (λ clash. IsGiven meta.now found.old.ends (ends_of meta.now (reference_in reference.now)) clash found.new.ends) }
    ensures links { IfOk result (λ clash. clash ≡ false → links_in found.new.links.items ≡ links_in found.old.links.items ++ links_of_reference (reference_in reference.now)) }
{
    let tokens = reference.tokens.as_slice();
    let links = links_of_tokens(alloc, reference.source, reference.feature, tokens)?;
    if give_all(meta, &mut found.ends, &links)? {
        return Ok(true);
    }
    push_links(&mut found.links, &links)?;
    Ok(false)
}

// Adds the links of all references of an element, or gives the first that gives an end a second object.
fn push_all(
    alloc: Global,
    meta: &Metamodel,
    found: &mut Linked,
    references: &[Reference<'_>],
) -> Result<Option<Fault>, AllocError>
    ensures { IfOk result (λ f. (before : List SomeLink) → AreEnds meta.now before found.old.ends
        → IsLinked meta.now before (references_in references.now) found.old (fault_in f) found.new) }
{
    for i in 0..references.len() {
        if push_reference(alloc, meta, found, &references[i])? {
            let value = feature_name(alloc, meta, references[i].feature)?;
            return Ok(Some(Fault {
                kind: Kind::TwoEnds,
                value,
            }));
        }
    }
    Ok(None)
}

// The same, where nothing else is wrong at the element.
fn push_element(
    alloc: Global,
    sketch: &Sketch,
    ids: &Ids<'_>,
    found: &mut Linked,
    o: ObjId,
    entry: &Entry<'_>,
) -> Result<Option<Fault>, AllocError>
    ensures { IfOk result (λ f. (who : List ℕ → List SomeObjId) (before : List SomeLink) → AreBearers who ids.now → AreEnds sketch.now.meta before found.old.ends
        → IsLinkedAt sketch.now who before o (entry_of entry.now) found.old (fault_in f) found.new) }
{
    let references = references_at(alloc, sketch, ids, o, entry)?;
    if let Some(fault) = tokens_fault(alloc, sketch, entry.part, &references)? {
        return Ok(Some(fault));
    }
    push_all(alloc, sketch.meta(), found, &references)
}

// Where objects go on being numbered behind an element.
pub(crate) fn past(number: usize, part: Part) -> usize
    requires { number ≤ 1000000 }
    ensures { result ≡ (if is_object_of (part_in part) then suc number else number) }
{
    if is_object(part) { number + 1 } else { number }
}

// Adds the links of an element, which is the object of this number where it is one, or gives the first thing that is wrong with them.
fn push_entry(
    alloc: Global,
    sketch: &Sketch,
    ids: &Ids<'_>,
    found: &mut Linked,
    number: usize,
    entry: &Entry<'_>,
) -> Result<Option<FoundFault>, AllocError>
    requires { number ≤ 1000000 }
    ensures { IfOk result (λ wrong. (who : List ℕ → List SomeObjId) (before : List SomeLink) (rest : List SomeEntry) → AreBearers who ids.now → AreEnds sketch.now.meta before found.old.ends
        → IsStep sketch.now who before number (if is_object_of (part_in entry.now.part) then suc number else number) (entry_of entry.now) rest found.old wrong found.new) }
{
    if !is_object(entry.part) {
        return Ok(None);
    }
    match push_element(alloc, sketch, ids, found, object_no(number), entry)? {
        Some(fault) => Ok(Some(FoundFault {
            fault,
            place: entry.element.place,
        })),
        None => Ok(None),
    }
}

/// The links of a file, or the first thing that is wrong with its references.
pub(crate) fn links_of(
    alloc: Global,
    sketch: &Sketch,
    ids: &Ids<'_>,
    file: &[Entry<'_>],
) -> Result<Result<Linked, FoundFault>, AllocError>
    requires { objects_in (entries_of file.now) ≤ 1000000 }
    ensures { IfOk result (λ found. (who : List ℕ → List SomeObjId) → AreBearers who ids.now
        → AreLinks (reference_fault_from sketch.now who 0 [] (objects (entries_of file.now))) (links_from sketch.now who 0 (objects (entries_of file.now))) found) }
{
    let mut found = Linked {
        links: Vec::new(alloc),
        ends: no_ends(alloc),
    };
    let mut number = 0;
    for i in 0..file.len() {
        let entry = &file[i];
        if let Some(wrong) = push_entry(alloc, sketch, ids, &mut found, number, entry)? {
            return Ok(Err(wrong));
        }
        number = past(number, entry.part);
    }
    Ok(Ok(found))
}
