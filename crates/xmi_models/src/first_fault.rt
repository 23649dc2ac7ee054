// The first thing that is wrong in the elements of a file, before any reference is followed.
ghost use Rattle.std.specs.Prelude.{◌≡◌, ◌+◌, ◌<◌, ◌^◌, ◌||◌, ◌++◌, ◌∷◌, [], ℕ, suc, IfOk, OnOk, List, if◌then◌else◌};
ghost use Rattle.xmi_models.specs.Outline.{Entry as SomeEntry, is_object as is_object_of, objects_in};
ghost use Rattle.xmi_models.specs.Faults.{first_of, of_kind, when as when_of, gives, bad_values, all_foreign, is_misplaced as is_misplaced_in, is_too_many as is_too_many_in, fault_at as fault_at_in, element_fault as element_fault_in, BadValue, Href, BadType, Full};
ghost use Rattle.xmi_models.specs.FoundFaults.{fault_in, told};
ghost use Rattle.xmi_models.specs.Entries.{part_in, entry_of, entries_of, object_no};
ghost use Rattle.xmi_models.specs.SeenFeatures.{AreSeen, is_given, feature_no};

use crate::class_fault::class_fault;
use crate::fault::{Fault, FoundFault, Kind, told_where};
use crate::feature_fault::feature_fault;
use crate::foreign::{first_foreign, is_misplaced};
use crate::part::{Entry, Part, is_object};
use crate::seen::{Seen, note, note_attributes, nothing};
use crate::stray::has_stray_text;
use crate::value_fault::value_fault;
use atl_base::text::Text;
use std::alloc::{AllocError, Global};
use xmi_names::vocabulary::Vocabulary;

/// So many objects a model may have.
pub(crate) const MOST_OBJECTS: usize = 1000000;

// A reference to another file.
fn foreign_fault(
    alloc: Global,
    meta: &Vocabulary<'_>,
    entry: &Entry<'_>,
) -> Result<Option<Fault>, AllocError>
    ensures { IfOk result (λ f. fault_in f ≡ of_kind Href (all_foreign meta.now (part_in entry.now.part) entry.now.element.now.attributes)) }
{
    match first_foreign(alloc, meta, entry.part, entry.element.attributes.as_slice())? {
        Some(value) => Ok(Some(Fault {
            kind: Kind::Href,
            value,
        })),
        None => Ok(None),
    }
}

// A child of a class that does not fit, or an object too many.
fn last_fault(
    alloc: Global,
    meta: &Vocabulary<'_>,
    number: usize,
    entry: &Entry<'_>,
) -> Result<Option<Fault>, AllocError>
    ensures { (before : List SomeEntry) → number ≡ objects_in before → IfOk result (λ f. fault_in f ≡ first_of (
        when_of (is_misplaced_in meta.now (part_in entry.now.part)) BadType entry.now.element.now.name
        ∷ when_of (is_too_many_in meta.now before (part_in entry.now.part)) Full []
        ∷ [])) }
{
    let name = &entry.element.name;
    if let Some(fault) = told_where(alloc, is_misplaced(meta, entry.part), Kind::BadType, name)? {
        return Ok(Some(fault));
    }
    let is_full = is_object(entry.part) && MOST_OBJECTS <= number;
    told_where(alloc, is_full, Kind::Full, &Text::new(alloc))
}

// What is wrong with the values at an element, and behind that.
fn late_fault(
    alloc: Global,
    meta: &Vocabulary<'_>,
    seen: &Seen,
    number: usize,
    entry: &Entry<'_>,
) -> Result<Option<Fault>, AllocError>
    ensures { (before : List SomeEntry) → AreSeen meta.now before seen.now → number ≡ objects_in before → IfOk result (λ f. fault_in f ≡ first_of (
        of_kind BadValue (bad_values meta.now before (entry_of entry.now))
        ∷ of_kind Href (all_foreign meta.now (part_in entry.now.part) entry.now.element.now.attributes)
        ∷ when_of (is_misplaced_in meta.now (part_in entry.now.part)) BadType entry.now.element.now.name
        ∷ when_of (is_too_many_in meta.now before (part_in entry.now.part)) Full []
        ∷ [])) }
{
    if let Some(fault) = value_fault(alloc, meta, seen, entry)? {
        return Ok(Some(fault));
    }
    if let Some(fault) = foreign_fault(alloc, meta, entry)? {
        return Ok(Some(fault));
    }
    last_fault(alloc, meta, number, entry)
}

// What is wrong at an element, where these were seen and so many objects stand before.
fn fault_at(
    alloc: Global,
    meta: &Vocabulary<'_>,
    seen: &Seen,
    number: usize,
    entry: &Entry<'_>,
) -> Result<Option<Fault>, AllocError>
    ensures { (before : List SomeEntry) → AreSeen meta.now before seen.now → number ≡ objects_in before
        → IfOk result (λ f. fault_in f ≡ fault_at_in meta.now before (entry_of entry.now)) }
{
    if let Some(fault) = class_fault(alloc, meta, entry)? {
        return Ok(Some(fault));
    }
    if let Some(fault) = feature_fault(alloc, meta, entry)? {
        return Ok(Some(fault));
    }
    let name = &entry.element.name;
    if let Some(fault) = told_where(alloc, has_stray_text(entry), Kind::StrayText, name)? {
        return Ok(Some(fault));
    }
    late_fault(alloc, meta, seen, number, entry)
}

// Notes what an element gives to the object that holds it.
fn note_child(seen: &mut Seen, part: Part) -> Result<(), AllocError>
    ensures { OnOk result ((e : SomeEntry) → e.part ≡ part_in part
        → (o f : ℕ) → is_given seen.new o f ≡ (is_given seen.old o f || gives (object_no o) (feature_no f) e)) }
{
    match part {
        Part::Value(object, feature) => note(seen, object, feature),
        Part::Content(object, feature, _) => note(seen, object, feature),
        _ => Ok(()),
    }
}

// Notes what an element gives, which is the object of this number where it is one.
fn note_entry(
    meta: &Vocabulary<'_>,
    seen: &mut Seen,
    number: usize,
    entry: &Entry<'_>,
) -> Result<(), AllocError>
    ensures { OnOk result ((before : List SomeEntry) → AreSeen meta.now before seen.old → number ≡ objects_in before
        → AreSeen meta.now (before ++ (entry_of entry.now ∷ [])) seen.new) }
{
    note_child(seen, entry.part)?;
    if is_object(entry.part) {
        let attributes = entry.element.attributes.as_slice();
        return note_attributes(meta, seen, number, entry.part, attributes);
    }
    Ok(())
}

fn past(number: usize, part: Part) -> usize
    requires { number + 1 < 2 ^ 64 }
    ensures { result ≡ (if is_object_of (part_in part) then suc number else number) }
{
    if is_object(part) { number + 1 } else { number }
}

/// The first thing that is wrong in the elements of a file.
pub fn element_fault(
    alloc: Global,
    meta: &Vocabulary<'_>,
    file: &[Entry<'_>],
) -> Result<Option<FoundFault>, AllocError>
    ensures { IfOk result (λ f. told f ≡ element_fault_in meta.now (entries_of file.now)) }
{
    let mut seen = nothing(alloc);
    let mut number = 0;
    for i in 0..file.len() {
        let entry = &file[i];
        if let Some(fault) = fault_at(alloc, meta, &seen, number, entry)? {
            return Ok(Some(FoundFault {
                fault,
                place: entry.element.place,
            }));
        }
        note_entry(meta, &mut seen, number, entry)?;
        number = past(number, entry.part);
    }
    Ok(None)
}
