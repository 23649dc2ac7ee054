// Classes that are none, or have no objects of their own.
ghost use Rattle.std.specs.Prelude.{◌≡◌, IfOk, false, slice_get};
ghost use Rattle.std.specs.Option.{option_map_or};
ghost use Rattle.xmi_models.specs.Faults.{asked_class as asked_class_of, class_value as class_value_of, class_fault as class_fault_in, class_faults as class_faults_of};
ghost use Rattle.xmi_models.specs.Entries.{part_in, entry_of};
ghost use Rattle.xmi_models.specs.FoundFaults.{fault_in};

use crate::attribute::may_have_type;
use crate::fault::{Fault, Kind, told, told_where};
use crate::outline::type_text;
use crate::part::{Entry, Part};
use atl_base::numbers::ClassId;
use atl_base::text::Text;
use std::alloc::{AllocError, Global};
use xmi_names::vocabulary::Vocabulary;

fn asked_class(part: Part) -> Option<Option<ClassId>>
    ensures { result ≡ asked_class_of (part_in part) }
{
    match part {
        Part::Root(class) => Some(class),
        Part::Content(_, _, class) => Some(class),
        Part::Cross(_, class) => Some(class),
        Part::Unknown(class) => class,
        _ => None,
    }
}

// The text of an element's type, else its name.
fn type_or_name<'a>(entry: &Entry<'a>) -> &'a Text
    ensures { result.now ≡ class_value_of (entry_of entry.now) }
{
    if may_have_type(entry.part) {
        if let Some(text) = type_text(entry.element) {
            return text;
        }
    }
    &entry.element.name
}

fn is_abstract(meta: &Vocabulary<'_>, class: ClassId) -> bool
    ensures { result ≡ option_map_or (λ class. class.is_abstract) (slice_get meta.now.classes class.0) false }
{
    match meta.metamodel().classes().get(class.0 as usize) {
        Some(class) => class.is_abstract,
        None => false,
    }
}

// What is wrong with the class that an element asks for.
fn asked_fault(
    alloc: Global,
    meta: &Vocabulary<'_>,
    entry: &Entry<'_>,
    asked: Option<ClassId>,
) -> Result<Option<Fault>, AllocError>
    ensures { IfOk result (λ f. fault_in f ≡ class_fault_in meta.now (entry_of entry.now) asked) }
{
    let value = type_or_name(entry);
    match asked {
        Some(class) => told_where(alloc, is_abstract(meta, class), Kind::Abstract, value),
        None => told(alloc, Kind::NoClass, value),
    }
}

/// A class that is none, or is abstract.
pub(crate) fn class_fault(
    alloc: Global,
    meta: &Vocabulary<'_>,
    entry: &Entry<'_>,
) -> Result<Option<Fault>, AllocError>
    ensures { IfOk result (λ f. fault_in f ≡ class_faults_of meta.now (entry_of entry.now)) }
{
    match asked_class(entry.part) {
        Some(asked) => asked_fault(alloc, meta, entry, asked),
        None => Ok(None),
    }
}
