// Text that stands where none may.
ghost use Rattle.std.specs.Prelude.{◌≡◌};
ghost use Rattle.std.specs.List.{list_any};
ghost use Rattle.xmi_models.specs.Faults.{is_loud as is_loud_of, is_without_text as is_without_text_of, has_stray_text as has_stray_text_of};
ghost use Rattle.xmi_models.specs.Entries.{part_in, entry_of, is_element_in, has_elements_in, texts_in};
ghost use Rattle.doc_text.specs.declared.tree.Child.{out-Child};

use crate::part::{Entry, Part};
use doc_text::tree::{Child, Element};
use xmi_text::markup::has_text;

fn is_element(child: &Child) -> bool
    ensures { result ≡ is_element_in (out-Child child.now) }
{
    match child {
        Child::Sub(_) => true,
        Child::Words(_) => false,
    }
}

fn has_elements(children: &[Child]) -> bool
    ensures { result ≡ has_elements_in children.now }
{
    children.iter().any(|c| is_element(c))
}

// Whether all text is out of place there: in `xmi:XMI` and in objects.
fn is_without_text(part: Part) -> bool
    ensures { result ≡ is_without_text_of (part_in part) }
{
    matches!(part, Part::Around | Part::Root(_) | Part::Content(_, _, _))
}

// Whether text that is not blank stands in an element.
fn is_loud(element: &Element) -> bool
    ensures { result ≡ list_any is_loud_of (texts_in element.now.children) }
{
    has_text(element)
}

/// Whether text stands in an element where none may.
pub(crate) fn has_stray_text(entry: &Entry<'_>) -> bool
    ensures { result ≡ has_stray_text_of (entry_of entry.now) }
{
    (is_without_text(entry.part) || has_elements(entry.element.children.as_slice()))
        && is_loud(entry.element)
}
