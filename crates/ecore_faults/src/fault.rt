// What is wrong at an element: its kind and the text that shows it.
ghost use Rattle.std.specs.Prelude.{◌≡◌, ◌&&◌, Option, Some, None, bytes_eq, [], IfSome};
ghost use Rattle.ecore_outline.specs.Outline.{name_of as name_of_entry};
ghost use Rattle.ecore_faults.specs.Faults.{Fault as SomeFault, when as when_of, or_else as or_else_of, is_not_ecore as is_not_ecore_of, is_sub_role, generic_in as generic_in_of, is_named_role as is_named_role_of, NotEcore, IsSubPackage, NoName};
ghost use Rattle.ecore_outline.specs.Entries.{entry_of, entries_of};
ghost use Rattle.ecore_faults.specs.FoundFaults.{fault_in};

use crate::element_fault::{generic_attribute, generic_child, is_named_role, is_not_ecore};
use atl_base::place::Place;
use doc_text::tree::Element;
use ecore_outline::outline::{Entry, Role};
use ecore_outline::role::name_of;

/// A kind of fault, in the order in which those of one element are told.
#[derive(Clone, Copy, Debug, PartialEq, Eq)]
pub enum Kind {
    NotEcore,
    SubPackage,
    Generic,
    NoName,
    TwiceName,
    OtherFile,
    NoType,
    SuperCycle,
    BadOpposite,
    BadNumber,
}

/// A kind of fault and its value.
#[derive(Clone, Copy)]
pub struct Fault<'a> {
    pub kind: Kind,
    pub value: &'a [u8],
}

/// The first fault of a file and the place of the element.
#[derive(Clone, Copy)]
pub struct FoundFault<'a> {
    pub fault: Fault<'a>,
    pub place: Place,
}

/// A fault where it is so.
pub(crate) fn when<'a>(is: bool, kind: Kind, value: &'a [u8]) -> Option<Fault<'a>>
    ensures { fault_in result ≡ when_of is kind value.now }
{
    if is {
        return Some(Fault { kind, value });
    }
    None
}

fn is_sub(role: Role) -> bool
    ensures { result ≡ is_sub_role role }
{
    matches!(role, Role::SubPackage)
}

// Type parameters or arguments.
fn generic_in<'a>(element: &'a Element) -> Option<Fault<'a>>
    ensures { fault_in result ≡ generic_in_of element.now }
{
    if let Some(name) = generic_attribute(element) {
        return Some(Fault {
            kind: Kind::Generic,
            value: name.bytes(),
        });
    }
    match generic_child(element) {
        Some(name) => Some(Fault {
            kind: Kind::Generic,
            value: name.bytes(),
        }),
        None => None,
    }
}

fn is_unnamed(entry: &Entry<'_>) -> bool
    ensures { result ≡ (is_named_role_of entry.now.role && bytes_eq (name_of_entry (entry_of entry.now)) []) }
{
    is_named_role(entry.role) && name_of(entry).is_empty()
}

/// What is wrong with an element by itself, where these stand behind it.
pub(crate) fn element_fault<'a>(entry: &Entry<'a>, behind: &[Entry<'a>]) -> Option<Fault<'a>>
    ensures { (rest : Option SomeFault) → or_else_of (fault_in result) rest
        ≡ or_else_of (when_of (is_not_ecore_of (entry_of entry.now) (entries_of behind.now)) NotEcore entry.now.element.now.name)
        (or_else_of (when_of (is_sub_role entry.now.role) IsSubPackage entry.now.element.now.name)
        (or_else_of (generic_in_of entry.now.element.now)
        (or_else_of (when_of (is_named_role_of entry.now.role && bytes_eq (name_of_entry (entry_of entry.now)) []) NoName entry.now.element.now.name) rest))) }
{
    let element = entry.element;
    let name = element.name.bytes();
    if is_not_ecore(entry, behind) {
        return Some(Fault {
            kind: Kind::NotEcore,
            value: name,
        });
    }
    if is_sub(entry.role) {
        return Some(Fault {
            kind: Kind::SubPackage,
            value: name,
        });
    }
    if let Some(fault) = generic_in(element) {
        return Some(fault);
    }
    when(is_unnamed(entry), Kind::NoName, name)
}
