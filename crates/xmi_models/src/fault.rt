// What is wrong with a file: its kind, the text that shows it, and the place of the element.
ghost use Rattle.std.specs.Prelude.{◌≡◌, Some, IfOk};
ghost use Rattle.xmi_models.specs.Faults.{when as when_of};
ghost use Rattle.xmi_models.specs.FoundFaults.{fault_in};

use atl_base::place::Place;
use atl_base::text::Text;
use std::alloc::{AllocError, Global};

/// A kind of fault, in the order in which those of one element are told.
#[derive(Clone, Copy, Debug, PartialEq, Eq)]
pub enum Kind {
    NoClass,
    Abstract,
    NoFeature,
    StrayText,
    BadValue,
    Href,
    BadType,
    Full,
    BadPath,
    NoId,
    TwiceId,
    TwoContainers,
    TwoEnds,
}

/// A kind of fault and its value.
#[derive(Drop)]
pub struct Fault {
    pub kind: Kind,
    pub value: Text,
}

/// The first fault of a file and the place of the element.
#[derive(Drop)]
pub struct FoundFault {
    pub fault: Fault,
    pub place: Place,
}

/// A fault with this value.
pub(crate) fn told(alloc: Global, kind: Kind, value: &Text) -> Result<Option<Fault>, AllocError>
    ensures { IfOk result (λ f. fault_in f ≡ Some (kind, value.now)) }
{
    let value = value.copy(alloc)?;
    Ok(Some(Fault { kind, value }))
}

/// The same, where it is so.
pub(crate) fn told_where(
    alloc: Global,
    is: bool,
    kind: Kind,
    value: &Text,
) -> Result<Option<Fault>, AllocError>
    ensures { IfOk result (λ f. fault_in f ≡ when_of is kind value.now) }
{
    if is {
        return told(alloc, kind, value);
    }
    Ok(None)
}
