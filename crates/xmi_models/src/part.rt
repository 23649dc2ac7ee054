// What an element of a file is in the model, and where an element can stand.
ghost use Rattle.std.specs.Prelude.{◌≡◌};
ghost use Rattle.xmi_models.specs.Outline.{is_object as is_object_of, inside as inside_of};
ghost use Rattle.xmi_models.specs.Entries.{part_in, maybe_where};

use atl_base::numbers::{ClassId, FeatId};
use doc_text::tree::Element;

/// What an element is. Objects are numbered from 0 in document order.
#[derive(Clone, Copy)]
pub enum Part {
    /// `xmi:XMI`.
    Around,
    /// An object, where its class is one.
    Root(Option<ClassId>),
    /// One that the object of this number contains by a feature.
    Content(usize, FeatId, Option<ClassId>),
    /// A value of an attribute of the object of this number.
    Value(usize, FeatId),
    /// A child of a reference that contains nothing.
    Cross(FeatId, Option<ClassId>),
    /// A child of no feature, with the class that its type asks for.
    Unknown(Option<Option<ClassId>>),
    /// What stands in a value.
    Inner,
}

/// Where an element stands: at the root of the file, in `xmi:XMI`, in the object of this class and number, or in a value.
#[derive(Clone, Copy)]
pub(crate) enum Where {
    AtRoot,
    InAround,
    InObject(ClassId, usize),
    InValue,
}

/// An element and what it is.
#[derive(Clone, Copy)]
pub struct Entry<'a> {
    pub part: Part,
    pub element: &'a Element,
}

pub fn is_object(part: Part) -> bool
    ensures { result ≡ is_object_of (part_in part) }
{
    matches!(part, Part::Root(_) | Part::Content(_, _, _))
}

/// Where the children of an element stand, where it is the object of this number; what is nothing is not looked into.
pub(crate) fn inside(part: Part, number: usize) -> Option<Where>
    ensures { maybe_where result ≡ inside_of (part_in part) number }
{
    match part {
        Part::Around => Some(Where::InAround),
        Part::Root(Some(class)) => Some(Where::InObject(class, number)),
        Part::Content(_, _, Some(class)) => Some(Where::InObject(class, number)),
        Part::Value(_, _) => Some(Where::InValue),
        _ => None,
    }
}
