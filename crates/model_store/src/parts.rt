// What a model is made of, as plain data. `specs/Contents.antt` says how contracts read it, `specs/Valid.antt` which of it
// is a model.
ghost use Rattle.std.specs.Prelude.{◌≡◌};
ghost use Rattle.model_store.specs.Contents.{refers_to};

use atl_base::numbers::{ClassId, FeatId, ObjId};
use atl_base::text::Text;
use sqlite_items::Items;

/// One value of a feature.
#[derive(Debug, Drop)]
pub enum Cellv {
    /// A text: of a string, or of a data type that is not looked into.
    Words(Text),
    Int(i64),
    Truth(bool),
    /// A literal of the feature's enumeration, by its place there from 0.
    Literal(u32),
    /// The object that a reference refers to.
    Obj(ObjId),
}

/// The values of one feature of one object, in their order.
pub type Slot = Items<Cellv>;

/// An object: its class, and a slot for each feature that is seen in it, in the order of the features.
#[derive(Debug, Drop)]
pub struct Object {
    pub class: ClassId,
    pub slots: Items<Slot>,
}

/// A part of a model that a reader can look at, and that an edit can change.
#[derive(Clone, Copy, Debug, PartialEq, Eq, PartialOrd, Ord, Hash)]
pub enum Cell {
    /// The values of a feature of an object.
    Slot(ObjId, FeatId),
    /// The object that contains an object.
    Container(ObjId),
    /// The objects of a class.
    Extent(ClassId),
}

impl Cellv {
    // Whether the value is this object.
    pub(crate) fn refers_to(&self, p: ObjId) -> bool
        ensures { result ≡ refers_to p self.now }
    {
        match self {
            Cellv::Obj(q) => q.0 == p.0,
            _ => false,
        }
    }
}
