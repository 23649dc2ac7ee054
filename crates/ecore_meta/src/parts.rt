// What a metamodel is made of, as plain data: any lists can stand here. `specs/Valid.antt` says which are a metamodel.
use atl_base::numbers::{ClassId, FeatId};
use atl_base::text::Text;
use sqlite_items::Items;

/// The five lists of a metamodel. A number in a field is a place in one of them, from 0.
#[derive(Debug, Drop)]
pub struct Parts {
    pub packages: Items<Package>,
    pub classes: Items<Class>,
    pub features: Items<Feature>,
    pub enums: Items<EnumDef>,
    pub skipped: Items<Skipped>,
}

#[derive(Debug, Drop)]
pub struct Package {
    pub name: Text,
    pub uri: Text,
    pub prefix: Text,
}

#[derive(Debug, Drop)]
pub struct Class {
    pub name: Text,
    pub package: u32,
    /// Whether it has no objects of its own: an abstract class or an interface.
    pub is_abstract: bool,
    /// The direct supertypes, in their order.
    pub supers: Items<ClassId>,
    /// The features that the class declares, in their order.
    pub own: Items<FeatId>,
}

#[derive(Debug, Drop)]
pub struct Feature {
    pub name: Text,
    /// The class that declares it.
    pub owner: ClassId,
    pub kind: FeatKind,
    /// Whether it may hold several values.
    pub many: bool,
    /// Whether a write skips values that are already there.
    pub unique: bool,
    /// Whether its value identifies an object (Ecore: iD).
    pub is_id: bool,
    /// The text of an attribute's default value.
    pub default: Option<Text>,
}

/// The type of a feature's values. All but `Refer` are attributes.
#[derive(Clone, Copy, Debug, PartialEq, Eq)]
pub enum FeatKind {
    Str,
    /// A signed number of 64 bits.
    Int,
    Truth,
    /// A literal of the enumeration at this place.
    Enum(u32),
    /// A data type that is not looked into: any text.
    Opaque,
    /// A reference to objects of a class.
    Refer {
        class: ClassId,
        /// Whether it contains what it refers to.
        contains: bool,
        /// The reference back, where there is one.
        opposite: Option<FeatId>,
    },
}

#[derive(Debug, Drop)]
pub struct EnumDef {
    pub name: Text,
    pub literals: Items<Literal>,
}

/// A literal: its name, and the text that stands for it in a model.
#[derive(Debug, Drop)]
pub struct Literal {
    pub name: Text,
    pub text: Text,
}

/// A feature that the metamodel leaves out and a model may still bear: a derived, volatile or transient one.
#[derive(Debug, Drop)]
pub struct Skipped {
    pub owner: ClassId,
    pub name: Text,
}
