// What reading keeps of a start tag, of the declaration and of a reference.
use crate::pairs::Pairs;
use atl_base::place::Place;
use atl_base::text::Text;

/// A name as written. The prefix is empty where it has none.
#[derive(Debug, Drop)]
pub struct Name {
    pub at: Place,
    pub prefix: Text,
    pub local: Text,
}

/// An attribute as written, a namespace declaration too.
#[derive(Debug, Drop)]
pub struct Pair {
    pub name: Name,
    pub value: Text,
}

/// A start tag: the place of its `<`, its name and its attributes.
#[derive(Debug, Drop)]
pub struct Start {
    pub at: Place,
    pub name: Name,
    pub pairs: Pairs,
}

/// What the declaration has told so far.
#[derive(Clone, Copy, Debug, PartialEq, Eq)]
pub enum Stage {
    Untold,
    ToldVersion,
    ToldEncoding,
    ToldStanding,
}

/// What the declaration is about to tell.
#[derive(Clone, Copy, Debug, PartialEq, Eq)]
pub enum Clause {
    OfVersion,
    OfEncoding,
    OfStanding,
}

/// What has been read of a reference.
#[derive(Debug, Drop)]
pub enum Cited {
    /// `&`
    Nameless,
    ByEntity(Text),
    /// `&#`
    Hashed,
    Decimal(u32),
    /// `&#x`
    Hexed,
    Hexadecimal(u32),
}
