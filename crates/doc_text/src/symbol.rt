// A character of a document, as its grammar sees it.
use atl_base::place::Place;

/// What a character may be in the grammar of XML 1.0.
#[derive(Clone, Copy, Debug, PartialEq, Eq)]
pub enum Kind {
    Less,
    Greater,
    Slash,
    And,
    Semicolon,
    Quote,
    Apostrophe,
    Equals,
    Bang,
    Question,
    /// `]`
    Bracket,
    Hash,
    Colon,
    Dash,
    /// A space, a tab or the end of a line.
    Blank(char),
    /// A name may begin with it.
    Letter(char),
    /// A digit or a point: a name may go on with it, as with a dash.
    Joint(char),
    Other(char),
    /// No character of the encoding, or none of XML text.
    Bad,
}

/// A character and its place.
#[derive(Clone, Copy, Debug, PartialEq, Eq)]
pub struct Symbol {
    pub kind: Kind,
    pub at: Place,
}
