// Places in a text.

/// A place in a text, from 1 on: a line ends with its line feed alone, and a column counts characters.
/// A skipped byte order mark is no character.
#[derive(Clone, Copy, Debug, PartialEq, Eq)]
pub struct Place {
    pub line: u32,
    pub column: u32,
}
