// Where reading stands, and what a character leads to. The elements that are open are the last in a stack; where the
// innermost is named, the stack holds those around it.
use crate::reading::open::Open;
use crate::refusal::Fault;
use crate::state::{Cited, Clause, Name, Stage, Start};
use atl_base::place::Place;
use atl_base::text::Text;
use sqlite_items::{Boxed, Items};

/// Where markup stands: at the text's start, before the root, in an element, after the root.
#[derive(Drop)]
pub enum Around {
    First,
    Before,
    Within(Open, Items<Open>),
    After(Open),
}

/// Whose name is read: a start tag's, with the place of its `<`, an attribute's, or an end tag's.
#[derive(Drop)]
pub enum Bearer {
    OfStart(Items<Open>, Place),
    OfAttribute(Items<Open>, Boxed<Start>),
    OfEnd(Open, Items<Open>),
}

/// An attribute whose value is read, in double quotes or not, with what has been read of it.
#[derive(Drop)]
pub struct Valuing {
    pub double: bool,
    pub outer: Items<Open>,
    pub tag: Boxed<Start>,
    pub name: Name,
    pub value: Text,
}

/// Where a reference stands: in text, or in a value.
#[derive(Drop)]
pub enum Citing {
    InText(Open, Items<Open>),
    InValue(Valuing),
}

/// Between markup.
#[derive(Drop)]
pub enum Content {
    Beginning,
    InProlog,
    /// In an element, after that many closing brackets, two for more.
    Inside(u8, Open, Items<Open>),
    /// After the root.
    Epilog(Open),
}

/// In markup before its name, in a comment or an instruction.
#[derive(Drop)]
pub enum Markup {
    /// `<`
    Begun(Around, Place),
    /// `<!`
    Banged(Around, Place),
    /// `<!-`
    BangDash(Around, Place),
    /// In a comment.
    Remarking(Around),
    /// `-` in a comment.
    RemarkDash(Around),
    /// `--` in a comment.
    RemarkEnd(Around),
    /// `<?`
    Asked(Around),
    Targeting(Around, Text),
    /// `?` after a target.
    TargetEnd(Around),
    /// In an instruction, after a `?` or not.
    Telling(bool, Around),
}

/// In the declaration. A word's number says how many of its characters have been read.
#[derive(Drop)]
pub enum Declaration {
    /// Blanks.
    Declaring(Stage),
    Wording(Clause, usize),
    /// `=` is wanted.
    Equating(Clause),
    /// A quote is wanted.
    Quoting(Clause),
    Numbering(bool, usize),
    Numbered(bool),
    Encoding(bool, Option<Place>, Text),
    Answer(bool),
    /// In `yes` or `no`, or after it.
    Answering(bool, bool, usize),
    /// A value's end.
    Stated(Stage),
    /// `?`
    DeclEnd,
}

/// In a name.
#[derive(Drop)]
pub enum Naming {
    Plain(Bearer, Place, Text),
    /// A colon after a prefix.
    Coloned(Bearer, Place, Text),
    Local(Bearer, Place, Text, Text),
}

/// In a tag, beside names.
#[derive(Drop)]
pub enum Tag {
    /// Blanks in a start tag.
    Spaced(Items<Open>, Boxed<Start>),
    /// A value's end.
    Valued(Items<Open>, Boxed<Start>),
    /// `/` in a start tag.
    Shutting(Items<Open>, Boxed<Start>),
    /// `=` is wanted.
    Equalling(Items<Open>, Boxed<Start>, Name),
    /// A quote is wanted.
    Opening(Items<Open>, Boxed<Start>, Name),
    Valuing(Valuing),
    /// `</`
    Ending(Open, Items<Open>),
    /// `>` is wanted.
    Closing(Open, Items<Open>),
}

/// Where reading stands.
#[derive(Drop)]
pub enum Next {
    InContent(Content),
    InMarkup(Markup),
    InDeclaration(Declaration),
    InName(Naming),
    InTag(Tag),
    /// In a reference, with the place of its `&`.
    InReference(Citing, Place, Cited),
}

/// What a character leads to.
#[derive(Drop)]
pub enum Move {
    Goes(Next),
    Stops,
    Breaks(Fault, Place),
}
