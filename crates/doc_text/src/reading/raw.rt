// A document before its names are resolved.
ghost use Rattle.std.specs.Prelude.{◌≡◌, ◌++◌, ◌∷◌, [], IfOk, OnOk, IsTrue, encode_utf8};
ghost use Rattle.atl_base.specs.XmlText.{is_xml_character};
ghost use Rattle.doc_text.specs.Raw.{add_text};
ghost use Rattle.doc_text.specs.RawTrees.{trees_of};

use crate::growing::Growing;
use crate::state::Start;
use atl_base::text::Text;
use sqlite_items::{Boxed, Items};
use std::alloc::{AllocError, Global};

/// An element with what stands in it, or text, of which no two neighbour.
#[derive(Debug, Drop)]
#[cycle(raw)]
pub enum RawTree {
    Node(Boxed<Start>, Items<RawTree>),
    Words(Text),
}

/// What stands in an element, in its order, while there is more to come.
pub type RawTrees = Growing<RawTree>;

/// A text of one character.
pub fn text_of(alloc: Global, c: char) -> Result<Text, AllocError>
    requires { IsTrue (is_xml_character c) }
    ensures { IfOk result (λ t. t ≡ encode_utf8 c) }
{
    let mut text = Text::new(alloc);
    text.push_char(c)?;
    Ok(text)
}

// Adds a character behind what stands last.
fn add_behind(
    alloc: Global,
    children: &mut RawTrees,
    last: RawTree,
    c: char,
) -> Result<(), AllocError>
    requires { IsTrue (is_xml_character c) }
    ensures { OnOk result (trees_of children.new ≡ add_text (encode_utf8 c) (trees_of (children.old ++ (last ∷ [])))) }
{
    match last {
        RawTree::Words(text) => {
            let mut longer = text;
            longer.push_char(c)?;
            children.push(RawTree::Words(longer))
        }
        RawTree::Node(tag, inner) => {
            children.push(RawTree::Node(tag, inner))?;
            children.push(RawTree::Words(text_of(alloc, c)?))
        }
    }
}

/// Adds a character at the end: to the text that stands there, else as a new one.
pub fn add_char(alloc: Global, children: &mut RawTrees, c: char) -> Result<(), AllocError>
    requires { IsTrue (is_xml_character c) }
    ensures { OnOk result (trees_of children.new ≡ add_text (encode_utf8 c) (trees_of children.old)) }
{
    match children.pop() {
        None => children.push(RawTree::Words(text_of(alloc, c)?)),
        Some(last) => add_behind(alloc, children, last, c),
    }
}
