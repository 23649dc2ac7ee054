// Names with their namespaces: which declarations are in force in a start tag.
ghost use Rattle.std.specs.Prelude.{◌≡◌, IfOk, List, ℕ, Option, [], ◌∷◌};
ghost use Rattle.std.specs.Option.{option_copied, option_map, option_or};
ghost use Rattle.doc_text.specs.Namespaces.{own_uri as own_uri_of, uri_of as uri_of_prefix, attribute_space as space_of_attribute};
ghost use Rattle.doc_text.specs.RawTrees.{stack_of};
ghost use Rattle.doc_text.specs.Spaces.{uri};
ghost use Rattle.doc_text.specs.State.{tags};

use crate::pairs::Pairs;
use crate::reading::open::Open;
use crate::state::{Name, Start};
use atl_base::text::Text;
use std::alloc::{AllocError, Global};

/// The namespace of the prefix `xml`, which is declared everywhere.
pub const XML_SPACE: &str = "http://www.w3.org/XML/1998/namespace";

/// The namespace that a prefix stands for.
#[derive(Clone, Copy)]
pub enum Space<'a> {
    Nowhere,
    /// The namespace of the prefix `xml`.
    Predeclared,
    Declared(&'a Text),
}

impl<'a> Space<'a> {
    /// The namespace's name.
    pub fn as_str(self) -> &'a str
        ensures { result.now ≡ uri self.entry }
    {
        match self {
            Space::Nowhere => "",
            Space::Predeclared => XML_SPACE,
            Space::Declared(text) => text.as_str(),
        }
    }

    /// The namespace's name as a text of its own.
    pub fn text(self, alloc: Global) -> Result<Text, AllocError>
        ensures { IfOk result (λ t. t ≡ uri self.entry) }
    {
        match self {
            Space::Nowhere => Ok(Text::new(alloc)),
            Space::Predeclared => Text::from_ascii(alloc, XML_SPACE),
            Space::Declared(text) => text.copy(alloc),
        }
    }
}

/// What these attributes declare of a prefix.
pub fn own_uri<'a>(prefix: &Text, pairs: &'a Pairs) -> Option<&'a Text>
    ensures { (outer : Option (List ℕ)) → own_uri_of prefix.now pairs.now outer ≡ option_or (option_copied result) outer }
{
    match pairs.first_of(prefix.as_str()) {
        Some(place) => Some(&pairs.as_slice()[place].value),
        None => None,
    }
}

// The namespace of a prefix that nothing declares.
fn undeclared(prefix: &Text) -> Option<Space<'static>>
    ensures { option_map uri result ≡ uri_of_prefix prefix.now [] }
{
    if prefix.as_str().is_empty() {
        return Some(Space::Nowhere);
    }
    if prefix.as_str() == "xml" {
        return Some(Space::Predeclared);
    }
    None
}

// The namespace of a prefix under the open elements.
fn outer_uri<'a>(prefix: &Text, outer: &'a [Open]) -> Option<Space<'a>>
    ensures { option_map uri result ≡ uri_of_prefix prefix.now (tags (stack_of outer.now)) }
{
    for i in (0..outer.len()).rev() {
        if let Some(found) = own_uri(prefix, &outer[i].tag.get().pairs) {
            return Some(Space::Declared(found));
        }
    }
    undeclared(prefix)
}

/// The namespace of a prefix in a start tag under the open elements.
pub fn uri_of<'a>(prefix: &Text, tag: &'a Start, outer: &'a [Open]) -> Option<Space<'a>>
    ensures { option_map uri result ≡ uri_of_prefix prefix.now (tag.now ∷ tags (stack_of outer.now)) }
{
    match own_uri(prefix, &tag.pairs) {
        Some(found) => Some(Space::Declared(found)),
        None => outer_uri(prefix, outer),
    }
}

/// The namespace of an attribute's name in its start tag: without a prefix it is in none.
pub fn attribute_space<'a>(name: &Name, tag: &'a Start, outer: &'a [Open]) -> Option<Space<'a>>
    ensures { option_map uri result ≡ space_of_attribute name.now (tag.now ∷ tags (stack_of outer.now)) }
{
    if name.prefix.as_str().is_empty() {
        return Some(Space::Nowhere);
    }
    uri_of(&name.prefix, tag, outer)
}
