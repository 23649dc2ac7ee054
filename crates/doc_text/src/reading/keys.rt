// What tells an attribute from the others of its start tag.
ghost use Rattle.std.specs.Prelude.{◌≡◌, ◌∷◌};
ghost use Rattle.std.specs.Option.{option_map};
ghost use Rattle.std.specs.List.{list_any};
ghost use Rattle.doc_text.specs.Keys.{key_of as key_of_name, is_same as is_same_key};
ghost use Rattle.doc_text.specs.SeenKeys.{key_in};
ghost use Rattle.doc_text.specs.RawTrees.{stack_of};
ghost use Rattle.doc_text.specs.State.{tags};

use crate::declarations::{declared_prefix, is_declaration};
use crate::reading::names::attribute_space;
use crate::reading::open::Open;
use crate::state::{Name, Start};

/// A declaration by its prefix, any other attribute by its namespace and local name.
#[derive(Clone, Copy, PartialEq, Eq, Hash)]
pub struct Key<'a> {
    pub declares: bool,
    pub space: &'a str,
    pub local: &'a str,
}

impl<'a> Key<'a> {
    /// Whether two attributes of a tag are the same.
    pub fn is_same(&self, other: &Key) -> bool
        ensures { result ≡ is_same_key (key_in self.now) (key_in other.now) }
    {
        self.declares == other.declares && self.space == other.space && self.local == other.local
    }
}

/// The key of an attribute, where its prefix is declared.
pub fn key_of<'a>(name: &'a Name, tag: &'a Start, outer: &'a [Open]) -> Option<Key<'a>>
    ensures { option_map key_in result ≡ key_of_name (tag.now ∷ tags (stack_of outer.now)) name.now }
{
    if is_declaration(name) {
        return Some(Key {
            declares: true,
            space: "",
            local: declared_prefix(name),
        });
    }
    match attribute_space(name, tag, outer) {
        Some(space) => Some(Key {
            declares: false,
            space: space.as_str(),
            local: name.local.as_str(),
        }),
        None => None,
    }
}

/// Whether an attribute with this key is among them.
pub fn is_among(seen: &[Key], key: &Key) -> bool
    ensures { result ≡ list_any (λ k. is_same_key (key_in k) (key_in key.now)) seen.now }
{
    seen.iter().any(|k| k.is_same(key))
}
