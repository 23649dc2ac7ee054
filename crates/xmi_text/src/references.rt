// References within a file: what they name by package, class and feature.
ghost use Rattle.std.specs.Prelude.{◌≡◌, [], ◌∷◌, MatchOption, None, Some};
ghost use Rattle.xmi_text.specs.Fragments.{has_hash as has_hash_of, names_file as names_file_of, fragment as fragment_of, parts_of, path, named_path as named_path_of, path_of as path_of_parts};

use crate::cut::place_of;

/// A classifier of a package, or of any.
#[derive(Clone, Copy)]
pub struct Path<'a> {
    pub holder: &'a [u8],
    pub name: &'a [u8],
}

fn has_hash(text: &[u8]) -> bool
    ensures { result ≡ has_hash_of text.now }
{
    text.iter().any(|b| *b == b'#')
}

/// Whether a reference names a file.
pub fn names_file(text: &[u8]) -> bool
    ensures { result ≡ names_file_of text.now }
{
    if text.is_empty() {
        return false;
    }
    if text[0] == b'#' {
        return false;
    }
    has_hash(&text[1..])
}

/// What follows the `#`, where one stands first.
pub fn fragment(text: &[u8]) -> &[u8]
    ensures { result.now ≡ fragment_of text.now }
{
    if text.is_empty() {
        return text;
    }
    if text[0] == b'#' {
        return &text[1..];
    }
    text
}

/// The path to a name. Without a name nothing is named.
pub fn named_path<'a>(holder: &'a [u8], name: &'a [u8]) -> Option<Path<'a>>
    ensures { MatchOption result (named_path_of holder.now name.now ≡ None)
        (λ p. named_path_of holder.now name.now ≡ Some (path p.holder.now p.name.now)) }
{
    if name.is_empty() {
        return None;
    }
    Some(Path { holder, name })
}

// The path behind the first slash.
fn rooted_path(text: &[u8]) -> Option<Path<'_>>
    ensures { MatchOption result (path_of_parts ([] ∷ parts_of text.now) ≡ None)
        (λ p. path_of_parts ([] ∷ parts_of text.now) ≡ Some (path p.holder.now p.name.now)) }
{
    let at = place_of(b'/', text);
    if at >= text.len() {
        return None;
    }
    let name = &text[at + 1..];
    let end = place_of(b'/', name);
    if end < name.len() {
        return None;
    }
    named_path(&text[..at], name)
}

/// The classifier that a fragment names.
pub fn path_of(text: &[u8]) -> Option<Path<'_>>
    ensures { MatchOption result (path_of_parts (parts_of text.now) ≡ None)
        (λ p. path_of_parts (parts_of text.now) ≡ Some (path p.holder.now p.name.now)) }
{
    if text.is_empty() {
        return None;
    }
    if text[0] != b'/' {
        return None;
    }
    rooted_path(&text[1..])
}
