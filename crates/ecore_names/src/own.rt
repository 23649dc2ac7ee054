// The features that references name: by a class and a name.
ghost use Rattle.std.specs.Prelude.{◌≡◌, ℕ, ◌==◌, ◌&&◌, suc, [], ◌∷◌, bytes_eq, MatchOption, None, Some};
ghost use Rattle.ecore_outline.specs.Outline.{name_of as name_of_entry};
ghost use Rattle.xmi_text.specs.Fragments.{parts_of, named_feature as named_feature_of, feature_path_of as feature_path_of_parts};
ghost use Rattle.ecore_names.specs.References.{own_named as own_named_in, feature_named as feature_named_in};
ghost use Rattle.ecore_outline.specs.Entries.{entry_of, entries_of};
ghost use Rattle.ecore_names.specs.Targets.{own_of, feature_path};

use crate::file::File;
use crate::target::Target;
use ecore_outline::outline::Entry;
use xmi_text::cut::place_of;
use xmi_text::references::{Path, fragment, named_path, names_file};

/// A feature of a class.
#[derive(Clone, Copy)]
pub(crate) struct FeaturePath<'a> {
    pub path: Path<'a>,
    pub feature: &'a [u8],
}

/// An attribute or a reference by its number, with its entry; or one that is derived, volatile or transient.
#[derive(Clone, Copy)]
pub enum Own<'a> {
    Kept(usize, Entry<'a>),
    Skips,
}

// The path to a feature of a class. Without a name of each nothing is named.
fn named_feature<'a>(holder: &'a [u8], name: &'a [u8], feature: &'a [u8]) -> Option<FeaturePath<'a>>
    ensures { MatchOption result (named_feature_of holder.now name.now feature.now ≡ None)
        (λ p. named_feature_of holder.now name.now feature.now ≡ Some (feature_path p)) }
{
    if feature.is_empty() {
        return None;
    }
    match named_path(holder, name) {
        Some(path) => Some(FeaturePath { path, feature }),
        None => None,
    }
}

// The feature behind the first slash.
fn rooted_feature_path(text: &[u8]) -> Option<FeaturePath<'_>>
    ensures { MatchOption result (feature_path_of_parts ([] ∷ parts_of text.now) ≡ None)
        (λ p. feature_path_of_parts ([] ∷ parts_of text.now) ≡ Some (feature_path p)) }
{
    let at = place_of(b'/', text);
    if at >= text.len() {
        return None;
    }
    let behind = &text[at + 1..];
    let end = place_of(b'/', behind);
    if end >= behind.len() {
        return None;
    }
    let feature = &behind[end + 1..];
    let third = place_of(b'/', feature);
    if third < feature.len() {
        return None;
    }
    named_feature(&text[..at], &behind[..end], feature)
}

/// The feature that a fragment names.
pub(crate) fn feature_path_of(text: &[u8]) -> Option<FeaturePath<'_>>
    ensures { MatchOption result (feature_path_of_parts (parts_of text.now) ≡ None)
        (λ p. feature_path_of_parts (parts_of text.now) ≡ Some (feature_path p)) }
{
    if text.is_empty() {
        return None;
    }
    if text[0] != b'/' {
        return None;
    }
    rooted_feature_path(&text[1..])
}

/// Whether so many classes, or others that are counted, stand before what is within this one.
pub(crate) fn is_behind(classes: usize, class: usize) -> bool
    ensures { result ≡ (classes == suc class) }
{
    if classes == 0 {
        return false;
    }
    classes - 1 == class
}

fn own_named<'a>(file: &File<'a>, path: &FeaturePath<'_>) -> Option<Own<'a>>
    ensures { MatchOption result (own_named_in (entries_of file.now) (feature_path path.now) ≡ None)
        (λ o. own_named_in (entries_of file.now) (feature_path path.now) ≡ Some (own_of o)) }
{
    match file.target(&path.path) {
        Some(Target::Class(class)) => file.own(class, path.feature),
        Some(Target::Enum(_)) => None,
        Some(Target::Data(_)) => None,
        None => None,
    }
}

/// The feature that a word names.
pub fn feature_named<'a>(file: &File<'a>, word: &[u8]) -> Option<Own<'a>>
    ensures { MatchOption result (feature_named_in (entries_of file.now) word.now ≡ None)
        (λ o. feature_named_in (entries_of file.now) word.now ≡ Some (own_of o)) }
{
    if names_file(word) {
        return None;
    }
    match feature_path_of(fragment(word)) {
        Some(path) => own_named(file, &path),
        None => None,
    }
}
