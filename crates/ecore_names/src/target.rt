// What references name: the first classifier that a path fits, by its number.
ghost use Rattle.std.specs.Prelude.{◌≡◌, ℕ, ◌<◌, ◌^◌, suc, if◌then◌else◌, MatchOption, None, Some};
ghost use Rattle.xmi_text.specs.Fragments.{path};
ghost use Rattle.ecore_names.specs.References.{past as past_of, target_here as target_here_of, class_named as class_named_in, local_target as local_target_in};
ghost use Rattle.ecore_outline.specs.Outline.{is_package_role, name_of as name_of_entry};
ghost use Rattle.ecore_outline.specs.Entries.{entry_of, entries_of};
ghost use Rattle.ecore_names.specs.Targets.{stand_of, target_of, path_of as path_seen};

use crate::file::File;
use doc_text::tree::Element;
use ecore_outline::outline::Entry;
use ecore_outline::role::{is_class, is_enum, is_package, name_of};
use xmi_text::references::{fragment, path_of};

/// A class by its number, an enumeration by its number, or a data type of the file's own.
#[derive(Clone, Copy)]
pub(crate) enum Target<'a> {
    Class(usize),
    Enum(usize),
    Data(&'a Element),
}

// How many packages, classes and enumerations stand before, and the last package's name.
#[derive(Clone, Copy)]
pub(crate) struct Stand<'a> {
    pub packages: usize,
    pub holder: &'a str,
    pub classes: usize,
    pub enums: usize,
}

/// A count, and one more where it is so.
pub fn one_more(count: usize, more: bool) -> usize
    requires { count < 2 ^ 63 }
    ensures { result ≡ (if more then suc count else count) }
{
    if more { count + 1 } else { count }
}

fn holder_past<'a>(stand: &Stand<'a>, entry: &Entry<'a>) -> &'a str
    ensures { result.now ≡ (if is_package_role entry.now.role then name_of_entry (entry_of entry.now) else stand.now.holder.now) }
{
    if is_package(entry.role) {
        return name_of(entry);
    }
    stand.holder
}

/// The counts past an entry.
pub(crate) fn past<'a>(stand: &Stand<'a>, entry: &Entry<'a>) -> Stand<'a>
    requires packages { stand.now.packages < 2 ^ 63 }
    requires classes { stand.now.classes < 2 ^ 63 }
    requires enums { stand.now.enums < 2 ^ 63 }
    ensures { stand_of result ≡ past_of (stand_of stand.now) (entry_of entry.now) }
{
    Stand {
        packages: one_more(stand.packages, is_package(entry.role)),
        holder: holder_past(stand, entry),
        classes: one_more(stand.classes, is_class(entry.role)),
        enums: one_more(stand.enums, is_enum(entry.role)),
    }
}

/// What a reference to the classifier names.
pub(crate) fn target_here<'a>(stand: &Stand<'_>, entry: &Entry<'a>) -> Target<'a>
    ensures { target_of result ≡ target_here_of (stand_of stand.now) (entry_of entry.now) }
{
    if is_class(entry.role) {
        return Target::Class(stand.classes);
    }
    if is_enum(entry.role) {
        return Target::Enum(stand.enums);
    }
    Target::Data(entry.element)
}

/// What a word names in its file.
pub(crate) fn local_target<'a>(file: &File<'a>, word: &[u8]) -> Option<Target<'a>>
    ensures { MatchOption result (local_target_in (entries_of file.now) word.now ≡ None)
        (λ t. local_target_in (entries_of file.now) word.now ≡ Some (target_of t)) }
{
    match path_of(fragment(word)) {
        Some(path) => file.target(&path),
        None => None,
    }
}

/// The class that a word names.
pub fn class_named(file: &File<'_>, word: &[u8]) -> Option<usize>
    ensures { result ≡ class_named_in (entries_of file.now) word.now }
{
    match local_target(file, word) {
        Some(Target::Class(class)) => Some(class),
        Some(Target::Enum(_)) => None,
        Some(Target::Data(_)) => None,
        None => None,
    }
}
