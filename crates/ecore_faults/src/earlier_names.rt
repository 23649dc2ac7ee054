// The names that stand before an element: those of packages, of classifiers, and of the literals of each enumeration.
ghost use Rattle.std.specs.Prelude.{◌≡◌, ◌&&◌, ◌||◌, ◌-◌, [], ℕ, List, nat_lt, OnOk};
ghost use Rattle.ecore_outline.specs.Outline.{Entry as SomeEntry, is_package_role, is_classifier_role, is_enum_role, count, name_of as name_of_entry};
ghost use Rattle.ecore_outline.specs.Enumerations.{is_literal_role, literal_text as literal_text_of};
ghost use Rattle.ecore_outline.specs.Forms.{uri_of as uri_of_entry, prefix_of as prefix_of_entry};
ghost use Rattle.ecore_outline.specs.Entries.{entry_of};
ghost use Rattle.xmi_text.specs.Keys.{is_key, key_of};
ghost use Rattle.ecore_faults.specs.Seen.{has_key, AreSeen, repeats};

use ecore_names::data_type::{is_literal, literal_text};
use ecore_outline::form::{prefix_of, uri_of};
use ecore_outline::outline::Entry;
use ecore_outline::role::{is_classifier, is_package, name_of};
use std::alloc::{AllocError, Global};
use std::collections::HashSet;
use xmi_text::keys::Key;

/// The namespaces and prefixes of packages, the names of classifiers, and the names and texts of literals by the numbers of
/// their enumerations.
#[derive(Drop)]
pub(crate) struct Seen<'a> {
    pub uris: HashSet<Key<'a>>,
    pub prefixes: HashSet<Key<'a>>,
    pub classifiers: HashSet<Key<'a>>,
    pub names: HashSet<Key<'a>>,
    pub texts: HashSet<Key<'a>>,
}

/// None yet.
pub(crate) fn none_seen<'a>(alloc: Global) -> Seen<'a>
    ensures { AreSeen [] result }
{
    Seen {
        uris: HashSet::new(alloc),
        prefixes: HashSet::new(alloc),
        classifiers: HashSet::new(alloc),
        names: HashSet::new(alloc),
        texts: HashSet::new(alloc),
    }
}

fn add<'a>(keys: &mut HashSet<Key<'a>>, key: Key<'a>) -> Result<(), AllocError>
    ensures { OnOk result ((n : ℕ) (q : List ℕ) → has_key keys.new n q ≡ (is_key n q (key_of key.entry) || has_key keys.old n q)) }
{
    keys.insert(key)?;
    Ok(())
}

// Adds a key where it is so.
fn note<'a>(keys: &mut HashSet<Key<'a>>, is: bool, key: Key<'a>) -> Result<(), AllocError>
    ensures { OnOk result ((n : ℕ) (q : List ℕ) → has_key keys.new n q ≡ ((is && is_key n q (key_of key.entry)) || has_key keys.old n q)) }
{
    if is {
        return add(keys, key);
    }
    Ok(())
}

fn stands(keys: &HashSet<Key<'_>>, number: usize, text: &[u8]) -> bool
    ensures { result ≡ has_key keys.now number text.now }
{
    keys.contains(&Key { number, text })
}

/// Adds the names of an element, before which so many enumerations stand.
pub(crate) fn note_names<'a>(
    seen: &mut Seen<'a>,
    enums: usize,
    entry: &Entry<'a>,
) -> Result<(), AllocError>
    ensures uris { OnOk result ((n : ℕ) (q : List ℕ) → has_key seen.new.uris n q ≡ ((is_package_role entry.now.role && is_key n q (0, uri_of_entry (entry_of entry.now))) || has_key seen.old.uris n q)) }
    ensures prefixes { OnOk result ((n : ℕ) (q : List ℕ) → has_key seen.new.prefixes n q ≡ ((is_package_role entry.now.role && is_key n q (0, prefix_of_entry (entry_of entry.now))) || has_key seen.old.prefixes n q)) }
    ensures classifiers { OnOk result ((n : ℕ) (q : List ℕ) → has_key seen.new.classifiers n q ≡ ((is_classifier_role entry.now.role && is_key n q (0, name_of_entry (entry_of entry.now))) || has_key seen.old.classifiers n q)) }
    ensures names { OnOk result ((n : ℕ) (q : List ℕ) → has_key seen.new.names n q ≡ (((nat_lt 0 enums && is_literal_role entry.now.role) && is_key n q (enums - 1, name_of_entry (entry_of entry.now))) || has_key seen.old.names n q)) }
    ensures texts { OnOk result ((n : ℕ) (q : List ℕ) → has_key seen.new.texts n q ≡ (((nat_lt 0 enums && is_literal_role entry.now.role) && is_key n q (enums - 1, literal_text_of (entry_of entry.now))) || has_key seen.old.texts n q)) }
{
    let is_of_package = is_package(entry.role);
    let is_of_enum = 0 < enums && is_literal(entry.role);
    let number = enums.saturating_sub(1);
    let name = name_of(entry).as_bytes();
    let uri = uri_of(entry).as_bytes();
    let prefix = prefix_of(entry).as_bytes();
    let text = literal_text(entry).as_bytes();
    note(
        &mut seen.uris,
        is_of_package,
        Key {
            number: 0,
            text: uri,
        },
    )?;
    note(
        &mut seen.prefixes,
        is_of_package,
        Key {
            number: 0,
            text: prefix,
        },
    )?;
    note(
        &mut seen.classifiers,
        is_classifier(entry.role),
        Key {
            number: 0,
            text: name,
        },
    )?;
    note(&mut seen.names, is_of_enum, Key { number, text: name })?;
    note(&mut seen.texts, is_of_enum, Key { number, text })?;
    Ok(())
}

// Whether a package has the namespace or the prefix of one before.
fn repeats_package(seen: &Seen<'_>, entry: &Entry<'_>) -> bool
    ensures { result ≡ (is_package_role entry.now.role && (has_key seen.now.uris 0 (uri_of_entry (entry_of entry.now)) || has_key seen.now.prefixes 0 (prefix_of_entry (entry_of entry.now)))) }
{
    is_package(entry.role)
        && (stands(&seen.uris, 0, uri_of(entry).as_bytes())
            || stands(&seen.prefixes, 0, prefix_of(entry).as_bytes()))
}

fn repeats_classifier(seen: &Seen<'_>, entry: &Entry<'_>) -> bool
    ensures { result ≡ (is_classifier_role entry.now.role && has_key seen.now.classifiers 0 (name_of_entry (entry_of entry.now))) }
{
    is_classifier(entry.role) && stands(&seen.classifiers, 0, name_of(entry).as_bytes())
}

fn repeats_literal(seen: &Seen<'_>, enums: usize, entry: &Entry<'_>) -> bool
    ensures { result ≡ (is_literal_role entry.now.role && (has_key seen.now.names (enums - 1) (name_of_entry (entry_of entry.now)) || has_key seen.now.texts (enums - 1) (literal_text_of (entry_of entry.now)))) }
{
    let number = enums.saturating_sub(1);
    is_literal(entry.role)
        && (stands(&seen.names, number, name_of(entry).as_bytes())
            || stands(&seen.texts, number, literal_text(entry).as_bytes()))
}

/// Whether a package, a classifier or a literal has a name of one before.
pub(crate) fn is_repeated(seen: &Seen<'_>, enums: usize, entry: &Entry<'_>) -> bool
    ensures { (before : List SomeEntry) → AreSeen before seen.now → enums ≡ count is_enum_role before → result ≡ repeats before (entry_of entry.now) }
{
    let of_package = repeats_package(seen, entry);
    let of_classifier = repeats_classifier(seen, entry);
    let of_literal = repeats_literal(seen, enums, entry);
    of_package || (of_classifier || of_literal)
}
