// The features that classes declare, by class and name.
ghost use Rattle.std.specs.Prelude.{◌≡◌, ◌++◌, ◌∷◌, [], IfOk, OnOk, map, option_map, slice_get};
ghost use Rattle.xmi_text.specs.Options.{then_};
ghost use Rattle.ecore_names.specs.References.{own_here as own_here_of, own_feature};
ghost use Rattle.ecore_outline.specs.Outline.{name_of as name_of_entry};
ghost use Rattle.ecore_outline.specs.Entries.{entry_of, entries_of};
ghost use Rattle.ecore_names.specs.Targets.{own_of};
ghost use Rattle.xmi_text.specs.Keys.{keys_of};
ghost use Rattle.ecore_names.specs.Owns.{own_row, owns_from, row_key, row_own};
ghost use Rattle.ecore_names.specs.FileTables.{AreOwns};

use crate::own::Own;
use crate::target::one_more;
use ecore_outline::outline::Entry;
use ecore_outline::role::{is_class, is_feature, is_skipped, name_of};
use std::alloc::{AllocError, Global};
use std::collections::HashMap;
use xmi_text::keys::{Key, first_place, first_places};

/// The features that classes declare, those that are left out behind the others, and where each name stands first in its class.
#[derive(Drop)]
pub(crate) struct Owns<'a> {
    pub places: HashMap<Key<'a>, usize>,
    pub owns: Vec<Own<'a>>,
}

// An attribute or a reference before which so many stand, where these are asked for, or else what is left out.
fn own_here<'a>(kept: bool, features: usize, entry: &Entry<'a>) -> Option<Own<'a>>
    ensures { option_map own_of result ≡ own_here_of kept features (entry_of entry.now) }
{
    if kept && is_feature(entry.role) {
        return Some(Own::Kept(features, *entry));
    }
    if !kept && is_skipped(entry.role) {
        return Some(Own::Skips);
    }
    None
}

fn push_row<'a>(
    keys: &mut Vec<Key<'a>>,
    owns: &mut Vec<Own<'a>>,
    class: usize,
    entry: &Entry<'a>,
    own: Own<'a>,
) -> Result<(), AllocError>
    ensures keys { OnOk result (keys_of keys.new.items ≡ keys_of keys.old.items ++ ((class, name_of_entry (entry_of entry.now)) ∷ [])) }
    ensures owns { OnOk result (map own_of owns.new.items ≡ map own_of owns.old.items ++ (own_of own.entry ∷ [])) }
{
    keys.push(Key {
        number: class,
        text: name_of(entry).as_bytes(),
    })?;
    owns.push(own)?;
    Ok(())
}

// Adds what the last of so many classes declares here.
fn push_own<'a>(
    keys: &mut Vec<Key<'a>>,
    owns: &mut Vec<Own<'a>>,
    kept: bool,
    classes: usize,
    features: usize,
    entry: &Entry<'a>,
) -> Result<(), AllocError>
    ensures keys { OnOk result (keys_of keys.new.items ≡ keys_of keys.old.items ++ map row_key (own_row kept classes features (entry_of entry.now))) }
    ensures owns { OnOk result (map own_of owns.new.items ≡ map own_of owns.old.items ++ map row_own (own_row kept classes features (entry_of entry.now))) }
{
    if classes == 0 {
        return Ok(());
    }
    match own_here(kept, features, entry) {
        Some(own) => push_row(keys, owns, classes - 1, entry, own),
        None => Ok(()),
    }
}

// Adds the attributes and references that the classes of a file declare, or what they leave out.
fn push_owns<'a>(
    keys: &mut Vec<Key<'a>>,
    owns: &mut Vec<Own<'a>>,
    kept: bool,
    entries: &[Entry<'a>],
) -> Result<(), AllocError>
    ensures keys { OnOk result (keys_of keys.new.items ≡ keys_of keys.old.items ++ map row_key (owns_from kept 0 0 (entries_of entries.now))) }
    ensures owns { OnOk result (map own_of owns.new.items ≡ map own_of owns.old.items ++ map row_own (owns_from kept 0 0 (entries_of entries.now))) }
{
    let mut classes = 0;
    let mut features = 0;
    for i in 0..entries.len() {
        let entry = &entries[i];
        push_own(keys, owns, kept, classes, features, entry)?;
        classes = one_more(classes, is_class(entry.role));
        features = one_more(features, is_feature(entry.role));
    }
    Ok(())
}

/// What the classes of a file declare.
pub(crate) fn owns_in<'a>(alloc: Global, entries: &[Entry<'a>]) -> Result<Owns<'a>, AllocError>
    ensures { IfOk result (λ t. AreOwns (entries_of entries.now) t) }
{
    let mut keys = Vec::new(alloc);
    let mut owns = Vec::new(alloc);
    push_owns(&mut keys, &mut owns, true, entries)?;
    push_owns(&mut keys, &mut owns, false, entries)?;
    let places = first_places(alloc, &keys)?;
    Ok(Owns { places, owns })
}

// What stands at a place.
fn own_at<'a>(owns: &[Own<'a>], place: Option<usize>) -> Option<Own<'a>>
    ensures { option_map own_of result ≡ then_ place (slice_get (map own_of owns.now)) }
{
    match place {
        Some(place) => {
            if place < owns.len() {
                return Some(owns[place]);
            }
            None
        }
        None => None,
    }
}

/// A class's own feature of this name. An attribute or a reference goes before what is left out.
pub(crate) fn own_named<'a>(
    entries: &[Entry<'a>],
    table: &Owns<'a>,
    class: usize,
    name: &[u8],
) -> Option<Own<'a>>
    requires { AreOwns (entries_of entries.now) table.now }
    ensures { option_map own_of result ≡ own_feature class name.now (entries_of entries.now) }
{
    let place = first_place(&table.places, class, name);
    own_at(&table.owns, place)
}
