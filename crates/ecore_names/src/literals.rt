// The literals of enumerations, by enumeration and text.
ghost use Rattle.std.specs.Prelude.{◌≡◌, ◌++◌, ◌∷◌, [], IfOk, OnOk, map, bytes_eq, slice_get};
ghost use Rattle.xmi_text.specs.Options.{then_};
ghost use Rattle.std.specs.Option.{option_copied};
ghost use Rattle.std.specs.List.{list_any};
ghost use Rattle.ecore_outline.specs.Enumerations.{literals_of, literal_text as literal_text_of, first_text as first_text_of};
ghost use Rattle.ecore_outline.specs.Entries.{entry_of, entries_of};
ghost use Rattle.xmi_text.specs.Keys.{key_of, keys_of, AreFirsts};
ghost use Rattle.ecore_names.specs.Literals.{literal_keys as literal_keys_of, literal_key, key_text, enum_key as enum_key_of};
ghost use Rattle.ecore_names.specs.FileTables.{AreLiterals};

use crate::data_type::{is_literal, literal_text};
use crate::target::one_more;
use ecore_outline::outline::Entry;
use ecore_outline::role::is_enum;
use std::alloc::{AllocError, Global};
use std::collections::HashMap;
use xmi_text::keys::{Key, first_place, first_places};

/// The texts of all literals in their order, where each stands first in its enumeration, and where the literals of each
/// enumeration begin.
#[derive(Drop)]
pub(crate) struct Literals<'a> {
    pub texts: Vec<&'a str>,
    pub places: HashMap<Key<'a>, usize>,
    pub begins: HashMap<Key<'a>, usize>,
}

// Adds a literal of the last of so many enumerations.
fn push_literal<'a>(
    keys: &mut Vec<Key<'a>>,
    enums: usize,
    entry: &Entry<'a>,
) -> Result<(), AllocError>
    ensures { OnOk result (keys_of keys.new.items ≡ keys_of keys.old.items ++ literal_key enums (entry_of entry.now)) }
{
    if enums == 0 || !is_literal(entry.role) {
        return Ok(());
    }
    keys.push(Key {
        number: enums - 1,
        text: literal_text(entry).as_bytes(),
    })?;
    Ok(())
}

fn literal_keys<'a>(alloc: Global, entries: &[Entry<'a>]) -> Result<Vec<Key<'a>>, AllocError>
    ensures { IfOk result (λ keys. keys_of keys.items ≡ literal_keys_of (entries_of entries.now)) }
{
    let mut keys = Vec::new(alloc);
    let mut enums = 0;
    for i in 0..entries.len() {
        push_literal(&mut keys, enums, &entries[i])?;
        enums = one_more(enums, is_enum(entries[i].role));
    }
    Ok(keys)
}

fn push_text<'a>(
    texts: &mut Vec<&'a str>,
    enums: usize,
    entry: &Entry<'a>,
) -> Result<(), AllocError>
    ensures { OnOk result (map (λ t. t.now) texts.new.items ≡ map (λ t. t.now) texts.old.items ++ map key_text (literal_key enums (entry_of entry.now))) }
{
    if enums == 0 || !is_literal(entry.role) {
        return Ok(());
    }
    texts.push(literal_text(entry))?;
    Ok(())
}

fn literal_texts<'a>(alloc: Global, entries: &[Entry<'a>]) -> Result<Vec<&'a str>, AllocError>
    ensures { IfOk result (λ texts. map (λ t. t.now) texts.items ≡ map key_text (literal_keys_of (entries_of entries.now))) }
{
    let mut texts = Vec::new(alloc);
    let mut enums = 0;
    for i in 0..entries.len() {
        push_text(&mut texts, enums, &entries[i])?;
        enums = one_more(enums, is_enum(entries[i].role));
    }
    Ok(texts)
}

fn enum_key<'a>(key: &Key<'a>) -> Key<'a>
    ensures { key_of result ≡ enum_key_of (key_of key.now) }
{
    Key {
        number: key.number,
        text: &[],
    }
}

fn enum_keys<'a>(alloc: Global, keys: &[Key<'a>]) -> Result<Vec<Key<'a>>, AllocError>
    ensures { IfOk result (λ list. keys_of list.items ≡ map enum_key_of (keys_of keys.now)) }
{
    let mut list = Vec::with_capacity(alloc, keys.len())?;
    for i in 0..keys.len() {
        list.push(enum_key(&keys[i]))?;
    }
    Ok(list)
}

fn text_places<'a>(
    alloc: Global,
    entries: &[Entry<'a>],
) -> Result<HashMap<Key<'a>, usize>, AllocError>
    ensures { IfOk result (λ t. AreFirsts t (literal_keys_of (entries_of entries.now))) }
{
    let keys = literal_keys(alloc, entries)?;
    let places = first_places(alloc, &keys)?;
    Ok(places)
}

fn enum_places<'a>(
    alloc: Global,
    entries: &[Entry<'a>],
) -> Result<HashMap<Key<'a>, usize>, AllocError>
    ensures { IfOk result (λ t. AreFirsts t (map enum_key_of (literal_keys_of (entries_of entries.now)))) }
{
    let literals = literal_keys(alloc, entries)?;
    let keys = enum_keys(alloc, &literals)?;
    let places = first_places(alloc, &keys)?;
    Ok(places)
}

/// The literals of a file.
pub(crate) fn literals_in<'a>(
    alloc: Global,
    entries: &[Entry<'a>],
) -> Result<Literals<'a>, AllocError>
    ensures { IfOk result (λ t. AreLiterals (entries_of entries.now) t) }
{
    let texts = literal_texts(alloc, entries)?;
    let places = text_places(alloc, entries)?;
    let begins = enum_places(alloc, entries)?;
    Ok(Literals {
        texts,
        places,
        begins,
    })
}

/// Whether an enumeration has a literal of this text.
pub(crate) fn is_text(
    entries: &[Entry<'_>],
    table: &Literals<'_>,
    enumeration: usize,
    text: &[u8],
) -> bool
    requires { AreLiterals (entries_of entries.now) table.now }
    ensures { result ≡ list_any (λ l. bytes_eq (literal_text_of l) text.now) (literals_of (entries_of entries.now) enumeration) }
{
    let place = first_place(&table.places, enumeration, text);
    place.is_some()
}

// What stands at a place.
fn text_at<'a>(texts: &[&'a str], place: Option<usize>) -> Option<&'a str>
    ensures { option_copied result ≡ then_ place (slice_get (map (λ t. t.now) texts.now)) }
{
    match place {
        Some(place) => {
            if place < texts.len() {
                return Some(texts[place]);
            }
            None
        }
        None => None,
    }
}

/// The text of an enumeration's first literal.
pub(crate) fn first_text<'a>(
    entries: &[Entry<'a>],
    table: &Literals<'a>,
    enumeration: usize,
) -> Option<&'a str>
    requires { AreLiterals (entries_of entries.now) table.now }
    ensures { option_copied result ≡ first_text_of (literals_of (entries_of entries.now) enumeration) }
{
    let place = first_place(&table.begins, enumeration, &[]);
    text_at(&table.texts, place)
}
