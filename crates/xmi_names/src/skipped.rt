// The skipped features that are seen in each class: their names, each under the class's number.
ghost use Rattle.std.specs.Prelude.{◌≡◌, ◌<◌, ◌++◌, ◌==◌, ◌&&◌, ◌||◌, ℕ, List, [], length, flat_map, IfOk, OnOk, All};
ghost use Rattle.std.specs.List.{list_any};
ghost use Rattle.xmi_text.specs.Keys.{is_key, keys_of};
ghost use Rattle.ecore_meta.specs.Order.{class_no};
ghost use Rattle.ecore_meta.specs.Valid.{IsMetamodel};
ghost use Rattle.xmi_names.specs.Tables.{texts_of, names_in, names_of, keyed, has_skipped};

use crate::lookups::class_at;
use ecore_meta::metamodel::Metamodel;
use ecore_meta::parts::Skipped;
use sqlite_items::Items;
use std::alloc::{AllocError, Global};
use xmi_text::keys::Key;

// As many empty lists.
fn empty_rows<'m>(alloc: Global, count: usize) -> Result<Vec<Items<Key<'m>>>, AllocError>
    ensures lengths { IfOk result (λ rows. length rows.items ≡ count) }
    ensures each { IfOk result (λ rows. (d : ℕ) → names_in rows.items d ≡ []) }
{
    let mut rows = Vec::with_capacity(alloc, count)?;
    for _ in 0..count {
        rows.push(Items::new(alloc))?;
    }
    Ok(rows)
}

// The names of the skipped features that each of so many classes declares.
fn declared_names<'m>(
    alloc: Global,
    count: usize,
    skipped: &'m [Skipped],
) -> Result<Vec<Items<Key<'m>>>, AllocError>
    requires { All (λ s. s.owner.0 < count) skipped.now }
    ensures lengths { IfOk result (λ rows. length rows.items ≡ count) }
    ensures each { IfOk result (λ rows. (d : ℕ) → names_in rows.items d ≡ names_of d skipped.now) }
{
    let mut rows = empty_rows(alloc, count)?;
    for i in 0..skipped.len() {
        let feature = &skipped[i];
        let number = feature.owner.0 as usize;
        let text = feature.name.bytes();
        rows[number].push(Key { number, text })?;
    }
    Ok(rows)
}

// Adds the names of these under another number.
fn push_names<'m>(
    keys: &mut Vec<Key<'m>>,
    number: usize,
    names: &[Key<'m>],
) -> Result<(), AllocError>
    ensures { OnOk result (keys_of keys.new.items ≡ keys_of keys.old.items ++ keyed number (texts_of names.now)) }
{
    for i in 0..names.len() {
        keys.push(Key {
            number,
            text: names[i].text,
        })?;
    }
    Ok(())
}

// Adds what the class at a place declares, under a number.
fn push_declared<'m>(
    keys: &mut Vec<Key<'m>>,
    number: usize,
    rows: &[Items<Key<'m>>],
    place: usize,
) -> Result<(), AllocError>
    ensures { OnOk result (keys_of keys.new.items ≡ keys_of keys.old.items ++ keyed number (names_in rows.now place)) }
{
    match rows.get(place) {
        Some(names) => push_names(keys, number, names.as_slice()),
        None => Ok(()),
    }
}

// Adds what the classes at these places declare, under a number.
fn push_seen<'m>(
    keys: &mut Vec<Key<'m>>,
    number: usize,
    rows: &[Items<Key<'m>>],
    above: &[usize],
) -> Result<(), AllocError>
    ensures { OnOk result (keys_of keys.new.items ≡ keys_of keys.old.items ++ flat_map (λ d. keyed number (names_in rows.now d)) above.now) }
{
    for i in 0..above.len() {
        push_declared(keys, number, rows, above[i])?;
    }
    Ok(())
}

// Adds what is seen in the class at a place.
fn push_class<'m>(
    keys: &mut Vec<Key<'m>>,
    meta: &'m Metamodel,
    rows: &[Items<Key<'m>>],
    place: usize,
) -> Result<(), AllocError>
    requires valid { IsMetamodel meta.now }
    requires within { place < length meta.now.classes }
    requires rows { (d : ℕ) → names_in rows.now d ≡ names_of d meta.now.skipped }
    ensures { OnOk result ((n : ℕ) (q : List ℕ) → n < 4294967296 → list_any (is_key n q) (keys_of keys.new.items)
        ≡ (list_any (is_key n q) (keys_of keys.old.items) || (place == n && has_skipped meta.now (class_no n) q))) }
{
    match class_at(place) {
        Some(class) => push_seen(keys, place, rows, meta.conformed(class)),
        None => Ok(()),
    }
}

/// The names of the skipped features that are seen in each class, under its number.
pub(crate) fn seen_keys<'m>(alloc: Global, meta: &'m Metamodel) -> Result<Vec<Key<'m>>, AllocError>
    ensures { IfOk result (λ keys. (n : ℕ) (q : List ℕ) → n < 4294967296
        → list_any (is_key n q) (keys_of keys.items) ≡ has_skipped meta.now (class_no n) q) }
{
    let parts = meta.parts();
    let count = parts.classes.len();
    let rows = declared_names(alloc, count, parts.skipped.as_slice())?;
    let mut keys = Vec::new(alloc);
    for place in 0..count {
        push_class(&mut keys, meta, &rows, place)?;
    }
    Ok(keys)
}
