// The values of a long slot that are of one sort, as a set: so whether the slot has such a value is seen without going through it.
ghost use Rattle.std.specs.Prelude.{◌≡◌, ◌++◌, ◌∷◌, ◌||◌, [], ℕ, ℤ, List, nat_eq, IfOk, IfSome, OnOk};
ghost use Rattle.std.specs.List.{list_any};
ghost use Rattle.std.specs.Ordering.{int_eq};
ghost use Rattle.std.specs.HashSet.{contains, contains_text};
ghost use Rattle.model_store.specs.declared.parts.Cellv.{Cellv};
ghost use Rattle.model_store.specs.declared.parts.Cellv.TheVariants.{Words, Int, Obj};
ghost use Rattle.model_store.specs.Rows.{Knows};
ghost use Rattle.model_store.specs.Writes.{same_value};

use crate::attributes::has_value;
use crate::parts::Cellv;
use std::alloc::{AllocError, Global};
use std::collections::HashSet;

#[derive(Debug, Drop)]
pub(crate) enum Met {
    Objects(HashSet<u32>),
    Ints(HashSet<i64>),
    Texts(HashSet<String>),
}

// The set without values for a value's sort. Truth values and literals are few where none stands twice.
fn blank(alloc: Global, value: &Cellv) -> Option<Met>
    ensures { IfSome result (λ met. Knows met []) }
{
    match value {
        Cellv::Obj(_) => Some(Met::Objects(HashSet::new(alloc))),
        Cellv::Int(_) => Some(Met::Ints(HashSet::new(alloc))),
        Cellv::Words(_) => Some(Met::Texts(HashSet::new(alloc))),
        _ => None,
    }
}

// Notes a value that is an object.
fn note_object(objects: &mut HashSet<u32>, value: &Cellv) -> Result<(), AllocError>
    ensures { OnOk result ((q : ℕ) → contains nat_eq objects.new q ≡ (same_value (Obj (record { 0 = q })) value.now || contains nat_eq objects.old q)) }
{
    if let Cellv::Obj(p) = value {
        let _ = objects.insert(p.0)?;
    }
    Ok(())
}

// Notes a value that is a number.
fn note_int(ints: &mut HashSet<i64>, value: &Cellv) -> Result<(), AllocError>
    ensures { OnOk result ((n : ℤ) → contains int_eq ints.new n ≡ (same_value (Int n) value.now || contains int_eq ints.old n)) }
{
    if let Cellv::Int(n) = value {
        let _ = ints.insert(*n)?;
    }
    Ok(())
}

// Notes a value that is a text.
fn note_text(alloc: Global, texts: &mut HashSet<String>, value: &Cellv) -> Result<(), AllocError>
    ensures { OnOk result ((t : List ℕ) → contains_text texts.new t ≡ (same_value (Words t) value.now || contains_text texts.old t)) }
{
    if let Cellv::Words(text) = value {
        let _ = texts.insert(String::from_str(alloc, text.as_str())?)?;
    }
    Ok(())
}

// Notes a value more.
pub(crate) fn note(alloc: Global, met: &mut Met, value: &Cellv) -> Result<(), AllocError>
    ensures { OnOk result ((cells : List Cellv) → Knows met.old cells → Knows met.new (cells ++ value.now ∷ [])) }
{
    match met {
        Met::Objects(objects) => note_object(objects, value),
        Met::Ints(ints) => note_int(ints, value),
        Met::Texts(texts) => note_text(alloc, texts, value),
    }
}

// The values of the sort of one, where such values can be many.
pub(crate) fn met_in(
    alloc: Global,
    cells: &[Cellv],
    sort: &Cellv,
) -> Result<Option<Met>, AllocError>
    ensures { IfOk result (λ found. IfSome found (λ met. Knows met cells.now)) }
{
    let Some(mut met) = blank(alloc, sort) else {
        return Ok(None);
    };
    for cell in cells {
        note(alloc, &mut met, cell)?;
    }
    Ok(Some(met))
}

// Whether a slot has a value, by the set of its objects.
fn has_object(objects: &HashSet<u32>, cells: &[Cellv], value: &Cellv) -> bool
    requires { (q : ℕ) → contains nat_eq objects.now q ≡ list_any (same_value (Obj (record { 0 = q }))) cells.now }
    ensures { result ≡ list_any (same_value value.now) cells.now }
{
    match value {
        Cellv::Obj(p) => objects.contains(&p.0),
        _ => has_value(cells, value),
    }
}

// The same, by the set of its numbers.
fn has_int(ints: &HashSet<i64>, cells: &[Cellv], value: &Cellv) -> bool
    requires { (n : ℤ) → contains int_eq ints.now n ≡ list_any (same_value (Int n)) cells.now }
    ensures { result ≡ list_any (same_value value.now) cells.now }
{
    match value {
        Cellv::Int(n) => ints.contains(n),
        _ => has_value(cells, value),
    }
}

// The same, by the set of its texts.
fn has_text(texts: &HashSet<String>, cells: &[Cellv], value: &Cellv) -> bool
    requires { (t : List ℕ) → contains_text texts.now t ≡ list_any (same_value (Words t)) cells.now }
    ensures { result ≡ list_any (same_value value.now) cells.now }
{
    match value {
        Cellv::Words(text) => texts.contains(text.as_str()),
        _ => has_value(cells, value),
    }
}

// Whether a slot has a value.
pub(crate) fn has(met: &Met, cells: &[Cellv], value: &Cellv) -> bool
    requires { Knows met.now cells.now }
    ensures { result ≡ list_any (same_value value.now) cells.now }
{
    match met {
        Met::Objects(objects) => has_object(objects, cells, value),
        Met::Ints(ints) => has_int(ints, cells, value),
        Met::Texts(texts) => has_text(texts, cells, value),
    }
}
