// Writing to attributes: values appended or replaced, and the defaults.
ghost use Rattle.std.specs.Prelude.{◌≡◌, ◌∷◌, [], ◌<◌, length, position, take, IfOk, OnOk, OnErr};
ghost use Rattle.std.specs.List.{list_any};
ghost use Rattle.std.specs.Str.{bytes_eq};
ghost use Rattle.std.specs.Str.Parse.{signed_digits_value};
ghost use Rattle.ecore_meta.specs.Valid.{IsTextOf, IsIntText};
ghost use Rattle.model_store.specs.Sketches.{blank};
ghost use Rattle.model_store.specs.Writes.{same_value, with_value, appended, replaced, initial, value_of_text, literal_number, literal_of, fresh};

use crate::copies::copy_value;
use crate::held::Held;
use crate::lookups::{feature, is_reference};
use crate::parts::{Cellv, Slot};
use crate::row::Row;
use atl_base::numbers::{ClassId, FeatId};
use atl_base::text::Text;
use ecore_meta::metamodel::Metamodel;
use ecore_meta::parts::{FeatKind, Literal};
use sqlite_items::Items;
use std::alloc::{AllocError, Global};

/// Whether two values are the same.
pub fn same_value(a: &Cellv, b: &Cellv) -> bool
    ensures { result ≡ same_value a.now b.now }
{
    match (a, b) {
        (Cellv::Words(a), Cellv::Words(b)) => a.as_str() == b.as_str(),
        (Cellv::Int(a), Cellv::Int(b)) => *a == *b,
        (Cellv::Truth(a), Cellv::Truth(b)) => *a == *b,
        (Cellv::Literal(a), Cellv::Literal(b)) => *a == *b,
        (Cellv::Obj(a), Cellv::Obj(b)) => a.0 == b.0,
        _ => false,
    }
}

// Whether a slot has a value.
pub(crate) fn has_value(cells: &[Cellv], value: &Cellv) -> bool
    ensures { result ≡ list_any (same_value value.now) cells.now }
{
    cells.iter().any(|cell| same_value(value, cell))
}

// A value more, unless the feature is unique and has it.
fn append_value(alloc: Global, unique: bool, row: &mut Row, value: &Cellv) -> Result<(), AllocError>
    ensures ok { OnOk result (row.new ≡ with_value unique row.old value.now) }
    ensures kept { take (length row.old) row.new ≡ row.old }
{
    if unique && row.has(value) {
        return Ok(());
    }
    row.push(alloc, copy_value(alloc, value)?, unique)
}

// The values of a slot, and others after them. After a refusal some of them stand there.
fn append_all(
    alloc: Global,
    unique: bool,
    row: &mut Row,
    values: &[Cellv],
) -> Result<(), AllocError>
    ensures ok { OnOk result (row.new ≡ appended unique row.old values.now) }
    ensures kept { take (length row.old) row.new ≡ row.old }
{
    for value in values {
        append_value(alloc, unique, row, value)?;
    }
    Ok(())
}

// So many of the values alone.
fn cut_to(row: &mut Row, n: usize)
    ensures { row.new ≡ take n row.old }
{
    'back: while n < row.as_slice().len() {
        let _ = row.pop();
    }
}

// The values of a slot, and others after them, or those alone.
pub(crate) fn append_or_not(
    alloc: Global,
    unique: bool,
    row: &mut Row,
    values: &[Cellv],
) -> Result<(), AllocError>
    ensures ok { OnOk result (row.new ≡ appended unique row.old values.now) }
    ensures err { OnErr result (row.new ≡ row.old) }
{
    let before = row.as_slice().len();
    match append_all(alloc, unique, row, values) {
        Ok(()) => Ok(()),
        Err(refused) => {
            cut_to(row, before);
            Err(refused)
        }
    }
}

// The place of the literal of this text.
fn place_of_literal(literals: &[Literal], text: &str) -> Option<usize>
    ensures { result ≡ position (λ l. bytes_eq l.text text.now) literals.now }
{
    literals.iter().position(|l| l.text.as_str() == text)
}

// The number of the literal at a place.
fn literal_number(place: Option<usize>) -> u32
    ensures { result ≡ literal_number place }
{
    match place {
        Some(at) if at < 4_294_967_296 => at as u32,
        _ => 0,
    }
}

// The number of the literal of this text.
fn literal_of(meta: &Metamodel, place: u32, text: &str) -> u32
    ensures { result ≡ literal_of meta.now place text.now }
{
    match meta.enums().get(place as usize) {
        Some(found) => literal_number(place_of_literal(found.literals.as_slice(), text)),
        None => 0,
    }
}

// The number that a text stands for.
fn number_of(text: &str) -> i64
    requires { IsIntText text.now }
    ensures { result ≡ signed_digits_value 10 text.now }
{
    match text.parse::<i64>() {
        Ok(number) => number,
        Err(_) => 0,
    }
}

/// The value that a text of an attribute's type stands for.
pub fn value_of_text(
    alloc: Global,
    meta: &Metamodel,
    kind: FeatKind,
    text: &Text,
) -> Result<Cellv, AllocError>
    requires { IsTextOf meta.now kind text.now }
    ensures { IfOk result (λ value. value ≡ value_of_text meta.now kind text.now) }
{
    match kind {
        FeatKind::Int => Ok(Cellv::Int(number_of(text.as_str()))),
        FeatKind::Truth => Ok(Cellv::Truth(text.as_str() == "true")),
        FeatKind::Enum(place) => Ok(Cellv::Literal(literal_of(meta, place, text.as_str()))),
        _ => Ok(Cellv::Words(text.copy(alloc)?)),
    }
}

// The slot of one value, with room for no other: most slots of a model are of this sort.
fn single(alloc: Global, value: Cellv) -> Result<Slot, AllocError>
    ensures { IfOk result (λ slot. slot ≡ value ∷ []) }
{
    let mut slot = Vec::with_capacity(alloc, 1)?;
    slot.push(value)?;
    Ok(Items::from_vec(slot))
}

/// What a slot holds that nothing was written to.
pub fn initial(alloc: Global, meta: &Metamodel, f: FeatId) -> Result<Slot, AllocError>
    ensures { IfOk result (λ slot. slot ≡ initial meta.now f) }
{
    let Some(feature) = feature(meta, f) else {
        return Ok(Items::new(alloc));
    };
    if feature.many || is_reference(feature.kind) {
        return Ok(Items::new(alloc));
    }
    match &feature.default {
        Some(text) => single(alloc, value_of_text(alloc, meta, feature.kind, text)?),
        None => Ok(Items::new(alloc)),
    }
}

// An object with empty slots.
pub(crate) fn blank(alloc: Global, meta: &Metamodel, class: ClassId) -> Result<Held, AllocError>
    requires { class.0 < length meta.now.classes }
    ensures { IfOk result (λ object. object ≡ blank meta.now class) }
{
    let features = meta.features_seen(class);
    let mut slots = Vec::with_capacity(alloc, features.len())?;
    for _feature in features {
        slots.push(Row::new(Items::new(alloc)))?;
    }
    Ok(Held::new(class, slots))
}

// An object that nothing was written to.
pub(crate) fn fresh(alloc: Global, meta: &Metamodel, class: ClassId) -> Result<Held, AllocError>
    requires { class.0 < length meta.now.classes }
    ensures { IfOk result (λ object. object ≡ fresh meta.now class) }
{
    let features = meta.features_seen(class);
    let mut slots = Vec::with_capacity(alloc, features.len())?;
    for f in features {
        slots.push(Row::new(initial(alloc, meta, *f)?))?;
    }
    Ok(Held::new(class, slots))
}

// What the slot of a single-valued attribute holds after a write.
pub(crate) fn replaced(
    alloc: Global,
    meta: &Metamodel,
    f: FeatId,
    values: &[Cellv],
) -> Result<Slot, AllocError>
    ensures { IfOk result (λ slot. slot ≡ replaced (initial meta.now f) values.now) }
{
    let Some(value) = values.first() else {
        return initial(alloc, meta, f);
    };
    single(alloc, copy_value(alloc, value)?)
}
