// The table that says where each object is contained, made by one walk over all slots.
ghost use Rattle.std.specs.Prelude.{◌≡◌, ℕ, ◌<◌, length, slice_index_or, option_map, Some, None, false, if◌then◌else◌};
ghost use Rattle.model_store.specs.declared.parts.Object.{Object};
ghost use Rattle.model_store.specs.Contents.{contains, holds, holding_in, holding_place, refers_to, IsShaped};
ghost use Rattle.model_store.specs.HolderTables.{or_else, pair_with};

use crate::held::Held;
use crate::lookups::contains;
use crate::parts::Cellv;
use atl_base::numbers::{FeatId, ObjId};
use ecore_meta::metamodel::Metamodel;

// Notes where the object of a value is contained, unless that is known.
fn note_value(holders: &mut [Option<(ObjId, FeatId)>], o: ObjId, f: FeatId, value: &Cellv)
    ensures { (k : ℕ) → k < length holders.old → slice_index_or holders.new k None
        ≡ or_else (slice_index_or holders.old k None) (if refers_to (record { 0 = k }) value.now then Some (o, f) else None) }
{
    if let Cellv::Obj(q) = value {
        let at = q.0 as usize;
        if at < holders.len() && holders[at].is_none() {
            holders[at] = Some((o, f));
        }
    }
}

// The same of each value of a slot.
fn note_slot(holders: &mut [Option<(ObjId, FeatId)>], o: ObjId, f: FeatId, cells: &[Cellv])
    ensures { (k : ℕ) → k < length holders.old → slice_index_or holders.new k None
        ≡ or_else (slice_index_or holders.old k None) (if holds (record { 0 = k }) cells.now then Some (o, f) else None) }
{
    for value in cells {
        note_value(holders, o, f, value);
    }
}

// The same of a feature, where it contains.
fn note_feature(
    holders: &mut [Option<(ObjId, FeatId)>],
    meta: &Metamodel,
    o: ObjId,
    f: FeatId,
    cells: &[Cellv],
)
    ensures { (k : ℕ) → k < length holders.old → slice_index_or holders.new k None
        ≡ or_else (slice_index_or holders.old k None) (if (if contains meta.now f then holds (record { 0 = k }) cells.now else false) then Some (o, f) else None) }
{
    if contains(meta, f) {
        note_slot(holders, o, f, cells);
    }
}

// The same of each feature of an object.
fn note_object(holders: &mut [Option<(ObjId, FeatId)>], meta: &Metamodel, o: ObjId, object: &Held)
    requires { IsShaped meta.now object.now }
    ensures { (k : ℕ) → k < length holders.old → slice_index_or holders.new k None
        ≡ or_else (slice_index_or holders.old k None) (option_map (pair_with o) (holding_in meta.now (record { 0 = k }) object.now)) }
{
    let features = meta.features_seen(object.class());
    let slots = object.slots();
    for at in 0..features.len() {
        note_feature(holders, meta, o, features[at], slots[at].as_slice());
    }
}

// The same of what stands at an object's number.
pub(crate) fn note_place(
    holders: &mut [Option<(ObjId, FeatId)>],
    meta: &Metamodel,
    o: ObjId,
    place: &Option<Held>,
)
    requires { (object : Object) → place.now ≡ Some object → IsShaped meta.now object }
    ensures { (k : ℕ) → k < length holders.old → slice_index_or holders.new k None
        ≡ or_else (slice_index_or holders.old k None) (option_map (pair_with o) (holding_place meta.now (record { 0 = k }) place.now)) }
{
    if let Some(object) = place {
        note_object(holders, meta, o, object);
    }
}

// Nothing is known.
pub(crate) fn clear(holders: &mut [Option<(ObjId, FeatId)>])
    ensures { (k : ℕ) → k < length holders.old → slice_index_or holders.new k None ≡ None }
{
    for holder in holders.iter_mut() {
        *holder = None;
    }
}
