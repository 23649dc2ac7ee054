// Copies of what a model is made of.
ghost use Rattle.std.specs.Prelude.{◌≡◌, IfOk};
ghost use Rattle.model_store.specs.Contents.{without};

use crate::held::Held;
use crate::parts::{Cellv, Slot};
use atl_base::numbers::ObjId;
use sqlite_items::Items;
use std::alloc::{AllocError, Global};

// The same value again.
pub(crate) fn copy_value(alloc: Global, value: &Cellv) -> Result<Cellv, AllocError>
    ensures { IfOk result (λ copy. copy ≡ value.now) }
{
    Ok(match value {
        Cellv::Words(text) => Cellv::Words(text.copy(alloc)?),
        Cellv::Int(number) => Cellv::Int(*number),
        Cellv::Truth(truth) => Cellv::Truth(*truth),
        Cellv::Literal(place) => Cellv::Literal(*place),
        Cellv::Obj(o) => Cellv::Obj(*o),
    })
}

// The same values again.
pub(crate) fn copy_slot(alloc: Global, cells: &[Cellv]) -> Result<Slot, AllocError>
    ensures { IfOk result (λ copy. copy ≡ cells.now) }
{
    let mut slot = Vec::with_capacity(alloc, cells.len())?;
    for cell in cells {
        slot.push(copy_value(alloc, cell)?)?;
    }
    Ok(Items::from_vec(slot))
}

// What stands at an object's number, again.
fn copy_place(alloc: Global, place: &Option<Held>) -> Result<Option<Held>, AllocError>
    ensures { IfOk result (λ copy. copy ≡ place.now) }
{
    match place {
        Some(object) => Ok(Some(object.copy(alloc)?)),
        None => Ok(None),
    }
}

// The same objects again.
pub(crate) fn copy_objects(
    alloc: Global,
    objects: &[Option<Held>],
) -> Result<Vec<Option<Held>>, AllocError>
    ensures { IfOk result (λ copy. copy.items ≡ objects.now) }
{
    let mut copy = Vec::with_capacity(alloc, objects.len())?;
    for place in objects {
        copy.push(copy_place(alloc, place)?)?;
    }
    Ok(copy)
}

// The values of a slot without an object.
pub(crate) fn without(alloc: Global, p: ObjId, cells: &[Cellv]) -> Result<Slot, AllocError>
    ensures { IfOk result (λ slot. slot ≡ without p cells.now) }
{
    let mut slot = Items::new(alloc);
    for cell in cells {
        if !cell.refers_to(p) {
            slot.push(copy_value(alloc, cell)?)?;
        }
    }
    Ok(slot)
}
