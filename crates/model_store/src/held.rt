// An object as the store keeps it: other values can be put into a slot where it stands.
ghost use Rattle.std.specs.Prelude.{◌≡◌, ◌<◌, [], length, slice_index_or, IfOk};
ghost use Rattle.model_store.specs.Contents.{with_slot};

use crate::parts::{Object, Slot};
use crate::row::Row;
use atl_base::numbers::ClassId;
use sqlite_items::Items;
use std::alloc::{AllocError, Global};

/// An object of a model. Contracts see it as its class and its slots.
#[derive(Drop)]
pub struct Held {
    class: ClassId,
    slots: Vec<Row>,
}

impl std::marker::Model for Held {
    ghost use Rattle.model_store.specs.declared.parts.Object.{Object};

    ghost Value = { Object };

    ghost view = { λ h. record { class = h.class; slots = h.slots.items } };
}

// The slots of a list.
fn moved(alloc: Global, mut slots: Items<Slot>) -> Result<Vec<Row>, AllocError>
    ensures { IfOk result (λ list. list.items ≡ slots) }
{
    let mut list = Vec::with_capacity(alloc, slots.len())?;
    'back: while let Some(slot) = slots.pop() {
        list.push(Row::new(slot))?;
    }
    list.reverse();
    Ok(list)
}

impl Held {
    pub(crate) fn new(class: ClassId, slots: Vec<Row>) -> Held
        ensures { result ≡ record { class = class; slots = slots.items } }
    {
        Held { class, slots }
    }

    // The same object.
    pub(crate) fn of(alloc: Global, object: Object) -> Result<Held, AllocError>
        ensures { IfOk result (λ held. held ≡ object) }
    {
        let Object { class, slots } = object;
        Ok(Held {
            class,
            slots: moved(alloc, slots)?,
        })
    }

    /// The object's class.
    pub fn class(&self) -> ClassId
        ensures { result ≡ self.now.class }
    {
        self.class
    }

    /// A slot for each feature that is seen in the class, in the order of the features.
    pub fn slots(&self) -> &[Row]
        ensures { result.now ≡ self.now.slots }
    {
        &self.slots
    }

    // Other values in the slot at this place, and what it held.
    pub(crate) fn exchange(&mut self, at: usize, cells: Row) -> Row
        requires { at < length self.old.slots }
        ensures new { self.new ≡ with_slot self.old at cells }
        ensures old { result ≡ slice_index_or self.old.slots at [] }
    {
        std::mem::replace(&mut self.slots[at], cells)
    }

    // The same object again.
    pub(crate) fn copy(&self, alloc: Global) -> Result<Held, AllocError>
        ensures { IfOk result (λ copy. copy ≡ self.now) }
    {
        Ok(Held {
            class: self.class,
            slots: copy_slots(alloc, &self.slots)?,
        })
    }
}

// The same slots again.
fn copy_slots(alloc: Global, slots: &[Row]) -> Result<Vec<Row>, AllocError>
    ensures { IfOk result (λ copy. copy.items ≡ slots.now) }
{
    let mut copy = Vec::with_capacity(alloc, slots.len())?;
    for slot in slots {
        copy.push(slot.copy(alloc)?)?;
    }
    Ok(copy)
}
