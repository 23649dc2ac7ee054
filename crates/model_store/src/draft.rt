// A write to a reference while it is made: the slots are changed where they stand, and the journal has what they held.
// `specs/Drafts.antt` says what has been reached, and what is gone back to where memory is refused.
ghost use Rattle.std.specs.Prelude.{◌≡◌, ◌++◌, ◌∷◌, [], length, slice_set, Some, None, OnOk, OnErr};
ghost use Rattle.model_store.specs.declared.parts.Cellv.TheVariants.{Obj};
ghost use Rattle.model_store.specs.Contents.{holder, holds, set_slot, slot};
ghost use Rattle.model_store.specs.Drafts.{current, restored, undo, undone, settled, IsReady};
ghost use Rattle.model_store.specs.HolderTables.{AreHolders};
ghost use Rattle.model_store.specs.Writes.{freed, taken_in};

use crate::guesses::guess;
use crate::parts::{Cellv, Slot};
use crate::roots::RootStep;
use crate::row::Row;
use crate::store::Store;
use atl_base::numbers::{FeatId, ObjId};
use ecore_meta::metamodel::Metamodel;
use std::alloc::{AllocError, Global};

// What a slot went through.
#[derive(Debug, Drop)]
pub(crate) enum Change {
    // other values were put into it, in place of these
    Replaced(ObjId, FeatId, Row),
    // a value was appended
    Appended(ObjId, FeatId),
}

#[derive(Drop)]
pub(crate) struct Draft {
    // the slots as they have become, and the roots as they were
    pub store: Store,
    // for each number the container of its object and the feature, where it has one
    pub holders: Vec<Option<(ObjId, FeatId)>>,
    // and perhaps the place in the slot
    pub places: Vec<usize>,
    // what the roots go through
    pub pending: Vec<RootStep>,
    // what the slots went through
    pub journal: Vec<Change>,
}

// Takes a change back.
fn undo(store: &mut Store, change: Change)
    ensures { store.new ≡ undo change store.old }
{
    match change {
        Change::Replaced(o, f, cells) => {
            let _ = store.exchange(o, f, cells);
        }
        Change::Appended(o, f) => store.drop_last(o, f),
    }
}

// Takes all changes back.
fn undo_all(store: &mut Store, mut changes: Vec<Change>)
    ensures { store.new ≡ undone changes.items store.old }
{
    'back: while let Some(change) = changes.pop() {
        undo(store, change);
    }
}

// Another container in the table.
fn hold(holders: &mut [Option<(ObjId, FeatId)>], p: ObjId, at: Option<(ObjId, FeatId)>)
    ensures { holders.new ≡ slice_set holders.old p.0 at }
{
    let place = p.0 as usize;
    if place < holders.len() {
        holders[place] = at;
    }
}

impl Draft {
    // Nothing is written yet.
    pub(crate) fn new(
        store: Store,
        holders: Vec<Option<(ObjId, FeatId)>>,
        places: Vec<usize>,
    ) -> Draft
        ensures store { current result ≡ store }
        ensures holders { result.holders.items ≡ holders.items }
        ensures back { restored result ≡ (store, length holders.items) }
    {
        let alloc = store.alloc();
        Draft {
            store,
            holders,
            places,
            pending: Vec::new(alloc),
            journal: Vec::new(alloc),
        }
    }

    pub(crate) fn alloc(&self) -> Global {
        self.store.alloc()
    }

    pub(crate) fn meta(&self) -> &Metamodel
        ensures { result.now ≡ (current self.now).meta }
    {
        self.store.meta()
    }

    // The values of a feature of an object, and none where there is no such slot.
    pub(crate) fn cells(&self, o: ObjId, f: FeatId) -> &[Cellv]
        ensures { result.now ≡ slot (current self.now) o f }
    {
        self.store.cells(o, f)
    }

    // Whether a feature of an object holds an object.
    pub(crate) fn holds(&self, o: ObjId, f: FeatId, p: ObjId) -> bool
        ensures { result ≡ holds p (slot (current self.now) o f) }
    {
        self.store.holds(o, f, p)
    }

    // Where an object is contained: the container and its feature.
    pub(crate) fn holder(&self, p: ObjId) -> Option<(ObjId, FeatId)>
        requires { IsReady (current self.now) self.now.holders.items }
        ensures { result ≡ holder (current self.now) p }
    {
        *self.holders.get(p.0 as usize)?
    }

    // Other values in a slot.
    #[tactic(auto, using(crate::proofs::Exchanges::replaced_current, crate::proofs::Exchanges::replaced_back))]
    pub(crate) fn replace(&mut self, o: ObjId, f: FeatId, cells: Slot) -> Result<(), AllocError>
        ensures current { OnOk result (current self.new ≡ set_slot (current self.old) o f cells) }
        ensures holders { self.new.holders.items ≡ self.old.holders.items }
        ensures back { restored self.new ≡ restored self.old }
    {
        self.journal.reserve(1)?;
        let old = self.store.exchange(o, f, Row::new(cells));
        match self.journal.push(Change::Replaced(o, f, old)) {
            Ok(()) => Ok(()),
            Err(_) => Err(AllocError),
        }
    }

    // An object more in a slot.
    #[tactic(auto, using(crate::proofs::Exchanges::replaced_current, crate::proofs::Exchanges::appended_back))]
    pub(crate) fn append(&mut self, o: ObjId, f: FeatId, q: ObjId) -> Result<(), AllocError>
        ensures current { OnOk result (current self.new ≡ set_slot (current self.old) o f (slot (current self.old) o f ++ Obj q ∷ [])) }
        ensures holders { self.new.holders.items ≡ self.old.holders.items }
        ensures back { restored self.new ≡ restored self.old }
    {
        self.journal.reserve(1)?;
        self.store.append(o, f, q)?;
        match self.journal.push(Change::Appended(o, f)) {
            Ok(()) => Ok(()),
            Err(_) => Err(AllocError),
        }
    }

    // An object that has no container any more becomes a root.
    #[tactic(auto, using(crate::proofs::Exchanges::freed_current))]
    pub(crate) fn free(&mut self, p: ObjId) -> Result<(), AllocError>
        ensures current { OnOk result (current self.new ≡ freed p (current self.old)) }
        ensures holders { OnOk result (self.new.holders.items ≡ slice_set self.old.holders.items p.0 None) }
        ensures back { restored self.new ≡ restored self.old }
    {
        self.pending.push(RootStep::Freed(p))?;
        hold(&mut self.holders, p, None);
        Ok(())
    }

    // An object that has a container is no root.
    #[tactic(auto, using(crate::proofs::Exchanges::taken_current))]
    pub(crate) fn take_in(&mut self, p: ObjId, at: (ObjId, FeatId)) -> Result<(), AllocError>
        ensures current { OnOk result (current self.new ≡ taken_in p (current self.old)) }
        ensures holders { OnOk result (self.new.holders.items ≡ slice_set self.old.holders.items p.0 (Some at)) }
        ensures back { restored self.new ≡ restored self.old }
    {
        self.pending.push(RootStep::TakenIn(p))?;
        hold(&mut self.holders, p, Some(at));
        let place = self.store.cells(at.0, at.1).len().saturating_sub(1);
        guess(&mut self.places, p, place);
        Ok(())
    }

    // The roots follow.
    pub(crate) fn settle(&mut self) -> Result<(), AllocError>
        ensures current { OnOk result (self.new.store ≡ current self.old) }
        ensures holders { self.new.holders.items ≡ self.old.holders.items }
        ensures back { OnErr result (restored self.new ≡ restored self.old) }
    {
        self.store.settle(&self.pending)
    }

    // The model as it was, and its table.
    pub(crate) fn roll_back(self) -> (Store, Vec<Option<(ObjId, FeatId)>>, Vec<usize>)
        requires { length self.holders.items ≡ length (restored self).0.objects }
        ensures store { result.0 ≡ (restored self).0 }
        ensures holders { AreHolders result.0 result.1.items }
    {
        let Draft {
            mut store,
            mut holders,
            places,
            journal,
            ..
        } = self;
        undo_all(&mut store, journal);
        store.note_holders(&mut holders);
        (store, holders, places)
    }
}
