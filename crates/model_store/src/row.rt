// A slot as the store keeps it. Where nothing else tells whether it has a value, and a write has to know, its values are kept as a set too,
// once there are many.
ghost use Rattle.std.specs.Prelude.{◌≡◌, ◌++◌, ◌∷◌, [], List, IfOk, IfSome, OnOk, OnErr, MatchOption};
ghost use Rattle.std.specs.List.{list_any};
ghost use Rattle.model_store.specs.declared.parts.Cellv.{Cellv};
ghost use Rattle.model_store.specs.Contents.{holds};
ghost use Rattle.model_store.specs.Rows.{Knows};
ghost use Rattle.model_store.specs.Writes.{same_value};

use crate::attributes::has_value;
use crate::copies::copy_slot;
use crate::met::{Met, has, met_in, note};
use crate::parts::{Cellv, Slot};
use atl_base::numbers::ObjId;
use std::alloc::{AllocError, Global};

/// The values of one feature of one object, as the store keeps them. Contracts see it as the values.
#[derive(Debug, Drop)]
pub struct Row {
    cells: Slot,
    met: Option<Box<Met>>,
}

impl std::marker::Model for Row {
    ghost use Rattle.std.specs.Prelude.{List, IfSome};
    ghost use Rattle.model_store.specs.declared.parts.Cellv.{Cellv};
    ghost use Rattle.model_store.specs.Rows.{Knows};

    ghost Value = { List Cellv };

    ghost view = { λ r. r.cells };

    ghost invariant = { λ r. IfSome r.met (λ met. Knows met.value r.cells) };
}

// So many values are many.
const MANY: usize = 64;

// Notes one value more, where they are noted.
fn note_more(alloc: Global, met: &mut Option<Box<Met>>, value: &Cellv) -> Result<(), AllocError>
    ensures { OnOk result ((cells : List Cellv) → IfSome met.old (λ met. Knows met.value cells) → IfSome met.new (λ met. Knows met.value (cells ++ value.now ∷ []))) }
{
    match met {
        Some(met) => note(alloc, met, value),
        None => Ok(()),
    }
}

// The values of the sort of one, where they are many.
fn learned(alloc: Global, cells: &[Cellv], sort: &Cellv) -> Result<Option<Box<Met>>, AllocError>
    ensures { IfOk result (λ found. IfSome found (λ met. Knows met.value cells.now)) }
{
    if cells.len() < MANY {
        return Ok(None);
    }
    match met_in(alloc, cells, sort)? {
        Some(met) => Ok(Some(Box::new(alloc, met)?)),
        None => Ok(None),
    }
}

impl Row {
    // A slot of these values.
    pub(crate) fn new(cells: Slot) -> Row
        ensures { result ≡ cells }
    {
        Row { cells, met: None }
    }

    /// The values, in their order.
    pub fn as_slice(&self) -> &[Cellv]
        ensures { result.now ≡ self.now }
    {
        self.cells.as_slice()
    }

    pub(crate) fn slot(&self) -> &Slot
        ensures { result.now ≡ self.now }
    {
        &self.cells
    }

    // Whether it has a value.
    pub(crate) fn has(&self, value: &Cellv) -> bool
        ensures { result ≡ list_any (same_value value.now) self.now }
    {
        match &self.met {
            Some(met) => has(met, self.cells.as_slice(), value),
            None => has_value(self.cells.as_slice(), value),
        }
    }

    // Whether it holds an object.
    #[tactic(auto, using(crate::proofs::RowValues::holds_by_values))]
    pub(crate) fn holds(&self, p: ObjId) -> bool
        ensures { result ≡ holds p self.now }
    {
        self.has(&Cellv::Obj(p))
    }

    // Keeps its values of the sort of one, if there are many.
    fn learn(&mut self, alloc: Global, sort: &Cellv) -> Result<(), AllocError>
        ensures { self.new ≡ self.old }
    {
        if self.met.is_none() {
            let met = learned(alloc, self.cells.as_slice(), sort)?;
            self.met = met;
        }
        Ok(())
    }

    // A value more.
    fn push_noted(&mut self, alloc: Global, value: Cellv) -> Result<(), AllocError>
        ensures ok { OnOk result (self.new ≡ self.old ++ value ∷ []) }
        ensures err { OnErr result (self.new ≡ self.old) }
    {
        if let Err(refused) = note_more(alloc, &mut self.met, &value) {
            self.met = None;
            return Err(refused);
        }
        if let Err(refused) = self.cells.push(value) {
            self.met = None;
            return Err(refused);
        }
        Ok(())
    }

    // A value more, and whether its values are to be kept.
    pub(crate) fn push(&mut self, alloc: Global, value: Cellv, keep: bool) -> Result<(), AllocError>
        ensures ok { OnOk result (self.new ≡ self.old ++ value ∷ []) }
        ensures err { OnErr result (self.new ≡ self.old) }
    {
        if keep {
            self.learn(alloc, &value)?;
        }
        self.push_noted(alloc, value)
    }

    // The last value less.
    pub(crate) fn pop(&mut self) -> Option<Cellv>
        ensures { MatchOption result ((self.old ≡ []) × (self.new ≡ [])) (λ last. self.old ≡ self.new ++ last ∷ []) }
    {
        self.met = None;
        self.cells.pop()
    }

    // The same values again.
    pub(crate) fn copy(&self, alloc: Global) -> Result<Row, AllocError>
        ensures { IfOk result (λ copy. copy ≡ self.now) }
    {
        Ok(Row::new(copy_slot(alloc, self.cells.as_slice())?))
    }
}
