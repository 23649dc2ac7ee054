// Pairs of a reference and its opposite: appended and removed at both ends, and the roots and the table of containers with them.
ghost use Rattle.std.specs.Prelude.{◌≡◌, ◌&&◌, ◌==◌, true, false, slice_set, Some, None, OnOk, if◌then◌else◌};
ghost use Rattle.std.specs.Option.{option_map_or};
ghost use Rattle.atl_base.specs.declared.numbers.FeatId.{FeatId};
ghost use Rattle.model_store.specs.Contents.{contains, is_contained_by, holds, opposite, refers, slot};
ghost use Rattle.model_store.specs.Drafts.{current, restored, without_ends, with_ends, IsReady};
ghost use Rattle.model_store.specs.Valid.{HasSlot, Refers};
ghost use Rattle.model_store.specs.Writes.{cut, cut_back, freed, taken_in, free_ends, unlink, join, join_back, take_ends_in, link};

use crate::copies::without;
use crate::draft::Draft;
use crate::guesses::guess_slot;
use crate::lookups::{contains, opposite};
use atl_base::numbers::{FeatId, ObjId};
use std::alloc::AllocError;

// Takes q out of o.f.
#[tactic(auto, unfolding(crate::specs::Writes::cut))]
fn cut(model: &mut Draft, o: ObjId, f: FeatId, q: ObjId) -> Result<(), AllocError>
    ensures current { OnOk result (current model.new ≡ cut o f q (current model.old)) }
    ensures holders { model.new.holders.items ≡ model.old.holders.items }
    ensures back { restored model.new ≡ restored model.old }
{
    let rest = without(model.alloc(), q, model.cells(o, f))?;
    let content = contains(model.meta(), f);
    guess_slot(&mut model.places, content, rest.as_slice());
    model.replace(o, f, rest)
}

// Takes o out of the opposite slot of q.
#[tactic(auto, unfolding(crate::specs::Writes::cut_back))]
fn cut_back(model: &mut Draft, o: ObjId, f: FeatId, q: ObjId) -> Result<(), AllocError>
    ensures current { OnOk result (current model.new ≡ cut_back o f q (current model.old)) }
    ensures holders { model.new.holders.items ≡ model.old.holders.items }
    ensures back { restored model.new ≡ restored model.old }
{
    match opposite(model.meta(), f) {
        Some(g) => cut(model, q, g, o),
        None => Ok(()),
    }
}

// Appends q to o.f, where it is not there.
#[tactic(auto, unfolding(crate::specs::Writes::join))]
fn join(model: &mut Draft, o: ObjId, f: FeatId, q: ObjId) -> Result<(), AllocError>
    requires { holds q (slot (current model.old) o f) ≡ false }
    ensures current { OnOk result (current model.new ≡ join o f q (current model.old)) }
    ensures holders { model.new.holders.items ≡ model.old.holders.items }
    ensures back { restored model.new ≡ restored model.old }
{
    model.append(o, f, q)
}

// Appends o to the opposite slot g of q, where it is not there: it is, if the two ends are one slot.
#[tactic(auto, unfolding(crate::specs::Writes::join))]
fn join_end(model: &mut Draft, o: ObjId, f: FeatId, q: ObjId, g: FeatId) -> Result<(), AllocError>
    requires { holds o (slot (current model.old) q g) ≡ (q.0 == o.0 && g.0 == f.0) }
    ensures current { OnOk result (current model.new ≡ join q g o (current model.old)) }
    ensures holders { model.new.holders.items ≡ model.old.holders.items }
    ensures back { restored model.new ≡ restored model.old }
{
    if q.0 == o.0 && g.0 == f.0 {
        return Ok(());
    }
    model.append(q, g, o)
}

// Appends o to the opposite slot of q.
#[tactic(auto, unfolding(crate::specs::Writes::join_back))]
fn join_back(model: &mut Draft, o: ObjId, f: FeatId, q: ObjId) -> Result<(), AllocError>
    requires { (g : FeatId) → opposite (current model.old).meta f ≡ Some g → holds o (slot (current model.old) q g) ≡ (q.0 == o.0 && g.0 == f.0) }
    ensures current { OnOk result (current model.new ≡ join_back o f q (current model.old)) }
    ensures holders { model.new.holders.items ≡ model.old.holders.items }
    ensures back { restored model.new ≡ restored model.old }
{
    match opposite(model.meta(), f) {
        Some(g) => join_end(model, o, f, q, g),
        None => Ok(()),
    }
}

// What o.f contained by its opposite is a root again.
fn free_back(model: &mut Draft, o: ObjId, f: FeatId) -> Result<(), AllocError>
    ensures current { OnOk result (current model.new ≡ (if is_contained_by (current model.old).meta f then freed o (current model.old) else current model.old)) }
    ensures holders { OnOk result (model.new.holders.items ≡ option_map_or (λ g. if contains (current model.old).meta g then slice_set model.old.holders.items o.0 None else model.old.holders.items) (opposite (current model.old).meta f) model.old.holders.items) }
    ensures back { restored model.new ≡ restored model.old }
{
    let Some(g) = opposite(model.meta(), f) else {
        return Ok(());
    };
    if contains(model.meta(), g) {
        return model.free(o);
    }
    Ok(())
}

// What the pair contained is a root again.
#[tactic(auto, unfolding(crate::specs::Writes::free_ends))]
fn free_ends(model: &mut Draft, o: ObjId, f: FeatId, q: ObjId) -> Result<(), AllocError>
    ensures current { OnOk result (current model.new ≡ free_ends o f q (current model.old)) }
    ensures holders { OnOk result (model.new.holders.items ≡ without_ends (current model.old).meta o f q model.old.holders.items) }
    ensures back { restored model.new ≡ restored model.old }
{
    if contains(model.meta(), f) {
        return model.free(q);
    }
    free_back(model, o, f)
}

// What q contains by the opposite of f is no root.
fn take_back_in(model: &mut Draft, o: ObjId, f: FeatId, q: ObjId) -> Result<(), AllocError>
    ensures current { OnOk result (current model.new ≡ (if is_contained_by (current model.old).meta f then taken_in o (current model.old) else current model.old)) }
    ensures holders { OnOk result (model.new.holders.items ≡ option_map_or (λ g. if contains (current model.old).meta g then slice_set model.old.holders.items o.0 (Some (q, g)) else model.old.holders.items) (opposite (current model.old).meta f) model.old.holders.items) }
    ensures back { restored model.new ≡ restored model.old }
{
    let Some(g) = opposite(model.meta(), f) else {
        return Ok(());
    };
    if contains(model.meta(), g) {
        return model.take_in(o, (q, g));
    }
    Ok(())
}

// What the pair contains is no root.
#[tactic(auto, unfolding(crate::specs::Writes::take_ends_in))]
fn take_ends_in(model: &mut Draft, o: ObjId, f: FeatId, q: ObjId) -> Result<(), AllocError>
    ensures current { OnOk result (current model.new ≡ take_ends_in o f q (current model.old)) }
    ensures holders { OnOk result (model.new.holders.items ≡ with_ends (current model.old).meta o f q model.old.holders.items) }
    ensures back { restored model.new ≡ restored model.old }
{
    if contains(model.meta(), f) {
        return model.take_in(q, (o, f));
    }
    take_back_in(model, o, f, q)
}

// Removes the pair of o and q.
#[tactic(auto, unfolding(crate::specs::Writes::unlink))]
pub(crate) fn unlink(model: &mut Draft, o: ObjId, f: FeatId, q: ObjId) -> Result<(), AllocError>
    requires ready { IsReady (current model.old) model.old.holders.items }
    requires reference { refers (current model.old).meta f ≡ true }
    requires pair { Refers (current model.old) o f q }
    ensures current { OnOk result (current model.new ≡ unlink o f q (current model.old)) }
    ensures ready { OnOk result (IsReady (current model.new) model.new.holders.items) }
    ensures back { restored model.new ≡ restored model.old }
{
    cut(model, o, f, q)?;
    cut_back(model, o, f, q)?;
    free_ends(model, o, f, q)?;
    Ok(())
}

// Appends the pair of o and q, where neither end has it.
#[tactic(auto, unfolding(crate::specs::Writes::link))]
pub(crate) fn link(model: &mut Draft, o: ObjId, f: FeatId, q: ObjId) -> Result<(), AllocError>
    requires ready { IsReady (current model.old) model.old.holders.items }
    requires there { HasSlot (current model.old) o f }
    requires apart { holds q (slot (current model.old) o f) ≡ false }
    ensures current { OnOk result (current model.new ≡ link o f q (current model.old)) }
    ensures holders { OnOk result (model.new.holders.items ≡ with_ends (current model.old).meta o f q model.old.holders.items) }
    ensures back { restored model.new ≡ restored model.old }
{
    join(model, o, f, q)?;
    join_back(model, o, f, q)?;
    take_ends_in(model, o, f, q)?;
    Ok(())
}
