// Adding an object to a reference, by cases. After a refusal the draft may be half changed: it is rolled back then.
ghost use Rattle.std.specs.Prelude.{◌≡◌, ◌==◌, ◌&&◌, true, false, All, OnOk, OnErr};
ghost use Rattle.std.specs.Option.{option_map_or};
ghost use Rattle.model_store.specs.declared.parts.Cellv.TheVariants.{Obj};
ghost use Rattle.model_store.specs.Contents.{contains, holds, refers, slot};
ghost use Rattle.model_store.specs.Drafts.{current, restored, IsReady};
ghost use Rattle.model_store.specs.Valid.{HasSlot, IsOfType};
ghost use Rattle.model_store.specs.Writes.{give_up, give_up_back, leave, make_way, add, add_all, add_value, rewired};

use crate::draft::Draft;
use crate::lookups::{contains, first_object, holds, is_contained_by, is_many, opposite};
use crate::pairs::{link, unlink};
use crate::parts::Cellv;
use crate::store::Store;
use atl_base::numbers::{FeatId, ObjId};
use std::alloc::AllocError;

// Whether a slot has an object, by the shorter of the two ends.
fn shorter_holds(cells: &[Cellv], p: ObjId, back: &[Cellv], o: ObjId) -> bool
    requires { holds p cells.now ≡ holds o back.now }
    ensures { result ≡ holds p cells.now }
{
    if cells.len() <= back.len() {
        holds(cells, p)
    } else {
        holds(back, o)
    }
}

// Whether this is where an object is contained.
fn is_place(at: Option<(ObjId, FeatId)>, o: ObjId, f: FeatId) -> bool
    ensures { result ≡ option_map_or (λ at. at.0.0 == o.0 && at.1.0 == f.0) at false }
{
    match at {
        Some((r, h)) => r.0 == o.0 && h.0 == f.0,
        None => false,
    }
}

// Whether o contains p by f.
fn is_held_by(model: &Draft, o: ObjId, f: FeatId, p: ObjId) -> bool
    requires ready { IsReady (current model.now) model.now.holders.items }
    requires content { contains (current model.now).meta f ≡ true }
    ensures { result ≡ holds p (slot (current model.now) o f) }
{
    is_place(model.holder(p), o, f)
}

// Whether o refers to p by f.
fn has_pair(model: &Draft, o: ObjId, f: FeatId, p: ObjId) -> bool
    requires ready { IsReady (current model.now) model.now.holders.items }
    ensures { result ≡ holds p (slot (current model.now) o f) }
{
    if contains(model.meta(), f) {
        return is_held_by(model, o, f, p);
    }
    match opposite(model.meta(), f) {
        Some(g) => shorter_holds(model.cells(o, f), p, model.cells(p, g), o),
        None => model.holds(o, f, p),
    }
}

// A single-valued reference gives up what it holds.
#[tactic(auto, unfolding(crate::specs::Writes::give_up))]
fn give_up(model: &mut Draft, o: ObjId, f: FeatId) -> Result<(), AllocError>
    requires ready { IsReady (current model.old) model.old.holders.items }
    requires reference { refers (current model.old).meta f ≡ true }
    ensures current { OnOk result (current model.new ≡ give_up o f (current model.old)) }
    ensures ready { OnOk result (IsReady (current model.new) model.new.holders.items) }
    ensures back { restored model.new ≡ restored model.old }
{
    if is_many(model.meta(), f) {
        return Ok(());
    }
    match first_object(model.cells(o, f)) {
        Some(q) => unlink(model, o, f, q),
        None => Ok(()),
    }
}

// A single-valued opposite g of f gives up what p.g holds.
#[tactic(auto, unfolding(crate::specs::Writes::give_up_back))]
fn give_up_back(model: &mut Draft, f: FeatId, p: ObjId) -> Result<(), AllocError>
    requires ready { IsReady (current model.old) model.old.holders.items }
    requires reference { refers (current model.old).meta f ≡ true }
    ensures current { OnOk result (current model.new ≡ give_up_back f p (current model.old)) }
    ensures ready { OnOk result (IsReady (current model.new) model.new.holders.items) }
    ensures back { restored model.new ≡ restored model.old }
{
    let Some(g) = opposite(model.meta(), f) else {
        return Ok(());
    };
    if is_many(model.meta(), g) {
        return Ok(());
    }
    match first_object(model.cells(p, g)) {
        Some(r) => unlink(model, r, f, p),
        None => Ok(()),
    }
}

// An object leaves the container that it is in.
#[tactic(auto, unfolding(crate::specs::Writes::leave))]
fn leave(model: &mut Draft, p: ObjId) -> Result<(), AllocError>
    requires { IsReady (current model.old) model.old.holders.items }
    ensures current { OnOk result (current model.new ≡ leave p (current model.old)) }
    ensures ready { OnOk result (IsReady (current model.new) model.new.holders.items) }
    ensures back { restored model.new ≡ restored model.old }
{
    match model.holder(p) {
        Some((r, h)) => unlink(model, r, h, p),
        None => Ok(()),
    }
}

// What is to be contained leaves its container.
#[tactic(auto, unfolding(crate::specs::Writes::make_way))]
fn make_way(model: &mut Draft, o: ObjId, f: FeatId, p: ObjId) -> Result<(), AllocError>
    requires { IsReady (current model.old) model.old.holders.items }
    ensures current { OnOk result (current model.new ≡ make_way o f p (current model.old)) }
    ensures ready { OnOk result (IsReady (current model.new) model.new.holders.items) }
    ensures back { restored model.new ≡ restored model.old }
{
    if contains(model.meta(), f) {
        return leave(model, p);
    }
    if is_contained_by(model.meta(), f) {
        return leave(model, o);
    }
    Ok(())
}

// Adds p to o.f.
#[tactic(auto, unfolding(crate::specs::Writes::add))]
fn add(model: &mut Draft, o: ObjId, f: FeatId, p: ObjId) -> Result<(), AllocError>
    requires ready { IsReady (current model.old) model.old.holders.items }
    requires there { HasSlot (current model.old) o f }
    requires reference { refers (current model.old).meta f ≡ true }
    requires typed { IsOfType (current model.old) f (Obj p) }
    ensures current { OnOk result (current model.new ≡ add o f p (current model.old)) }
    ensures ready { OnOk result (IsReady (current model.new) model.new.holders.items) }
    ensures back { restored model.new ≡ restored model.old }
{
    if has_pair(model, o, f, p) {
        return Ok(());
    }
    give_up(model, o, f)?;
    give_up_back(model, f, p)?;
    make_way(model, o, f, p)?;
    link(model, o, f, p)?;
    Ok(())
}

// Adds a value.
fn add_value(model: &mut Draft, o: ObjId, f: FeatId, value: &Cellv) -> Result<(), AllocError>
    requires ready { IsReady (current model.old) model.old.holders.items }
    requires there { HasSlot (current model.old) o f }
    requires reference { refers (current model.old).meta f ≡ true }
    requires typed { IsOfType (current model.old) f value.now }
    ensures current { OnOk result (current model.new ≡ add_value o f value.now (current model.old)) }
    ensures ready { OnOk result (IsReady (current model.new) model.new.holders.items) }
    ensures back { restored model.new ≡ restored model.old }
{
    match value {
        Cellv::Obj(p) => add(model, o, f, *p),
        _ => Ok(()),
    }
}

// Adds the values one by one.
fn add_all(model: &mut Draft, o: ObjId, f: FeatId, values: &[Cellv]) -> Result<(), AllocError>
    requires ready { IsReady (current model.old) model.old.holders.items }
    requires there { HasSlot (current model.old) o f }
    requires reference { refers (current model.old).meta f ≡ true }
    requires typed { All (IsOfType (current model.old) f) values.now }
    ensures current { OnOk result (current model.new ≡ add_all o f values.now (current model.old)) }
    ensures ready { OnOk result (IsReady (current model.new) model.new.holders.items) }
    ensures back { restored model.new ≡ restored model.old }
{
    for value in values {
        add_value(model, o, f, value)?;
    }
    Ok(())
}

// Writes to a reference.
fn rewire(model: &mut Draft, o: ObjId, f: FeatId, values: &[Cellv]) -> Result<(), AllocError>
    requires ready { IsReady (current model.old) model.old.holders.items }
    requires there { HasSlot (current model.old) o f }
    requires reference { refers (current model.old).meta f ≡ true }
    requires typed { All (IsOfType (current model.old) f) values.now }
    ensures current { OnOk result (current model.new ≡ rewired o f values.now (current model.old)) }
    ensures ready { OnOk result (IsReady (current model.new) model.new.holders.items) }
    ensures back { restored model.new ≡ restored model.old }
{
    if values.is_empty() {
        return give_up(model, o, f);
    }
    add_all(model, o, f, values)
}

// The same, and the roots follow.
fn finish(model: &mut Draft, o: ObjId, f: FeatId, values: &[Cellv]) -> Result<(), AllocError>
    requires ready { IsReady (current model.old) model.old.holders.items }
    requires there { HasSlot (current model.old) o f }
    requires reference { refers (current model.old).meta f ≡ true }
    requires typed { All (IsOfType (current model.old) f) values.now }
    ensures store { OnOk result (model.new.store ≡ rewired o f values.now (current model.old)) }
    ensures ready { OnOk result (IsReady model.new.store model.new.holders.items) }
    ensures back { OnErr result (restored model.new ≡ restored model.old) }
{
    rewire(model, o, f, values)?;
    model.settle()
}

// What a write leaves: a store and its table of containers, and whether memory was refused.
#[derive(Drop)]
pub(crate) struct Rewired {
    pub store: Store,
    pub holders: Vec<Option<(ObjId, FeatId)>>,
    pub places: Vec<usize>,
    pub done: Result<(), AllocError>,
}

// A write to a reference, or all as it was.
pub(crate) fn write_reference(
    store: Store,
    holders: Vec<Option<(ObjId, FeatId)>>,
    places: Vec<usize>,
    o: ObjId,
    f: FeatId,
    values: &[Cellv],
) -> Rewired
    requires ready { IsReady store holders.items }
    requires there { HasSlot store o f }
    requires reference { refers store.meta f ≡ true }
    requires typed { All (IsOfType store f) values.now }
    ensures ok { OnOk result.done (result.store ≡ rewired o f values.now store) }
    ensures err { OnErr result.done (result.store ≡ store) }
    ensures ready { IsReady result.store result.holders.items }
{
    let mut draft = Draft::new(store, holders, places);
    match finish(&mut draft, o, f, values) {
        Ok(()) => {
            let Draft {
                store,
                holders,
                places,
                ..
            } = draft;
            Rewired {
                store,
                holders,
                places,
                done: Ok(()),
            }
        }
        Err(refused) => {
            let (store, holders, places) = draft.roll_back();
            Rewired {
                store,
                holders,
                places,
                done: Err(refused),
            }
        }
    }
}
