// Containment cycles, found by climbing from every object at once: by 1, 2, 4 and so on containers. What stands above any object by
// at least as many containers as there are objects lies on a cycle, and each object of a cycle stands so above another.
ghost use Rattle.std.specs.Prelude.{◌≡◌, ◌≤◌, ◌<◌, ◌+◌, ◌^◌, ◌∷◌, [], ℕ, IfOk, IsTrue, IfSome, List, All, None, length, reverse, slice_index_or};
ghost use Rattle.std.specs.Option.{option_and_then};
ghost use Rattle.ecore_meta.specs.Valid.{IsMetamodel};
ghost use Rattle.model_store.specs.Contents.{Contents};
ghost use Rattle.model_store.specs.Order.{IsOnCycle};
ghost use Rattle.model_store.specs.Valid.{IsModel};
ghost use Rattle.xmi_write.specs.Answers.{FindsCycle};
ghost use Rattle.xmi_write.specs.Climbs.{AreAbove, AreCyclic, IsLeast};
ghost use Rattle.xmi_write.specs.Cycles.{IsRingFrom};

use atl_base::numbers::ObjId;
use model_store::model::Model;
use sqlite_items::Items;
use std::alloc::{AllocError, Global};

// The container of each object.
fn containers(alloc: Global, model: &Model) -> Result<Vec<Option<ObjId>>, AllocError>
    ensures { IfOk result (λ list. AreAbove model.now 1 list.items) }
{
    let mut list = Vec::new(alloc);
    for o in 0..model.given() {
        list.push(model.container(ObjId(o)))?;
    }
    Ok(list)
}

// What stands twice as many containers above an object.
fn twice(above: &[Option<ObjId>], o: usize) -> Option<ObjId>
    ensures { result ≡ option_and_then (λ p. slice_index_or above.now p.0 None) (slice_index_or above.now o None) }
{
    let middle = (*above.get(o)?)?;
    *above.get(middle.0 as usize)?
}

// What stands twice as many containers above each object.
fn doubled(alloc: Global, above: &[Option<ObjId>]) -> Result<Vec<Option<ObjId>>, AllocError>
    ensures { IfOk result (λ list. (m : Contents) (n : ℕ) → IsMetamodel m.meta → IsModel m → AreAbove m n above.now → AreAbove m (n + n) list.items) }
{
    let mut list = Vec::new(alloc);
    for o in 0..above.len() {
        list.push(twice(above, o))?;
    }
    Ok(list)
}

// Whether nothing stands above.
fn is_free(above: &[Option<ObjId>]) -> bool
    ensures { IsTrue result → All (λ o. o ≡ None) above.now }
{
    for o in above {
        if o.is_some() {
            return false;
        }
    }
    true
}

// The objects that lie on a cycle, among nothing else.
fn cyclic(alloc: Global, model: &Model) -> Result<Vec<Option<ObjId>>, AllocError>
    ensures { IfOk result (λ list. AreCyclic model.now list.items) }
{
    model.valid();
    let mut above = containers(alloc, model)?;
    let mut steps = 1usize;
    while steps < above.len() && !is_free(&above) {
        above = doubled(alloc, &above)?;
        steps *= 2;
    }
    Ok(above)
}

// The lesser of two numbers, where there are any.
fn lesser(least: Option<ObjId>, o: Option<ObjId>) -> Option<ObjId>
    ensures { IsLeast (least ∷ o ∷ []) result }
{
    let Some(a) = least else {
        return o;
    };
    match o {
        Some(b) if b.0 < a.0 => Some(b),
        _ => Some(a),
    }
}

// The least object among them.
fn least(objects: &[Option<ObjId>]) -> Option<ObjId>
    ensures { IsLeast objects.now result }
{
    let mut least = None;
    for o in objects {
        least = lesser(least, *o);
    }
    least
}

// The other way round.
fn turned(alloc: Global, mut up: Vec<ObjId>) -> Result<Items<ObjId>, AllocError>
    ensures { IfOk result (λ list. list ≡ reverse up.items) }
{
    let mut down = Items::new(alloc);
    while let Some(o) = up.pop() {
        down.push(o)?;
    }
    Ok(down)
}

// From an object on a cycle down to it again, without that end.
fn ring(alloc: Global, model: &Model, o: ObjId) -> Result<Items<ObjId>, AllocError>
    requires { IsOnCycle model.now o }
    ensures { IfOk result (IsRingFrom model.now o) }
{
    model.valid();
    let mut up = Vec::new(alloc);
    let mut top = o;
    for _level in 0..model.given() {
        let Some(next) = model.container(top) else {
            return turned(alloc, up);
        };
        up.push(next)?;
        if next.0 == o.0 {
            return turned(alloc, up);
        }
        top = next;
    }
    turned(alloc, up)
}

/// The containment cycle with the least object number, from that object on, each object containing the next.
pub(crate) fn least_cycle(alloc: Global, model: &Model) -> Result<Option<Items<ObjId>>, AllocError>
    ensures { IfOk result (FindsCycle model.now) }
{
    match least(&cyclic(alloc, model)?) {
        Some(o) => Ok(Some(ring(alloc, model, o)?)),
        None => Ok(None),
    }
}
