// The classes in an order in which each stands after its supertypes.
ghost use Rattle.std.specs.Prelude.{◌≡◌, ℕ, ◌+◌, ◌<◌, ◌≤◌, [], length, IfOk, OnOk, true, false, slice_index, HoldsAt};
ghost use Rattle.std.specs.List.{AllWithin};
ghost use Rattle.ecore_meta.specs.Inheritance.{IsAcyclic};
ghost use Rattle.ecore_meta.specs.Order.{AreWithin, is_done, IsSupersFirst, IsWalk, work_left, GoesOn};

use crate::parts::Class;
use atl_base::numbers::ClassId;
use std::alloc::{AllocError, Global};

// A walk over the classes: which are done, which supertype of each is next, the path to the class at hand, and the order.
#[derive(Drop)]
struct Walk {
    done: Vec<bool>,
    next: Vec<usize>,
    path: Vec<usize>,
    order: Vec<usize>,
}

// The place from `from` on of the first supertype that is not done, or the end.
fn first_undone(supers: &[ClassId], done: &[bool], from: usize) -> usize
    requires from { from ≤ length supers.now }
    requires within { AllWithin (λ s. s.0 < length done.now) supers.now 0 (length supers.now) }
    ensures begins { from ≤ result }
    ensures ends { result ≤ length supers.now }
    ensures passed { AllWithin (λ s. is_done done.now s.0 ≡ true) supers.now from result }
    ensures undone { result < length supers.now → HoldsAt (λ s. is_done done.now s.0 ≡ false) supers.now result }
{
    for at in from..supers.len() {
        if !done[supers[at].0 as usize] {
            return at;
        }
    }
    supers.len()
}

// Goes on from the last class of the path: to its next supertype that is not done, or else the class is done.
fn step(classes: &[Class], class: usize, walk: &mut Walk) -> Result<(), AllocError>
    requires acyclic { IsAcyclic classes.now }
    requires within { AreWithin classes.now }
    requires walk { IsWalk classes.now walk.old.done.items walk.old.next.items
        walk.old.path.items walk.old.order.items }
    requires last { (k : ℕ) → k + 1 ≡ length walk.old.path.items → slice_index walk.old.path.items k ≡ class }
    requires some { 0 < length walk.old.path.items }
    ensures walk { OnOk result (IsWalk classes.now walk.new.done.items walk.new.next.items
        walk.new.path.items walk.new.order.items) }
    ensures on { OnOk result (GoesOn walk.old.done.items walk.new.done.items
        walk.old.path.items walk.new.path.items) }
    ensures less { OnOk result (work_left classes.now walk.new.done.items walk.new.path.items
        < work_left classes.now walk.old.done.items walk.old.path.items) }
{
    let supers = classes[class].supers.as_slice();
    let at = first_undone(supers, &walk.done, walk.next[class]);
    walk.next[class] = at;
    if at < supers.len() {
        walk.path.push(supers[at].0 as usize)?;
    } else {
        walk.order.push(class)?;
        walk.done[class] = true;
        walk.path.pop();
    }
    Ok(())
}

// Does a class, and before it all that it inherits from.
fn climb(classes: &[Class], class: usize, walk: &mut Walk) -> Result<(), AllocError>
    requires acyclic { IsAcyclic classes.now }
    requires within { AreWithin classes.now }
    requires class { class < length classes.now }
    requires walk { IsWalk classes.now walk.old.done.items walk.old.next.items
        walk.old.path.items walk.old.order.items }
    requires empty { walk.old.path.items ≡ [] }
    requires undone { is_done walk.old.done.items class ≡ false }
    ensures walk { OnOk result (IsWalk classes.now walk.new.done.items walk.new.next.items
        walk.new.path.items walk.new.order.items) }
    ensures empty { OnOk result (walk.new.path.items ≡ []) }
    ensures class { OnOk result (is_done walk.new.done.items class ≡ true) }
    ensures kept { OnOk result ((c : ℕ) → is_done walk.old.done.items c ≡ true
        → is_done walk.new.done.items c ≡ true) }
{
    walk.path.push(class)?;
    'climb: while let Some(&last) = walk.path.last() {
        step(classes, last, walk)?;
    }
    Ok(())
}

// The places of the classes, each after those of its supertypes.
pub(crate) fn supers_first(alloc: Global, classes: &[Class]) -> Result<Vec<usize>, AllocError>
    requires acyclic { IsAcyclic classes.now }
    requires within { AreWithin classes.now }
    ensures { IfOk result (λ order. IsSupersFirst classes.now order.items) }
{
    let count = classes.len();
    let mut walk = Walk {
        done: vec![in alloc; false; count]?,
        next: vec![in alloc; 0; count]?,
        path: Vec::new(alloc),
        order: Vec::with_capacity(alloc, count)?,
    };
    for class in 0..count {
        if !walk.done[class] {
            climb(classes, class, &mut walk)?;
        }
    }
    Ok(walk.order)
}
