// The order of the objects: each before its contents, from the roots on.
ghost use Rattle.std.specs.Prelude.{◌≡◌, ◌++◌, ◌∷◌, ◌<◌, [], length, reverse, if◌then◌else◌, IfOk, OnOk};
ghost use Rattle.model_store.specs.Contents.{Contents, IsShaped, contains, objects_of};
ghost use Rattle.model_store.specs.Order.{contents, contents_of, preorder, HasNoCycle, IsTreeLaw, IsExtent};

use crate::held::Held;
use crate::lookups::contains;
use crate::parts::Cellv;
use crate::store::Store;
use crate::types::is_of;
use atl_base::numbers::{ClassId, FeatId, ObjId};
use ecore_meta::metamodel::Metamodel;
use std::alloc::{AllocError, Global};

// The objects of a slot, after others.
fn push_objects(list: &mut Vec<ObjId>, cells: &[Cellv]) -> Result<(), AllocError>
    ensures { OnOk result (list.new.items ≡ list.old.items ++ objects_of cells.now) }
{
    for cell in cells {
        if let Cellv::Obj(q) = cell {
            list.push(*q)?;
        }
    }
    Ok(())
}

// What a feature contains, after others.
fn push_contents(
    list: &mut Vec<ObjId>,
    meta: &Metamodel,
    f: FeatId,
    cells: &[Cellv],
) -> Result<(), AllocError>
    ensures { OnOk result (list.new.items ≡ list.old.items ++ (if contains meta.now f then objects_of cells.now else [])) }
{
    if contains(meta, f) {
        return push_objects(list, cells);
    }
    Ok(())
}

// The contents of an object.
fn contents_of(alloc: Global, meta: &Metamodel, object: &Held) -> Result<Vec<ObjId>, AllocError>
    requires { IsShaped meta.now object.now }
    ensures { IfOk result (λ list. list.items ≡ contents_of meta.now object.now) }
{
    let features = meta.features_seen(object.class());
    let slots = object.slots();
    let mut list = Vec::new(alloc);
    for at in 0..features.len() {
        push_contents(&mut list, meta, features[at], slots[at].as_slice())?;
    }
    Ok(list)
}

// The contents of an object, and none where there is no object.
pub(crate) fn contents(model: &Store, o: ObjId) -> Result<Vec<ObjId>, AllocError>
    ensures { IfOk result (λ list. list.items ≡ contents model.now o) }
{
    match model.object(o) {
        Some(object) => contents_of(model.alloc(), model.meta(), object),
        None => Ok(Vec::new(model.alloc())),
    }
}

// Others on a stack, the first of them on top.
fn stack_up(stack: &mut Vec<ObjId>, mut others: Vec<ObjId>) -> Result<(), AllocError>
    ensures { OnOk result (stack.new.items ≡ stack.old.items ++ reverse others.items) }
{
    while let Some(o) = others.pop() {
        stack.push(o)?;
    }
    Ok(())
}

// The first object of the walk goes into the order, and its contents onto the stack.
fn step(
    model: &Store,
    order: &mut Vec<ObjId>,
    stack: &mut Vec<ObjId>,
    o: ObjId,
) -> Result<(), AllocError>
    ensures order { OnOk result (order.new.items ≡ order.old.items ++ o ∷ []) }
    ensures stack { OnOk result (stack.new.items ≡ stack.old.items ++ reverse (contents model.now o)) }
{
    order.push(o)?;
    stack_up(stack, contents(model, o)?)
}

impl Store {
    // All objects, from the roots in their order, each before its contents, and these by features and place.
    pub(crate) fn preorder(&self) -> Result<Vec<ObjId>, AllocError>
        requires { HasNoCycle self.now }
        ensures { IfOk result (λ list. list.items ≡ preorder self.now) }
    {
        let mut order = Vec::new(self.alloc());
        let mut stack = Vec::new(self.alloc());
        stack_up(&mut stack, Vec::from_slice(self.alloc(), self.roots())?)?;
        'walk: while let Some(o) = stack.pop() {
            step(self, &mut order, &mut stack, o)?;
        }
        Ok(order)
    }

    // The objects of a class and of those that inherit from it, in the same order.
    pub(crate) fn extent(&self, class: ClassId) -> Result<Vec<ObjId>, AllocError>
        requires class { class.0 < length self.now.meta.classes }
        requires acyclic { HasNoCycle self.now }
        ensures { IfOk result (λ list. IsExtent self.now class list.items) }
    {
        let mut list = Vec::new(self.alloc());
        for o in &self.preorder()? {
            if is_of(self, class, *o) {
                list.push(*o)?;
            }
        }
        Ok(list)
    }
}

/// Without a cycle an object's tree is the object and the trees of its contents.
pub fn tree_law()
    ensures { (m : Contents) → HasNoCycle m → IsTreeLaw m }
{}
