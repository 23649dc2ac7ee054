// What stands in an object's element, and what is still to be written.
ghost use Rattle.std.specs.Prelude.{◌≡◌, ◌++◌, IfOk, OnOk, Some, map, reverse};
ghost use Rattle.model_store.specs.Contents.{IsShaped, objects_of};
ghost use Rattle.xmi_write.specs.Pending.{todo_part, todo_root};
ghost use Rattle.xmi_write.specs.Xmi.{Content as SomeContent, Value as SomeValue, parts_of, slot_parts};

use crate::named::Named;
use atl_base::numbers::{FeatId, ObjId};
use ecore_meta::metamodel::Metamodel;
use model_store::held::Held;
use model_store::lookups::{contains, is_many, refers};
use model_store::parts::Cellv;
use std::alloc::{AllocError, Global};

/// What stands in an object's element: an object that a reference contains, or a value of a many-valued attribute.
#[derive(Clone, Copy)]
pub(crate) enum Part<'a> {
    Content(FeatId, ObjId),
    Value(FeatId, &'a Cellv),
}

/// What is still to be written: a part, a root, or the end tag of an element that is open.
#[derive(Clone, Copy)]
pub(crate) enum Todo<'a> {
    Inside(Part<'a>),
    Root(ObjId),
    End(Named),
}

// Adds the objects of a containment's slot.
fn push_objects<'a>(list: &mut Vec<Todo<'a>>, f: FeatId, cells: &[Cellv]) -> Result<(), AllocError>
    ensures { OnOk result (map todo_part list.new.items ≡ map todo_part list.old.items ++ map Some (map (SomeContent f) (objects_of cells.now))) }
{
    for cell in cells {
        if let Cellv::Obj(o) = cell {
            list.push(Todo::Inside(Part::Content(f, *o)))?;
        }
    }
    Ok(())
}

// Adds the values of an attribute's slot.
fn push_values<'a>(
    list: &mut Vec<Todo<'a>>,
    f: FeatId,
    cells: &'a [Cellv],
) -> Result<(), AllocError>
    ensures { OnOk result (map todo_part list.new.items ≡ map todo_part list.old.items ++ map Some (map (SomeValue f) cells.now)) }
{
    for cell in cells {
        list.push(Todo::Inside(Part::Value(f, cell)))?;
    }
    Ok(())
}

// Adds what stands in the element of one slot.
fn push_parts<'a>(
    list: &mut Vec<Todo<'a>>,
    meta: &Metamodel,
    f: FeatId,
    cells: &'a [Cellv],
) -> Result<(), AllocError>
    ensures { OnOk result (map todo_part list.new.items ≡ map todo_part list.old.items ++ map Some (slot_parts meta.now f cells.now)) }
{
    if contains(meta, f) {
        return push_objects(list, f, cells);
    }
    if refers(meta, f) {
        return Ok(());
    }
    if is_many(meta, f) {
        return push_values(list, f, cells);
    }
    Ok(())
}

/// What stands in an object's element.
pub(crate) fn parts_of<'a>(
    alloc: Global,
    meta: &Metamodel,
    object: &'a Held,
) -> Result<Vec<Todo<'a>>, AllocError>
    requires { IsShaped meta.now object.now }
    ensures { IfOk result (λ list. map todo_part list.items ≡ map Some (parts_of meta.now object.now)) }
{
    let features = meta.features_seen(object.class());
    let slots = object.slots();
    let mut list = Vec::new(alloc);
    for at in 0..features.len() {
        push_parts(&mut list, meta, features[at], slots[at].as_slice())?;
    }
    Ok(list)
}

/// What stands in `xmi:XMI`.
pub(crate) fn root_parts<'a>(alloc: Global, roots: &[ObjId]) -> Result<Vec<Todo<'a>>, AllocError>
    ensures { IfOk result (λ list. map todo_root list.items ≡ map Some roots.now) }
{
    let mut list = Vec::new(alloc);
    for o in roots {
        list.push(Todo::Root(*o))?;
    }
    Ok(list)
}

/// Others on a stack, the first of them on top.
pub(crate) fn stack_up<'a>(
    stack: &mut Vec<Todo<'a>>,
    mut others: Vec<Todo<'a>>,
) -> Result<(), AllocError>
    ensures { OnOk result (stack.new.items ≡ stack.old.items ++ reverse others.entry.items) }
{
    while let Some(todo) = others.pop() {
        stack.push(todo)?;
    }
    Ok(())
}
