// Both ends of what a file says: containers, what each object's references name, and then what other ends add.
ghost use Rattle.std.specs.Prelude.{◌≡◌, ◌≤◌, ℕ, false, List, OnOk, IfOk, if◌then◌else◌};
ghost use Rattle.ecore_meta.specs.Valid.{IsMetamodel};
ghost use Rattle.xmi_models.specs.Outline.{Entry as SomeEntry, is_object as is_object_of, objects_in};
ghost use Rattle.xmi_models.specs.Faults.{objects};
ghost use Rattle.xmi_models.specs.Entries.{entries_of, entry_of, object_no as object_of_number, part_in};
ghost use Rattle.xmi_links.specs.References.{draft, roots_from};
ghost use Rattle.xmi_links.specs.ModelOf.{joined as joined_of};
ghost use Rattle.xmi_links.specs.Found.{link_in, links_in};
ghost use Rattle.xmi_links.specs.Stages.{AreHeld, AreReferences, has_pair, IsCross, IsHeld, IsReached, IsReference, Referred, all_back, all_named, back_by, built, contained_to, named_by, nothing, stage, with_container, with_link};

use crate::links::{Link, past};
use crate::objects::object_no;
use atl_base::numbers::ObjId;
use ecore_meta::metamodel::Metamodel;
use model_store::lookups::{contains, is_contained_by, opposite};
use model_store::parts::Cellv;
use model_store::sketch::Sketch;
use std::alloc::{AllocError, Global};
use std::collections::HashSet;
use xmi_models::part::{Entry, Part, is_object};

/// The pairs that slots hold so far.
#[derive(Drop)]
pub(crate) struct Pairs {
    pub held: HashSet<(u32, u32, u32)>,
}

// An object more in a slot, unless it is there.
fn push_once(sketch: &mut Sketch, pairs: &mut Pairs, link: Link) -> Result<(), AllocError>
    ensures { OnOk result ((file : List SomeEntry) (R : Referred) → IsMetamodel sketch.old.meta → IsCross sketch.old.meta link.by
        → IsReached sketch.old.meta file R sketch.old pairs.old → IsReached sketch.old.meta file (with_link (link_in link) R) sketch.new pairs.new) }
{
    let pair = (link.from.0, link.by.0, link.to.0);
    if pairs.held.contains(&pair) {
        return Ok(());
    }
    pairs.held.insert(pair)?;
    sketch.push_value(link.from, link.by, Cellv::Obj(link.to))
}

// The container of an object, where the containment has an opposite.
fn push_container(
    meta: &Metamodel,
    sketch: &mut Sketch,
    o: ObjId,
    part: Part,
) -> Result<(), AllocError>
    requires { IsHeld meta.now (part_in part) }
    ensures { OnOk result (sketch.new ≡ with_container meta.now o (part_in part) sketch.old) }
{
    let Part::Content(holder, f, _) = part else {
        return Ok(());
    };
    match opposite(meta, f) {
        Some(g) => sketch.push_value(o, g, Cellv::Obj(object_no(holder))),
        None => Ok(()),
    }
}

// The same of an element, which is the object of this number where it is one.
fn push_entry_container(
    meta: &Metamodel,
    sketch: &mut Sketch,
    number: usize,
    entry: &Entry<'_>,
) -> Result<(), AllocError>
    requires number { number ≤ 1000000 }
    requires held { IsHeld meta.now (part_in entry.now.part) }
    ensures { OnOk result (sketch.new ≡ (if is_object_of (part_in entry.now.part) then with_container meta.now (object_of_number number) (part_in entry.now.part) sketch.old else sketch.old)) }
{
    if is_object(entry.part) {
        return push_container(meta, sketch, object_no(number), entry.part);
    }
    Ok(())
}

fn push_containers(
    meta: &Metamodel,
    sketch: &mut Sketch,
    file: &[Entry<'_>],
) -> Result<(), AllocError>
    requires few { objects_in (entries_of file.now) ≤ 1000000 }
    requires held { AreHeld meta.now (entries_of file.now) }
    ensures { OnOk result (IsMetamodel meta.now → sketch.old ≡ draft meta.now (entries_of file.now)
        → sketch.new ≡ built meta.now (contained_to meta.now (entries_of file.now) (objects_in (entries_of file.now))) (objects (entries_of file.now)) (roots_from 0 (objects (entries_of file.now)))) }
{
    let mut number = 0;
    for i in 0..file.len() {
        let entry = &file[i];
        push_entry_container(meta, sketch, number, entry)?;
        number = past(number, entry.part);
    }
    Ok(())
}

// What a link names, containers aside.
fn push_named(
    meta: &Metamodel,
    sketch: &mut Sketch,
    pairs: &mut Pairs,
    link: Link,
) -> Result<(), AllocError>
    ensures { OnOk result ((file : List SomeEntry) (R : Referred) → IsMetamodel meta.now → sketch.old.meta ≡ meta.now → IsReference meta.now (link_in link)
        → IsReached meta.now file R sketch.old pairs.old → IsReached meta.now file (named_by meta.now (link_in link) R) sketch.new pairs.new) }
{
    if is_contained_by(meta, link.by) {
        return Ok(());
    }
    push_once(sketch, pairs, link)
}

// What a link adds to the other end, contents aside.
fn push_back(
    meta: &Metamodel,
    sketch: &mut Sketch,
    pairs: &mut Pairs,
    link: Link,
) -> Result<(), AllocError>
    ensures { OnOk result ((file : List SomeEntry) (R : Referred) → IsMetamodel meta.now → sketch.old.meta ≡ meta.now → IsReference meta.now (link_in link)
        → IsReached meta.now file R sketch.old pairs.old → IsReached meta.now file (back_by meta.now (link_in link) R) sketch.new pairs.new) }
{
    let Some(by) = opposite(meta, link.by) else {
        return Ok(());
    };
    if contains(meta, by) {
        return Ok(());
    }
    let turned = Link {
        from: link.to,
        by,
        to: link.from,
    };
    push_once(sketch, pairs, turned)
}

fn push_all_named(
    meta: &Metamodel,
    sketch: &mut Sketch,
    pairs: &mut Pairs,
    links: &[Link],
) -> Result<(), AllocError>
    ensures { OnOk result ((file : List SomeEntry) (R : Referred) → IsMetamodel meta.now → AreReferences meta.now (links_in links.now)
        → IsReached meta.now file R sketch.old pairs.old → IsReached meta.now file (all_named meta.now (links_in links.now) R) sketch.new pairs.new) }
{
    for i in 0..links.len() {
        push_named(meta, sketch, pairs, links[i])?;
    }
    Ok(())
}

fn push_all_back(
    meta: &Metamodel,
    sketch: &mut Sketch,
    pairs: &mut Pairs,
    links: &[Link],
) -> Result<(), AllocError>
    ensures { OnOk result ((file : List SomeEntry) (R : Referred) → IsMetamodel meta.now → AreReferences meta.now (links_in links.now)
        → IsReached meta.now file R sketch.old pairs.old → IsReached meta.now file (all_back meta.now (links_in links.now) R) sketch.new pairs.new) }
{
    for i in 0..links.len() {
        push_back(meta, sketch, pairs, links[i])?;
    }
    Ok(())
}

// No pairs are known.
fn no_pairs(alloc: Global) -> Pairs
    ensures { (o f p : ℕ) → has_pair result o f p ≡ false }
{
    Pairs {
        held: HashSet::new(alloc),
    }
}

/// The objects of a file with all their references.
pub(crate) fn joined(
    alloc: Global,
    meta: &Metamodel,
    mut sketch: Sketch,
    file: &[Entry<'_>],
    links: &[Link],
) -> Result<Sketch, AllocError>
    requires few { objects_in (entries_of file.now) ≤ 1000000 }
    requires held { AreHeld meta.now (entries_of file.now) }
    requires drafted { sketch ≡ draft meta.now (entries_of file.now) }
    requires references { AreReferences meta.now (links_in links.now) }
    ensures { IfOk result (λ model. model ≡ joined_of meta.now (entries_of file.now) (links_in links.now)) }
{
    let _ = meta.parts();
    push_containers(meta, &mut sketch, file)?;
    let mut pairs = no_pairs(alloc);
    push_all_named(meta, &mut sketch, &mut pairs, links)?;
    push_all_back(meta, &mut sketch, &mut pairs, links)?;
    Ok(sketch)
}
