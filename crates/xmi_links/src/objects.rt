// The objects of a file with their attributes and contents, without references.
ghost use Rattle.std.specs.Prelude.{◌≡◌, ◌≤◌, ◌<◌, ◌^◌, [], All, Some, None, true, false, suc, length, filter_map, IfOk, OnOk};
ghost use Rattle.model_store.specs.Contents.{refers as refers_in};
ghost use Rattle.model_store.specs.Sketches.{with_object};
ghost use Rattle.xmi_models.specs.Outline.{objects_in};
ghost use Rattle.xmi_models.specs.Faults.{attribute_value as attribute_value_of, is_value_of as is_value_in};
ghost use Rattle.xmi_models.specs.Entries.{entries_of, entry_of, object_no as object_of_number, part_in};
ghost use Rattle.xmi_links.specs.References.{draft};
ghost use Rattle.xmi_links.specs.Stages.{AreOrdered, IsSound, all_attributed, all_defaulted, attributed, defaulted, entered, raw, with_attributes, with_defaults, with_part};

use atl_base::numbers::{ClassId, FeatId, ObjId};
use atl_base::text::Text;
use doc_text::tree::Attribute;
use ecore_meta::metamodel::Metamodel;
use model_store::attributes::{initial, value_of_text};
use model_store::lookups::refers;
use model_store::parts::Cellv;
use model_store::sketch::Sketch;
use std::alloc::{AllocError, Global};
use std::rc::Rc;
use xmi_models::attribute::attribute_feature;
use xmi_models::part::{Entry, Part};
use xmi_models::value::element_text;

/// The number of an object.
pub(crate) fn object_no(number: usize) -> ObjId
    requires { number < 2 ^ 32 }
    ensures { result ≡ object_of_number number }
{
    ObjId(number as u32)
}

// A value more of an attribute, by its text.
fn push_text(
    alloc: Global,
    meta: &Metamodel,
    sketch: &mut Sketch,
    o: ObjId,
    f: FeatId,
    text: &Text,
) -> Result<(), AllocError>
    requires attribute { refers_in meta.now f ≡ false }
    requires text { is_value_in meta.now f text.now ≡ true }
    ensures { OnOk result (sketch.new ≡ entered meta.now o f text.now sketch.old) }
{
    let Some(feature) = meta.all_features().get(f.0 as usize) else {
        return Ok(());
    };
    let value = value_of_text(alloc, meta, feature.kind, text)?;
    sketch.push_value(o, f, value)
}

// What an attribute gives, where its feature has nothing: of two of one feature the first counts.
fn push_attribute(
    alloc: Global,
    meta: &Metamodel,
    sketch: &mut Sketch,
    o: ObjId,
    part: Part,
    attribute: &Attribute,
) -> Result<(), AllocError>
    requires { attribute_value_of meta.now (part_in part) attribute.now ≡ None }
    ensures { OnOk result (sketch.new ≡ attributed meta.now o (part_in part) attribute.now sketch.old) }
{
    let Some(f) = attribute_feature(meta, part, attribute) else {
        return Ok(());
    };
    if refers(meta, f) || !sketch.cells(o, f).is_empty() {
        return Ok(());
    }
    push_text(alloc, meta, sketch, o, f, &attribute.value)
}

fn push_attributes(
    alloc: Global,
    meta: &Metamodel,
    sketch: &mut Sketch,
    o: ObjId,
    part: Part,
    attributes: &[Attribute],
) -> Result<(), AllocError>
    requires { filter_map (attribute_value_of meta.now (part_in part)) attributes.now ≡ [] }
    ensures { OnOk result (sketch.new ≡ all_attributed meta.now o (part_in part) attributes.now sketch.old) }
{
    for i in 0..attributes.len() {
        push_attribute(alloc, meta, sketch, o, part, &attributes[i])?;
    }
    Ok(())
}

// An object more, with what its attributes give.
fn push_object(
    alloc: Global,
    meta: &Metamodel,
    sketch: &mut Sketch,
    class: ClassId,
    entry: &Entry<'_>,
) -> Result<ObjId, AllocError>
    requires same { sketch.old.meta ≡ meta.now }
    requires class { class.0 < length meta.now.classes }
    requires few { suc (length sketch.old.objects) < 2 ^ 32 }
    requires attributes { filter_map (attribute_value_of meta.now (part_in entry.now.part)) entry.now.element.now.attributes ≡ [] }
    ensures number { IfOk result (λ o. o ≡ object_of_number (length sketch.old.objects)) }
    ensures object { OnOk result (sketch.new ≡ with_attributes meta.now class (entry_of entry.now) sketch.old) }
{
    let o = ObjId(sketch.given());
    sketch.push_object(class)?;
    let attributes = entry.element.attributes.as_slice();
    push_attributes(alloc, meta, sketch, o, entry.part, attributes)?;
    Ok(o)
}

// What an element gives: an object, or a value of one.
fn push_entry(
    alloc: Global,
    meta: &Metamodel,
    sketch: &mut Sketch,
    entry: &Entry<'_>,
) -> Result<(), AllocError>
    requires same { sketch.old.meta ≡ meta.now }
    requires few { suc (length sketch.old.objects) < 2 ^ 32 }
    requires sound { IsSound meta.now (entry_of entry.now) }
    ensures { OnOk result (sketch.new ≡ with_part meta.now (entry_of entry.now) (part_in entry.now.part) sketch.old) }
{
    match entry.part {
        Part::Root(Some(class)) => {
            let o = push_object(alloc, meta, sketch, class, entry)?;
            sketch.push_root(o)
        }
        Part::Content(holder, f, Some(class)) => {
            let o = push_object(alloc, meta, sketch, class, entry)?;
            sketch.push_value(object_no(holder), f, Cellv::Obj(o))
        }
        Part::Value(holder, f) => {
            let text = element_text(alloc, entry.element)?;
            push_text(alloc, meta, sketch, object_no(holder), f, &text)
        }
        _ => Ok(()),
    }
}

// The objects of a file, before defaults.
fn entered_objects(
    alloc: Global,
    meta: &Rc<Metamodel>,
    file: &[Entry<'_>],
) -> Result<Sketch, AllocError>
    requires few { objects_in (entries_of file.now) ≤ 1000000 }
    requires sound { All (IsSound meta.now.value) (entries_of file.now) }
    requires ordered { AreOrdered (entries_of file.now) }
    ensures { IfOk result (λ sketch. sketch ≡ raw meta.now.value (entries_of file.now)) }
{
    let _ = meta.parts();
    let mut sketch = Sketch::new(alloc, meta.clone()?)?;
    for i in 0..file.len() {
        push_entry(alloc, meta, &mut sketch, &file[i])?;
    }
    Ok(sketch)
}

// The default of an attribute, where nothing gives it a value.
fn push_default(
    alloc: Global,
    meta: &Metamodel,
    sketch: &mut Sketch,
    o: ObjId,
    f: FeatId,
) -> Result<(), AllocError>
    ensures { OnOk result (sketch.new ≡ defaulted meta.now o f sketch.old) }
{
    if refers(meta, f) || !sketch.cells(o, f).is_empty() {
        return Ok(());
    }
    match initial(alloc, meta, f)?.pop() {
        Some(value) => sketch.push_value(o, f, value),
        None => Ok(()),
    }
}

fn push_all_defaults(
    alloc: Global,
    meta: &Metamodel,
    sketch: &mut Sketch,
    o: ObjId,
    features: &[FeatId],
) -> Result<(), AllocError>
    ensures { OnOk result (sketch.new ≡ all_defaulted meta.now o features.now sketch.old) }
{
    for i in 0..features.len() {
        push_default(alloc, meta, sketch, o, features[i])?;
    }
    Ok(())
}

fn push_defaults(
    alloc: Global,
    meta: &Metamodel,
    sketch: &mut Sketch,
    o: ObjId,
) -> Result<(), AllocError>
    requires { sketch.old.meta ≡ meta.now }
    ensures { OnOk result (sketch.new ≡ with_defaults meta.now o sketch.old) }
{
    let Some(object) = sketch.object(o) else {
        return Ok(());
    };
    let features = meta.features_seen(object.class());
    push_all_defaults(alloc, meta, sketch, o, features)
}

/// The objects of a file in document order.
pub(crate) fn objects_of(
    alloc: Global,
    meta: &Rc<Metamodel>,
    file: &[Entry<'_>],
) -> Result<Sketch, AllocError>
    requires few { objects_in (entries_of file.now) ≤ 1000000 }
    requires sound { All (IsSound meta.now.value) (entries_of file.now) }
    requires ordered { AreOrdered (entries_of file.now) }
    ensures { IfOk result (λ sketch. sketch ≡ draft meta.now.value (entries_of file.now)) }
{
    let _ = meta.parts();
    let mut sketch = entered_objects(alloc, meta, file)?;
    for number in 0..sketch.given() {
        push_defaults(alloc, meta, &mut sketch, ObjId(number))?;
    }
    Ok(sketch)
}
