// Models, read from documents.
ghost use Rattle.std.specs.Prelude.{◌≡◌, ◌≤◌, [], All, None, IfOk};
ghost use Rattle.ecore_meta.specs.Valid.{IsMetamodel};
ghost use Rattle.model_store.specs.Order.{HasNoCycle};
ghost use Rattle.model_store.specs.Valid.{IsModel};
ghost use Rattle.xmi_models.specs.Outline.{objects_in};
ghost use Rattle.xmi_models.specs.Faults.{objects};
ghost use Rattle.xmi_models.specs.Entries.{entries_of};
ghost use Rattle.xmi_links.specs.References.{bearers, links_from, reference_fault, reference_fault_from};
ghost use Rattle.xmi_links.specs.ModelOf.{links as links_of_references, model_of};
ghost use Rattle.xmi_links.specs.Linking.{AreLinks};
ghost use Rattle.xmi_links.specs.Stages.{AreHeld, AreOrdered, AreReferences, IsSound};
ghost use Rattle.xmi_links.specs.Answers.{IsFaultlessFile, IsLinkedAnswer, IsModelAnswer};

use crate::ids::{bearers_of, ids_of};
use crate::joined::joined;
use crate::links::{Linked, links_of};
use crate::objects::objects_of;
use crate::refusal::{ModelRefusal, refused};
use doc_text::tree::Doc;
use ecore_meta::metamodel::Metamodel;
use model_store::model::Model;
use model_store::sketch::Sketch;
use std::alloc::{AllocError, Global};
use std::rc::Rc;
use xmi_models::fault::FoundFault;
use xmi_models::first_fault::element_fault;
use xmi_models::outline::{File, declarations, outline};
use xmi_models::part::Entry;
use xmi_names::vocabulary::Vocabulary;
use xmi_text::level::Levels;

// The links of a file with these objects.
fn links_between(
    alloc: Global,
    sketch: &Sketch,
    file: &[Entry<'_>],
) -> Result<Result<Linked, FoundFault>, AllocError>
    requires { objects_in (entries_of file.now) ≤ 1000000 }
    ensures { IfOk result (λ found. AreLinks (reference_fault_from sketch.now (bearers sketch.now (entries_of file.now)) 0 [] (objects (entries_of file.now)))
        (links_from sketch.now (bearers sketch.now (entries_of file.now)) 0 (objects (entries_of file.now))) found) }
{
    let ids = ids_of(alloc, sketch, file)?;
    let bearers = bearers_of(alloc, &ids)?;
    links_of(alloc, sketch, &bearers, file)
}

// The model of a file in whose elements nothing is wrong.
fn linked(alloc: Global, meta: &Rc<Metamodel>, file: &[Entry<'_>]) -> Result<Model, ModelRefusal>
    requires few { objects_in (entries_of file.now) ≤ 1000000 }
    requires sound { All (IsSound meta.now.value) (entries_of file.now) }
    requires held { AreHeld meta.now.value (entries_of file.now) }
    requires ordered { AreOrdered (entries_of file.now) }
    requires references { reference_fault meta.now.value (entries_of file.now) ≡ None → AreReferences meta.now.value (links_of_references meta.now.value (entries_of file.now)) }
    requires model { reference_fault meta.now.value (entries_of file.now) ≡ None → IsModel (model_of meta.now.value (entries_of file.now)) }
    ensures { IsLinkedAnswer meta.now.value (entries_of file.now) result }
{
    let sketch = objects_of(alloc, meta, file)?;
    let found = match links_between(alloc, &sketch, file)? {
        Ok(found) => found,
        Err(wrong) => return Err(refused(wrong)),
    };
    let sketch = joined(alloc, meta, sketch, file, &found.links)?;
    Ok(sketch.model()?)
}

// The elements of a document, or the first thing that is wrong in them.
fn faultless_file<'a>(
    alloc: Global,
    doc: &'a Doc,
    levels: &'a Levels<'a>,
    names: &Vocabulary<'_>,
) -> Result<Result<File<'a>, FoundFault>, AllocError>
    ensures { IfOk result (λ file. IsFaultlessFile names.now doc.now file) }
{
    let file = outline(alloc, doc, levels, names)?;
    match element_fault(alloc, names, &file.entries)? {
        Some(found) => Ok(Err(found)),
        None => Ok(Ok(file)),
    }
}

// The same of a document, with tables of its declarations and of the metamodel's names.
fn read_with(
    alloc: Global,
    doc: &Doc,
    meta: &Rc<Metamodel>,
    levels: &Levels<'_>,
    names: &Vocabulary<'_>,
) -> Result<Model, ModelRefusal>
    requires { names.now ≡ meta.now.value }
    ensures answer { IsModelAnswer doc.now meta.now.value result }
    ensures acyclic { IfOk result (λ model. HasNoCycle model) }
{
    let _ = meta.parts();
    let file = match faultless_file(alloc, doc, levels, names)? {
        Ok(file) => file,
        Err(found) => return Err(refused(found)),
    };
    linked(alloc, meta, &file.entries)
}

/// The model of a metamodel that a document stands for, or the first thing that is wrong in it: in its elements first of all, in
/// document order, and then in its references. No object of the model stands in itself.
pub fn read_model(alloc: Global, doc: &Doc, meta: Rc<Metamodel>) -> Result<Model, ModelRefusal>
    ensures answer { IsModelAnswer doc.now meta.value result }
    ensures acyclic { IfOk result (λ model. HasNoCycle model) }
{
    let levels = declarations(alloc, doc)?;
    let names = Vocabulary::new(alloc, &meta)?;
    read_with(alloc, doc, &meta, &levels, &names)
}
