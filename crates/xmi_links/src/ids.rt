// The ids of a file: who bears each of them. An id is an `xmi:id`, or the text of a value of an attribute that is one.
ghost use Rattle.std.specs.Prelude.{◌≡◌, ◌≤◌, ◌+◌, ◌++◌, ℕ, List, map, filter, codes, flat_map, bytes_eq, Some, None, IfOk, OnOk, if◌then◌else◌, [], ◌∷◌};
ghost use Rattle.std.specs.List.{list_any};
ghost use Rattle.doc_text.specs.Names.{xmi_space};
ghost use Rattle.model_store.specs.Contents.{Contents, slot};
ghost use Rattle.model_store.specs.Texts.{plain_text};
ghost use Rattle.xmi_text.specs.Markup.{is_called as is_called_of};
ghost use Rattle.xmi_models.specs.Faults.{objects};
ghost use Rattle.xmi_models.specs.Outline.{Entry as SomeEntry, objects_in};
ghost use Rattle.xmi_models.specs.Entries.{entries_of, entry_of};
ghost use Rattle.xmi_links.specs.References.{is_id as is_id_in, bearers};
ghost use Rattle.xmi_links.specs.Found.{AreBearers, bearers_found, borne_by, element_ids, ids_from, ids_in, value_ids, with_bearer as with_bearer_of};

use crate::objects::object_no;
use atl_base::numbers::{FeatId, ObjId};
use atl_base::text::Text;
use doc_text::XMI;
use doc_text::tree::Attribute;
use ecore_meta::metamodel::Metamodel;
use model_store::lookups::refers;
use model_store::parts::Cellv;
use model_store::sketch::Sketch;
use model_store::texts::push_plain_text;
use std::alloc::{AllocError, Global};
use std::collections::HashMap;
use xmi_models::part::{Entry, is_object};
use xmi_text::markup::is_called;

/// An id and an object that bears it.
#[derive(Drop)]
pub(crate) struct Id {
    pub text: Text,
    pub bearer: ObjId,
}

/// Who bears an id.
#[derive(Clone, Copy)]
pub(crate) enum Bearers {
    One(ObjId),
    Several,
}

/// The bearers of each id.
#[derive(Drop)]
pub(crate) struct Ids<'a> {
    pub bearers: HashMap<&'a [u8], Bearers>,
}

// The id that an attribute says, where it says one.
fn push_xmi_id(
    alloc: Global,
    ids: &mut Vec<Id>,
    bearer: ObjId,
    attribute: &Attribute,
) -> Result<(), AllocError>
    ensures { OnOk result (ids_in ids.new.items ≡ ids_in ids.old.items ++ map (λ a. (a.value, bearer)) (filter (is_called_of xmi_space (codes "id")) (attribute.now ∷ []))) }
{
    if is_called(XMI, "id", attribute) {
        let text = attribute.value.copy(alloc)?;
        ids.push(Id { text, bearer })?;
    }
    Ok(())
}

fn push_xmi_ids(
    alloc: Global,
    ids: &mut Vec<Id>,
    bearer: ObjId,
    attributes: &[Attribute],
) -> Result<(), AllocError>
    ensures { OnOk result (ids_in ids.new.items ≡ ids_in ids.old.items ++ map (λ a. (a.value, bearer)) (filter (is_called_of xmi_space (codes "id")) attributes.now)) }
{
    for i in 0..attributes.len() {
        push_xmi_id(alloc, ids, bearer, &attributes[i])?;
    }
    Ok(())
}

// Whether a feature is an attribute whose values are ids.
fn is_id(meta: &Metamodel, f: FeatId) -> bool
    ensures { result ≡ is_id_in meta.now f }
{
    if refers(meta, f) {
        return false;
    }
    match meta.all_features().get(f.0 as usize) {
        Some(feature) => feature.is_id,
        None => false,
    }
}

fn push_values(
    alloc: Global,
    ids: &mut Vec<Id>,
    bearer: ObjId,
    meta: &Metamodel,
    f: FeatId,
    cells: &[Cellv],
) -> Result<(), AllocError>
    ensures { OnOk result (ids_in ids.new.items ≡ ids_in ids.old.items ++ map (λ v. (plain_text meta.now f v, bearer)) cells.now) }
{
    for i in 0..cells.len() {
        let mut text = Text::new(alloc);
        push_plain_text(&mut text, meta, f, &cells[i])?;
        ids.push(Id { text, bearer })?;
    }
    Ok(())
}

// Those of the values of a feature.
fn push_feature_ids(
    alloc: Global,
    ids: &mut Vec<Id>,
    sketch: &Sketch,
    bearer: ObjId,
    f: FeatId,
) -> Result<(), AllocError>
    ensures { OnOk result (ids_in ids.new.items ≡ ids_in ids.old.items
        ++ (if is_id_in sketch.now.meta f then map (λ v. (plain_text sketch.now.meta f v, bearer)) (slot sketch.now bearer f) else [])) }
{
    let meta = sketch.meta();
    if is_id(meta, f) {
        return push_values(alloc, ids, bearer, meta, f, sketch.cells(bearer, f));
    }
    Ok(())
}

fn push_own_ids(
    alloc: Global,
    ids: &mut Vec<Id>,
    sketch: &Sketch,
    bearer: ObjId,
) -> Result<(), AllocError>
    ensures { OnOk result (ids_in ids.new.items ≡ ids_in ids.old.items ++ value_ids sketch.now bearer) }
{
    let meta = sketch.meta();
    let Some(object) = sketch.object(bearer) else {
        return Ok(());
    };
    let features = meta.features_seen(object.class());
    for i in 0..features.len() {
        push_feature_ids(alloc, ids, sketch, bearer, features[i])?;
    }
    Ok(())
}

// Those of an object.
fn push_ids(
    alloc: Global,
    ids: &mut Vec<Id>,
    sketch: &Sketch,
    bearer: ObjId,
    entry: &Entry<'_>,
) -> Result<(), AllocError>
    ensures { OnOk result (ids_in ids.new.items ≡ ids_in ids.old.items ++ element_ids sketch.now bearer (entry_of entry.now)) }
{
    push_xmi_ids(alloc, ids, bearer, entry.element.attributes.as_slice())?;
    push_own_ids(alloc, ids, sketch, bearer)
}

// Those of an element, which is the object of this number where it is one, and the number of the next object.
fn push_entry_ids(
    alloc: Global,
    ids: &mut Vec<Id>,
    sketch: &Sketch,
    number: usize,
    entry: &Entry<'_>,
) -> Result<usize, AllocError>
    requires { number ≤ 1000000 }
    ensures ids { IfOk result (λ next. (rest : List SomeEntry) → ids_in ids.new.items ++ ids_from sketch.now next (objects rest)
        ≡ ids_in ids.old.items ++ ids_from sketch.now number (objects (entry_of entry.now ∷ rest))) }
    ensures number { IfOk result (λ next. (rest : List SomeEntry) → next + objects_in rest ≡ number + objects_in (entry_of entry.now ∷ rest)) }
{
    if is_object(entry.part) {
        push_ids(alloc, ids, sketch, object_no(number), entry)?;
        return Ok(number + 1);
    }
    Ok(number)
}

/// The ids of a file, in document order.
pub(crate) fn ids_of(
    alloc: Global,
    sketch: &Sketch,
    file: &[Entry<'_>],
) -> Result<Vec<Id>, AllocError>
    requires { objects_in (entries_of file.now) ≤ 1000000 }
    ensures { IfOk result (λ ids. ids_in ids.items ≡ ids_from sketch.now 0 (objects (entries_of file.now))) }
{
    let mut ids = Vec::new(alloc);
    let mut number = 0;
    for i in 0..file.len() {
        number = push_entry_ids(alloc, &mut ids, sketch, number, &file[i])?;
    }
    Ok(ids)
}

// One bearer more; an object may bear an id twice.
fn with_bearer(known: Option<Bearers>, bearer: ObjId) -> Bearers
    ensures { result ≡ with_bearer_of known bearer }
{
    match known {
        None => Bearers::One(bearer),
        Some(Bearers::One(other)) => {
            if other.0 == bearer.0 {
                Bearers::One(bearer)
            } else {
                Bearers::Several
            }
        }
        Some(Bearers::Several) => Bearers::Several,
    }
}

/// Who bears an id.
pub(crate) fn bearers_in(ids: &Ids<'_>, id: &[u8]) -> Option<Bearers>
    ensures { result ≡ bearers_found ids.now id.now }
{
    match ids.bearers.get(id) {
        Some(bearers) => Some(*bearers),
        None => None,
    }
}

// Notes that an object bears an id.
fn note<'a>(ids: &mut Ids<'a>, id: &'a [u8], bearer: ObjId) -> Result<(), AllocError>
    ensures { OnOk result ((q : List ℕ) → bearers_found ids.new q ≡ (if bytes_eq id.now q then Some (with_bearer_of (bearers_found ids.old q) bearer) else bearers_found ids.old q)) }
{
    let bearers = with_bearer(bearers_in(ids, id), bearer);
    ids.bearers.insert(id, bearers)?;
    Ok(())
}

// The bearers of these ids.
fn table_of<'a>(alloc: Global, ids: &'a [Id]) -> Result<Ids<'a>, AllocError>
    ensures { IfOk result (λ table. (q : List ℕ) → bearers_found table q ≡ borne_by q None (ids_in ids.now)) }
{
    let mut table = Ids {
        bearers: HashMap::new(alloc),
    };
    for i in 0..ids.len() {
        let id = &ids[i];
        note(&mut table, id.text.bytes(), id.bearer)?;
    }
    Ok(table)
}

/// The bearers of the ids of a file.
pub(crate) fn bearers_of<'a>(alloc: Global, ids: &'a [Id]) -> Result<Ids<'a>, AllocError>
    ensures { IfOk result (λ table. (m : Contents) (file : List SomeEntry) → ids_in ids.now ≡ ids_from m 0 (objects file) → AreBearers (bearers m file) table) }
{
    table_of(alloc, ids)
}
