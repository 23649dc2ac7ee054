// The fragments that name objects.
ghost use Rattle.std.specs.Prelude.{◌≡◌, ◌<◌, ◌++◌, ◌∷◌, [], suc, true, length, position, reverse, flat_map, slice_index_or, IfOk, OnOk, if◌then◌else◌};
ghost use Rattle.std.specs.Fmt.{decimal};
ghost use Rattle.std.specs.List.{position_or_len};
ghost use Rattle.atl_base.specs.declared.numbers.ObjId.{ObjId};
ghost use Rattle.ecore_meta.specs.Inheritance.{name_of};
ghost use Rattle.ecore_meta.specs.Valid.{AllDiffer};
ghost use Rattle.model_store.specs.declared.parts.Cellv.{Cellv};
ghost use Rattle.model_store.specs.Contents.{is_many, refers_to, is_object_no, slot};
ghost use Rattle.model_store.specs.Order.{HasNoCycle};
ghost use Rattle.model_store.specs.Paths.{step_text, root_text, steps_within, top_within, path, GivesPath};

use crate::lookups::{contains, is_many};
use crate::model::Model;
use crate::parts::Cellv;
use crate::refusal::StoreRefusal;
use atl_base::numbers::{FeatId, ObjId};
use atl_base::text::Text;
use ecore_meta::metamodel::Metamodel;
use itoa::Buffer;
use std::alloc::AllocError;

// From a container to what it contains, by a feature.
#[derive(Clone, Copy, Drop)]
pub(crate) struct Step {
    pub from: ObjId,
    pub feature: FeatId,
    pub to: ObjId,
}

// Adds a number in decimal.
fn push_number(text: &mut Text, number: usize) -> Result<(), AllocError>
    ensures { OnOk result (text.new ≡ text.old ++ decimal number) }
{
    let mut buffer = Buffer::new();
    text.push_ascii(buffer.format(number))
}

// The place of an object in a slot, where it is there.
fn found_in_slot(cells: &[Cellv], o: ObjId) -> Option<usize>
    ensures { result ≡ position (refers_to o) cells.now }
{
    cells.iter().position(|cell| cell.refers_to(o))
}

// The same, or the end.
fn place_in_slot(cells: &[Cellv], o: ObjId) -> usize
    ensures { result ≡ position_or_len (refers_to o) cells.now }
{
    match found_in_slot(cells, o) {
        Some(at) => at,
        None => cells.len(),
    }
}

// Whether an object stands at a place of a slot.
fn stands_at(cells: &[Cellv], o: ObjId, at: usize) -> bool
    ensures { result ≡ true → (at < length cells.now) × ((d : Cellv) → refers_to o (slice_index_or cells.now at d) ≡ true) }
{
    at < cells.len() && cells[at].refers_to(o)
}

// The place of an object in a slot, or the end, by a guess that is mostly right.
fn near_place(cells: &[Cellv], o: ObjId, guess: usize) -> usize
    requires { AllDiffer cells.now }
    ensures { result ≡ position_or_len (refers_to o) cells.now }
{
    if stands_at(cells, o, guess) {
        return guess;
    }
    place_in_slot(cells, o)
}

// The place of a content in its slot.
fn place_of_content(model: &Model, step: Step) -> usize
    ensures { result ≡ position_or_len (refers_to step.to) (slot model.now step.from step.feature) }
{
    model.valid();
    let cells = model.store().cells(step.from, step.feature);
    if contains(model.meta(), step.feature) {
        return near_place(cells, step.to, model.guess(step.to));
    }
    place_in_slot(cells, step.to)
}

// The place of a root, where it is one.
fn found_root(roots: &[ObjId], o: ObjId) -> Option<usize>
    ensures { result ≡ position (is_object_no o) roots.now }
{
    roots.iter().position(|root| root.0 == o.0)
}

// The same, or the end.
fn place_of_root(roots: &[ObjId], o: ObjId) -> usize
    ensures { result ≡ position_or_len (is_object_no o) roots.now }
{
    match found_root(roots, o) {
        Some(at) => at,
        None => roots.len(),
    }
}

// Whether a root stands at a place.
fn is_root_at(roots: &[ObjId], o: ObjId, at: usize) -> bool
    ensures { result ≡ true → (at < length roots.now) × ((d : ObjId) → is_object_no o (slice_index_or roots.now at d) ≡ true) }
{
    at < roots.len() && roots[at].0 == o.0
}

// The place of a root, or the end, by halves where the numbers rise, as they mostly do.
fn near_root(roots: &[ObjId], o: ObjId) -> usize
    requires { AllDiffer roots.now }
    ensures { result ≡ position_or_len (is_object_no o) roots.now }
{
    let guess = roots.partition_point(|root| root.0 < o.0);
    if is_root_at(roots, o, guess) {
        return guess;
    }
    place_of_root(roots, o)
}

// Adds the name of a feature.
fn push_name(text: &mut Text, meta: &Metamodel, f: FeatId) -> Result<(), AllocError>
    ensures { OnOk result (text.new ≡ text.old ++ name_of meta.now.features f) }
{
    match meta.all_features().get(f.0 as usize) {
        Some(feature) => text.push_text(&feature.name),
        None => Ok(()),
    }
}

// Adds the place of an object in a slot of several.
fn push_place(text: &mut Text, model: &Model, step: Step) -> Result<(), AllocError>
    ensures { OnOk result (text.new ≡ text.old ++ (if is_many model.now.meta step.feature
        then 46 ∷ decimal (position_or_len (refers_to step.to) (slot model.now step.from step.feature)) else [])) }
{
    if !is_many(model.meta(), step.feature) {
        return Ok(());
    }
    text.push_ascii(".")?;
    push_number(text, place_of_content(model, step))
}

// Adds a step.
fn push_step(text: &mut Text, model: &Model, step: Step) -> Result<(), AllocError>
    ensures { OnOk result (text.new ≡ text.old ++ step_text model.now step) }
{
    text.push_ascii("/@")?;
    push_name(text, model.meta(), step.feature)?;
    push_place(text, model, step)
}

// Adds steps, the last first.
fn push_steps(text: &mut Text, model: &Model, mut steps: Vec<Step>) -> Result<(), AllocError>
    ensures { OnOk result (text.new ≡ text.old ++ flat_map (step_text model.now) (reverse steps.items)) }
{
    while let Some(step) = steps.pop() {
        push_step(text, model, step)?;
    }
    Ok(())
}

// Adds a root.
fn push_root(text: &mut Text, model: &Model, o: ObjId) -> Result<(), AllocError>
    ensures { OnOk result (text.new ≡ text.old ++ root_text model.now o) }
{
    text.push_ascii("/")?;
    model.valid();
    if model.roots().len() == 1 {
        return Ok(());
    }
    push_number(text, near_root(model.roots(), o))
}

// The steps up from an object, the lowest first, and where they end.
#[derive(Drop)]
struct Climb {
    top: ObjId,
    steps: Vec<Step>,
}

#[tactic(auto, unfolding(crate::specs::Paths::top_within, crate::specs::Paths::steps_within))]
fn climbed(model: &Model, o: ObjId) -> Result<Climb, AllocError>
    ensures top { IfOk result (λ climb. climb.top ≡ top_within (suc (length model.now.objects)) model.now o) }
    ensures steps { IfOk result (λ climb. reverse climb.steps.items ≡ steps_within (suc (length model.now.objects)) model.now o) }
{
    let mut steps = Vec::new(model.store().alloc());
    let mut top = o;
    for level in 0..model.given() as usize + 1 {
        let Some((from, feature)) = model.holder(top) else {
            return Ok(Climb { top, steps });
        };
        steps.push(Step {
            from,
            feature,
            to: top,
        })?;
        let _ = level;
        top = from;
    }
    Ok(Climb { top, steps })
}

impl Model {
    /// The fragment of an object that is there, as `path_of` gives it: only memory can be refused.
    pub fn fragment(&self, o: ObjId) -> Result<Text, AllocError>
        ensures { IfOk result (λ text. text ≡ path self.now o) }
    {
        let Climb { top, steps } = climbed(self, o)?;
        let mut text = Text::new(self.store().alloc());
        push_root(&mut text, self, top)?;
        push_steps(&mut text, self, steps)?;
        Ok(text)
    }

    /// The fragment of an object: `/`, or `/k` for root k from 0 where there are several, and then `/@f.i` or `/@f` for each
    /// step to a content, i from 0.
    pub fn path_of(&self, o: ObjId) -> Result<Text, StoreRefusal>
        requires { HasNoCycle self.now }
        ensures { GivesPath self.now o result }
    {
        if self.class(o).is_none() {
            return Err(StoreRefusal::NoObject);
        }
        Ok(self.fragment(o)?)
    }
}
