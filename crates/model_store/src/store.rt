// The objects, slots and roots of a model. A store need not be a model: a write takes it through states in which the two ends of a
// pair disagree. `model.rt` has the type that is always one.
ghost use Rattle.std.specs.Prelude.{◌≡◌, ◌≤◌, ◌<◌, ◌⊎◌, ◌++◌, ◌-◌, ◌∷◌, IfOk, OnOk, OnErr, IfSome, MatchResult, [], length, suc, ◌^◌, take, slice_index_or, Some, None, Err, false, option_map, is_ok, if◌then◌else◌, map};
ghost use Rattle.std.specs.Option.{option_copied, option_map_or};
ghost use Rattle.model_store.specs.declared.parts.Object.{Object};
ghost use Rattle.model_store.specs.declared.parts.Cellv.TheVariants.{Obj};
ghost use Rattle.model_store.specs.Drafts.{settled};
ghost use Rattle.model_store.specs.Sketches.{with_last_root, with_object, with_value};
ghost use Rattle.model_store.specs.Valid.{Fits, IsConcrete, IsModel};
ghost use Rattle.model_store.specs.Writes.{appended, write, Creates, Writes};
ghost use Rattle.model_store.specs.Contents.{holds, is_unique, object_count, object_at, class_of, slot, with_slot, set_slot, refusal, refers, place_in, HasPlace, IsShaped};
ghost use Rattle.model_store.specs.HolderTables.{AreHolders};

use crate::attributes::{append_or_not, blank, fresh, replaced};
use crate::containing::{clear, note_place};
use crate::copies::copy_objects;
use crate::held::Held;
use crate::lookups::{contains, is_many, is_unique, opposite, place_in, refers};
use crate::parts::{Cellv, Object, Slot};
use crate::refusal::StoreRefusal;
use crate::roots::{RootStep, Roots};
use crate::row::Row;
use crate::types::fits;
use atl_base::numbers::{ClassId, FeatId, ObjId};
use ecore_meta::metamodel::Metamodel;
use sqlite_items::Items;
use std::alloc::{AllocError, Global};
use std::rc::Rc;

// Contracts see it as its metamodel's lists, its objects and its roots.
#[derive(Drop)]
pub(crate) struct Store {
    alloc: Global,
    meta: Rc<Metamodel>,
    // at each number the object, or none where it is gone
    objects: Vec<Option<Held>>,
    // how many objects there are
    count: usize,
    roots: Roots,
}

impl std::marker::Model for Store {
    ghost use Rattle.std.specs.Prelude.{◌≡◌, ◌<◌, ◌^◌, length};
    ghost use Rattle.model_store.specs.Contents.{Contents, object_count, AreShaped};

    ghost Value = { Contents };

    ghost view = { λ m. record { meta = m.meta.value; objects = m.objects.items; roots = m.roots } };

    ghost invariant = { λ m. (m.count ≡ object_count m.objects.items) × (length m.objects.items < 2 ^ 32)
        × AreShaped m.meta.value m.objects.items };
}

// Other values in the slot at this place, and what it held.
fn exchange_at(place: &mut Option<Held>, at: usize, cells: Row) -> Row
    requires { (object : Object) → place.old ≡ Some object → at < length object.slots }
    ensures new { place.new ≡ option_map (λ object. with_slot object at cells) place.old }
    ensures old { (object : Object) → place.old ≡ Some object → result ≡ slice_index_or object.slots at [] }
{
    match place {
        Some(object) => object.exchange(at, cells),
        None => cells,
    }
}

// Objects at their places.
#[tactic(auto, using(crate::proofs::Exchanges::placed_more))]
fn placed(alloc: Global, mut objects: Vec<Object>) -> Result<Vec<Option<Held>>, AllocError>
    ensures { IfOk result (λ places. places.items ≡ map Some objects.items) }
{
    let mut places = Vec::with_capacity(alloc, objects.len())?;
    'back: while let Some(object) = objects.pop() {
        places.push(Some(Held::of(alloc, object)?))?;
    }
    places.reverse();
    Ok(places)
}

// An object more, which is a root.
fn push_root(
    objects: &mut Vec<Option<Held>>,
    roots: &mut Roots,
    object: Held,
    o: ObjId,
) -> Result<(), AllocError>
    ensures objects { objects.new.items ≡ (if is_ok result then objects.old.items ++ Some object ∷ [] else objects.old.items) }
    ensures roots { roots.new ≡ (if is_ok result then roots.old ++ o ∷ [] else roots.old) }
{
    objects.reserve(1)?;
    roots.push(o)?;
    match objects.push(Some(object)) {
        Ok(()) => Ok(()),
        Err(_) => Err(AllocError),
    }
}

impl Store {
    // The model without objects.
    pub(crate) fn new(alloc: Global, meta: Rc<Metamodel>) -> Result<Store, AllocError>
        ensures { IfOk result (λ model. model ≡ record { meta = meta.value; objects = []; roots = [] }) }
    {
        Ok(Store {
            alloc,
            meta,
            objects: Vec::new(alloc),
            count: 0,
            roots: Roots::new(alloc),
        })
    }

    // The model of these objects, numbered from 0 in their order, and of these roots. There may be containment cycles.
    pub(crate) fn from_parts(
        alloc: Global,
        meta: Rc<Metamodel>,
        objects: Vec<Object>,
        roots: Vec<ObjId>,
    ) -> Result<Store, AllocError>
        requires few { length objects.items ≤ 1000000 }
        requires model { IsModel (record { meta = meta.value; objects = map Some objects.items; roots = roots.items }) }
        ensures { IfOk result (λ model. model ≡ record { meta = meta.value; objects = map Some objects.items; roots = roots.items }) }
    {
        let count = objects.len();
        let objects = placed(alloc, objects)?;
        Ok(Store {
            alloc,
            meta,
            objects,
            count,
            roots: Roots::of(roots),
        })
    }

    // A new object of a class that is not abstract: the last root.
    pub(crate) fn create(&mut self, class: ClassId) -> Result<ObjId, StoreRefusal>
        requires class { class.0 < length self.old.meta.classes }
        requires concrete { IsConcrete self.old.meta class }
        ensures { Creates self.old class result self.new }
    {
        if self.count >= 1_000_000 || self.objects.len() >= 4_294_967_295 {
            return Err(StoreRefusal::Full);
        }
        let object = fresh(self.alloc, &self.meta, class)?;
        let o = ObjId(self.objects.len() as u32);
        push_root(&mut self.objects, &mut self.roots, object, o)?;
        self.count += 1;
        Ok(o)
    }

    // The metamodel.
    pub(crate) fn meta(&self) -> &Rc<Metamodel>
        ensures { result.now.value ≡ self.now.meta }
    {
        &self.meta
    }

    // The roots, in their order.
    pub(crate) fn roots(&self) -> &[ObjId]
        ensures { result.now ≡ self.now.roots }
    {
        self.roots.as_slice()
    }

    // How many numbers have been given: they are given from 0 on without a gap.
    pub(crate) fn given(&self) -> u32
        ensures { result ≡ length self.now.objects }
    {
        self.objects.len() as u32
    }

    // The object of a number.
    pub(crate) fn object(&self, o: ObjId) -> Option<&Held>
        ensures object { option_copied result ≡ object_at self.now.objects o }
        ensures shaped { IfSome result (λ object. IsShaped self.now.meta object.now) }
    {
        self.objects.get(o.0 as usize)?.as_ref()
    }

    // The class of an object, and none where there is no such object.
    pub(crate) fn class(&self, o: ObjId) -> Option<ClassId>
        ensures class { result ≡ class_of self.now o }
        ensures within { IfSome result (λ c. c.0 < length self.now.meta.classes) }
    {
        Some(self.object(o)?.class())
    }

    // The values of a feature of an object.
    pub(crate) fn get(&self, o: ObjId, f: FeatId) -> Result<&Slot, StoreRefusal>
        ensures { MatchResult result (λ cells. (refusal self.now o f ≡ None) × (cells.now ≡ slot self.now o f))
            (λ e. refusal self.now o f ≡ Some e) }
    {
        let Some(object) = self.object(o) else {
            return Err(StoreRefusal::NoObject);
        };
        match place_in(&self.meta, object.class(), f) {
            Some(at) => Ok(object.slots()[at].slot()),
            None => Err(StoreRefusal::NoFeature),
        }
    }

    // Where each object is contained, into a table with a place for each.
    pub(crate) fn note_holders(&self, holders: &mut [Option<(ObjId, FeatId)>])
        requires { length holders.old ≡ length self.now.objects }
        ensures { AreHolders self.now holders.new }
    {
        clear(holders);
        for at in 0..self.objects.len() {
            note_place(holders, &self.meta, ObjId(at as u32), &self.objects[at]);
        }
    }

    // The place of a feature's slot in its object.
    fn place(&self, o: ObjId, f: FeatId) -> Option<usize>
        ensures place { result ≡ option_map_or (λ object. place_in self.now.meta object.class f) (object_at self.now.objects o) None }
        ensures within { IfSome result (λ at. HasPlace self.now.meta self.now.objects o at) }
    {
        let object = self.object(o)?;
        place_in(&self.meta, object.class(), f)
    }

    // The values of a feature of an object, and none where there is no such slot.
    pub(crate) fn cells(&self, o: ObjId, f: FeatId) -> &[Cellv]
        ensures { result.now ≡ slot self.now o f }
    {
        match self.get(o, f) {
            Ok(cells) => cells.as_slice(),
            Err(_) => &[],
        }
    }

    // Whether a feature of an object holds an object.
    pub(crate) fn holds(&self, o: ObjId, f: FeatId, p: ObjId) -> bool
        ensures { result ≡ holds p (slot self.now o f) }
    {
        let Some(object) = self.object(o) else {
            return false;
        };
        match place_in(&self.meta, object.class(), f) {
            Some(at) => object.slots()[at].holds(p),
            None => false,
        }
    }

    // Other values in a slot, where there is one, and what it held.
    pub(crate) fn exchange(&mut self, o: ObjId, f: FeatId, cells: Row) -> Row
        ensures new { self.new ≡ set_slot self.old o f cells }
        ensures old { result ≡ slot self.old o f }
    {
        let Some(at) = self.place(o, f) else {
            return Row::new(Items::new(self.alloc));
        };
        exchange_at(&mut self.objects[o.0 as usize], at, cells)
    }

    // A value more in a slot.
    #[tactic(auto, using(crate::proofs::Exchanges::set_twice, crate::proofs::Exchanges::set_back))]
    pub(crate) fn append_value(
        &mut self,
        o: ObjId,
        f: FeatId,
        value: Cellv,
    ) -> Result<(), AllocError>
        ensures ok { OnOk result (self.new ≡ with_value o f value self.old) }
        ensures err { OnErr result (self.new ≡ self.old) }
    {
        let keep = refers(&self.meta, f)
            && !contains(&self.meta, f)
            && opposite(&self.meta, f).is_none();
        let mut cells = self.exchange(o, f, Row::new(Items::new(self.alloc)));
        let pushed = cells.push(self.alloc, value, keep);
        let _ = self.exchange(o, f, cells);
        pushed
    }

    // An object more in a slot.
    pub(crate) fn append(&mut self, o: ObjId, f: FeatId, q: ObjId) -> Result<(), AllocError>
        ensures ok { OnOk result (self.new ≡ set_slot self.old o f (slot self.old o f ++ Obj q ∷ [])) }
        ensures err { OnErr result (self.new ≡ self.old) }
    {
        self.append_value(o, f, Cellv::Obj(q))
    }

    // An object more, with empty slots.
    pub(crate) fn push_blank(&mut self, class: ClassId) -> Result<(), AllocError>
        requires class { class.0 < length self.old.meta.classes }
        requires few { suc (length self.old.objects) < 2 ^ 32 }
        ensures ok { OnOk result (self.new ≡ with_object class self.old) }
    {
        let object = blank(self.alloc, &self.meta, class)?;
        self.objects.push(Some(object))?;
        self.count += 1;
        Ok(())
    }

    // A root more, behind the others.
    pub(crate) fn push_root(&mut self, o: ObjId) -> Result<(), AllocError>
        ensures ok { OnOk result (self.new ≡ with_last_root o self.old) }
    {
        self.roots.push(o)?;
        Ok(())
    }

    // The last value less in a slot.
    #[tactic(auto, using(crate::proofs::Exchanges::set_twice))]
    pub(crate) fn drop_last(&mut self, o: ObjId, f: FeatId)
        ensures { self.new ≡ set_slot self.old o f (take (length (slot self.old o f) - 1) (slot self.old o f)) }
    {
        let mut cells = self.exchange(o, f, Row::new(Items::new(self.alloc)));
        let _ = cells.pop();
        let _ = self.exchange(o, f, cells);
    }

    // The roots after all steps, or as they were.
    pub(crate) fn settle(&mut self, steps: &[RootStep]) -> Result<(), AllocError>
        ensures ok { OnOk result (self.new ≡ record self.old { roots = settled steps.now self.old.roots }) }
        ensures err { OnErr result (self.new ≡ self.old) }
    {
        self.roots.settle(self.alloc, steps)
    }

    // What the objects are made with.
    pub(crate) fn alloc(&self) -> Global {
        self.alloc
    }

    // The same model again.
    pub(crate) fn copy(&self) -> Result<Store, AllocError>
        ensures { IfOk result (λ model. model ≡ self.now) }
    {
        Ok(Store {
            alloc: self.alloc,
            meta: self.meta.clone()?,
            objects: copy_objects(self.alloc, &self.objects)?,
            count: self.count,
            roots: self.roots.copy(self.alloc)?,
        })
    }

    // Whether values may be written to a feature of an object.
    pub(crate) fn may_write(
        &self,
        o: ObjId,
        f: FeatId,
        values: &[Cellv],
    ) -> Result<(), StoreRefusal>
        ensures { MatchResult result (λ _. (refusal self.now o f ≡ None) × Fits self.now f values.now) (λ e. Writes self.now o f values.now (Err e) self.now) }
    {
        if let Err(refused) = self.get(o, f) {
            return Err(refused);
        }
        if !fits(self, f, values) {
            return Err(StoreRefusal::BadType);
        }
        Ok(())
    }

    // Values more in the slot of a many-valued attribute.
    fn append_values(&mut self, o: ObjId, f: FeatId, values: &[Cellv]) -> Result<(), AllocError>
        ensures ok { OnOk result (self.new ≡ set_slot self.old o f (appended (is_unique self.old.meta f) (slot self.old o f) values.now)) }
        ensures err { OnErr result (self.new ≡ self.old) }
    {
        let unique = is_unique(&self.meta, f);
        let mut row = self.exchange(o, f, Row::new(Items::new(self.alloc)));
        let done = append_or_not(self.alloc, unique, &mut row, values);
        let _ = self.exchange(o, f, row);
        done
    }

    // Writes to an attribute.
    pub(crate) fn assign(&mut self, o: ObjId, f: FeatId, values: &[Cellv]) -> Result<(), AllocError>
        requires { refers self.old.meta f ≡ false }
        ensures ok { OnOk result (self.new ≡ write self.old o f values.now) }
        ensures err { OnErr result (self.new ≡ self.old) }
    {
        if is_many(&self.meta, f) {
            return self.append_values(o, f, values);
        }
        let cells = replaced(self.alloc, &self.meta, f, values)?;
        let _ = self.exchange(o, f, Row::new(cells));
        Ok(())
    }
}
