// Models: the type whose values are always models, and its calls.
ghost use Rattle.std.specs.Prelude.{◌≡◌, ◌≤◌, ◌<◌, ◌^◌, IfOk, IfSome, OnOk, OnErr, MatchResult, [], length, Some, None, true, false, map};
ghost use Rattle.ecore_meta.specs.Valid.{IsMetamodel};
ghost use Rattle.std.specs.Option.{option_copied};
ghost use Rattle.model_store.specs.Contents.{IsShaped, class_of, container, holder, object_at, refers, refusal, slot};
ghost use Rattle.model_store.specs.Folds.{empty};
ghost use Rattle.model_store.specs.Order.{preorder, HasNoCycle, IsExtent};
ghost use Rattle.model_store.specs.Paths.{object_of_path};
ghost use Rattle.model_store.specs.Valid.{Fits, HasSlot, IsConcrete, IsModel};
ghost use Rattle.model_store.specs.Writes.{write, Creates, Writes};

use crate::adding::{Rewired, write_reference};
use crate::guesses::{guess_all, guess_more};
use crate::held::Held;
use crate::lookups::refers;
use crate::parts::{Cellv, Object, Slot};
use crate::refusal::StoreRefusal;
use crate::store::Store;
use atl_base::numbers::{ClassId, FeatId, ObjId};
use ecore_meta::metamodel::Metamodel;
use std::alloc::{AllocError, Global};
use std::rc::Rc;

/// A model. Contracts see it as its metamodel's lists, its objects and its roots.
#[derive(Drop)]
pub struct Model {
    store: Store,
    // for each number the container of its object and the feature, where it has one
    holders: Vec<Option<(ObjId, FeatId)>>,
    // and perhaps its place in the slot
    places: Vec<usize>,
}

impl std::marker::Model for Model {
    ghost use Rattle.model_store.specs.Contents.{Contents};
    ghost use Rattle.model_store.specs.HolderTables.{AreHolders};
    ghost use Rattle.model_store.specs.Valid.{IsValid};

    ghost Value = { Contents };

    ghost view = { λ m. m.store };

    ghost invariant = { λ m. IsValid m.store × AreHolders m.store m.holders.items };
}

// The model that a store is.
pub(crate) fn made(alloc: Global, store: Store) -> Result<Model, AllocError>
    requires { IsModel store }
    ensures { IfOk result (λ model. model ≡ store) }
{
    let _ = store.meta().parts();
    let mut holders = vec![in alloc; None; store.given() as usize]?;
    store.note_holders(&mut holders);
    let places = guess_all(&store)?;
    Ok(Model {
        store,
        holders,
        places,
    })
}

impl Model {
    /// The model without objects.
    pub fn new(alloc: Global, meta: Rc<Metamodel>) -> Result<Model, AllocError>
        ensures { IfOk result (λ model. model ≡ empty meta.value) }
    {
        made(alloc, Store::new(alloc, meta)?)
    }

    /// The model of these objects, numbered from 0 in their order, and of these roots. There may be containment cycles.
    pub fn from_parts(
        alloc: Global,
        meta: Rc<Metamodel>,
        objects: Vec<Object>,
        roots: Vec<ObjId>,
    ) -> Result<Model, AllocError>
        requires few { length objects.items ≤ 1000000 }
        requires model { IsModel (record { meta = meta.value; objects = map Some objects.items; roots = roots.items }) }
        ensures { IfOk result (λ model. model ≡ record { meta = meta.value; objects = map Some objects.items; roots = roots.items }) }
    {
        made(alloc, Store::from_parts(alloc, meta, objects, roots)?)
    }

    /// Tells a caller what is true of each model: it is one, freedom from containment cycles aside, its metamodel is valid, and
    /// its numbers have 32 bits.
    pub fn valid(&self)
        ensures model { IsModel self.now }
        ensures metamodel { IsMetamodel self.now.meta }
        ensures few { length self.now.objects < 2 ^ 32 }
    {
        let _given = self.store.given();
    }

    /// A new object of a class that is not abstract: the last root.
    pub fn create(&mut self, class: ClassId) -> Result<ObjId, StoreRefusal>
        requires class { class.0 < length self.old.meta.classes }
        requires concrete { IsConcrete self.old.meta class }
        ensures { Creates self.old class result self.new }
    {
        if guess_more(&mut self.places, self.holders.len()).is_err() {
            return Err(StoreRefusal::Memory);
        }
        if self.holders.push(None).is_err() {
            return Err(StoreRefusal::Memory);
        }
        match self.store.create(class) {
            Ok(o) => Ok(o),
            Err(refused) => {
                self.holders.pop();
                Err(refused)
            }
        }
    }

    /// The metamodel.
    pub fn meta(&self) -> &Rc<Metamodel>
        ensures { result.now.value ≡ self.now.meta }
    {
        self.store.meta()
    }

    /// The roots, in their order.
    pub fn roots(&self) -> &[ObjId]
        ensures { result.now ≡ self.now.roots }
    {
        self.store.roots()
    }

    /// How many numbers have been given: they are given from 0 on without a gap.
    pub fn given(&self) -> u32
        ensures { result ≡ length self.now.objects }
    {
        self.store.given()
    }

    /// The class of an object, and none where there is no such object.
    pub fn class(&self, o: ObjId) -> Option<ClassId>
        ensures class { result ≡ class_of self.now o }
        ensures within { IfSome result (λ c. c.0 < length self.now.meta.classes) }
    {
        self.store.class(o)
    }

    /// An object: its class, and its slots in the order of the class's features.
    pub fn object(&self, o: ObjId) -> Option<&Held>
        ensures object { option_copied result ≡ object_at self.now.objects o }
        ensures shaped { IfSome result (λ object. IsShaped self.now.meta object.now) }
    {
        self.store.object(o)
    }

    /// The values of a feature of an object.
    pub fn get(&self, o: ObjId, f: FeatId) -> Result<&Slot, StoreRefusal>
        ensures { MatchResult result (λ cells. (refusal self.now o f ≡ None) × (cells.now ≡ slot self.now o f))
            (λ e. refusal self.now o f ≡ Some e) }
    {
        self.store.get(o, f)
    }

    // Where an object is contained: the container and its feature.
    pub(crate) fn holder(&self, p: ObjId) -> Option<(ObjId, FeatId)>
        ensures { result ≡ holder self.now p }
    {
        *self.holders.get(p.0 as usize)?
    }

    // Where an object perhaps stands in the slot that contains it.
    pub(crate) fn guess(&self, p: ObjId) -> usize {
        match self.places.get(p.0 as usize) {
            Some(place) => *place,
            None => 0,
        }
    }

    /// The object that contains another, and none for a root and where there is no such object.
    pub fn container(&self, p: ObjId) -> Option<ObjId>
        ensures { result ≡ container self.now p }
    {
        Some(self.holder(p)?.0)
    }

    /// Writes to a feature of an object: a single-valued one takes the only value, and is reset by none; a many-valued one
    /// appends the values in their order, and skips those that it has where it is unique. A containment cycle may arise.
    pub fn write(&mut self, o: ObjId, f: FeatId, values: &Slot) -> Result<(), StoreRefusal>
        ensures { Writes self.old o f values.now result self.new }
    {
        let values = values.as_slice();
        if let Err(refused) = self.store.may_write(o, f, values) {
            return Err(refused);
        }
        if refers(self.store.meta(), f) {
            self.rewire(o, f, values)?;
        } else {
            self.assign(o, f, values)?;
        }
        Ok(())
    }

    // Writes to an attribute.
    fn assign(&mut self, o: ObjId, f: FeatId, values: &[Cellv]) -> Result<(), AllocError>
        requires there { HasSlot self.old o f }
        requires attribute { refers self.old.meta f ≡ false }
        requires fits { Fits self.old f values.now }
        ensures ok { OnOk result (self.new ≡ write self.old o f values.now) }
        ensures err { OnErr result (self.new ≡ self.old) }
    {
        self.store.assign(o, f, values)?;
        Ok(())
    }

    // Writes to a reference.
    fn rewire(&mut self, o: ObjId, f: FeatId, values: &[Cellv]) -> Result<(), AllocError>
        requires there { HasSlot self.old o f }
        requires reference { refers self.old.meta f ≡ true }
        requires fits { Fits self.old f values.now }
        ensures ok { OnOk result (self.new ≡ write self.old o f values.now) }
        ensures err { OnErr result (self.new ≡ self.old) }
    {
        let alloc = self.store.alloc();
        let none = Store::new(alloc, self.store.meta().clone()?)?;
        let store = std::mem::replace(&mut self.store, none);
        let holders = std::mem::replace(&mut self.holders, Vec::new(alloc));
        let places = std::mem::replace(&mut self.places, Vec::new(alloc));
        let Rewired {
            store,
            holders,
            places,
            done,
        } = write_reference(store, holders, places, o, f, values);
        self.store = store;
        self.holders = holders;
        self.places = places;
        done?;
        Ok(())
    }

    /// The same model again.
    pub fn copy(&self) -> Result<Model, AllocError>
        ensures { IfOk result (λ model. model ≡ self.now) }
    {
        Ok(Model {
            store: self.store.copy()?,
            holders: Vec::from_slice(self.store.alloc(), &self.holders)?,
            places: Vec::from_slice(self.store.alloc(), &self.places)?,
        })
    }

    /// All objects, from the roots in their order, each before its contents, and these by features and place.
    pub fn preorder(&self) -> Result<Vec<ObjId>, AllocError>
        requires { HasNoCycle self.now }
        ensures { IfOk result (λ list. list.items ≡ preorder self.now) }
    {
        self.store.preorder()
    }

    /// The objects of a class and of those that inherit from it, in the same order.
    pub fn extent(&self, class: ClassId) -> Result<Vec<ObjId>, AllocError>
        requires class { class.0 < length self.now.meta.classes }
        requires acyclic { HasNoCycle self.now }
        ensures { IfOk result (λ list. IsExtent self.now class list.items) }
    {
        self.store.extent(class)
    }

    /// The object of a fragment, and none where it names none.
    pub fn at_path(&self, path: &str) -> Option<ObjId>
        ensures { result ≡ object_of_path self.now path.now }
    {
        self.store.at_path(path)
    }

    // What it is made of.
    pub(crate) fn store(&self) -> &Store
        ensures { result.now ≡ self.now }
    {
        &self.store
    }
}
