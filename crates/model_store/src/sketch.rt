// A model while a reader builds it: its objects come one by one, and then their values. `specs/Sketches.antt` says what each call does.
ghost use Rattle.std.specs.Prelude.{◌≡◌, ◌<◌, ◌^◌, suc, length, IfOk, IfSome, OnOk};
ghost use Rattle.std.specs.Option.{option_copied};
ghost use Rattle.model_store.specs.Contents.{IsShaped, object_at, slot};
ghost use Rattle.model_store.specs.Folds.{empty};
ghost use Rattle.model_store.specs.Paths.{object_of_path};
ghost use Rattle.model_store.specs.Sketches.{with_last_root, with_object, with_value};
ghost use Rattle.model_store.specs.Valid.{IsModel};

use crate::held::Held;
use crate::model::{Model, made};
use crate::parts::Cellv;
use crate::store::Store;
use atl_base::numbers::{ClassId, FeatId, ObjId};
use ecore_meta::metamodel::Metamodel;
use std::alloc::{AllocError, Global};
use std::rc::Rc;

/// What is to become a model. Contracts see it as a model's contents, but its opposites need not agree, its slots may lack what a model's
/// have, and its roots are what was said. After a refusal of memory nothing is known of it.
#[derive(Drop)]
pub struct Sketch {
    alloc: Global,
    store: Store,
}

impl std::marker::Model for Sketch {
    ghost use Rattle.model_store.specs.Contents.{Contents};

    ghost Value = { Contents };

    ghost view = { λ s. s.store };
}

impl Sketch {
    /// Nothing yet.
    pub fn new(alloc: Global, meta: Rc<Metamodel>) -> Result<Sketch, AllocError>
        ensures { IfOk result (λ sketch. sketch ≡ empty meta.value) }
    {
        Ok(Sketch {
            alloc,
            store: Store::new(alloc, meta)?,
        })
    }

    /// The metamodel.
    pub fn meta(&self) -> &Rc<Metamodel>
        ensures { result.now.value ≡ self.now.meta }
    {
        self.store.meta()
    }

    /// How many objects there are.
    pub fn given(&self) -> u32
        ensures { result ≡ length self.now.objects }
    {
        self.store.given()
    }

    /// An object more, of the next number, with empty slots.
    pub fn push_object(&mut self, class: ClassId) -> Result<(), AllocError>
        requires class { class.0 < length self.old.meta.classes }
        requires few { suc (length self.old.objects) < 2 ^ 32 }
        ensures { OnOk result (self.new ≡ with_object class self.old) }
    {
        self.store.push_blank(class)
    }

    /// A root more, behind the others.
    pub fn push_root(&mut self, o: ObjId) -> Result<(), AllocError>
        ensures { OnOk result (self.new ≡ with_last_root o self.old) }
    {
        self.store.push_root(o)
    }

    /// A value more in a slot, where there is such a slot.
    pub fn push_value(&mut self, o: ObjId, f: FeatId, value: Cellv) -> Result<(), AllocError>
        ensures { OnOk result (self.new ≡ with_value o f value self.old) }
    {
        self.store.append_value(o, f, value)
    }

    /// An object: its class, and its slots in the order of the class's features.
    pub fn object(&self, o: ObjId) -> Option<&Held>
        ensures object { option_copied result ≡ object_at self.now.objects o }
        ensures shaped { IfSome result (λ object. IsShaped self.now.meta object.now) }
    {
        self.store.object(o)
    }

    /// The values of a feature of an object, and none where there is no such slot.
    pub fn cells(&self, o: ObjId, f: FeatId) -> &[Cellv]
        ensures { result.now ≡ slot self.now o f }
    {
        self.store.cells(o, f)
    }

    /// The object of a fragment, and none where it names none.
    pub fn at_path(&self, path: &str) -> Option<ObjId>
        ensures { result ≡ object_of_path self.now path.now }
    {
        self.store.at_path(path)
    }

    /// The model that it has become.
    pub fn model(self) -> Result<Model, AllocError>
        requires { IsModel self }
        ensures { IfOk result (λ model. model ≡ self) }
    {
        made(self.alloc, self.store)
    }
}
