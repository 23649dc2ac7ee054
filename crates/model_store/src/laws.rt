//! The laws of models, over the definitions alone. Each function has a law as its contract, and does nothing.
ghost use Rattle.std.specs.Prelude.{◌≡◌, ◌<◌, ◌^◌, ℕ, List, length, IsSome, Some};
ghost use Rattle.atl_base.specs.declared.numbers.ClassId.{ClassId};
ghost use Rattle.atl_base.specs.declared.numbers.FeatId.{FeatId};
ghost use Rattle.atl_base.specs.declared.numbers.ObjId.{ObjId};
ghost use Rattle.ecore_meta.specs.Valid.{IsMetamodel};
ghost use Rattle.model_store.specs.Contents.{Contents, object_at};
ghost use Rattle.model_store.specs.Folds.{IsFoldLaw};
ghost use Rattle.model_store.specs.Laws.{IsWriteLaw};
ghost use Rattle.model_store.specs.Order.{HasNoCycle};
ghost use Rattle.model_store.specs.Paths.{path, object_of_path};
ghost use Rattle.model_store.specs.Valid.{Fits, HasSlot, IsConcrete, IsModel};
ghost use Rattle.model_store.specs.Writes.{created, write as written};
ghost use Rattle.model_store.specs.declared.parts.Cellv.{Cellv};

/// A model with a new object is a model.
pub fn a_new_object_leaves_a_model()
    ensures { (m : Contents) → IsMetamodel m.meta → IsModel m → (class : ClassId) → class.0 < length m.meta.classes → IsConcrete m.meta class → IsModel (created m class) }
{}

/// A model with what fits written to a feature of one of its objects is a model: opposites agree, and each object has at most
/// one container. A containment cycle may arise.
pub fn a_write_leaves_a_model()
    ensures { (m : Contents) → IsMetamodel m.meta → IsModel m → (o : ObjId) (f : FeatId) (values : List Cellv) → HasSlot m o f → Fits m f values → IsModel (written m o f values) }
{}

/// A write leaves alone the metamodel, how many numbers have been given, and which objects there are, each with its class.
pub fn write_law()
    ensures { IsWriteLaw }
{}

/// A fold of writes that may be made begins with the created objects as roots, in order of creation, and ends with a model of
/// these objects. A containment cycle may arise.
pub fn fold_law()
    ensures { IsFoldLaw }
{}

/// In a model without a containment cycle the fragment of an object names it. Each model has fewer objects than numbers of 32
/// bits.
pub fn a_path_names_its_object()
    ensures { (m : Contents) → IsMetamodel m.meta → IsModel m → length m.objects < 2 ^ 32 → HasNoCycle m → (o : ObjId) → IsSome (object_at m.objects o) → object_of_path m (path m o) ≡ Some o }
{}

/// And what a fragment names is an object, which its own fragment names again.
pub fn a_named_object_has_a_path()
    ensures { (m : Contents) → IsMetamodel m.meta → IsModel m → length m.objects < 2 ^ 32 → HasNoCycle m → (text : List ℕ) (o : ObjId) → object_of_path m text ≡ Some o → IsSome (object_at m.objects o) × (object_of_path m (path m o) ≡ Some o) }
{}
