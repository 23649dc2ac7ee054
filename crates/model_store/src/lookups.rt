// What the metamodel says of a feature, and what a slot holds.
ghost use Rattle.std.specs.Prelude.{◌≡◌, ◌<◌, IfSome, slice_get, length, false};
ghost use Rattle.std.specs.Option.{option_copied};
ghost use Rattle.ecore_meta.specs.Valid.{IsKindWithin, IsTextOf, is_reference};
ghost use Rattle.model_store.specs.Contents.{contains, is_contained_by, is_many, is_unique, refers, opposite, place_in, holds, first_object};

use crate::parts::Cellv;
use atl_base::numbers::{ClassId, FeatId, ObjId};
use ecore_meta::metamodel::Metamodel;
use ecore_meta::parts::{FeatKind, Feature};

// A feature, and what its metamodel says of it.
pub(crate) fn feature(meta: &Metamodel, f: FeatId) -> Option<&Feature>
    ensures feature { option_copied result ≡ slice_get meta.now.features f.0 }
    ensures kind { IfSome result (λ feature. IsKindWithin meta.now feature.now.kind) }
    ensures text { IfSome result (λ feature. is_reference feature.now.kind ≡ false
        → IfSome feature.now.default (IsTextOf meta.now feature.now.kind)) }
{
    meta.parts().features.get(f.0 as usize)
}

/// Whether a feature holds several values.
pub fn is_many(meta: &Metamodel, f: FeatId) -> bool
    ensures { result ≡ is_many meta.now f }
{
    match meta.all_features().get(f.0 as usize) {
        Some(feature) => feature.many,
        None => false,
    }
}

// Whether a write skips values that are there already.
pub(crate) fn is_unique(meta: &Metamodel, f: FeatId) -> bool
    ensures { result ≡ is_unique meta.now f }
{
    match meta.all_features().get(f.0 as usize) {
        Some(feature) => feature.unique,
        None => false,
    }
}

/// Whether a feature is a reference.
pub fn refers(meta: &Metamodel, f: FeatId) -> bool
    ensures { result ≡ refers meta.now f }
{
    match meta.all_features().get(f.0 as usize) {
        Some(feature) => is_reference(feature.kind),
        None => false,
    }
}

// Whether values of a type are objects.
pub(crate) fn is_reference(kind: FeatKind) -> bool
    ensures { result ≡ is_reference kind }
{
    matches!(kind, FeatKind::Refer { .. })
}

/// Whether a feature contains what it refers to.
pub fn contains(meta: &Metamodel, f: FeatId) -> bool
    ensures { result ≡ contains meta.now f }
{
    match meta.all_features().get(f.0 as usize) {
        Some(feature) => match feature.kind {
            FeatKind::Refer { contains, .. } => contains,
            _ => false,
        },
        None => false,
    }
}

/// The reference back.
pub fn opposite(meta: &Metamodel, f: FeatId) -> Option<FeatId>
    ensures { result ≡ opposite meta.now f }
{
    match meta.all_features().get(f.0 as usize) {
        Some(feature) => match feature.kind {
            FeatKind::Refer { opposite, .. } => opposite,
            _ => None,
        },
        None => None,
    }
}

/// Whether a feature is a reference to what contains the object.
pub fn is_contained_by(meta: &Metamodel, f: FeatId) -> bool
    ensures { result ≡ is_contained_by meta.now f }
{
    match opposite(meta, f) {
        Some(g) => contains(meta, g),
        None => false,
    }
}

// The place of a feature among those of a class.
pub(crate) fn place_in(meta: &Metamodel, class: ClassId, f: FeatId) -> Option<usize>
    requires { class.0 < length meta.now.classes }
    ensures { result ≡ place_in meta.now class f }
{
    meta.features_seen(class).iter().position(|g| g.0 == f.0)
}

// Whether a slot holds an object.
pub(crate) fn holds(cells: &[Cellv], p: ObjId) -> bool
    ensures { result ≡ holds p cells.now }
{
    cells.iter().any(|cell| cell.refers_to(p))
}

// The first object of a slot.
pub(crate) fn first_object(cells: &[Cellv]) -> Option<ObjId>
    ensures { result ≡ first_object cells.now }
{
    for cell in cells {
        if let Cellv::Obj(q) = cell {
            return Some(*q);
        }
    }
    None
}
