// Which values fit a feature.
ghost use Rattle.std.specs.Prelude.{◌≡◌, ◌<◌, ◌↔◌, length, IsTrue, All, slice_get};
ghost use Rattle.std.specs.Option.{option_map_or};
ghost use Rattle.ecore_meta.specs.Valid.{IsKindWithin};
ghost use Rattle.model_store.specs.Valid.{IsOfKind, IsOfType, Fits};
ghost use Rattle.model_store.specs.Order.{IsOf};

use crate::lookups::{feature, is_many};
use crate::parts::Cellv;
use crate::store::Store;
use atl_base::numbers::{ClassId, FeatId, ObjId};
use ecore_meta::metamodel::Metamodel;
use ecore_meta::parts::FeatKind;

// Whether an enumeration has a literal of this number.
fn has_literal(meta: &Metamodel, e: u32, l: u32) -> bool
    ensures { IsTrue result ↔ (l < option_map_or (λ d. length d.literals) (slice_get meta.now.enums e) 0) }
{
    match meta.enums().get(e as usize) {
        Some(found) => (l as usize) < found.literals.len(),
        None => false,
    }
}

// Whether an object is of a class.
pub(crate) fn is_of(model: &Store, class: ClassId, q: ObjId) -> bool
    requires { class.0 < length model.now.meta.classes }
    ensures { IsTrue result ↔ IsOf model.now class q }
{
    match model.class(q) {
        Some(own) => model.meta().conforms(own, class),
        None => false,
    }
}

// Whether a value is of a type.
fn is_of_kind(model: &Store, kind: FeatKind, value: &Cellv) -> bool
    requires { IsKindWithin model.now.meta kind }
    ensures { IsTrue result ↔ IsOfKind model.now kind value.now }
{
    match kind {
        FeatKind::Str => matches!(value, Cellv::Words(_)),
        FeatKind::Opaque => matches!(value, Cellv::Words(_)),
        FeatKind::Int => matches!(value, Cellv::Int(_)),
        FeatKind::Truth => matches!(value, Cellv::Truth(_)),
        FeatKind::Enum(e) => match value {
            Cellv::Literal(l) => has_literal(model.meta(), e, *l),
            _ => false,
        },
        FeatKind::Refer { class, .. } => match value {
            Cellv::Obj(q) => is_of(model, class, *q),
            _ => false,
        },
    }
}

// Whether a value is of a feature's type.
fn is_of_type(model: &Store, f: FeatId, value: &Cellv) -> bool
    ensures { IsTrue result ↔ IsOfType model.now f value.now }
{
    match feature(model.meta(), f) {
        Some(feature) => is_of_kind(model, feature.kind, value),
        None => false,
    }
}

// Whether all are.
fn are_of_type(model: &Store, f: FeatId, values: &[Cellv]) -> bool
    ensures { IsTrue result ↔ All (IsOfType model.now f) values.now }
{
    values.iter().all(|value| is_of_type(model, f, value))
}

// Whether values may be written to a feature.
pub(crate) fn fits(model: &Store, f: FeatId, values: &[Cellv]) -> bool
    ensures { IsTrue result ↔ Fits model.now f values.now }
{
    (is_many(model.meta(), f) || values.len() <= 1) && are_of_type(model, f, values)
}
