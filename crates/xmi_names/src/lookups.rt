// What a metamodel says by names and by numbers: classes, features, and the features that it skips.
ghost use Rattle.std.specs.Prelude.{◌≡◌};
ghost use Rattle.ecore_meta.specs.Valid.{class_of as kind_class};
ghost use Rattle.model_store.specs.Contents.{contains as contains_in, refers as refers_in, is_many as is_many_in};
ghost use Rattle.xmi_names.specs.Names.{class_at as class_at_place, class_named as class_named_in, is_sub as is_sub_in, feature_named as feature_named_in, is_skipped as is_skipped_in, class_said as class_said_in};

use crate::vocabulary::Vocabulary;
use atl_base::numbers::{ClassId, FeatId};
use atl_base::text::Text;
use ecore_meta::metamodel::Metamodel;
use ecore_meta::parts::FeatKind;
use model_store::lookups;

/// The class at a place, where it has a number of 32 bits.
pub(crate) fn class_at(place: usize) -> Option<ClassId>
    ensures { result ≡ class_at_place place }
{
    if place < 4294967296 {
        return Some(ClassId(place as u32));
    }
    None
}

/// The class of this name in the package of this namespace.
pub fn class_named(meta: &Vocabulary<'_>, space: &[u8], name: &[u8]) -> Option<ClassId>
    ensures { result ≡ class_named_in meta.now space.now name.now }
{
    match meta.place_named(space, name) {
        Some(place) => class_at(place),
        None => None,
    }
}

/// Whether a class is another one or inherits from it.
pub fn is_sub(meta: &Metamodel, sub: ClassId, sup: ClassId) -> bool
    ensures { result ≡ is_sub_in meta.now sub sup }
{
    let parts = meta.parts();
    let count = parts.classes.len();
    if sub.0 as usize >= count || sup.0 as usize >= count {
        return sub.0 == sup.0;
    }
    meta.conforms(sub, sup)
}

/// The feature of this name that is seen in a class.
pub fn feature_named(meta: &Metamodel, class: ClassId, name: &Text) -> Option<FeatId>
    ensures { result ≡ feature_named_in meta.now class name.now }
{
    let parts = meta.parts();
    if class.0 as usize >= parts.classes.len() {
        return None;
    }
    meta.feature_of(class, name)
}

/// Whether only skipped features bear this name in a class.
pub fn is_skipped(meta: &Vocabulary<'_>, class: ClassId, name: &Text) -> bool
    ensures { result ≡ is_skipped_in meta.now class name.now }
{
    if feature_named(meta.metamodel(), class, name).is_some() {
        return false;
    }
    meta.has_skipped(class, name.bytes())
}

fn class_of_kind(kind: FeatKind) -> Option<ClassId>
    ensures { result ≡ kind_class kind }
{
    match kind {
        FeatKind::Refer { class, .. } => Some(class),
        _ => None,
    }
}

/// The class of a reference.
pub fn class_said(meta: &Metamodel, feature: FeatId) -> Option<ClassId>
    ensures { result ≡ class_said_in meta.now feature }
{
    match meta.all_features().get(feature.0 as usize) {
        Some(feature) => class_of_kind(feature.kind),
        None => None,
    }
}

/// Whether a feature contains what it refers to.
pub fn contains(meta: &Vocabulary<'_>, feature: FeatId) -> bool
    ensures { result ≡ contains_in meta.now feature }
{
    lookups::contains(meta.metamodel(), feature)
}

/// Whether a feature is a reference.
pub fn refers(meta: &Vocabulary<'_>, feature: FeatId) -> bool
    ensures { result ≡ refers_in meta.now feature }
{
    lookups::refers(meta.metamodel(), feature)
}

/// Whether a feature may hold several values.
pub fn is_many(meta: &Vocabulary<'_>, feature: FeatId) -> bool
    ensures { result ≡ is_many_in meta.now feature }
{
    lookups::is_many(meta.metamodel(), feature)
}
