// What is wrong with the references of one element: of the kinds the first of their order, and of one kind the first token.
ghost use Rattle.std.specs.Prelude.{◌≡◌, ◌∷◌, [], All, find, IfOk};
ghost use Rattle.std.specs.Option.{option_copied};
ghost use Rattle.ecore_meta.specs.Inheritance.{name_of};
ghost use Rattle.xmi_models.specs.Entries.{part_in};
ghost use Rattle.xmi_models.specs.FoundFaults.{fault_in};
ghost use Rattle.atl_base.specs.XmlText.{IsXmlText};
ghost use Rattle.xmi_links.specs.References.{One, is_unfit as is_unfit_in, is_held_by as is_held_by_in, is_wrong as is_wrong_in, value_told as value_told_of, fault_of_kind as fault_of_kind_in, tokens_fault as tokens_fault_in};
ghost use Rattle.xmi_links.specs.Found.{AreTexts, named_in, reference_in, references_in};

use crate::references::{Reference, Token};
use crate::tokens::Named;
use atl_base::numbers::{FeatId, ObjId};
use atl_base::text::Text;
use ecore_meta::metamodel::Metamodel;
use model_store::lookups::{is_contained_by, opposite};
use model_store::sketch::Sketch;
use std::alloc::{AllocError, Global};
use xmi_models::fault::{Fault, Kind};
use xmi_models::part::Part;
use xmi_models::value::text_of;
use xmi_names::lookups::{class_said, is_sub};

// Whether an object's class doesn't fit a reference.
fn is_unfit(sketch: &Sketch, f: FeatId, p: ObjId) -> bool
    ensures { result ≡ is_unfit_in sketch.now f p }
{
    let meta = sketch.meta();
    let Some(object) = sketch.object(p) else {
        return false;
    };
    match class_said(meta, f) {
        Some(said) => !is_sub(meta, object.class(), said),
        None => false,
    }
}

// Whether the container of an element's object holds it by the other end of a reference.
fn is_held_by(meta: &Metamodel, part: Part, f: FeatId, p: ObjId) -> bool
    ensures { result ≡ is_held_by_in meta.now (part_in part) f p }
{
    let Part::Content(holder, by, _) = part else {
        return false;
    };
    match opposite(meta, f) {
        Some(g) => holder == p.0 as usize && g.0 == by.0,
        None => false,
    }
}

// Whether what a reference names is the wrong object in this way.
fn is_wrong_object(sketch: &Sketch, kind: Kind, part: Part, f: FeatId, p: ObjId) -> bool
    ensures { result ≡ is_wrong_in sketch.now kind (part_in part) f (One p) }
{
    match kind {
        Kind::BadType => is_unfit(sketch, f, p),
        Kind::TwoContainers => {
            let meta = sketch.meta();
            is_contained_by(meta, f) && !is_held_by(meta, part, f, p)
        }
        _ => false,
    }
}

// Whether what a reference names is wrong in this way.
fn is_wrong(sketch: &Sketch, kind: Kind, part: Part, f: FeatId, named: Named) -> bool
    ensures { result ≡ is_wrong_in sketch.now kind (part_in part) f (named_in named) }
{
    match named {
        Named::Object(p) => is_wrong_object(sketch, kind, part, f, p),
        Named::NoPath => matches!(kind, Kind::BadPath),
        Named::NoId => matches!(kind, Kind::NoId),
        Named::Several => matches!(kind, Kind::TwiceId),
    }
}

/// The name of a feature.
pub(crate) fn feature_name(alloc: Global, meta: &Metamodel, f: FeatId) -> Result<Text, AllocError>
    ensures { IfOk result (λ name. name ≡ name_of meta.now.features f) }
{
    match meta.all_features().get(f.0 as usize) {
        Some(feature) => feature.name.copy(alloc),
        None => Ok(Text::new(alloc)),
    }
}

// The fault of a token: a container is told by the feature, all else by the token.
fn told(
    alloc: Global,
    sketch: &Sketch,
    kind: Kind,
    f: FeatId,
    token: &[u8],
) -> Result<Text, AllocError>
    requires { IsXmlText token.now }
    ensures { IfOk result (λ value. value ≡ value_told_of sketch.now kind f token.now) }
{
    match kind {
        Kind::TwoContainers => feature_name(alloc, sketch.meta(), f),
        _ => text_of(alloc, token),
    }
}

// The first token of a reference that is wrong in this way.
fn wrong_token<'r, 'a>(
    sketch: &Sketch,
    kind: Kind,
    part: Part,
    f: FeatId,
    tokens: &'r [Token<'a>],
) -> Option<&'r Token<'a>>
    ensures { option_copied result ≡ find (λ t. is_wrong_in sketch.now kind (part_in part) f (named_in t.named)) tokens.now }
{
    tokens
        .iter()
        .find(|t| is_wrong(sketch, kind, part, f, t.named))
}

// The first fault of a kind in a reference.
fn fault_in_reference(
    alloc: Global,
    sketch: &Sketch,
    kind: Kind,
    part: Part,
    reference: &Reference<'_>,
) -> Result<Option<Fault>, AllocError>
    requires { AreTexts (reference_in reference.now) }
    ensures { IfOk result (λ f. fault_in f ≡ fault_of_kind_in sketch.now (part_in part) kind (reference_in reference.now ∷ [])) }
{
    match wrong_token(sketch, kind, part, reference.feature, &reference.tokens) {
        Some(token) => {
            let value = told(alloc, sketch, kind, reference.feature, token.text)?;
            Ok(Some(Fault { kind, value }))
        }
        None => Ok(None),
    }
}

// The first fault of a kind.
fn fault_of_kind(
    alloc: Global,
    sketch: &Sketch,
    kind: Kind,
    part: Part,
    references: &[Reference<'_>],
) -> Result<Option<Fault>, AllocError>
    requires { All AreTexts (references_in references.now) }
    ensures { IfOk result (λ f. fault_in f ≡ fault_of_kind_in sketch.now (part_in part) kind (references_in references.now)) }
{
    for i in 0..references.len() {
        if let Some(fault) = fault_in_reference(alloc, sketch, kind, part, &references[i])? {
            return Ok(Some(fault));
        }
    }
    Ok(None)
}

// The kinds in their order.
const KINDS: [Kind; 5] = [
    Kind::BadPath,
    Kind::NoId,
    Kind::TwiceId,
    Kind::BadType,
    Kind::TwoContainers,
];

/// What is wrong with the references of an element, but for ends that get two objects.
pub(crate) fn tokens_fault(
    alloc: Global,
    sketch: &Sketch,
    part: Part,
    references: &[Reference<'_>],
) -> Result<Option<Fault>, AllocError>
    requires { All AreTexts (references_in references.now) }
    ensures { IfOk result (λ f. fault_in f ≡ tokens_fault_in sketch.now (part_in part) (references_in references.now)) }
{
    for i in 0..KINDS.len() {
        if let Some(fault) = fault_of_kind(alloc, sketch, KINDS[i], part, references)? {
            return Ok(Some(fault));
        }
    }
    Ok(None)
}
