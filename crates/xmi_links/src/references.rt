// The references that an element's attributes are, with what their tokens name.
ghost use Rattle.std.specs.Prelude.{◌≡◌, ◌++◌, ◌∷◌, [], ℕ, All, List, map, filter_map, IfOk, OnOk};
ghost use Rattle.atl_base.specs.declared.numbers.ObjId.{ObjId as SomeObjId};
ghost use Rattle.atl_base.specs.XmlText.{IsXmlText};
ghost use Rattle.xmi_text.specs.Markup.{words_of};
ghost use Rattle.xmi_models.specs.Outline.{Entry as SomeEntry};
ghost use Rattle.xmi_models.specs.Entries.{entry_of, part_in};
ghost use Rattle.xmi_links.specs.References.{token_of, reference_of, reference_feature as reference_feature_in, references_at as references_of};
ghost use Rattle.xmi_links.specs.Found.{AreBearers, AreTexts, references_in, token_in};

use crate::ids::Ids;
use crate::tokens::{Named, token_names};
use atl_base::numbers::{FeatId, ObjId};
use doc_text::tree::Attribute;
use model_store::lookups::{contains, refers};
use model_store::sketch::Sketch;
use std::alloc::{AllocError, Global};
use xmi_models::attribute::attribute_feature;
use xmi_models::part::{Entry, Part};
use xmi_text::words::words;

/// A token of a reference and what it names.
#[derive(Clone, Copy)]
pub(crate) struct Token<'a> {
    pub text: &'a [u8],
    pub named: Named,
}

/// A reference by an attribute: from an object's feature to what the tokens name.
#[derive(Drop)]
pub(crate) struct Reference<'a> {
    pub source: ObjId,
    pub feature: FeatId,
    pub tokens: Vec<Token<'a>>,
}

// What the words of a text name.
fn named_words<'a>(
    alloc: Global,
    sketch: &Sketch,
    ids: &Ids<'_>,
    text: &[u8],
    words: &[&'a [u8]],
) -> Result<Vec<Token<'a>>, AllocError>
    requires text { IsXmlText text.now }
    requires words { map (λ w. w.now) words.now ≡ words_of text.now }
    ensures tokens { IfOk result (λ tokens. (who : List ℕ → List SomeObjId) → AreBearers who ids.now → map token_in tokens.items ≡ map (λ w. token_of sketch.now who w.now) words.now) }
    ensures texts { IfOk result (λ tokens. All (λ t. IsXmlText t.text) (map token_in tokens.items)) }
{
    let mut tokens = Vec::with_capacity(alloc, words.len())?;
    for i in 0..words.len() {
        let text = words[i];
        let named = token_names(alloc, sketch, ids, text)?;
        tokens.push(Token { text, named })?;
    }
    Ok(tokens)
}

fn tokens_of<'a>(
    alloc: Global,
    sketch: &Sketch,
    ids: &Ids<'_>,
    text: &'a [u8],
) -> Result<Vec<Token<'a>>, AllocError>
    requires { IsXmlText text.now }
    ensures tokens { IfOk result (λ tokens. (who : List ℕ → List SomeObjId) → AreBearers who ids.now → map token_in tokens.items ≡ map (token_of sketch.now who) (words_of text.now)) }
    ensures texts { IfOk result (λ tokens. All (λ t. IsXmlText t.text) (map token_in tokens.items)) }
{
    let words = words(alloc, text)?;
    named_words(alloc, sketch, ids, text, &words)
}

// The reference that an attribute is, contents aside.
fn reference_feature(sketch: &Sketch, part: Part, attribute: &Attribute) -> Option<FeatId>
    ensures { result ≡ reference_feature_in sketch.now.meta (part_in part) attribute.now }
{
    let meta = sketch.meta();
    match attribute_feature(meta, part, attribute) {
        Some(f) => {
            if refers(meta, f) && !contains(meta, f) {
                Some(f)
            } else {
                None
            }
        }
        None => None,
    }
}

// The reference that an attribute is, where it is one.
fn push_reference<'a>(
    alloc: Global,
    sketch: &Sketch,
    ids: &Ids<'_>,
    references: &mut Vec<Reference<'a>>,
    source: ObjId,
    part: Part,
    attribute: &'a Attribute,
) -> Result<(), AllocError>
    ensures references { OnOk result ((who : List ℕ → List SomeObjId) (e : SomeEntry) → AreBearers who ids.now → e.part ≡ part_in part
        → references_in references.new.items ≡ references_in references.old.items ++ filter_map (reference_of sketch.now who source e) (attribute.now ∷ [])) }
    ensures texts { OnOk result (All AreTexts (references_in references.old.items) → All AreTexts (references_in references.new.items)) }
{
    match reference_feature(sketch, part, attribute) {
        Some(feature) => {
            let tokens = tokens_of(alloc, sketch, ids, attribute.value.bytes())?;
            references.push(Reference {
                source,
                feature,
                tokens,
            })?;
            Ok(())
        }
        None => Ok(()),
    }
}

/// The references of the element that is this object, in document order.
pub(crate) fn references_at<'a>(
    alloc: Global,
    sketch: &Sketch,
    ids: &Ids<'_>,
    source: ObjId,
    entry: &Entry<'a>,
) -> Result<Vec<Reference<'a>>, AllocError>
    ensures references { IfOk result (λ references. (who : List ℕ → List SomeObjId) → AreBearers who ids.now → references_in references.items ≡ references_of sketch.now who source (entry_of entry.now)) }
    ensures texts { IfOk result (λ references. All AreTexts (references_in references.items)) }
{
    let mut references = Vec::new(alloc);
    let attributes = entry.element.attributes.as_slice();
    for i in 0..attributes.len() {
        push_reference(
            alloc,
            sketch,
            ids,
            &mut references,
            source,
            entry.part,
            &attributes[i],
        )?;
    }
    Ok(references)
}
