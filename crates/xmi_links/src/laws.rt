//! The laws of models' files, over the definitions alone. Each function has a law as its contract, and does nothing.
ghost use Rattle.std.specs.Prelude.{◌≡◌, ◌≤◌, None, length};
ghost use Rattle.doc_text.specs.declared.tree.Doc.{Doc};
ghost use Rattle.ecore_meta.specs.Valid.{IsMetamodel};
ghost use Rattle.ecore_meta.specs.declared.parts.Parts.{Parts};
ghost use Rattle.model_store.specs.Order.{HasNoCycle};
ghost use Rattle.model_store.specs.Valid.{IsModel};
ghost use Rattle.xmi_links.specs.ModelOf.{model_of};
ghost use Rattle.xmi_links.specs.References.{reference_fault};
ghost use Rattle.xmi_models.specs.Faults.{element_fault, objects};
ghost use Rattle.xmi_models.specs.Outline.{outline};

/// A document in whose elements and references nothing is wrong stands for a model.
pub fn a_faultless_file_is_a_model()
    ensures { (meta : Parts) → IsMetamodel meta → (doc : Doc) → element_fault meta (outline meta doc) ≡ None → reference_fault meta (outline meta doc) ≡ None → IsModel (model_of meta (outline meta doc)) }
{}

/// No object of it stands in itself.
pub fn a_faultless_file_has_no_cycle()
    ensures { (meta : Parts) → IsMetamodel meta → (doc : Doc) → element_fault meta (outline meta doc) ≡ None → HasNoCycle (model_of meta (outline meta doc)) }
{}

/// It has no more objects than a model may have.
pub fn a_faultless_file_is_small()
    ensures { (meta : Parts) (doc : Doc) → element_fault meta (outline meta doc) ≡ None → length (objects (outline meta doc)) ≤ 1000000 }
{}
