// The laws of metamodels' files, over the definitions alone.
ghost use Rattle.std.specs.Prelude.{◌≡◌, ◌≤◌, None, length};
ghost use Rattle.doc_text.specs.declared.tree.Doc.{Doc};
ghost use Rattle.ecore_meta.specs.Valid.{IsMetamodel};
ghost use Rattle.ecore_outline.specs.Outline.{outline};
ghost use Rattle.ecore_faults.specs.Faults.{first_fault};
ghost use Rattle.xmi_read.specs.Parts.{parts_of};
ghost use Rattle.doc_text.specs.Sizes.{size};

/// A file in which nothing is wrong stands for a metamodel.
pub fn file_without_faults_is_a_metamodel()
    ensures { (doc : Doc) → first_fault (outline doc) ≡ None → IsMetamodel (parts_of (outline doc)) }
{}

/// An outline is no longer than its document has elements and attributes.
pub fn outline_is_within_its_document()
    ensures { (doc : Doc) → length (outline doc) ≤ size doc }
{}
