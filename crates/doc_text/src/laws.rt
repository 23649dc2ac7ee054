// The laws of documents, over the definitions alone.
ghost use Rattle.std.specs.Prelude.{ℕ, ◌≤◌, List, length};
ghost use Rattle.atl_base.specs.declared.place.Place.{Place};
ghost use Rattle.doc_text.specs.Symbols.{Symbol};
ghost use Rattle.doc_text.specs.Laws.{Exact};
ghost use Rattle.doc_text.specs.Reading.{ExactOf, IsDocumentOf};
ghost use Rattle.doc_text.specs.ReadBack.{IsWritable, IsReadBack};
ghost use Rattle.doc_text.specs.Sizes.{size_of_element};
ghost use Rattle.doc_text.specs.declared.tree.Doc.{Doc};
ghost use Rattle.doc_text.specs.declared.tree.Element.{Element};

/// What is read is a document, each document is read, and each refusal is the right one.
pub fn reading_is_exact()
    ensures { (end : Place) (characters : List Symbol) → Exact end characters }
{}

/// The same of bytes: each has one answer, the root of the document that they are or the refusal.
pub fn reading_bytes_is_exact()
    ensures { (bytes : List ℕ) → ExactOf bytes }
{}

/// What is written of a document is read back to the same root, up to places, where the document keeps `IsWritable`: its
/// names are plain, all namespaces are declared at the root, and at most 200 elements are open at once.
pub fn writing_is_read_back()
    ensures { (doc : Doc) → IsWritable doc → IsReadBack doc }
{}

/// A document has no more elements and attributes than bytes.
pub fn document_is_within_its_bytes()
    ensures { (bytes : List ℕ) (root : Element) → IsDocumentOf bytes root → size_of_element root ≤ length bytes }
{}
