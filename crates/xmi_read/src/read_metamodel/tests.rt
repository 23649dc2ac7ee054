// Metamodels from their files: small ones in full, files as Eclipse writes them, and refusals of each kind.
ghost use Rattle.std.specs.Prelude.{IfOk, IsTrue, ◌≤◌, length};
ghost use Rattle.ecore_outline.specs.Outline.{outline as outline_of};

use crate::read_metamodel::read_metamodel;
use doc_text::read_doc;
use doc_text::tree::Doc;
use ecore_outline::outline::outline;
use shown::{show_parts, show_refusal};
use std::alloc::{AllocError, Global};
use std::test::Fail;
use xmi_text::level::{Levels, levels_in};
use xmi_text::scope::DEEPEST;

mod examples;
mod refusals;
mod shown;

fn is_small_with<'a>(alloc: Global, doc: &'a Doc, levels: &Levels<'a>) -> Result<bool, AllocError>
    ensures { IfOk result (λ is. IsTrue is → length (outline_of doc.now) ≤ 4294967294) }
{
    let file = outline(alloc, doc, levels)?;
    Ok(file.len() <= 4294967294)
}

fn is_small(alloc: Global, doc: &Doc) -> Result<bool, AllocError>
    ensures { IfOk result (λ is. IsTrue is → length (outline_of doc.now) ≤ 4294967294) }
{
    let levels = levels_in(alloc, &doc.root, DEEPEST)?;
    is_small_with(alloc, doc, &levels)
}

// What is read of a document, a line for each item, or the refusal.
fn read(alloc: Global, document: &str) -> Result<String, Fail> {
    let bytes = document.as_bytes();
    if bytes.len() > 4294967294 {
        return Ok(String::new(alloc));
    }
    let doc = read_doc(alloc, bytes)?;
    if !is_small(alloc, &doc)? {
        return Ok(String::new(alloc));
    }
    match read_metamodel(alloc, &doc) {
        Ok(meta) => Ok(show_parts(alloc, meta.parts())?),
        Err(refusal) => Ok(show_refusal(alloc, &refusal)?),
    }
}

// What is read of a package, whose attributes and content these are.
fn read_package(alloc: Global, content: &str) -> Result<String, Fail> {
    let mut document = String::from_str(
        alloc,
        "<ecore:EPackage xmi:version=\"2.0\" xmlns:xmi=\"http://www.omg.org/XMI\" xmlns:xsi=\"http://www.w3.org/2001/XMLSchema-instance\" xmlns:ecore=\"http://www.eclipse.org/emf/2002/Ecore\" ",
    )?;
    document.push_str(content)?;
    document.push_str("</ecore:EPackage>")?;
    read(alloc, document.as_str())
}
