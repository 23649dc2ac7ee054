// A metamodel from its document.
ghost use Rattle.std.specs.Prelude.{◌≡◌, ◌≤◌, length, Some, IfOk};
ghost use Rattle.atl_base.specs.XmlText.{IsXmlText};
ghost use Rattle.ecore_meta.specs.Valid.{IsMetamodel};
ghost use Rattle.ecore_outline.specs.Outline.{outline as outline_of};
ghost use Rattle.xmi_read.specs.Parts.{parts_of as parts_of_file};
ghost use Rattle.ecore_outline.specs.Entries.{entries_of};
ghost use Rattle.ecore_outline.specs.Texts.{AreTexts};
ghost use Rattle.ecore_faults.specs.FoundFaults.{fault_of};
ghost use Rattle.xmi_read.specs.Answers.{IsTold, IsMetaAnswer};

use crate::classes::classes;
use crate::enums::enums;
use crate::features::features;
use crate::packages::packages;
use crate::refusal::MetaRefusal;
use crate::skipped::skipped;
use doc_text::tree::Doc;
use ecore_faults::fault::{FoundFault, Kind};
use ecore_faults::first_fault::first_fault;
use ecore_meta::metamodel::Metamodel;
use ecore_meta::parts::Parts;
use ecore_names::file::File;
use ecore_outline::known_text::know_texts;
use ecore_outline::outline::outline;
use ecore_outline::text::text_of;
use ecore_rows::reach::super_numbers;
use ecore_rows::rows::{class_rows, feature_rows};
use std::alloc::{AllocError, Global};
use xmi_text::level::{Levels, levels_in};
use xmi_text::scope::DEEPEST;

// The five lists that a file stands for.
fn parts_of(alloc: Global, file: &File<'_>) -> Result<Parts, AllocError>
    requires size { length file.now ≤ 4294967294 }
    requires texts { AreTexts (entries_of file.now) }
    ensures { IfOk result (λ parts. parts ≡ parts_of_file (entries_of file.now)) }
{
    let entries = file.entries();
    let rows = class_rows(alloc, entries)?;
    let supers = super_numbers(alloc, file, &rows)?;
    let declared = feature_rows(alloc, file)?;
    Ok(Parts {
        packages: packages(alloc, entries)?,
        classes: classes(alloc, entries, &rows, &supers, &declared)?,
        features: features(alloc, file, &declared)?,
        enums: enums(alloc, entries)?,
        skipped: skipped(alloc, entries)?,
    })
}

// What is told of a fault.
fn refusal_of(alloc: Global, found: &FoundFault<'_>) -> MetaRefusal
    requires { IsXmlText found.now.fault.value.now }
    ensures { IsTold (Some (fault_of found.now.fault, found.now.place)) result }
{
    let place = found.place;
    match text_of(alloc, found.fault.value) {
        Ok(value) => match found.fault.kind {
            Kind::NotEcore => MetaRefusal::NotEcore(value, place),
            Kind::SubPackage => MetaRefusal::SubPackage(value, place),
            Kind::Generic => MetaRefusal::Generic(value, place),
            Kind::NoName => MetaRefusal::NoName(value, place),
            Kind::TwiceName => MetaRefusal::TwiceName(value, place),
            Kind::OtherFile => MetaRefusal::OtherFile(value, place),
            Kind::NoType => MetaRefusal::NoType(value, place),
            Kind::SuperCycle => MetaRefusal::SuperCycle(value, place),
            Kind::BadOpposite => MetaRefusal::BadOpposite(value, place),
            Kind::BadNumber => MetaRefusal::BadNumber(value, place),
        },
        Err(AllocError) => MetaRefusal::Memory,
    }
}

// The metamodel of a file in which nothing is wrong.
fn metamodel_of(alloc: Global, file: &File<'_>) -> Result<Metamodel, AllocError>
    requires size { length file.now ≤ 4294967294 }
    requires texts { AreTexts (entries_of file.now) }
    requires valid { IsMetamodel (parts_of_file (entries_of file.now)) }
    ensures { IfOk result (λ meta. meta ≡ parts_of_file (entries_of file.now)) }
{
    let parts = parts_of(alloc, file)?;
    Metamodel::new(alloc, parts)
}

// The file of a document, whose texts are known to be texts.
fn file_of<'a>(alloc: Global, doc: &'a Doc, levels: &'a Levels<'a>) -> Result<File<'a>, AllocError>
    ensures outline { IfOk result (λ file. entries_of file ≡ outline_of doc.now) }
    ensures texts { IfOk result (λ file. AreTexts (entries_of file)) }
{
    let entries = outline(alloc, doc, levels)?;
    know_texts(&entries);
    let file = File::new(alloc, entries)?;
    Ok(file)
}

// The answer, from the tables of the document's declarations.
fn read_with<'a>(alloc: Global, doc: &'a Doc, levels: &Levels<'a>) -> Result<Metamodel, MetaRefusal>
    requires { length (outline_of doc.now) ≤ 4294967294 }
    ensures { IsMetaAnswer doc.now result }
{
    let file = file_of(alloc, doc, levels)?;
    match first_fault(alloc, &file)? {
        Some(found) => Err(refusal_of(alloc, &found)),
        None => Ok(metamodel_of(alloc, &file)?),
    }
}

/// The metamodel that a document stands for, or the first thing that is wrong in it, in document order. The outline is
/// short enough where the document has at most 4,294,967,294 elements and attributes.
pub fn read_metamodel(alloc: Global, doc: &Doc) -> Result<Metamodel, MetaRefusal>
    requires { length (outline_of doc.now) ≤ 4294967294 }
    ensures { IsMetaAnswer doc.now result }
{
    let levels = levels_in(alloc, &doc.root, DEEPEST)?;
    read_with(alloc, doc, &levels)
}

#[cfg(test)]
mod tests;
