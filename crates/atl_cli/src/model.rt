// The command `model`: reads a model over its metamodel, and writes it anew.
ghost use Rattle.std.specs.Prelude.{◌≡◌, ◌≤◌, IfOk, MatchOption, length};
ghost use Rattle.model_store.specs.Order.{HasNoCycle};
ghost use Rattle.xmi_write.specs.Xmi.{xmi};
ghost use Rattle.atl_cli.specs.Model.{AreRead, Ended, HasPaths, HasNoPaths, MetaOf, ModelOf, bad_words as bad_words_of};
ghost use Rattle.atl_cli.specs.Outcome.{file_limit};
ghost use Rattle.atl_cli.specs.Reads.{IsJudged, IsMetaFile, IsModelFile, IsPut, OfBytes, status_in};

use crate::command::Misuse;
use crate::operands::operands;
use crate::refused::{meta_end, model_end};
use crate::status::Status;
use crate::transform::{FILE_LIMIT, after_read_fault};
use atl_base::text::Text;
use atl_outside::files::{FileFault, Files};
use doc_text::read_doc;
use ecore_meta::metamodel::Metamodel;
use model_store::model::Model;
use std::alloc::{AllocError, Global};
use std::rc::Rc;
use xmi_links::read_model::read_model;
use xmi_links::refusal::ModelRefusal;
use xmi_read::read_metamodel::read_metamodel;
use xmi_read::refusal::MetaRefusal;
use xmi_write::refusal::WriteRefusal;
use xmi_write::write_model;

/// The files that the words behind the command name.
#[derive(Drop)]
pub struct Paths {
    /// Of the metamodel.
    pub meta: Text,
    /// Of the model.
    pub model: Text,
    /// Of what is written.
    pub out: Text,
}

// The three paths, if the words are three operands.
fn three_operands(alloc: Global, words: &[Text]) -> Result<Option<Paths>, AllocError>
    ensures { IfOk result (λ read. MatchOption read (HasNoPaths words.now) (λ p. HasPaths words.now p)) }
{
    let Some(mut read) = operands(alloc, words)? else {
        return Ok(None);
    };
    let Some(out) = read.pop() else {
        return Ok(None);
    };
    let Some(model) = read.pop() else {
        return Ok(None);
    };
    let Some(meta) = read.pop() else {
        return Ok(None);
    };
    if !read.is_empty() {
        return Ok(None);
    }
    Ok(Some(Paths { meta, model, out }))
}

// How words of another form end a call.
fn bad_words(alloc: Global) -> Result<Status, AllocError>
    ensures { IfOk result (λ s. s ≡ bad_words_of) }
{
    Ok(Status::Usage(Misuse::BadWords(Text::from_ascii(alloc, "model")?)))
}

// The bytes at a path, or how the call ends.
fn bytes_at<F: Files>(alloc: Global, files: &mut F, path: &Text) -> Result<Vec<u8>, Status>
    ensures read { IsJudged OfBytes (F.held files.old) path.now (F.faults files.old) (F.faults files.new) result }
    ensures kept { F.held files.new ≡ F.held files.old }
    ensures counted { F.faults files.old ≤ F.faults files.new }
{
    match files.read(alloc, path, FILE_LIMIT) {
        Ok(bytes) => Ok(bytes),
        Err(fault) => Err(after_read_fault(alloc, fault, path)?),
    }
}

// The metamodel that bytes are.
fn metamodel_in(alloc: Global, bytes: &[u8]) -> Result<Metamodel, MetaRefusal>
    requires { length bytes.now ≤ file_limit }
    ensures { IsMetaFile bytes.now result }
{
    match read_doc(alloc, bytes) {
        Ok(doc) => read_metamodel(alloc, &doc),
        Err(refusal) => Err(MetaRefusal::Document(refusal)),
    }
}

// The metamodel at a path, or how the call ends.
fn metamodel_at<F: Files>(alloc: Global, files: &mut F, path: &Text) -> Result<Metamodel, Status>
    ensures judged { IsJudged (MetaOf path.now) (F.held files.old) path.now (F.faults files.old) (F.faults files.new) result }
    ensures kept { F.held files.new ≡ F.held files.old }
    ensures counted { F.faults files.old ≤ F.faults files.new }
{
    let bytes = bytes_at(alloc, files, path)?;
    match metamodel_in(alloc, &bytes) {
        Ok(meta) => Ok(meta),
        Err(refusal) => Err(meta_end(alloc, path.copy(alloc)?, refusal)),
    }
}

// The model that bytes are, over a metamodel.
fn model_in(alloc: Global, bytes: &[u8], meta: Rc<Metamodel>) -> Result<Model, ModelRefusal>
    requires { length bytes.now ≤ file_limit }
    ensures answer { IsModelFile meta.value bytes.now result }
    ensures acyclic { IfOk result (λ m. HasNoCycle m) }
{
    match read_doc(alloc, bytes) {
        Ok(doc) => read_model(alloc, &doc, meta),
        Err(refusal) => Err(ModelRefusal::Document(refusal)),
    }
}

// The model at a path, or how the call ends.
fn model_at<F: Files>(
    alloc: Global,
    files: &mut F,
    path: &Text,
    meta: Rc<Metamodel>,
) -> Result<Model, Status>
    ensures judged { IsJudged (ModelOf meta.value path.now) (F.held files.old) path.now (F.faults files.old) (F.faults files.new) result }
    ensures acyclic { IfOk result (λ m. HasNoCycle m) }
    ensures kept { F.held files.new ≡ F.held files.old }
    ensures counted { F.faults files.old ≤ F.faults files.new }
{
    let bytes = bytes_at(alloc, files, path)?;
    match model_in(alloc, &bytes, meta) {
        Ok(model) => Ok(model),
        Err(refusal) => Err(model_end(alloc, path.copy(alloc)?, refusal)),
    }
}

// The text of a model.
fn text_of(alloc: Global, model: &Model) -> Result<Text, AllocError>
    requires { HasNoCycle model.now }
    ensures { IfOk result (λ text. text ≡ xmi model.now) }
{
    match write_model(alloc, model) {
        Ok(text) => Ok(text),
        Err(WriteRefusal::Cycle(_)) => unreachable!(),
        Err(WriteRefusal::Memory) => Err(AllocError),
    }
}

// Writes a text at a path, or says how the call ends.
fn put_at<F: Files>(alloc: Global, files: &mut F, path: Text, text: &Text) -> Result<(), Status>
    ensures { IsPut path text.now (F.held files.old) (F.held files.new) (F.faults files.old) (F.faults files.new) result }
{
    match files.write(alloc, &path, text.bytes()) {
        Ok(()) => Ok(()),
        Err(FileFault::Failed) => Err(Status::WriteFault(path)),
        Err(FileFault::TooBig) => unreachable!(),
        Err(FileFault::Memory) => Err(Status::Memory),
    }
}

// Writes the model anew, or says how the call ends.
fn rewrite<F: Files>(alloc: Global, words: &[Text], files: &mut F) -> Result<(), Status>
    ensures { Ended words.now (F.held files.old) (F.held files.new) (F.faults files.old) (F.faults files.new) (status_in result) }
{
    let Some(paths) = three_operands(alloc, words)? else {
        return Err(bad_words(alloc)?);
    };
    let meta = metamodel_at(alloc, files, &paths.meta)?;
    let model = model_at(alloc, files, &paths.model, Rc::new(alloc, meta)?)?;
    let text = text_of(alloc, &model)?;
    put_at(alloc, files, paths.out, &text)
}

/// Reads the model that the words behind the command name, and writes it anew.
pub fn rewrite_model<F: Files>(alloc: Global, words: &[Text], files: &mut F) -> Status
    ensures { Ended words.now (F.held files.old) (F.held files.new) (F.faults files.old) (F.faults files.new) result }
{
    match rewrite(alloc, words, files) {
        Ok(()) => Status::Ok,
        Err(status) => status,
    }
}

#[cfg(test)]
mod tests;
