// Why a file has no metamodel or no model, and how that ends a call.
ghost use Rattle.std.specs.Prelude.{◌≡◌};
ghost use Rattle.atl_cli.specs.Refused.{document_word, meta_word, model_word};
ghost use Rattle.atl_cli.specs.Refusals.{document_fault as document_fault_of, meta_end as meta_end_of, model_end as model_end_of};

use crate::status::{Size, Status};
use atl_base::place::Place;
use atl_base::text::Text;
use doc_text::refusal::{DocRefusal, Fault};
use std::alloc::Global;
use xmi_links::refusal::ModelRefusal;
use xmi_read::refusal::MetaRefusal;

/// Why a file has no metamodel.
#[derive(Clone, Copy, Debug, PartialEq, Eq)]
pub enum MetaKind {
    /// It is no document.
    Document(Fault),
    NotEcore,
    SubPackage,
    Generic,
    NoName,
    TwiceName,
    OtherFile,
    NoType,
    SuperCycle,
    BadOpposite,
    BadNumber,
}

/// Why a file has no model of a metamodel. That it has too many objects is a status of its own.
#[derive(Clone, Copy, Debug, PartialEq, Eq)]
pub enum ModelKind {
    /// It is no document.
    Document(Fault),
    NoClass,
    Abstract,
    NoFeature,
    StrayText,
    BadValue,
    Href,
    BadType,
    BadPath,
    NoId,
    TwiceId,
    TwoContainers,
    TwoEnds,
}

fn document_name(fault: Fault) -> &'static str
    ensures { result.now ≡ document_word fault }
{
    match fault {
        Fault::BadEncoding => "BadEncoding",
        Fault::BadByte => "BadByte",
        Fault::Expected => "Expected",
        Fault::MismatchedEnd => "MismatchedEnd",
        Fault::TwiceAttribute => "TwiceAttribute",
        Fault::Entity => "Entity",
        Fault::Prefix => "Prefix",
        Fault::TooDeep => "TooDeep",
        Fault::Trailing => "Trailing",
        Fault::Unsupported => "Unsupported",
    }
}

impl MetaKind {
    /// The word that a line has for it.
    pub fn name(self) -> &'static str
        ensures { result.now ≡ meta_word self }
    {
        match self {
            MetaKind::Document(fault) => document_name(fault),
            MetaKind::NotEcore => "NotEcore",
            MetaKind::SubPackage => "SubPackage",
            MetaKind::Generic => "Generic",
            MetaKind::NoName => "NoName",
            MetaKind::TwiceName => "TwiceName",
            MetaKind::OtherFile => "OtherFile",
            MetaKind::NoType => "NoType",
            MetaKind::SuperCycle => "SuperCycle",
            MetaKind::BadOpposite => "BadOpposite",
            MetaKind::BadNumber => "BadNumber",
        }
    }
}

impl ModelKind {
    /// The word that a line has for it.
    pub fn name(self) -> &'static str
        ensures { result.now ≡ model_word self }
    {
        match self {
            ModelKind::Document(fault) => document_name(fault),
            ModelKind::NoClass => "NoClass",
            ModelKind::Abstract => "Abstract",
            ModelKind::NoFeature => "NoFeature",
            ModelKind::StrayText => "StrayText",
            ModelKind::BadValue => "BadValue",
            ModelKind::Href => "Href",
            ModelKind::BadType => "BadType",
            ModelKind::BadPath => "BadPath",
            ModelKind::NoId => "NoId",
            ModelKind::TwiceId => "TwiceId",
            ModelKind::TwoContainers => "TwoContainers",
            ModelKind::TwoEnds => "TwoEnds",
        }
    }
}

// The fault of bytes that are no document, and its place.
fn document_fault(refusal: DocRefusal) -> Option<(Fault, Place)>
    ensures { result ≡ document_fault_of refusal }
{
    match refusal {
        DocRefusal::BadEncoding(at) => Some((Fault::BadEncoding, at)),
        DocRefusal::BadByte(at) => Some((Fault::BadByte, at)),
        DocRefusal::Expected(at) => Some((Fault::Expected, at)),
        DocRefusal::MismatchedEnd(at) => Some((Fault::MismatchedEnd, at)),
        DocRefusal::TwiceAttribute(at) => Some((Fault::TwiceAttribute, at)),
        DocRefusal::Entity(at) => Some((Fault::Entity, at)),
        DocRefusal::Prefix(at) => Some((Fault::Prefix, at)),
        DocRefusal::TooDeep(at) => Some((Fault::TooDeep, at)),
        DocRefusal::Trailing(at) => Some((Fault::Trailing, at)),
        DocRefusal::Unsupported(at) => Some((Fault::Unsupported, at)),
        DocRefusal::Memory => None,
    }
}

// How the refusal of a metamodel's document ends a call.
fn meta_document_end(alloc: Global, path: Text, refusal: DocRefusal) -> Status
    ensures { result ≡ meta_end_of path (MetaRefusal.Document refusal) }
{
    match document_fault(refusal) {
        Some((fault, at)) => Status::Meta(path, MetaKind::Document(fault), Text::new(alloc), at),
        None => Status::Memory,
    }
}

// The same for a model's.
fn model_document_end(alloc: Global, path: Text, refusal: DocRefusal) -> Status
    ensures { result ≡ model_end_of path (ModelRefusal.Document refusal) }
{
    match document_fault(refusal) {
        Some((fault, at)) => Status::Model(path, ModelKind::Document(fault), Text::new(alloc), at),
        None => Status::Memory,
    }
}

/// How the refusal of the metamodel at a path ends a call.
pub fn meta_end(alloc: Global, path: Text, refusal: MetaRefusal) -> Status
    ensures { result ≡ meta_end_of path refusal }
{
    let (kind, value, at) = match refusal {
        MetaRefusal::NotEcore(value, at) => (MetaKind::NotEcore, value, at),
        MetaRefusal::SubPackage(value, at) => (MetaKind::SubPackage, value, at),
        MetaRefusal::Generic(value, at) => (MetaKind::Generic, value, at),
        MetaRefusal::NoName(value, at) => (MetaKind::NoName, value, at),
        MetaRefusal::TwiceName(value, at) => (MetaKind::TwiceName, value, at),
        MetaRefusal::OtherFile(value, at) => (MetaKind::OtherFile, value, at),
        MetaRefusal::NoType(value, at) => (MetaKind::NoType, value, at),
        MetaRefusal::SuperCycle(value, at) => (MetaKind::SuperCycle, value, at),
        MetaRefusal::BadOpposite(value, at) => (MetaKind::BadOpposite, value, at),
        MetaRefusal::BadNumber(value, at) => (MetaKind::BadNumber, value, at),
        MetaRefusal::Document(refusal) => return meta_document_end(alloc, path, refusal),
        MetaRefusal::Memory => return Status::Memory,
    };
    Status::Meta(path, kind, value, at)
}

/// How the refusal of the model at a path ends a call.
pub fn model_end(alloc: Global, path: Text, refusal: ModelRefusal) -> Status
    ensures { result ≡ model_end_of path refusal }
{
    let (kind, value, at) = match refusal {
        ModelRefusal::NoClass(value, at) => (ModelKind::NoClass, value, at),
        ModelRefusal::Abstract(value, at) => (ModelKind::Abstract, value, at),
        ModelRefusal::NoFeature(value, at) => (ModelKind::NoFeature, value, at),
        ModelRefusal::StrayText(value, at) => (ModelKind::StrayText, value, at),
        ModelRefusal::BadValue(value, at) => (ModelKind::BadValue, value, at),
        ModelRefusal::Href(value, at) => (ModelKind::Href, value, at),
        ModelRefusal::BadType(value, at) => (ModelKind::BadType, value, at),
        ModelRefusal::Full(_) => return Status::TooLarge(Size::Objects),
        ModelRefusal::BadPath(value, at) => (ModelKind::BadPath, value, at),
        ModelRefusal::NoId(value, at) => (ModelKind::NoId, value, at),
        ModelRefusal::TwiceId(value, at) => (ModelKind::TwiceId, value, at),
        ModelRefusal::TwoContainers(value, at) => (ModelKind::TwoContainers, value, at),
        ModelRefusal::TwoEnds(value, at) => (ModelKind::TwoEnds, value, at),
        ModelRefusal::Document(refusal) => return model_document_end(alloc, path, refusal),
        ModelRefusal::Memory => return Status::Memory,
    };
    Status::Model(path, kind, value, at)
}
