// Outlines and faults as text, to be compared.
use crate::fault::{FoundFault, Kind};
use crate::part::{Entry, Part};
use atl_base::numbers::ClassId;
use std::alloc::{AllocError, Global};

fn show_class(alloc: Global, class: Option<ClassId>) -> Result<String, AllocError> {
    match class {
        Some(class) => format!(in alloc; "class {}", class.0),
        None => String::from_str(alloc, "no class"),
    }
}

fn show_asked(alloc: Global, asked: Option<Option<ClassId>>) -> Result<String, AllocError> {
    match asked {
        Some(class) => show_class(alloc, class),
        None => String::from_str(alloc, "nothing"),
    }
}

fn show_content(
    alloc: Global,
    object: usize,
    feature: u32,
    class: Option<ClassId>,
) -> Result<String, AllocError> {
    let class = show_class(alloc, class)?;
    format!(in alloc; "{} in object {} by {}", class.as_str(), object, feature)
}

fn show_part(alloc: Global, part: Part) -> Result<String, AllocError> {
    match part {
        Part::Around => String::from_str(alloc, "around"),
        Part::Root(class) => show_class(alloc, class),
        Part::Content(object, feature, class) => show_content(alloc, object, feature.0, class),
        Part::Value(object, feature) => {
            format!(in alloc; "value of object {} for {}", object, feature.0)
        }
        Part::Cross(feature, class) => {
            let class = show_class(alloc, class)?;
            format!(in alloc; "{} across by {}", class.as_str(), feature.0)
        }
        Part::Unknown(asked) => {
            let asked = show_asked(alloc, asked)?;
            format!(in alloc; "unknown, asks for {}", asked.as_str())
        }
        Part::Inner => String::from_str(alloc, "inner"),
    }
}

fn show_entry(alloc: Global, out: &mut String, entry: &Entry<'_>) -> Result<(), AllocError> {
    let part = show_part(alloc, entry.part)?;
    let line = format!(in alloc; "{}: {}\n", entry.element.name.as_str(), part.as_str())?;
    out.push_str(line.as_str())
}

/// A line for each element.
pub(crate) fn show_entries(alloc: Global, entries: &[Entry<'_>]) -> Result<String, AllocError> {
    let mut out = String::new(alloc);
    for entry in entries {
        show_entry(alloc, &mut out, entry)?;
    }
    Ok(out)
}

fn kind_name(kind: Kind) -> &'static str {
    match kind {
        Kind::NoClass => "NoClass",
        Kind::Abstract => "Abstract",
        Kind::NoFeature => "NoFeature",
        Kind::StrayText => "StrayText",
        Kind::BadValue => "BadValue",
        Kind::Href => "Href",
        Kind::BadType => "BadType",
        Kind::Full => "Full",
        Kind::BadPath => "BadPath",
        Kind::NoId => "NoId",
        Kind::TwiceId => "TwiceId",
        Kind::TwoContainers => "TwoContainers",
        Kind::TwoEnds => "TwoEnds",
    }
}

/// The kind, the value and the place.
pub(crate) fn show_fault(alloc: Global, found: &Option<FoundFault>) -> Result<String, AllocError> {
    match found {
        Some(found) => format!(in alloc;
            "{} '{}' {}:{}",
            kind_name(found.fault.kind),
            found.fault.value.as_str(),
            found.place.line,
            found.place.column
        ),
        None => String::from_str(alloc, "none"),
    }
}
