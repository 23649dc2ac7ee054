// Metamodels and refusals as text, to be compared.
use crate::refusal::MetaRefusal;
use atl_base::place::Place;
use atl_base::text::Text;
use ecore_meta::parts::{Class, EnumDef, FeatKind, Feature, Package, Parts, Skipped};
use std::alloc::{AllocError, Global};

fn show_package(alloc: Global, out: &mut String, package: &Package) -> Result<(), AllocError> {
    let line = format!(in alloc;
        "package {} {} {}\n",
        package.name.as_str(),
        package.uri.as_str(),
        package.prefix.as_str()
    )?;
    out.push_str(line.as_str())
}

fn show_class(alloc: Global, out: &mut String, class: &Class) -> Result<(), AllocError> {
    let sort = if class.is_abstract {
        "abstract"
    } else {
        "class"
    };
    let line = format!(in alloc; "{} {} in {} of", sort, class.name.as_str(), class.package)?;
    out.push_str(line.as_str())?;
    for class in class.supers.as_slice() {
        let word = format!(in alloc; " {}", class.0)?;
        out.push_str(word.as_str())?;
    }
    out.push_str(" with")?;
    for feature in class.own.as_slice() {
        let word = format!(in alloc; " {}", feature.0)?;
        out.push_str(word.as_str())?;
    }
    out.push_str("\n")
}

fn show_reference(
    alloc: Global,
    class: u32,
    contains: bool,
    opposite: Option<u32>,
) -> Result<String, AllocError> {
    let sort = if contains { "contains" } else { "refers to" };
    match opposite {
        Some(feature) => format!(in alloc; "{} {} opposite {}", sort, class, feature),
        None => format!(in alloc; "{} {}", sort, class),
    }
}

fn show_kind(alloc: Global, kind: FeatKind) -> Result<String, AllocError> {
    match kind {
        FeatKind::Str => String::from_str(alloc, "Str"),
        FeatKind::Int => String::from_str(alloc, "Int"),
        FeatKind::Truth => String::from_str(alloc, "Truth"),
        FeatKind::Enum(place) => format!(in alloc; "Enum {}", place),
        FeatKind::Opaque => String::from_str(alloc, "Opaque"),
        FeatKind::Refer {
            class,
            contains,
            opposite,
        } => match opposite {
            Some(feature) => show_reference(alloc, class.0, contains, Some(feature.0)),
            None => show_reference(alloc, class.0, contains, None),
        },
    }
}

fn show_default(alloc: Global, default: &Option<Text>) -> Result<String, AllocError> {
    match default {
        Some(text) => format!(in alloc; " default '{}'", text.as_str()),
        None => Ok(String::new(alloc)),
    }
}

fn show_feature(alloc: Global, out: &mut String, feature: &Feature) -> Result<(), AllocError> {
    let kind = show_kind(alloc, feature.kind)?;
    let default = show_default(alloc, &feature.default)?;
    let many = if feature.many { " many" } else { "" };
    let unique = if feature.unique { "" } else { " not unique" };
    let id = if feature.is_id { " id" } else { "" };
    let line = format!(in alloc;
        "feature {} of {}: {}{}{}{}{}\n",
        feature.name.as_str(),
        feature.owner.0,
        kind.as_str(),
        many,
        unique,
        id,
        default.as_str()
    )?;
    out.push_str(line.as_str())
}

fn show_enum(alloc: Global, out: &mut String, enumeration: &EnumDef) -> Result<(), AllocError> {
    let line = format!(in alloc; "enum {}:", enumeration.name.as_str())?;
    out.push_str(line.as_str())?;
    for literal in enumeration.literals.as_slice() {
        let word = format!(in alloc; " {}='{}'", literal.name.as_str(), literal.text.as_str())?;
        out.push_str(word.as_str())?;
    }
    out.push_str("\n")
}

fn show_skipped(alloc: Global, out: &mut String, skipped: &Skipped) -> Result<(), AllocError> {
    let line = format!(in alloc;
        "skipped {} of {}\n",
        skipped.name.as_str(),
        skipped.owner.0
    )?;
    out.push_str(line.as_str())
}

/// A line for each item of the five lists.
pub(crate) fn show_parts(alloc: Global, parts: &Parts) -> Result<String, AllocError> {
    let mut out = String::new(alloc);
    for package in parts.packages.as_slice() {
        show_package(alloc, &mut out, package)?;
    }
    for class in parts.classes.as_slice() {
        show_class(alloc, &mut out, class)?;
    }
    for feature in parts.features.as_slice() {
        show_feature(alloc, &mut out, feature)?;
    }
    for enumeration in parts.enums.as_slice() {
        show_enum(alloc, &mut out, enumeration)?;
    }
    for skipped in parts.skipped.as_slice() {
        show_skipped(alloc, &mut out, skipped)?;
    }
    Ok(out)
}

fn told(alloc: Global, kind: &str, value: &Text, place: &Place) -> Result<String, AllocError> {
    format!(in alloc;
        "{} '{}' {}:{}",
        kind,
        value.as_str(),
        place.line,
        place.column
    )
}

/// The kind, the value and the place.
pub(crate) fn show_refusal(alloc: Global, refusal: &MetaRefusal) -> Result<String, AllocError> {
    match refusal {
        MetaRefusal::NotEcore(value, place) => told(alloc, "NotEcore", value, place),
        MetaRefusal::SubPackage(value, place) => told(alloc, "SubPackage", value, place),
        MetaRefusal::Generic(value, place) => told(alloc, "Generic", value, place),
        MetaRefusal::NoName(value, place) => told(alloc, "NoName", value, place),
        MetaRefusal::TwiceName(value, place) => told(alloc, "TwiceName", value, place),
        MetaRefusal::OtherFile(value, place) => told(alloc, "OtherFile", value, place),
        MetaRefusal::NoType(value, place) => told(alloc, "NoType", value, place),
        MetaRefusal::SuperCycle(value, place) => told(alloc, "SuperCycle", value, place),
        MetaRefusal::BadOpposite(value, place) => told(alloc, "BadOpposite", value, place),
        MetaRefusal::BadNumber(value, place) => told(alloc, "BadNumber", value, place),
        MetaRefusal::Document(_) => String::from_str(alloc, "Document"),
        MetaRefusal::Memory => String::from_str(alloc, "Memory"),
    }
}
