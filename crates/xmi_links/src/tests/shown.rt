// Models and refusals as text, to be compared.
use crate::refusal::ModelRefusal;
use atl_base::numbers::ObjId;
use atl_base::place::Place;
use atl_base::text::Text;
use model_store::model::Model;
use model_store::parts::Cellv;
use std::alloc::{AllocError, Global};

fn push_value(alloc: Global, out: &mut String, cell: &Cellv) -> Result<(), AllocError> {
    let shown = match cell {
        Cellv::Words(text) => format!(in alloc; " '{}'", text.as_str())?,
        Cellv::Int(number) => format!(in alloc; " {}", *number)?,
        Cellv::Truth(truth) => format!(in alloc; " {}", *truth)?,
        Cellv::Literal(place) => format!(in alloc; " literal {}", *place)?,
        Cellv::Obj(o) => format!(in alloc; " @{}", o.0)?,
    };
    out.push_str(shown.as_str())
}

fn push_object(alloc: Global, out: &mut String, model: &Model, o: ObjId) -> Result<(), AllocError> {
    let Some(object) = model.object(o) else {
        return Ok(());
    };
    let head = format!(in alloc; "{}: class {}", o.0, object.class().0)?;
    out.push_str(head.as_str())?;
    let slots = object.slots();
    for k in 0..slots.len() {
        out.push_str(",")?;
        let cells = slots[k].as_slice();
        for i in 0..cells.len() {
            push_value(alloc, out, &cells[i])?;
        }
    }
    out.push_str("\n")
}

/// The roots, and a line for each object: its class and its slots.
pub(crate) fn show_model(alloc: Global, model: &Model) -> Result<String, AllocError> {
    let mut out = String::from_str(alloc, "roots")?;
    let roots = model.roots();
    for i in 0..roots.len() {
        let root = format!(in alloc; " {}", roots[i].0)?;
        out.push_str(root.as_str())?;
    }
    out.push_str("\n")?;
    for number in 0..model.given() {
        push_object(alloc, &mut out, model, ObjId(number))?;
    }
    Ok(out)
}

fn told(alloc: Global, kind: &str, value: &Text, place: Place) -> Result<String, AllocError> {
    format!(in alloc;
        "{} {} at {}:{}",
        kind,
        value.as_str(),
        place.line,
        place.column
    )
}

/// Kind, value and place.
pub(crate) fn show_refusal(alloc: Global, refusal: &ModelRefusal) -> Result<String, AllocError> {
    match refusal {
        ModelRefusal::NoClass(value, place) => told(alloc, "NoClass", value, *place),
        ModelRefusal::Abstract(value, place) => told(alloc, "Abstract", value, *place),
        ModelRefusal::NoFeature(value, place) => told(alloc, "NoFeature", value, *place),
        ModelRefusal::StrayText(value, place) => told(alloc, "StrayText", value, *place),
        ModelRefusal::BadValue(value, place) => told(alloc, "BadValue", value, *place),
        ModelRefusal::Href(value, place) => told(alloc, "Href", value, *place),
        ModelRefusal::BadType(value, place) => told(alloc, "BadType", value, *place),
        ModelRefusal::Full(place) => told(alloc, "Full", &Text::new(alloc), *place),
        ModelRefusal::BadPath(value, place) => told(alloc, "BadPath", value, *place),
        ModelRefusal::NoId(value, place) => told(alloc, "NoId", value, *place),
        ModelRefusal::TwiceId(value, place) => told(alloc, "TwiceId", value, *place),
        ModelRefusal::TwoContainers(value, place) => told(alloc, "TwoContainers", value, *place),
        ModelRefusal::TwoEnds(value, place) => told(alloc, "TwoEnds", value, *place),
        ModelRefusal::Document(_) => String::from_str(alloc, "Document"),
        ModelRefusal::Memory => String::from_str(alloc, "Memory"),
    }
}
