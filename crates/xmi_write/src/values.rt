// The texts of values, and which slots are written as attributes.
ghost use Rattle.std.specs.Prelude.{◌≡◌, ◌++◌, map, IfOk, OnOk};
ghost use Rattle.model_store.specs.Paths.{path};
ghost use Rattle.model_store.specs.Texts.{value_text};
ghost use Rattle.xmi_write.specs.Settings.{IsSetting};
ghost use Rattle.xmi_write.specs.Values.{are_same, behind, is_attribute, is_untouched, joined, may_be_attribute};

use crate::setting::Setting;
use atl_base::numbers::{FeatId, ObjId};
use atl_base::text::Text;
use ecore_meta::metamodel::Metamodel;
use model_store::attributes::{initial, same_value};
use model_store::lookups::{contains, is_contained_by, is_many, refers};
use model_store::model::Model;
use model_store::parts::Cellv;
use model_store::texts::push_plain_text;
use std::alloc::AllocError;

// Adds the path of an object.
fn push_path(out: &mut Text, model: &Model, o: ObjId) -> Result<(), AllocError>
    ensures { OnOk result (out.new ≡ out.old ++ path model.now o) }
{
    out.push_text(&model.fragment(o)?)
}

/// Adds the text of a feature's value; of an object its path.
pub(crate) fn push_value(
    out: &mut Text,
    model: &Model,
    f: FeatId,
    value: &Cellv,
) -> Result<(), AllocError>
    ensures { OnOk result (out.new ≡ out.old ++ value_text model.now f value.now) }
{
    match value {
        Cellv::Obj(o) => push_path(out, model, *o),
        _ => push_plain_text(out, model.meta(), f, value),
    }
}

// Adds the text of one more value, behind a blank unless it is the first.
fn push_further(
    out: &mut Text,
    model: &Model,
    f: FeatId,
    value: &Cellv,
    is_first: bool,
) -> Result<(), AllocError>
    ensures { OnOk result (out.new ≡ out.old ++ behind is_first (value_text model.now f value.now)) }
{
    if !is_first {
        out.push_ascii(" ")?;
    }
    push_value(out, model, f, value)
}

/// Adds the texts of a slot's values with a blank between.
pub(crate) fn push_values(
    out: &mut Text,
    model: &Model,
    f: FeatId,
    cells: &[Cellv],
) -> Result<(), AllocError>
    ensures { OnOk result (out.new ≡ out.old ++ joined (map (value_text model.now f) cells.now)) }
{
    let mut is_first = true;
    for cell in cells {
        push_further(out, model, f, cell, is_first)?;
        is_first = false;
    }
    Ok(())
}

// Whether two slots hold the same values in the same order.
fn are_same(a: &[Cellv], b: &[Cellv]) -> bool
    ensures { result ≡ are_same a.now b.now }
{
    if a.len() != b.len() {
        return false;
    }
    for at in 0..a.len() {
        if !same_value(&a[at], &b[at]) {
            return false;
        }
    }
    true
}

// Whether a slot holds what it would if nothing had been written to it.
fn is_untouched(setting: &Setting, f: FeatId, cells: &[Cellv]) -> Result<bool, AllocError>
    requires { IsSetting setting.now }
    ensures { IfOk result (λ answer. answer ≡ is_untouched setting.now.model.now.meta f cells.now) }
{
    match setting.defaults.get(f.0 as usize) {
        Some(default) => Ok(are_same(cells, default.as_slice())),
        None => {
            let default = initial(setting.alloc, setting.model.meta(), f)?;
            Ok(are_same(cells, default.as_slice()))
        }
    }
}

fn may_be_attribute(meta: &Metamodel, f: FeatId) -> bool
    ensures { result ≡ may_be_attribute meta.now f }
{
    if refers(meta, f) {
        !(contains(meta, f) || is_contained_by(meta, f))
    } else {
        !is_many(meta, f)
    }
}

/// Whether a slot is written as an attribute.
pub(crate) fn is_attribute(
    setting: &Setting,
    f: FeatId,
    cells: &[Cellv],
) -> Result<bool, AllocError>
    requires { IsSetting setting.now }
    ensures { IfOk result (λ answer. answer ≡ is_attribute setting.now.model.now.meta f cells.now) }
{
    if !may_be_attribute(setting.model.meta(), f) {
        return Ok(false);
    }
    Ok(!is_untouched(setting, f, cells)?)
}
