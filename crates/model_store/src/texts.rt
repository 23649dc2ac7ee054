// The texts of attributes' values. `specs/Texts.antt` says what they are.
ghost use Rattle.std.specs.Prelude.{◌≡◌, ◌++◌, [], OnOk, slice_get};
ghost use Rattle.std.specs.Fmt.{signed_decimal};
ghost use Rattle.std.specs.Option.{option_map_or};
ghost use Rattle.model_store.specs.Texts.{literal_text, plain_text, truth_text};

use crate::parts::Cellv;
use atl_base::numbers::FeatId;
use atl_base::text::Text;
use ecore_meta::metamodel::Metamodel;
use ecore_meta::parts::FeatKind;
use itoa::Buffer;
use std::alloc::AllocError;

// Adds a number in decimal.
fn push_number(out: &mut Text, number: i64) -> Result<(), AllocError>
    ensures { OnOk result (out.new ≡ out.old ++ signed_decimal number) }
{
    let mut buffer = Buffer::new();
    out.push_ascii(buffer.format(number))
}

fn push_truth(out: &mut Text, truth: bool) -> Result<(), AllocError>
    ensures { OnOk result (out.new ≡ out.old ++ truth_text truth) }
{
    if truth {
        out.push_ascii("true")
    } else {
        out.push_ascii("false")
    }
}

// Adds the text of a literal.
fn push_literal(out: &mut Text, meta: &Metamodel, kind: FeatKind, l: u32) -> Result<(), AllocError>
    ensures { OnOk result (out.new ≡ out.old ++ literal_text meta.now kind l) }
{
    let FeatKind::Enum(e) = kind else {
        return Ok(());
    };
    let Some(found) = meta.enums().get(e as usize) else {
        return Ok(());
    };
    match found.literals.get(l as usize) {
        Some(literal) => out.push_text(&literal.text),
        None => Ok(()),
    }
}

// Adds the text of a literal of a feature.
fn push_literal_of(out: &mut Text, meta: &Metamodel, f: FeatId, l: u32) -> Result<(), AllocError>
    ensures { OnOk result (out.new ≡ out.old ++ option_map_or (λ feature. literal_text meta.now feature.kind l) (slice_get meta.now.features f.0) []) }
{
    match meta.all_features().get(f.0 as usize) {
        Some(feature) => push_literal(out, meta, feature.kind, l),
        None => Ok(()),
    }
}

/// Adds the text of an attribute's value; objects have none here.
pub fn push_plain_text(
    out: &mut Text,
    meta: &Metamodel,
    f: FeatId,
    value: &Cellv,
) -> Result<(), AllocError>
    ensures { OnOk result (out.new ≡ out.old ++ plain_text meta.now f value.now) }
{
    match value {
        Cellv::Words(text) => out.push_text(text),
        Cellv::Int(number) => push_number(out, *number),
        Cellv::Truth(truth) => push_truth(out, *truth),
        Cellv::Literal(l) => push_literal_of(out, meta, f, *l),
        Cellv::Obj(_) => Ok(()),
    }
}
