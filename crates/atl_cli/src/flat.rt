// Writing what the one rule makes of a flat source.
ghost use Rattle.std.specs.Prelude.{◌≡◌, ◌++◌, [], ◌∷◌, List, IfOk, OnOk, map, length, ◌≢◌, codes};
ghost use Rattle.doc_text.specs.Names.{xmi_space};
ghost use Rattle.std.specs.List.{flat_map};
ghost use Rattle.doc_text.specs.Written.{written_element};
ghost use Rattle.atl_cli.specs.Flat.{element, attributes_of, item as item_of, version as version_of, namespaces as namespaces_of, text_of};

use crate::one_rule::OneRule;
use atl_base::place::Place;
use atl_base::text::Text;
use doc_text::tree::{Attribute, Doc, Element, Prefix};
use doc_text::{DECLARATION, XMI, push_element, push_end_tag, push_opening, write_doc};
use sqlite_items::Items;
use std::alloc::{AllocError, Global};

/// The namespace of XML Schema's attributes.
const XSI: &str = "http://www.w3.org/2001/XMLSchema-instance";

// An element that was read from no place, without children.
fn element_of(
    alloc: Global,
    space: Text,
    name: Text,
    declared: Items<Prefix>,
    attributes: Items<Attribute>,
) -> Element
    ensures { result ≡ element space name declared attributes [] }
{
    Element {
        space,
        name,
        declared,
        attributes,
        children: Items::new(alloc),
        place: Place { line: 0, column: 0 },
    }
}

fn push_feature(
    alloc: Global,
    attributes: &mut Items<Attribute>,
    feature: &Text,
    value: &Option<Text>,
) -> Result<(), AllocError>
    ensures { OnOk result (attributes.new ≡ attributes.old ++ attributes_of feature.now value.now) }
{
    if let Some(value) = value {
        attributes.push(Attribute {
            space: Text::new(alloc),
            name: feature.copy(alloc)?,
            value: value.copy(alloc)?,
        })?;
    }
    Ok(())
}

// The target element of one source element.
fn item(alloc: Global, rule: &OneRule, value: &Option<Text>) -> Result<Element, AllocError>
    ensures { IfOk result (λ e. e ≡ item_of rule.now value.now) }
{
    let mut attributes = Items::new(alloc);
    push_feature(alloc, &mut attributes, &rule.feature, value)?;
    let space = rule.target_metamodel.copy(alloc)?;
    let name = rule.made_class.copy(alloc)?;
    Ok(element_of(alloc, space, name, Items::new(alloc), attributes))
}

fn version(alloc: Global) -> Result<Attribute, AllocError>
    ensures { IfOk result (λ a. a ≡ version_of) }
{
    Ok(Attribute {
        space: Text::from_ascii(alloc, XMI)?,
        name: Text::from_ascii(alloc, "version")?,
        value: Text::from_ascii(alloc, "2.0")?,
    })
}

// The namespaces that the outermost element declares.
fn namespaces(alloc: Global, space: &Text) -> Result<Items<Prefix>, AllocError>
    ensures { IfOk result (λ ds. ds ≡ namespaces_of space.now) }
{
    let mut declared = Items::new(alloc);
    declared.push(Prefix {
        prefix: Text::from_ascii(alloc, "xmi")?,
        uri: Text::from_ascii(alloc, XMI)?,
    })?;
    declared.push(Prefix {
        prefix: Text::from_ascii(alloc, "xsi")?,
        uri: Text::from_ascii(alloc, XSI)?,
    })?;
    declared.push(Prefix {
        prefix: space.copy(alloc)?,
        uri: space.copy(alloc)?,
    })?;
    Ok(declared)
}

// The text of a target of one element.
fn write_alone(alloc: Global, rule: &OneRule, value: &Option<Text>) -> Result<Text, AllocError>
    ensures { IfOk result (λ t. t ≡ text_of rule.now (item_of rule.now value.now ∷ [])) }
{
    let mut attributes = Items::new(alloc);
    attributes.push(version(alloc)?)?;
    push_feature(alloc, &mut attributes, &rule.feature, value)?;
    let declared = namespaces(alloc, &rule.target_metamodel)?;
    let space = rule.target_metamodel.copy(alloc)?;
    let name = rule.made_class.copy(alloc)?;
    let root = element_of(alloc, space, name, declared, attributes);
    write_doc(alloc, &Doc { root })
}

// The element around several roots, without them.
fn around(alloc: Global, space: &Text) -> Result<Element, AllocError>
    ensures { IfOk result (λ e. e ≡ element xmi_space (codes "XMI") (namespaces_of space.now) (version_of ∷ []) []) }
{
    let mut attributes = Items::new(alloc);
    attributes.push(version(alloc)?)?;
    let declared = namespaces(alloc, space)?;
    let space = Text::from_ascii(alloc, XMI)?;
    let name = Text::from_ascii(alloc, "XMI")?;
    Ok(element_of(alloc, space, name, declared, attributes))
}

// The lines of the target's elements.
fn push_items(
    alloc: Global,
    out: &mut Text,
    declared: &[Prefix],
    rule: &OneRule,
    values: &[Option<Text>],
) -> Result<(), AllocError>
    ensures { OnOk result (out.new ≡ out.old ++ flat_map (λ v. written_element declared.now (item_of rule.now v) 1) values.now) }
{
    for value in values {
        let item = item(alloc, rule, value)?;
        push_element(alloc, out, declared, &item, 1)?;
    }
    Ok(())
}

// The text of a target of none or several elements.
fn write_several(alloc: Global, rule: &OneRule, values: &[Option<Text>]) -> Result<Text, AllocError>
    requires { length values.now ≢ 1 }
    ensures { IfOk result (λ t. t ≡ text_of rule.now (map (item_of rule.now) values.now)) }
{
    let around = around(alloc, &rule.target_metamodel)?;
    let declared = around.declared.as_slice();
    let mut out = Text::from_ascii(alloc, DECLARATION)?;
    push_opening(&mut out, declared, &around, 0)?;
    if values.is_empty() {
        out.push_ascii("/>\n")?;
        return Ok(out);
    }
    out.push_ascii(">\n")?;
    push_items(alloc, &mut out, declared, rule, values)?;
    push_end_tag(&mut out, declared, &around)?;
    Ok(out)
}

/// The text of the target, of these values of the source's elements.
pub fn write_flat(
    alloc: Global,
    rule: &OneRule,
    values: &[Option<Text>],
) -> Result<Text, AllocError>
    ensures { IfOk result (λ t. t ≡ text_of rule.now (map (item_of rule.now) values.now)) }
{
    if values.len() == 1 {
        return write_alone(alloc, rule, &values[0]);
    }
    write_several(alloc, rule, values)
}
