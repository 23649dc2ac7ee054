// Elements without what stands in them: their names and attributes.
ghost use Rattle.std.specs.Prelude.{◌≡◌, ◌++◌, ◌==◌, ◌∷◌, [], IfOk, OnOk, List, false, slice_get};
ghost use Rattle.std.specs.Option.{option_copied, option_map_or};
ghost use Rattle.ecore_meta.specs.Inheritance.{name_of};
ghost use Rattle.model_store.specs.Contents.{IsShaped};
ghost use Rattle.xmi_write.specs.Settings.{IsSetting};
ghost use Rattle.xmi_write.specs.Xmi.{attributes_of, class_name, local_name, nowhere, package_of, said_class, slot_attribute, slot_attributes, space_of, type_attribute, type_attributes, type_text, version};

use crate::named::Named;
use crate::setting::{Setting, XSI};
use crate::values::{is_attribute, push_values};
use atl_base::numbers::{ClassId, FeatId};
use atl_base::place::Place;
use atl_base::text::Text;
use doc_text::XMI;
use doc_text::tree::{Attribute, Element, Prefix};
use ecore_meta::metamodel::Metamodel;
use ecore_meta::parts::{FeatKind, Package};
use model_store::held::Held;
use model_store::parts::Cellv;
use sqlite_items::Items;
use std::alloc::{AllocError, Global};

// The package of a class.
fn package_of(meta: &Metamodel, c: ClassId) -> Option<&Package>
    ensures { option_copied result ≡ package_of meta.now c }
{
    let class = meta.classes().get(c.0 as usize)?;
    meta.packages().get(class.package as usize)
}

// The namespace of a class.
fn class_space(alloc: Global, meta: &Metamodel, c: ClassId) -> Result<Text, AllocError>
    ensures { IfOk result (λ t. t ≡ space_of meta.now (Named.Root c)) }
{
    match package_of(meta, c) {
        Some(found) => found.uri.copy(alloc),
        None => Ok(Text::new(alloc)),
    }
}

// The namespace of an element.
fn space_of(alloc: Global, meta: &Metamodel, named: Named) -> Result<Text, AllocError>
    ensures { IfOk result (λ t. t ≡ space_of meta.now named) }
{
    match named {
        Named::Around => Text::from_ascii(alloc, XMI),
        Named::Root(c) => class_space(alloc, meta, c),
        Named::Inside(_) => Ok(Text::new(alloc)),
    }
}

fn class_name(alloc: Global, meta: &Metamodel, c: ClassId) -> Result<Text, AllocError>
    ensures { IfOk result (λ t. t ≡ class_name meta.now c) }
{
    match meta.classes().get(c.0 as usize) {
        Some(class) => class.name.copy(alloc),
        None => Ok(Text::new(alloc)),
    }
}

fn feature_name(alloc: Global, meta: &Metamodel, f: FeatId) -> Result<Text, AllocError>
    ensures { IfOk result (λ t. t ≡ name_of meta.now.features f) }
{
    match meta.all_features().get(f.0 as usize) {
        Some(feature) => feature.name.copy(alloc),
        None => Ok(Text::new(alloc)),
    }
}

// The local name of an element.
fn local_name(alloc: Global, meta: &Metamodel, named: Named) -> Result<Text, AllocError>
    ensures { IfOk result (λ t. t ≡ local_name meta.now named) }
{
    match named {
        Named::Around => Text::from_ascii(alloc, "XMI"),
        Named::Root(c) => class_name(alloc, meta, c),
        Named::Inside(f) => feature_name(alloc, meta, f),
    }
}

/// An element without children.
pub(crate) fn head_named(
    alloc: Global,
    meta: &Metamodel,
    named: Named,
    declared: Items<Prefix>,
    attributes: Vec<Attribute>,
) -> Result<Element, AllocError>
    ensures { IfOk result (λ e. e ≡ record { space = space_of meta.now named; name = local_name meta.now named; declared = declared; attributes = attributes.items; children = []; place = nowhere }) }
{
    Ok(Element {
        space: space_of(alloc, meta, named)?,
        name: local_name(alloc, meta, named)?,
        declared,
        attributes: Items::from_vec(attributes),
        children: Items::new(alloc),
        place: Place { line: 0, column: 0 },
    })
}

// The prefix of a class.
fn class_prefix(alloc: Global, meta: &Metamodel, c: ClassId) -> Result<Text, AllocError>
    ensures { IfOk result (λ t. t ≡ option_map_or (λ p. p.prefix) (package_of meta.now c) []) }
{
    match package_of(meta, c) {
        Some(found) => found.prefix.copy(alloc),
        None => Ok(Text::new(alloc)),
    }
}

// A class behind its package's prefix.
fn type_text(alloc: Global, meta: &Metamodel, c: ClassId) -> Result<Text, AllocError>
    ensures { IfOk result (λ t. t ≡ type_text meta.now c) }
{
    let mut text = class_prefix(alloc, meta, c)?;
    text.push_ascii(":")?;
    text.push_text(&class_name(alloc, meta, c)?)?;
    Ok(text)
}

fn type_attribute(alloc: Global, meta: &Metamodel, c: ClassId) -> Result<Attribute, AllocError>
    ensures { IfOk result (λ a. a ≡ type_attribute meta.now c) }
{
    Ok(Attribute {
        space: Text::from_ascii(alloc, XSI)?,
        name: Text::from_ascii(alloc, "type")?,
        value: type_text(alloc, meta, c)?,
    })
}

// The class of what a reference refers to.
fn said_class(meta: &Metamodel, f: FeatId) -> Option<ClassId>
    ensures { result ≡ said_class meta.now f }
{
    match meta.all_features().get(f.0 as usize)?.kind {
        FeatKind::Refer { class, .. } => Some(class),
        _ => None,
    }
}

// Whether a reference says this class.
fn says(meta: &Metamodel, f: FeatId, c: ClassId) -> bool
    ensures { result ≡ option_map_or (λ said. said.0 == c.0) (said_class meta.now f) false }
{
    match said_class(meta, f) {
        Some(said) => said.0 == c.0,
        None => false,
    }
}

// Adds the type, where it is not said.
fn push_type(
    alloc: Global,
    list: &mut Vec<Attribute>,
    meta: &Metamodel,
    named: Named,
    c: ClassId,
) -> Result<(), AllocError>
    ensures { OnOk result (list.new.items ≡ list.old.items ++ type_attributes meta.now named c) }
{
    if let Named::Inside(f) = named {
        if !says(meta, f, c) {
            list.push(type_attribute(alloc, meta, c)?)?;
        }
    }
    Ok(())
}

// A slot as an attribute.
fn attribute(setting: &Setting, f: FeatId, cells: &[Cellv]) -> Result<Attribute, AllocError>
    requires { IsSetting setting.now }
    ensures { IfOk result (λ a. a ≡ slot_attribute setting.now.model.now f cells.now) }
{
    let mut value = Text::new(setting.alloc);
    push_values(&mut value, setting.model, f, cells)?;
    Ok(Attribute {
        space: Text::new(setting.alloc),
        name: feature_name(setting.alloc, setting.model.meta(), f)?,
        value,
    })
}

// Adds a slot, where it is written as an attribute.
fn push_slot(
    list: &mut Vec<Attribute>,
    setting: &Setting,
    f: FeatId,
    cells: &[Cellv],
) -> Result<(), AllocError>
    requires { IsSetting setting.now }
    ensures { OnOk result (list.new.items ≡ list.old.items ++ slot_attributes setting.now.model.now f cells.now) }
{
    if is_attribute(setting, f, cells)? {
        list.push(attribute(setting, f, cells)?)?;
    }
    Ok(())
}

/// The attributes of an object, after others.
pub(crate) fn attributes_of(
    setting: &Setting,
    others: Vec<Attribute>,
    named: Named,
    object: &Held,
) -> Result<Vec<Attribute>, AllocError>
    requires setting { IsSetting setting.now }
    requires object { IsShaped setting.now.model.now.meta object.now }
    ensures { IfOk result (λ list. list.items ≡ others.items ++ attributes_of setting.now.model.now named object.now) }
{
    let meta = setting.model.meta();
    let mut list = others;
    push_type(setting.alloc, &mut list, meta, named, object.class())?;
    let features = meta.features_seen(object.class());
    let slots = object.slots();
    for at in 0..features.len() {
        push_slot(&mut list, setting, features[at], slots[at].as_slice())?;
    }
    Ok(list)
}

/// The version of XMI.
pub(crate) fn version(alloc: Global) -> Result<Attribute, AllocError>
    ensures { IfOk result (λ a. a ≡ version) }
{
    Ok(Attribute {
        space: Text::from_ascii(alloc, XMI)?,
        name: Text::from_ascii(alloc, "version")?,
        value: Text::from_ascii(alloc, "2.0")?,
    })
}
