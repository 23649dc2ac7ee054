// Writing a document: each element on a line of its own, by a stack of the elements that are open.
ghost use Rattle.std.specs.Prelude.{◌≡◌, ◌++◌, IfOk, OnOk, List, reverse, length, find, filter, map, not, ℕ, ◌+◌, ◌-◌, ◌^◌, ◌<◌, ◌∷◌, codes};
ghost use Rattle.std.specs.Option.{option_copied};
ghost use Rattle.std.specs.Str.{bytes_eq};
ghost use Rattle.std.specs.List.{flat_map};
ghost use Rattle.doc_text.specs.Names.{prefix_of, written_name};
ghost use Rattle.doc_text.specs.Written.{quoted, written_attribute, written_declaration, written_attributes, indent, written_element, written_child, opening, end_tag, lines, written, lone_text as lone_text_of, is_version as is_version_of};
ghost use Rattle.doc_text.specs.declared.tree.Prefix.{Prefix as SomePrefix};
ghost use Rattle.doc_text.specs.Escapes.{escaped};
ghost use Rattle.doc_text.specs.Pending.{pending};

use crate::escape::{Escapes, push_escaped};
use crate::tree::{Attribute, Child, Doc, Element, Prefix};
use atl_base::text::Text;
use std::alloc::{AllocError, Global};

/// The namespace of XMI's attributes and of the element around several roots.
pub const XMI: &str = "http://www.omg.org/XMI";

/// The line that every written document begins with.
pub const DECLARATION: &str = "<?xml version=\"1.0\" encoding=\"UTF-8\"?>\n";

// An element whose start tag is written, and the place of its next child.
#[derive(Clone, Copy)]
struct Open<'a> {
    element: &'a Element,
    next: usize,
}

// The declaration of a namespace, the first of several.
fn declaration_of<'a>(declared: &'a [Prefix], space: &Text) -> Option<&'a Prefix>
    ensures { option_copied result ≡ find (λ d. bytes_eq d.uri space.now) declared.now }
{
    declared.iter().find(|d| d.uri == *space)
}

// The prefix that is declared for a namespace.
fn push_prefix(out: &mut Text, declared: &[Prefix], space: &Text) -> Result<(), AllocError>
    ensures { OnOk result (out.new ≡ out.old ++ prefix_of declared.now space.now) }
{
    match declaration_of(declared, space) {
        Some(found) => out.push_text(&found.prefix),
        None => Ok(()),
    }
}

// A name behind its namespace's prefix.
fn push_name(
    out: &mut Text,
    declared: &[Prefix],
    space: &Text,
    name: &Text,
) -> Result<(), AllocError>
    ensures { OnOk result (out.new ≡ out.old ++ written_name declared.now space.now name.now) }
{
    if space.as_str().is_empty() {
        return out.push_text(name);
    }
    push_prefix(out, declared, space)?;
    out.push_ascii(":")?;
    out.push_text(name)
}

// A value in its quotes, behind the equals sign.
fn push_quoted(out: &mut Text, value: &Text) -> Result<(), AllocError>
    ensures { OnOk result (out.new ≡ out.old ++ quoted value.now) }
{
    out.push_ascii("=\"")?;
    push_escaped(out, Escapes::Value, value)?;
    out.push_ascii("\"")
}

fn push_attribute(
    out: &mut Text,
    declared: &[Prefix],
    attribute: &Attribute,
) -> Result<(), AllocError>
    ensures { OnOk result (out.new ≡ out.old ++ written_attribute declared.now attribute.now) }
{
    out.push_ascii(" ")?;
    push_name(out, declared, &attribute.space, &attribute.name)?;
    push_quoted(out, &attribute.value)
}

fn push_declaration(out: &mut Text, declaration: &Prefix) -> Result<(), AllocError>
    ensures { OnOk result (out.new ≡ out.old ++ written_declaration declaration.now) }
{
    out.push_ascii(" xmlns")?;
    if !declaration.prefix.as_str().is_empty() {
        out.push_ascii(":")?;
        out.push_text(&declaration.prefix)?;
    }
    push_quoted(out, &declaration.uri)
}

fn is_version(attribute: &Attribute) -> bool
    ensures { result ≡ is_version_of attribute.now }
{
    attribute.space.as_str() == XMI && attribute.name.as_str() == "version"
}

// XMI's version among the attributes of a start tag.
fn push_version(
    out: &mut Text,
    declared: &[Prefix],
    attributes: &[Attribute],
) -> Result<(), AllocError>
    ensures { OnOk result (out.new ≡ out.old ++ flat_map (written_attribute declared.now) (filter is_version_of attributes.now)) }
{
    for attribute in attributes {
        if is_version(attribute) {
            push_attribute(out, declared, attribute)?;
        }
    }
    Ok(())
}

// The other attributes of a start tag.
fn push_others(
    out: &mut Text,
    declared: &[Prefix],
    attributes: &[Attribute],
) -> Result<(), AllocError>
    ensures { OnOk result (out.new ≡ out.old ++ flat_map (written_attribute declared.now) (filter (λ a. not (is_version_of a)) attributes.now)) }
{
    for attribute in attributes {
        if !is_version(attribute) {
            push_attribute(out, declared, attribute)?;
        }
    }
    Ok(())
}

fn push_declarations(out: &mut Text, declarations: &[Prefix]) -> Result<(), AllocError>
    ensures { OnOk result (out.new ≡ out.old ++ flat_map written_declaration declarations.now) }
{
    for declaration in declarations {
        push_declaration(out, declaration)?;
    }
    Ok(())
}

fn push_indent(out: &mut Text, depth: usize) -> Result<(), AllocError>
    ensures { OnOk result (out.new ≡ out.old ++ indent depth) }
{
    for _i in 0..depth {
        out.push_ascii("  ")?;
    }
    Ok(())
}

/// Adds an element's line up to its attributes, behind `depth` elements.
pub fn push_opening(
    out: &mut Text,
    declared: &[Prefix],
    element: &Element,
    depth: usize,
) -> Result<(), AllocError>
    ensures { OnOk result (out.new ≡ out.old ++ opening declared.now element.now.space element.now.name element.now.declared element.now.attributes depth) }
{
    push_indent(out, depth)?;
    out.push_ascii("<")?;
    push_name(out, declared, &element.space, &element.name)?;
    let attributes = element.attributes.as_slice();
    push_version(out, declared, attributes)?;
    push_declarations(out, element.declared.as_slice())?;
    push_others(out, declared, attributes)
}

/// Adds an element's end tag.
pub fn push_end_tag(
    out: &mut Text,
    declared: &[Prefix],
    element: &Element,
) -> Result<(), AllocError>
    ensures { OnOk result (out.new ≡ out.old ++ end_tag declared.now element.now.space element.now.name) }
{
    out.push_ascii("</")?;
    push_name(out, declared, &element.space, &element.name)?;
    out.push_ascii(">\n")
}

// The text that stands alone in an element.
fn lone_text(children: &[Child]) -> Option<&Text>
    ensures { (ds : List SomePrefix) → option_copied result ≡ lone_text_of (map (written_child ds) children.now) }
{
    if children.len() != 1 {
        return None;
    }
    match &children[0] {
        Child::Words(text) => Some(text),
        Child::Sub(_) => None,
    }
}

// A text that stands alone, and its element's end tag in the same line.
fn push_lone_text(
    out: &mut Text,
    declared: &[Prefix],
    element: &Element,
    text: &Text,
) -> Result<(), AllocError>
    ensures { OnOk result (out.new ≡ out.old ++ (codes ">" ++ (flat_map (escaped Escapes.Text) text.now ++ end_tag declared.now element.now.space element.now.name))) }
{
    out.push_ascii(">")?;
    push_escaped(out, Escapes::Text, text)?;
    push_end_tag(out, declared, element)
}

// Begins an element behind `depth` others: it is written whole, or stays open for its children.
fn push_start<'a>(
    out: &mut Text,
    stack: &mut Vec<Open<'a>>,
    declared: &[Prefix],
    element: &'a Element,
    depth: usize,
) -> Result<(), AllocError>
    ensures written { (base : ℕ) → base + length stack.old.items ≡ depth → OnOk result (out.new ++ pending declared.now base (reverse stack.new.items)
        ≡ out.old ++ (written_element declared.now element.now depth ++ pending declared.now base (reverse stack.old.items))) }
    ensures grows { OnOk result (length out.old < length out.new) }
{
    push_opening(out, declared, element, depth)?;
    let children = element.children.as_slice();
    if children.is_empty() {
        return out.push_ascii("/>\n");
    }
    if let Some(text) = lone_text(children) {
        return push_lone_text(out, declared, element, text);
    }
    out.push_ascii(">\n")?;
    stack.push(Open { element, next: 0 })?;
    Ok(())
}

// A child of an element that is behind `depth - 1` others.
fn push_child<'a>(
    out: &mut Text,
    stack: &mut Vec<Open<'a>>,
    declared: &[Prefix],
    child: &'a Child,
    depth: usize,
) -> Result<(), AllocError>
    ensures written { (base : ℕ) → base + length stack.old.items ≡ depth → OnOk result (out.new ++ pending declared.now base (reverse stack.new.items)
        ≡ out.old ++ (lines depth (written_child declared.now child.now) ++ pending declared.now base (reverse stack.old.items))) }
    ensures grows { OnOk result (length out.old < length out.new) }
{
    match child {
        Child::Sub(element) => push_start(out, stack, declared, element, depth),
        Child::Words(text) => push_text_line(out, text, depth),
    }
}

// A text that stands among elements, in a line of its own.
fn push_text_line(out: &mut Text, text: &Text, depth: usize) -> Result<(), AllocError>
    ensures { OnOk result (out.new ≡ out.old ++ (indent depth ++ (flat_map (escaped Escapes.Text) text.now ++ codes "\n"))) }
{
    push_indent(out, depth)?;
    push_escaped(out, Escapes::Text, text)?;
    out.push_ascii("\n")
}

// One step of writing what is open: the next child of the innermost element, or its end.
fn push_next<'a>(
    out: &mut Text,
    stack: &mut Vec<Open<'a>>,
    declared: &[Prefix],
    top: Open<'a>,
    depth: usize,
) -> Result<(), AllocError>
    requires { depth < 2 ^ 64 - 1 }
    ensures written { (base : ℕ) → base + length stack.old.items ≡ depth → OnOk result (out.new ++ pending declared.now base (reverse stack.new.items)
        ≡ out.old ++ pending declared.now base (top.entry ∷ reverse stack.old.items)) }
    ensures grows { OnOk result (length out.old < length out.new) }
{
    let children = top.element.children.as_slice();
    if top.next >= children.len() {
        push_indent(out, depth)?;
        return push_end_tag(out, declared, top.element);
    }
    stack.push(Open {
        element: top.element,
        next: top.next + 1,
    })?;
    push_child(out, stack, declared, &children[top.next], depth + 1)
}

/// Adds the lines of an element, behind `depth` elements, with the namespaces that are declared around it.
pub fn push_element(
    alloc: Global,
    out: &mut Text,
    declared: &[Prefix],
    element: &Element,
    depth: usize,
) -> Result<(), AllocError>
    requires { depth < 2 ^ 32 }
    ensures { OnOk result (out.new ≡ out.old ++ written_element declared.now element.now depth) }
{
    let mut stack = Vec::new(alloc);
    push_start(out, &mut stack, declared, element, depth)?;
    while let Some(top) = stack.pop() {
        let behind = depth + stack.len();
        push_next(out, &mut stack, declared, top, behind)?;
    }
    Ok(())
}

/// The text of a document: its declaration, and each element on a line of its own.
pub fn write_doc(alloc: Global, doc: &Doc) -> Result<Text, AllocError>
    ensures { IfOk result (λ t. t ≡ written doc.now) }
{
    let mut out = Text::from_ascii(alloc, DECLARATION)?;
    push_element(alloc, &mut out, doc.root.declared.as_slice(), &doc.root, 0)?;
    Ok(out)
}
