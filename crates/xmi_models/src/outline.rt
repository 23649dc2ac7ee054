// The outline of a model's file: its elements in document order, each with what it is in the model.
ghost use Rattle.std.specs.Prelude.{◌≡◌, suc, ◌∷◌, [], ◌++◌, if◌then◌else◌, option_map, map, List, OnOk, IfOk};
ghost use Rattle.std.specs.Option.{option_copied};
ghost use Rattle.doc_text.specs.declared.tree.Prefix.{Prefix as SomePrefix};
ghost use Rattle.model_store.specs.Contents.{contains as contains_in, refers as refers_in};
ghost use Rattle.xmi_models.specs.Outline.{Content, Cross, Value, InAround, Below, is_object as is_object_of, is_around as is_around_of, type_text as type_text_of, class_said as class_said_in, class_behind as class_behind_in, class_of_text as class_of_text_in, child_class as child_class_in, child_part as child_part_in, part_of as part_of_in, is_passed as is_passed_in, walk, walk_child, walk_all, outline as outline_of};
ghost use Rattle.xmi_models.specs.Scopes.{scope_of};
ghost use Rattle.xmi_models.specs.Entries.{object_no, tag_of, part_in, where_in, entries_of, IsCounted};

use crate::part::{Entry, Part, Where, inside, is_object};
use crate::scope::{Scope, uri_of};
use atl_base::numbers::{ClassId, FeatId};
use atl_base::text::Text;
use doc_text::XMI;
use doc_text::tree::{Child, Doc, Element};
use std::alloc::{AllocError, Global};
use xmi_names::lookups::{class_named, class_said, contains, feature_named, is_skipped, refers};
use xmi_names::vocabulary::Vocabulary;
use xmi_text::cut::place_of;
use xmi_text::level::{Levels, declared_by, levels_in};
use xmi_text::markup::{XSI, given_in};

// No element of a document that was read stands deeper. Of what does, declarations are looked through one by one.
const DEEPEST: usize = 200;

/// The elements of a file in document order.
#[derive(Drop)]
pub struct File<'a> {
    pub entries: Vec<Entry<'a>>,
    /// How many of them are objects.
    pub objects: usize,
}

fn is_around(element: &Element) -> bool
    ensures { result ≡ is_around_of (tag_of element.now) }
{
    element.space.as_str() == XMI && element.name.as_str() == "XMI"
}

/// The text of an element's type: of `xsi:type`, else of `xmi:type`.
pub(crate) fn type_text<'a>(element: &'a Element) -> Option<&'a Text>
    ensures { option_copied result ≡ type_text_of (tag_of element.now) }
{
    if let Some(text) = given_in(XSI, "type", element) {
        return Some(text);
    }
    given_in(XMI, "type", element)
}

// The class of this name in the namespace of a prefix.
fn class_behind(
    meta: &Vocabulary<'_>,
    scope: &Scope<'_, '_>,
    prefix: &[u8],
    name: &[u8],
) -> Option<ClassId>
    ensures { result ≡ class_behind_in meta.now (scope_of scope.now) prefix.now name.now }
{
    match uri_of(scope, prefix) {
        Some(space) => class_named(meta, space, name),
        None => None,
    }
}

// The class that a type's text names.
fn class_of_text(meta: &Vocabulary<'_>, scope: &Scope<'_, '_>, text: &[u8]) -> Option<ClassId>
    ensures { result ≡ class_of_text_in meta.now (scope_of scope.now) text.now }
{
    let at = place_of(b':', text);
    if at < text.len() {
        return class_behind(meta, scope, &text[..at], &text[at + 1..]);
    }
    class_behind(meta, scope, &[], text)
}

// The class of a child: its type's, else its feature's.
fn child_class(
    meta: &Vocabulary<'_>,
    scope: &Scope<'_, '_>,
    element: &Element,
    said: Option<ClassId>,
) -> Option<ClassId>
    ensures { result ≡ child_class_in meta.now (scope_of scope.now) (tag_of element.now) said }
{
    match type_text(element) {
        Some(text) => class_of_text(meta, scope, text.bytes()),
        None => said,
    }
}

// The class that the type of a child of no feature asks for.
fn asked_class(
    meta: &Vocabulary<'_>,
    scope: &Scope<'_, '_>,
    element: &Element,
) -> Option<Option<ClassId>>
    ensures { result ≡ option_map (class_of_text_in meta.now (scope_of scope.now)) (type_text_of (tag_of element.now)) }
{
    match type_text(element) {
        Some(text) => Some(class_of_text(meta, scope, text.bytes())),
        None => None,
    }
}

// What a child of a feature is.
fn feature_part(
    meta: &Vocabulary<'_>,
    feature: FeatId,
    number: usize,
    scope: &Scope<'_, '_>,
    element: &Element,
) -> Part
    ensures { let class = child_class_in meta.now (scope_of scope.now) (tag_of element.now) (class_said_in meta.now feature) in
        part_in result ≡ (if contains_in meta.now feature then Content (object_no number) feature class
        else if refers_in meta.now feature then Cross feature class
        else Value (object_no number) feature) }
{
    let said = class_said(meta.metamodel(), feature);
    if contains(meta, feature) {
        return Part::Content(number, feature, child_class(meta, scope, element, said));
    }
    if refers(meta, feature) {
        return Part::Cross(feature, child_class(meta, scope, element, said));
    }
    Part::Value(number, feature)
}

// What a child of the object of this class and number is.
fn child_part(
    meta: &Vocabulary<'_>,
    class: ClassId,
    number: usize,
    scope: &Scope<'_, '_>,
    element: &Element,
) -> Part
    ensures { part_in result ≡ child_part_in meta.now class (object_no number) (scope_of scope.now) (tag_of element.now) }
{
    match feature_named(meta.metamodel(), class, &element.name) {
        Some(feature) => feature_part(meta, feature, number, scope, element),
        None => Part::Unknown(asked_class(meta, scope, element)),
    }
}

// What a root is.
fn root_part(meta: &Vocabulary<'_>, element: &Element) -> Part
    ensures { (scope : List SomePrefix) → part_in result ≡ part_of_in meta.now InAround scope (tag_of element.now) }
{
    Part::Root(class_named(meta, element.space.bytes(), element.name.bytes()))
}

// What an element is.
fn part_of(meta: &Vocabulary<'_>, at: Where, scope: &Scope<'_, '_>, element: &Element) -> Part
    ensures { part_in result ≡ part_of_in meta.now (where_in at) (scope_of scope.now) (tag_of element.now) }
{
    match at {
        Where::AtRoot => {
            if is_around(element) {
                return Part::Around;
            }
            root_part(meta, element)
        }
        Where::InAround => root_part(meta, element),
        Where::InObject(class, number) => child_part(meta, class, number, scope, element),
        Where::InValue => Part::Inner,
    }
}

fn push_entry<'a>(out: &mut File<'a>, part: Part, element: &'a Element) -> Result<(), AllocError>
    requires { IsCounted out.old }
    ensures entries { OnOk result (entries_of out.new.entries.items ≡ entries_of out.old.entries.items ++ (record { part = part_in part; tag = tag_of element.now } ∷ [])) }
    ensures objects { OnOk result (out.new.objects ≡ (if is_object_of (part_in part) then suc out.old.objects else out.old.objects)) }
    ensures counted { OnOk result (IsCounted out.new) }
{
    out.entries.push(Entry { part, element })?;
    if is_object(part) {
        out.objects += 1;
    }
    Ok(())
}

// Whether an element there is passed over with all that it holds.
fn is_passed(meta: &Vocabulary<'_>, at: Where, element: &Element) -> bool
    ensures { result ≡ is_passed_in meta.now (where_in at) element.now.name }
{
    match at {
        Where::InObject(class, _) => is_skipped(meta, class, &element.name),
        _ => false,
    }
}

// Adds an element and all that it holds. Recursion goes as deep as the elements lie in one another.
#[cycle(walk)]
fn push_element<'a>(
    meta: &Vocabulary<'_>,
    levels: &'a Levels<'a>,
    out: &mut File<'a>,
    element: &'a Element,
    at: Where,
    outer: &Scope<'a, '_>,
) -> Result<(), AllocError>
    requires { IsCounted out.old }
    ensures entries { OnOk result (entries_of out.new.entries.items ≡ entries_of out.old.entries.items ++ (walk meta.now element.now).1 (where_in at) (scope_of outer.now) out.old.objects) }
    ensures counted { OnOk result (IsCounted out.new) }
{
    let scope = Scope::Within(declared_by(levels, element), &*outer);
    let part = part_of(meta, at, &scope, element);
    let number = out.objects;
    push_entry(out, part, element)?;
    match inside(part, number) {
        Some(inner) => push_children(
            meta,
            levels,
            out,
            element.children.as_slice(),
            inner,
            &scope,
        ),
        None => Ok(()),
    }
}

// What stands in an element.
#[cycle(walk)]
fn push_children<'a>(
    meta: &Vocabulary<'_>,
    levels: &'a Levels<'a>,
    out: &mut File<'a>,
    children: &'a [Child],
    at: Where,
    scope: &Scope<'a, '_>,
) -> Result<(), AllocError>
    requires { IsCounted out.old }
    ensures entries { OnOk result (entries_of out.new.entries.items ≡ entries_of out.old.entries.items
        ++ walk_all meta.now (where_in at) (scope_of scope.now) out.old.objects (map (walk_child meta.now) children.now)) }
    ensures counted { OnOk result (IsCounted out.new) }
{
    for i in 0..children.len() {
        push_child(meta, levels, out, &children[i], at, &*scope)?;
    }
    Ok(())
}

#[cycle(walk)]
fn push_child<'a>(
    meta: &Vocabulary<'_>,
    levels: &'a Levels<'a>,
    out: &mut File<'a>,
    child: &'a Child,
    at: Where,
    scope: &Scope<'a, '_>,
) -> Result<(), AllocError>
    requires { IsCounted out.old }
    ensures entries { OnOk result ((bs : List Below) →
        entries_of out.new.entries.items ++ walk_all meta.now (where_in at) (scope_of scope.now) out.new.objects bs
        ≡ entries_of out.old.entries.items ++ walk_all meta.now (where_in at) (scope_of scope.now) out.old.objects (walk_child meta.now child.now ∷ bs)) }
    ensures counted { OnOk result (IsCounted out.new) }
{
    match child {
        Child::Sub(element) => {
            if is_passed(meta, at, element) {
                return Ok(());
            }
            push_element(meta, levels, out, element, at, &*scope)
        }
        Child::Words(_) => Ok(()),
    }
}

/// The tables of a document's long lists of namespace declarations, by which its outline looks up prefixes.
pub fn declarations(alloc: Global, doc: &Doc) -> Result<Levels<'_>, AllocError> {
    levels_in(alloc, &doc.root, DEEPEST)
}

/// The outline of a document.
pub fn outline<'a>(
    alloc: Global,
    doc: &'a Doc,
    levels: &'a Levels<'a>,
    meta: &Vocabulary<'_>,
) -> Result<File<'a>, AllocError>
    ensures entries { IfOk result (λ file. entries_of file.entries.items ≡ outline_of meta.now doc.now) }
    ensures counted { IfOk result (λ file. IsCounted file) }
{
    let mut out = File {
        entries: Vec::new(alloc),
        objects: 0,
    };
    push_element(
        meta,
        levels,
        &mut out,
        &doc.root,
        Where::AtRoot,
        &Scope::Outside,
    )?;
    Ok(out)
}
