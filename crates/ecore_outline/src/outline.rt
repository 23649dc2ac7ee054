// The outline of a file: all its elements that a metamodel is made of, in document order, each with the part that it has.
ghost use Rattle.std.specs.Prelude.{◌≡◌, [], ◌∷◌, ◌++◌, ◌&&◌, not, is_some, codes, if◌then◌else◌, OnOk, IfOk, List};
ghost use Rattle.doc_text.specs.declared.tree.Element.{Element as SomeElement};
ghost use Rattle.xmi_text.specs.Markup.{given as given_of, site, sub_elements, is_typed as is_typed_of, names_local as names_local_of, names as names_of, uri_in as uri_in_of};
ghost use Rattle.ecore_outline.specs.Outline.{entry, other_children, feature_children, feature_outline as feature_outline_of, feature as feature_of, class_children, enum_children, classifier as classifier_of, package_children, package_outline as package_outline_of, around_children, outline as outline_of, is_package as is_package_of, is_around as is_around_of, is_named as is_named_of, is_passed as is_passed_of, is_generic as is_generic_of, is_quiet as is_quiet_of, is_skipped as is_skipped_of, has_type as has_type_of};
ghost use Rattle.xmi_text.specs.Scopes.{scope_of, Leaves1, Leaves2, Leaves3, Leaves4, Leaves5};
ghost use Rattle.ecore_outline.specs.Entries.{entries_of};

use doc_text::XMI;
use doc_text::tree::{Child, Doc, Element};
use std::alloc::{AllocError, Global};
use xmi_text::level::Levels;
use xmi_text::markup::{ECORE, flag, given};
use xmi_text::scope::{Scope, is_typed, root_scope, within};

/// The part that an element has in a file.
#[derive(Clone, Copy, Debug, PartialEq, Eq)]
pub enum Role {
    /// The element `xmi:XMI` around packages.
    Around,
    Package,
    Class,
    Enum,
    /// A data type of the file's own.
    Data,
    Literal,
    Attribute,
    Reference,
    /// An attribute that is derived, volatile or transient.
    SkippedAttribute,
    /// Such a reference.
    SkippedReference,
    /// A child that names a supertype.
    Super,
    /// A child that stands for the type of a feature.
    TypeOf,
    SkippedType,
    SubPackage,
    /// What is not of the form.
    Stray,
}

/// An element, its part and its declarations in force.
#[derive(Clone, Copy)]
pub struct Entry<'a> {
    pub role: Role,
    pub element: &'a Element,
    pub scope: Scope<'a>,
}

// Adds an element at its scope.
fn push_entry<'a>(
    out: &mut Vec<Entry<'a>>,
    role: Role,
    element: &'a Element,
    scope: Scope<'a>,
) -> Result<(), AllocError>
    ensures { OnOk result (entries_of out.new.items ≡ entries_of out.old.items ++ (entry role (record { element = element.now; scope = scope_of scope.entry }) ∷ [])) }
{
    out.push(Entry {
        role,
        element,
        scope,
    })?;
    Ok(())
}

fn is_named(name: &str, element: &Element) -> bool
    ensures { result ≡ is_named_of name.now element.now }
{
    element.name.as_str() == name
}

fn is_passed(element: &Element) -> bool
    ensures { result ≡ is_passed_of element.now }
{
    is_named("eAnnotations", element) || is_named("eOperations", element)
}

/// Whether the name is one of Ecore's generics.
pub fn is_generic(name: &str) -> bool
    ensures { result ≡ is_generic_of name.now }
{
    name == "eTypeParameters" || name == "eGenericType" || name == "eGenericSuperTypes"
}

fn is_quiet(element: &Element) -> bool
    ensures { result ≡ is_quiet_of element.now }
{
    is_passed(element) || is_generic(element.name.as_str())
}

fn is_skipped(element: &Element) -> bool
    ensures { result ≡ is_skipped_of element.now }
{
    flag("derived", element) || flag("volatile", element) || flag("transient", element)
}

fn has_type(element: &Element) -> bool
    ensures { result ≡ has_type_of element.now }
{
    given("eType", element).is_some()
}

// A child that stands for nothing by itself.
fn push_other_child<'a>(
    out: &mut Vec<Entry<'a>>,
    outer: Scope<'a>,
    element: &'a Element,
) -> Result<(), AllocError>
    requires { Leaves1 outer }
    ensures { OnOk result ((es : List SomeElement) → entries_of out.new.items ++ other_children (scope_of outer.entry) es
        ≡ entries_of out.old.items ++ other_children (scope_of outer.entry) (element.now ∷ es)) }
{
    if is_quiet(element) {
        return Ok(());
    }
    push_entry(out, Role::Stray, element, within(outer, element))
}

fn push_other_children<'a>(
    out: &mut Vec<Entry<'a>>,
    outer: Scope<'a>,
    children: &'a [Child],
) -> Result<(), AllocError>
    requires { Leaves1 outer }
    ensures { OnOk result (entries_of out.new.items ≡ entries_of out.old.items ++ other_children (scope_of outer.entry) (sub_elements children.now)) }
{
    for i in 0..children.len() {
        match &children[i] {
            Child::Sub(element) => push_other_child(out, outer, element)?,
            Child::Words(_) => {}
        }
    }
    Ok(())
}

// The children of a feature. Adds one, and says whether the feature has a type now.
fn push_feature_child<'a>(
    out: &mut Vec<Entry<'a>>,
    role: Role,
    typed: bool,
    outer: Scope<'a>,
    element: &'a Element,
) -> Result<bool, AllocError>
    requires { Leaves2 outer }
    ensures { IfOk result (λ t. (es : List SomeElement) → entries_of out.new.items ++ feature_children role t (scope_of outer.entry) es
        ≡ entries_of out.old.items ++ feature_children role typed (scope_of outer.entry) (element.now ∷ es)) }
{
    if is_quiet(element) {
        return Ok(typed);
    }
    let scope = within(outer, element);
    if is_type_child(typed, element) {
        push_entry(out, role, element, scope)?;
        push_other_children(out, scope, element.children.as_slice())?;
        return Ok(true);
    }
    push_entry(out, Role::Stray, element, scope)?;
    Ok(typed)
}

// Whether a child stands for the type of a feature, which may have one already.
fn is_type_child(typed: bool, element: &Element) -> bool
    ensures { result ≡ (is_named_of (codes "eType") element.now && not typed) }
{
    is_named("eType", element) && !typed
}

fn push_feature_children<'a>(
    out: &mut Vec<Entry<'a>>,
    role: Role,
    typed: bool,
    outer: Scope<'a>,
    children: &'a [Child],
) -> Result<(), AllocError>
    requires { Leaves2 outer }
    ensures { OnOk result (entries_of out.new.items ≡ entries_of out.old.items ++ feature_children role typed (scope_of outer.entry) (sub_elements children.now)) }
{
    let mut has_type = typed;
    for i in 0..children.len() {
        match &children[i] {
            Child::Sub(element) => {
                has_type = push_feature_child(out, role, has_type, outer, element)?;
            }
            Child::Words(_) => {}
        }
    }
    Ok(())
}

fn push_feature_outline<'a>(
    out: &mut Vec<Entry<'a>>,
    role: Role,
    type_role: Role,
    element: &'a Element,
    scope: Scope<'a>,
) -> Result<(), AllocError>
    requires { Leaves2 scope }
    ensures { OnOk result (entries_of out.new.items ≡ entries_of out.old.items ++ feature_outline_of role type_role (record { element = element.now; scope = scope_of scope.entry })) }
{
    push_entry(out, role, element, scope)?;
    let typed = has_type(element);
    push_feature_children(out, type_role, typed, scope, element.children.as_slice())
}

// An attribute or a reference, of the one role or, where it is left out, of the other.
fn push_kept_or_skipped<'a>(
    out: &mut Vec<Entry<'a>>,
    kept: Role,
    skipped: Role,
    element: &'a Element,
    scope: Scope<'a>,
) -> Result<(), AllocError>
    requires { Leaves2 scope }
    ensures { OnOk result (entries_of out.new.items ≡ entries_of out.old.items ++ (if is_skipped_of element.now
        then feature_outline_of skipped Role.SkippedType (record { element = element.now; scope = scope_of scope.entry })
        else feature_outline_of kept Role.TypeOf (record { element = element.now; scope = scope_of scope.entry }))) }
{
    if is_skipped(element) {
        return push_feature_outline(out, skipped, Role::SkippedType, element, scope);
    }
    push_feature_outline(out, kept, Role::TypeOf, element, scope)
}

fn push_feature<'a>(
    out: &mut Vec<Entry<'a>>,
    element: &'a Element,
    scope: Scope<'a>,
) -> Result<(), AllocError>
    requires { Leaves2 scope }
    ensures { OnOk result (entries_of out.new.items ≡ entries_of out.old.items ++ feature_of (record { element = element.now; scope = scope_of scope.entry })) }
{
    if is_typed("EAttribute", element, &scope) {
        return push_kept_or_skipped(out, Role::Attribute, Role::SkippedAttribute, element, scope);
    }
    if is_typed("EReference", element, &scope) {
        return push_kept_or_skipped(out, Role::Reference, Role::SkippedReference, element, scope);
    }
    push_entry(out, Role::Stray, element, scope)
}

fn has_reference(element: &Element) -> bool
    ensures { result ≡ is_some (given_of (codes "href") element.now) }
{
    given("href", element).is_some()
}

// Whether a child names a supertype.
fn is_super(element: &Element) -> bool
    ensures { result ≡ (is_named_of (codes "eSuperTypes") element.now && is_some (given_of (codes "href") element.now)) }
{
    is_named("eSuperTypes", element) && has_reference(element)
}

fn push_class_child<'a>(
    out: &mut Vec<Entry<'a>>,
    outer: Scope<'a>,
    element: &'a Element,
) -> Result<(), AllocError>
    requires { Leaves3 outer }
    ensures { OnOk result ((es : List SomeElement) → entries_of out.new.items ++ class_children (scope_of outer.entry) es
        ≡ entries_of out.old.items ++ class_children (scope_of outer.entry) (element.now ∷ es)) }
{
    let scope = within(outer, element);
    if is_named("eStructuralFeatures", element) {
        return push_feature(out, element, scope);
    }
    if is_super(element) {
        push_entry(out, Role::Super, element, scope)?;
        return push_other_children(out, scope, element.children.as_slice());
    }
    if is_quiet(element) {
        return Ok(());
    }
    push_entry(out, Role::Stray, element, scope)
}

fn push_enum_child<'a>(
    out: &mut Vec<Entry<'a>>,
    outer: Scope<'a>,
    element: &'a Element,
) -> Result<(), AllocError>
    requires { Leaves3 outer }
    ensures { OnOk result ((es : List SomeElement) → entries_of out.new.items ++ enum_children (scope_of outer.entry) es
        ≡ entries_of out.old.items ++ enum_children (scope_of outer.entry) (element.now ∷ es)) }
{
    let scope = within(outer, element);
    if is_named("eLiterals", element) {
        push_entry(out, Role::Literal, element, scope)?;
        return push_other_children(out, scope, element.children.as_slice());
    }
    if is_quiet(element) {
        return Ok(());
    }
    push_entry(out, Role::Stray, element, scope)
}

fn push_class_children<'a>(
    out: &mut Vec<Entry<'a>>,
    outer: Scope<'a>,
    children: &'a [Child],
) -> Result<(), AllocError>
    requires { Leaves3 outer }
    ensures { OnOk result (entries_of out.new.items ≡ entries_of out.old.items ++ class_children (scope_of outer.entry) (sub_elements children.now)) }
{
    for i in 0..children.len() {
        match &children[i] {
            Child::Sub(element) => push_class_child(out, outer, element)?,
            Child::Words(_) => {}
        }
    }
    Ok(())
}

fn push_enum_children<'a>(
    out: &mut Vec<Entry<'a>>,
    outer: Scope<'a>,
    children: &'a [Child],
) -> Result<(), AllocError>
    requires { Leaves3 outer }
    ensures { OnOk result (entries_of out.new.items ≡ entries_of out.old.items ++ enum_children (scope_of outer.entry) (sub_elements children.now)) }
{
    for i in 0..children.len() {
        match &children[i] {
            Child::Sub(element) => push_enum_child(out, outer, element)?,
            Child::Words(_) => {}
        }
    }
    Ok(())
}

fn push_classifier<'a>(
    out: &mut Vec<Entry<'a>>,
    element: &'a Element,
    scope: Scope<'a>,
) -> Result<(), AllocError>
    requires { Leaves3 scope }
    ensures { OnOk result (entries_of out.new.items ≡ entries_of out.old.items ++ classifier_of (record { element = element.now; scope = scope_of scope.entry })) }
{
    let children = element.children.as_slice();
    if is_typed("EClass", element, &scope) {
        push_entry(out, Role::Class, element, scope)?;
        return push_class_children(out, scope, children);
    }
    if is_typed("EEnum", element, &scope) {
        push_entry(out, Role::Enum, element, scope)?;
        return push_enum_children(out, scope, children);
    }
    if is_typed("EDataType", element, &scope) {
        push_entry(out, Role::Data, element, scope)?;
        return push_other_children(out, scope, children);
    }
    push_entry(out, Role::Stray, element, scope)
}

fn push_package_child<'a>(
    out: &mut Vec<Entry<'a>>,
    outer: Scope<'a>,
    element: &'a Element,
) -> Result<(), AllocError>
    requires { Leaves4 outer }
    ensures { OnOk result ((es : List SomeElement) → entries_of out.new.items ++ package_children (scope_of outer.entry) es
        ≡ entries_of out.old.items ++ package_children (scope_of outer.entry) (element.now ∷ es)) }
{
    let scope = within(outer, element);
    if is_named("eClassifiers", element) {
        return push_classifier(out, element, scope);
    }
    if is_named("eSubpackages", element) {
        return push_entry(out, Role::SubPackage, element, scope);
    }
    if is_quiet(element) {
        return Ok(());
    }
    push_entry(out, Role::Stray, element, scope)
}

fn push_package_children<'a>(
    out: &mut Vec<Entry<'a>>,
    outer: Scope<'a>,
    children: &'a [Child],
) -> Result<(), AllocError>
    requires { Leaves4 outer }
    ensures { OnOk result (entries_of out.new.items ≡ entries_of out.old.items ++ package_children (scope_of outer.entry) (sub_elements children.now)) }
{
    for i in 0..children.len() {
        match &children[i] {
            Child::Sub(element) => push_package_child(out, outer, element)?,
            Child::Words(_) => {}
        }
    }
    Ok(())
}

fn push_package<'a>(
    out: &mut Vec<Entry<'a>>,
    element: &'a Element,
    scope: Scope<'a>,
) -> Result<(), AllocError>
    requires { Leaves4 scope }
    ensures { OnOk result (entries_of out.new.items ≡ entries_of out.old.items ++ package_outline_of (record { element = element.now; scope = scope_of scope.entry })) }
{
    push_entry(out, Role::Package, element, scope)?;
    push_package_children(out, scope, element.children.as_slice())
}

fn is_package(element: &Element) -> bool
    ensures { result ≡ is_package_of element.now }
{
    element.space.as_str() == ECORE && is_named("EPackage", element)
}

fn is_around(element: &Element) -> bool
    ensures { result ≡ is_around_of element.now }
{
    element.space.as_str() == XMI && is_named("XMI", element)
}

fn push_around_child<'a>(
    out: &mut Vec<Entry<'a>>,
    outer: Scope<'a>,
    element: &'a Element,
) -> Result<(), AllocError>
    requires { Leaves5 outer }
    ensures { OnOk result ((es : List SomeElement) → entries_of out.new.items ++ around_children (scope_of outer.entry) es
        ≡ entries_of out.old.items ++ around_children (scope_of outer.entry) (element.now ∷ es)) }
{
    let scope = within(outer, element);
    if is_package(element) {
        return push_package(out, element, scope);
    }
    push_entry(out, Role::Stray, element, scope)
}

fn push_around_children<'a>(
    out: &mut Vec<Entry<'a>>,
    outer: Scope<'a>,
    children: &'a [Child],
) -> Result<(), AllocError>
    requires { Leaves5 outer }
    ensures { OnOk result (entries_of out.new.items ≡ entries_of out.old.items ++ around_children (scope_of outer.entry) (sub_elements children.now)) }
{
    for i in 0..children.len() {
        match &children[i] {
            Child::Sub(element) => push_around_child(out, outer, element)?,
            Child::Words(_) => {}
        }
    }
    Ok(())
}

/// The outline of a document.
pub fn outline<'a>(
    alloc: Global,
    doc: &'a Doc,
    levels: &'a Levels<'a>,
) -> Result<Vec<Entry<'a>>, AllocError>
    ensures { IfOk result (λ file. entries_of file.items ≡ outline_of doc.now) }
{
    let mut out = Vec::new(alloc);
    let root = &doc.root;
    push_root(&mut out, root, root_scope(levels, root))?;
    Ok(out)
}

fn push_root<'a>(
    out: &mut Vec<Entry<'a>>,
    root: &'a Element,
    scope: Scope<'a>,
) -> Result<(), AllocError>
    requires leaves { Leaves5 scope }
    requires scope { scope_of scope ≡ root.now.declared ++ [] }
    ensures { OnOk result (entries_of out.new.items ≡ entries_of out.old.items ++ outline_of (record { root = root.now })) }
{
    if is_package(root) {
        return push_package(out, root, scope);
    }
    if is_around(root) {
        push_entry(out, Role::Around, root, scope)?;
        return push_around_children(out, scope, root.children.as_slice());
    }
    push_entry(out, Role::Stray, root, scope)
}
