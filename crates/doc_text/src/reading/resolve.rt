// The tree of a document, with its names resolved.
ghost use Rattle.std.specs.Prelude.{◌≡◌, List, ◌∷◌, ◌++◌, ◌≤◌, [], IfOk, OnOk, map, length, ◌&&◌};
ghost use Rattle.std.specs.List.{list_all, list_any};
ghost use Rattle.std.specs.Option.{option_map};
ghost use Rattle.doc_text.specs.Encodings.{is_blank_byte};
ghost use Rattle.doc_text.specs.Namespaces.{attributes_of, children as children_of, declared_of, declared_prefix as declared_prefix_of, element as element_of, has_element as has_element_in, or_empty, resolved};
ghost use Rattle.doc_text.specs.RawTrees.{stack_of, tree_of, trees_of};
ghost use Rattle.doc_text.specs.Resolving.{is_node, space_in};
ghost use Rattle.doc_text.specs.Spaces.{uri};
ghost use Rattle.doc_text.specs.declared.state.Start.{Start};
ghost use Rattle.doc_text.specs.State.{tags};

use crate::declarations::{is_declaration, is_default};
use crate::encoding::is_blank;
use crate::reading::names::{Space, attribute_space, uri_of};
use crate::reading::open::Open;
use crate::reading::raw::{RawTree, RawTrees};
use crate::state::{Pair, Start};
use crate::tree::{Attribute, Child, Element, Prefix};
use atl_base::text::Text;
use sqlite_items::{Boxed, Items};
use std::alloc::{AllocError, Global};

// The name of a namespace, empty where there is none.
fn space_text(alloc: Global, space: Option<Space>) -> Result<Text, AllocError>
    ensures { IfOk result (λ t. t ≡ or_empty (option_map uri space.entry)) }
{
    match space {
        Some(space) => space.text(alloc),
        None => Ok(Text::new(alloc)),
    }
}

// The namespaces of the attributes of a tag. Those of declarations are left empty.
fn attribute_spaces(alloc: Global, tag: &Start, outer: &[Open]) -> Result<Vec<Text>, AllocError>
    ensures { IfOk result (λ spaces. spaces.items ≡ map (space_in (tag.now ∷ tags (stack_of outer.now))) tag.now.pairs) }
{
    let mut spaces = Vec::with_capacity(alloc, tag.pairs.len())?;
    for pair in tag.pairs.as_slice() {
        if is_declaration(&pair.name) {
            spaces.push(Text::new(alloc))?;
        } else {
            spaces.push(space_text(alloc, attribute_space(&pair.name, tag, outer))?)?;
        }
    }
    Ok(spaces)
}

// The declaration that an attribute is.
fn declaration(alloc: Global, pair: Pair) -> Prefix
    ensures { result ≡ record { prefix = declared_prefix_of pair.name; uri = pair.value } }
{
    let Pair { name, value } = pair;
    if is_default(&name) {
        return Prefix {
            prefix: Text::new(alloc),
            uri: value,
        };
    }
    Prefix {
        prefix: name.local,
        uri: value,
    }
}

// The declarations and the attributes of a tag.
#[derive(Drop)]
struct Parts {
    declared: Vec<Prefix>,
    attributes: Vec<Attribute>,
}

// Adds an attribute with its namespace to the declarations or to the attributes.
fn push_part(alloc: Global, parts: &mut Parts, pair: Pair, space: Text) -> Result<(), AllocError>
    ensures declared { OnOk result (parts.new.declared.items ≡ parts.old.declared.items ++ declared_of (pair ∷ [])) }
    ensures attributes { OnOk result ((open_tags : List Start) → space ≡ space_in open_tags pair
        → parts.new.attributes.items ≡ parts.old.attributes.items ++ attributes_of open_tags (pair ∷ [])) }
{
    if is_declaration(&pair.name) {
        parts.declared.push(declaration(alloc, pair))?;
        return Ok(());
    }
    let Pair { name, value } = pair;
    parts.attributes.push(Attribute {
        space,
        name: name.local,
        value,
    })?;
    Ok(())
}

fn count_declarations(pairs: &[Pair]) -> usize
    ensures { result ≤ length pairs.now }
{
    pairs
        .iter()
        .filter(|pair| is_declaration(&pair.name))
        .count()
}

// The attributes of a tag and their namespaces, in the order of the tag.
fn split(alloc: Global, pairs: Items<Pair>, spaces: Vec<Text>) -> Result<Parts, AllocError>
    requires { length spaces.items ≡ length pairs }
    ensures declared { IfOk result (λ parts. parts.declared.items ≡ declared_of pairs) }
    ensures attributes { IfOk result (λ parts. (open_tags : List Start) → spaces.items ≡ map (space_in open_tags) pairs
        → parts.attributes.items ≡ attributes_of open_tags pairs) }
{
    let mut pairs = pairs;
    let mut spaces = spaces;
    let declarations = count_declarations(pairs.as_slice());
    let mut parts = Parts {
        declared: Vec::with_capacity(alloc, declarations)?,
        attributes: Vec::with_capacity(alloc, pairs.len() - declarations)?,
    };
    while let Some(pair) = pairs.pop() {
        let Some(space) = spaces.pop() else {
            unreachable!()
        };
        push_part(alloc, &mut parts, pair, space)?;
    }
    parts.declared.reverse();
    parts.attributes.reverse();
    Ok(parts)
}

// The element of a start tag and what stands in it.
fn element(
    alloc: Global,
    outer: &[Open],
    tag: Boxed<Start>,
    children: Vec<Child>,
) -> Result<Element, AllocError>
    ensures { IfOk result (λ e. e ≡ element_of (tags (stack_of outer.now)) tag children.items) }
{
    let start = tag.get();
    let space = space_text(alloc, uri_of(&start.name.prefix, start, outer))?;
    let spaces = attribute_spaces(alloc, start, outer)?;
    let Start { at, name, pairs } = tag.into_inner();
    let parts = split(alloc, pairs.into_items(), spaces)?;
    Ok(Element {
        space,
        name: name.local,
        declared: Items::from_vec(parts.declared),
        attributes: Items::from_vec(parts.attributes),
        children: Items::from_vec(children),
        place: at,
    })
}

// Whether an element is among them.
fn has_element(children: &[RawTree]) -> bool
    ensures { result ≡ list_any (λ t. is_node (tree_of t)) children.now }
{
    children.iter().any(|tree| is_element(tree))
}

fn is_element(tree: &RawTree) -> bool
    ensures { result ≡ is_node (tree_of tree.now) }
{
    match tree {
        RawTree::Node(_, _) => true,
        RawTree::Words(_) => false,
    }
}

// How many children are kept, beside elements those that are elements: a few texts more may be.
fn count_kept(children: &[RawTree], beside: bool) -> usize
    ensures { result ≤ length children.now }
{
    if !beside {
        return children.len();
    }
    children.iter().filter(|tree| is_element(tree)).count()
}

fn is_blank_text(text: &Text) -> bool
    ensures { result ≡ list_all is_blank_byte text.now }
{
    text.bytes().iter().all(|b| is_blank(*b))
}

// Whether a text is dropped: one that is blank, beside elements.
fn is_dropped(text: &Text, beside: bool) -> bool
    ensures { result ≡ (beside && list_all is_blank_byte text.now) }
{
    beside && is_blank_text(text)
}

// What stands in an element, with the names resolved. Blank text beside elements is dropped.
#[cycle(resolve)]
fn resolve_children(
    alloc: Global,
    outer: &mut Items<Open>,
    children: Items<RawTree>,
) -> Result<Vec<Child>, AllocError>
    ensures children { IfOk result (λ cs. cs.items ≡ children_of (tags (stack_of outer.old)) (has_element_in (trees_of children)) (trees_of children)) }
    ensures outer { OnOk result (outer.new ≡ outer.old) }
{
    let mut children = children;
    let beside = has_element(children.as_slice());
    let mut resolved = Vec::with_capacity(alloc, count_kept(children.as_slice(), beside))?;
    while let Some(tree) = children.pop() {
        match tree {
            RawTree::Node(tag, inner) => {
                let element = resolve_element(alloc, outer, tag, inner)?;
                resolved.push(Child::Sub(element))?;
            }
            RawTree::Words(text) => {
                if !is_dropped(&text, beside) {
                    resolved.push(Child::Words(text))?;
                }
            }
        }
    }
    resolved.reverse();
    Ok(resolved)
}

// An element in the open ones, the innermost last.
#[cycle(resolve)]
fn resolve_element(
    alloc: Global,
    outer: &mut Items<Open>,
    tag: Boxed<Start>,
    children: Items<RawTree>,
) -> Result<Element, AllocError>
    ensures element { IfOk result (λ e. let around = tags (stack_of outer.old) in
        e ≡ element_of around tag (children_of (tag ∷ around) (has_element_in (trees_of children)) (trees_of children))) }
    ensures outer { OnOk result (outer.new ≡ outer.old) }
{
    outer.push(Open {
        tag,
        children: RawTrees::new(alloc),
    })?;
    let children = resolve_children(alloc, outer, children)?;
    match outer.pop() {
        Some(opened) => element(alloc, outer.as_slice(), opened.tag, children),
        None => unreachable!(),
    }
}

/// The root of a document, with its names resolved. Recursion goes as deep as the elements lie in one another.
pub fn resolve(
    alloc: Global,
    tag: Boxed<Start>,
    children: Items<RawTree>,
) -> Result<Element, AllocError>
    ensures { IfOk result (λ e. resolved tag (trees_of children) ≡ e) }
{
    let mut outer = Items::new(alloc);
    resolve_element(alloc, &mut outer, tag, children)
}
