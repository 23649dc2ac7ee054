// Whether a document is small enough to be read: a count of its elements and attributes.
ghost use Rattle.std.specs.Prelude.{◌≡◌, ◌≤◌, ◌+◌, IsTrue, IfSome, map};
ghost use Rattle.doc_text.specs.Sizes.{size, size_of_element, size_of_child, total};

use doc_text::tree::{Child, Doc, Element};

/// So many elements and attributes a document may have.
const MOST: usize = 4294967294;

// What is left of a number after an element and all in it.
#[cycle(size)]
fn past_element(element: &Element, left: usize) -> Option<usize>
    ensures { IfSome result (λ rest. rest + size_of_element element.now ≡ left) }
{
    let own = element.attributes.len();
    if left <= own {
        return None;
    }
    past_children(element.children.as_slice(), left - own - 1)
}

#[cycle(size)]
fn past_children(children: &[Child], left: usize) -> Option<usize>
    ensures { IfSome result (λ rest. rest + total (map size_of_child children.now) ≡ left) }
{
    let mut rest = left;
    for i in 0..children.len() {
        rest = past_child(&children[i], rest)?;
    }
    Some(rest)
}

#[cycle(size)]
fn past_child(child: &Child, left: usize) -> Option<usize>
    ensures { IfSome result (λ rest. rest + size_of_child child.now ≡ left) }
{
    match child {
        Child::Sub(element) => past_element(element, left),
        Child::Words(_) => Some(left),
    }
}

pub(crate) fn is_small(doc: &Doc) -> bool
    ensures { IsTrue result → size doc.now ≤ 4294967294 }
{
    past_element(&doc.root, MOST).is_some()
}
