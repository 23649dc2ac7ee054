// The tree of a document.
use atl_base::place::Place;
use atl_base::text::Text;
use sqlite_items::Items;

/// A document: its root element.
#[derive(Debug, Drop)]
pub struct Doc {
    pub root: Element,
}

/// An element. `space` is the namespace that its name is in, and empty where it is in none.
#[derive(Debug, Drop)]
#[cycle(element)]
pub struct Element {
    pub space: Text,
    pub name: Text,
    /// The namespace declarations of this element, in their order.
    pub declared: Items<Prefix>,
    /// The attributes in their order. Namespace declarations are none.
    pub attributes: Items<Attribute>,
    pub children: Items<Child>,
    /// The place of the element's `<`.
    pub place: Place,
}

/// A namespace declaration. The prefix of the default namespace is empty.
#[derive(Debug, Drop)]
pub struct Prefix {
    pub prefix: Text,
    pub uri: Text,
}

/// An attribute. `space` is the namespace that its name is in, and empty where it is in none.
#[derive(Debug, Drop)]
pub struct Attribute {
    pub space: Text,
    pub name: Text,
    pub value: Text,
}

/// What stands in an element: another one, or text, of which no two neighbour.
#[derive(Debug, Drop)]
#[cycle(element)]
pub enum Child {
    Sub(Element),
    Words(Text),
}
