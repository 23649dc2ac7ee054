// Elements as Ecore writes them: attributes by name, flags, names behind prefixes.
ghost use Rattle.std.specs.Prelude.{◌≡◌, find};
ghost use Rattle.std.specs.Option.{option_copied};
ghost use Rattle.std.specs.List.{list_all};
ghost use Rattle.xmi_text.specs.Markup.{is_called as is_called_of, given_in as given_in_of, given as given_of, or_empty, flag as flag_of, is_bad_flag as is_bad_flag_of, is_blank as is_blank_of, is_loud as is_loud_of, has_text as has_text_of};
ghost use Rattle.doc_text.specs.declared.tree.Child.{out-Child};

use atl_base::text::Text;
use doc_text::tree::{Attribute, Child, Element};

/// The namespace of Ecore's elements and types.
pub const ECORE: &str = "http://www.eclipse.org/emf/2002/Ecore";

/// The namespace of `xsi:type`.
pub const XSI: &str = "http://www.w3.org/2001/XMLSchema-instance";

/// Whether an attribute is in this namespace and has this name.
pub fn is_called(space: &str, name: &str, attribute: &Attribute) -> bool
    ensures { result ≡ is_called_of space.now name.now attribute.now }
{
    attribute.space.as_str() == space && attribute.name.as_str() == name
}

// The first attribute that is called so.
fn called<'a>(space: &str, name: &str, element: &'a Element) -> Option<&'a Attribute>
    ensures { option_copied result ≡ find (is_called_of space.now name.now) element.now.attributes }
{
    element
        .attributes
        .as_slice()
        .iter()
        .find(|a| is_called(space, name, a))
}

/// The value of an attribute of this namespace and name.
pub fn given_in<'a>(space: &str, name: &str, element: &'a Element) -> Option<&'a Text>
    ensures { option_copied result ≡ given_in_of space.now name.now element.now }
{
    match called(space, name, element) {
        Some(attribute) => Some(&attribute.value),
        None => None,
    }
}

/// The value of an attribute without a namespace.
pub fn given<'a>(name: &str, element: &'a Element) -> Option<&'a Text>
    ensures { option_copied result ≡ given_of name.now element.now }
{
    given_in("", name, element)
}

/// The same, and empty where there is none.
pub fn given_text<'a>(name: &str, element: &'a Element) -> &'a str
    ensures { result.now ≡ or_empty (given_of name.now element.now) }
{
    match given(name, element) {
        Some(text) => text.as_str(),
        None => "",
    }
}

/// Whether a flag is set.
pub fn flag(name: &str, element: &Element) -> bool
    ensures { result ≡ flag_of name.now element.now }
{
    match given(name, element) {
        Some(text) => text.as_str() == "true",
        None => false,
    }
}

/// Whether a flag is given and neither `true` nor `false`.
pub fn is_bad_flag(element: &Element, name: &str) -> bool
    ensures { result ≡ is_bad_flag_of element.now name.now }
{
    match given(name, element) {
        Some(text) => !(text.as_str() == "true" || text.as_str() == "false"),
        None => false,
    }
}

/// Whether a byte is a space, a tab, a carriage return or a line feed.
pub fn is_blank(b: u8) -> bool
    ensures { result ≡ is_blank_of b }
{
    b == b' ' || b == b'\t' || b == b'\n' || b == b'\r'
}

/// Whether all of a text is blank.
pub fn is_all_blank(bytes: &[u8]) -> bool
    ensures { result ≡ list_all is_blank_of bytes.now }
{
    bytes.iter().all(|b| is_blank(*b))
}

fn is_loud(child: &Child) -> bool
    ensures { result ≡ is_loud_of (out-Child child.now) }
{
    match child {
        Child::Sub(_) => false,
        Child::Words(text) => !is_all_blank(text.bytes()),
    }
}

/// Whether text that is not blank stands in an element.
pub fn has_text(element: &Element) -> bool
    ensures { result ≡ has_text_of element.now }
{
    element.children.as_slice().iter().any(|c| is_loud(c))
}
