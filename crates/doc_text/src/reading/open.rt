// The elements that are open.
ghost use Rattle.std.specs.Prelude.{◌≡◌, IfOk, IsTrue, encode_utf8};
ghost use Rattle.atl_base.specs.XmlText.{is_xml_character};
ghost use Rattle.doc_text.specs.RawTrees.{open_of};
ghost use Rattle.doc_text.specs.State.{grow as grow_of};

use crate::reading::raw::{RawTrees, add_char};
use crate::state::Start;
use sqlite_items::Boxed;
use std::alloc::{AllocError, Global};

/// An open element, with what has been read in it.
#[derive(Debug, Drop)]
pub struct Open {
    pub tag: Boxed<Start>,
    pub children: RawTrees,
}

/// A character of text more in an element.
pub fn grow(alloc: Global, element: Open, c: char) -> Result<Open, AllocError>
    requires { IsTrue (is_xml_character c) }
    ensures { IfOk result (λ f. open_of f ≡ grow_of (open_of element) (encode_utf8 c)) }
{
    let mut element = element;
    add_char(alloc, &mut element.children, c)?;
    Ok(element)
}
