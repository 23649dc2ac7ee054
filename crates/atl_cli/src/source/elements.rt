// Elements: one that stands alone, and one in a line of its own.
ghost use Rattle.std.specs.Prelude.{◌≡◌, ◌≢◌, ◌++◌, List, IsTrue, IfOk, MatchOption, codes};
ghost use Rattle.atl_cli.specs.Plain.{is_plain_name};
ghost use Rattle.atl_cli.specs.Source.{IsElement, NoElement, NoLine, NoLone, attributes_text, line_text, lone_text};

use super::SourceElement;
use super::attributes::{attributes_at, names_differ, text_of};
use super::front::{behind, behind_header, class_at};
use std::alloc::{AllocError, Global};

// The rest of the tag of an element of this class, and what follows it.
fn element_at<'a>(
    alloc: Global,
    class: &[u8],
    bytes: &'a [u8],
) -> Result<Option<(SourceElement, &'a [u8])>, AllocError>
    requires { IsTrue (is_plain_name class.now) }
    ensures { IfOk result (λ o. MatchOption o (NoElement class.now bytes.now)
        (λ x. IsElement x.0 × (x.0.class ≡ class.now) × (bytes.now ≡ attributes_text x.0.attributes ++ (codes "/>" ++ x.1.now)))) }
{
    let (attributes, rest) = attributes_at(alloc, bytes)?;
    let Some(rest) = behind(rest, b"/>") else {
        return Ok(None);
    };
    if !names_differ(alloc, attributes.as_slice())? {
        return Ok(None);
    }
    let Some(class) = text_of(alloc, class)? else {
        return Ok(None);
    };
    Ok(Some((SourceElement { class, attributes }, rest)))
}

// An element in a line of its own, and what follows it.
pub(crate) fn line_at<'a>(
    alloc: Global,
    bytes: &'a [u8],
    space: &[u8],
) -> Result<Option<(SourceElement, &'a [u8])>, AllocError>
    ensures { IfOk result (λ o. MatchOption o (NoLine space.now bytes.now) (λ x. IsElement x.0 × (bytes.now ≡ line_text space.now x.0 ++ x.1.now))) }
{
    let Some(rest) = behind(bytes, b"  ") else {
        return Ok(None);
    };
    let Some((class, rest)) = class_at(rest, space) else {
        return Ok(None);
    };
    let Some((element, rest)) = element_at(alloc, class, rest)? else {
        return Ok(None);
    };
    let Some(rest) = behind(rest, b"\n") else {
        return Ok(None);
    };
    Ok(Some((element, rest)))
}

// An element that stands alone, and what follows it.
pub(crate) fn lone_at<'a>(
    alloc: Global,
    bytes: &'a [u8],
    space: &[u8],
) -> Result<Option<(SourceElement, &'a [u8])>, AllocError>
    ensures { IfOk result (λ o. MatchOption o (NoLone space.now bytes.now) (λ x. IsElement x.0 × (bytes.now ≡ lone_text space.now x.0 ++ x.1.now))) }
{
    let Some((class, rest)) = class_at(bytes, space) else {
        return Ok(None);
    };
    let Some(rest) = behind_header(rest, space) else {
        return Ok(None);
    };
    element_at(alloc, class, rest)
}
