// What stands at the front of bytes, without memory: literals, names, values and an element's first part.
ghost use Rattle.std.specs.Prelude.{◌≡◌, ℕ, ◌+◌, ◌<◌, ◌≤◌, List, IsTrue, ◌↔◌, length, take, drop};
ghost use Rattle.std.specs.List.{prefix_len};
ghost use Rattle.std.specs.Option.{option_map};
ghost use Rattle.atl_cli.specs.Plain.{continues_name as continues_name_of};
ghost use Rattle.atl_cli.specs.Source.{stands_in_value as stands_in_value_of, behind as behind_of, begins as begins_of, name_at as name_at_of, class_at as class_at_of, behind_header as behind_header_of, parts_at as parts_at_of, IsEnd};

use crate::plain::{begins_name, continues_name};

// The bytes behind a literal.
#[tactic(auto, using(crate::proofs::SourceFronts::behind_is))]
pub(crate) fn behind<'a>(bytes: &'a [u8], front: &[u8]) -> Option<&'a [u8]>
    ensures { option_map (λ rest. rest.now) result ≡ behind_of front.now bytes.now }
{
    bytes.strip_prefix(front)
}

fn stands_in_value(byte: u8) -> bool
    ensures { result ≡ stands_in_value_of byte }
{
    !matches!(byte, b'&' | b'<' | b'"' | b'\t' | b'\n' | b'\r')
}

fn begins(bytes: &[u8]) -> bool
    ensures { result ≡ begins_of bytes.now }
{
    match bytes {
        [] => false,
        [first, ..] => begins_name(*first),
    }
}

fn name_len(bytes: &[u8]) -> usize
    ensures length { result ≡ prefix_len continues_name_of bytes.now }
    ensures within { result ≤ length bytes.now }
{
    bytes.iter().take_while(|b| continues_name(**b)).count()
}

fn value_len(bytes: &[u8]) -> usize
    ensures length { result ≡ prefix_len stands_in_value_of bytes.now }
    ensures within { result ≤ length bytes.now }
{
    bytes.iter().take_while(|b| stands_in_value(**b)).count()
}

// A name, and what follows it.
#[tactic(auto, unfolding(crate::specs::Source::name_at))]
fn name_at(bytes: &[u8]) -> Option<(&[u8], &[u8])>
    ensures { option_map (λ x. (x.0.now, x.1.now)) result ≡ name_at_of bytes.now }
{
    if !begins(bytes) {
        return None;
    }
    Some(bytes.split_at(name_len(bytes)))
}

// What stands in a value's quotes, and what follows it.
fn value_at(bytes: &[u8]) -> (&[u8], &[u8])
    ensures value { result.0.now ≡ take (prefix_len stands_in_value_of bytes.now) bytes.now }
    ensures rest { result.1.now ≡ drop (prefix_len stands_in_value_of bytes.now) bytes.now }
{
    bytes.split_at(value_len(bytes))
}

// An attribute's name and its value, and what follows it.
#[tactic(auto, unfolding(crate::specs::Source::parts_at))]
pub(crate) fn parts_at(bytes: &[u8]) -> Option<(&[u8], &[u8], &[u8])>
    ensures { option_map (λ x. (x.0.now, x.1.now, x.2.now)) result ≡ parts_at_of bytes.now }
{
    let rest = behind(bytes, b" ")?;
    let (name, rest) = name_at(rest)?;
    let rest = behind(rest, b"=\"")?;
    let (value, rest) = value_at(rest);
    let rest = behind(rest, b"\"")?;
    Some((name, value, rest))
}

// The class of an element in a model of this name, and what follows it.
#[tactic(auto, unfolding(crate::specs::Source::class_at))]
pub(crate) fn class_at<'a>(bytes: &'a [u8], space: &[u8]) -> Option<(&'a [u8], &'a [u8])>
    ensures { option_map (λ x. (x.0.now, x.1.now)) result ≡ class_at_of space.now bytes.now }
{
    let rest = behind(bytes, b"<")?;
    let rest = behind(rest, space)?;
    let rest = behind(rest, b":")?;
    name_at(rest)
}

// The bytes behind what the outermost element carries.
#[tactic(auto, unfolding(crate::specs::Source::behind_header))]
pub(crate) fn behind_header<'a>(bytes: &'a [u8], space: &[u8]) -> Option<&'a [u8]>
    ensures { option_map (λ rest. rest.now) result ≡ behind_header_of space.now bytes.now }
{
    let rest = behind(
        bytes,
        b" xmi:version=\"2.0\" xmlns:xmi=\"http://www.omg.org/XMI\" xmlns:xsi=\"http://www.w3.org/2001/XMLSchema-instance\" xmlns:",
    )?;
    let rest = behind(rest, space)?;
    let rest = behind(rest, b"=\"")?;
    let rest = behind(rest, space)?;
    behind(rest, b"\"")
}

// Whether a source ends here.
pub(crate) fn is_end(bytes: &[u8]) -> bool
    ensures { IsTrue result ↔ IsEnd bytes.now }
{
    bytes.is_empty() || bytes == b"\n".as_slice()
}
