// From bytes to characters.
ghost use Rattle.std.specs.Prelude.{◌≡◌, ◌≤◌, ◌∷◌, [], length, take, MatchOption, ◌⊎◌};
ghost use Rattle.std.specs.Str.{chars, IsValidUpTo};
ghost use Rattle.doc_text.specs.Characters.{decoded, ascii, without_mark as without_mark_of, is_wide as is_wide_of, characters};
ghost use Rattle.doc_text.specs.Encodings.{Utf8, encoding_of as encoding_of_bytes};
ghost use Rattle.doc_text.specs.Sources.{coming, letters};

use crate::encoding::{Encoding, encoding_of};

/// Characters that are to come.
#[derive(Clone, Copy)]
pub enum Source<'a> {
    /// UTF-8
    Letters(&'a str),
    /// Each byte is a character.
    Bytes(&'a [u8]),
}

/// Characters, and whether no byte is left that no character has.
#[derive(Clone, Copy)]
pub struct Decoded<'a> {
    pub source: Source<'a>,
    pub whole: bool,
}

fn first_letter(text: &str) -> Option<(char, &str)>
    ensures { MatchOption result (chars text.now ≡ []) (λ (c, rest). chars text.now ≡ c ∷ chars rest.now) }
{
    let mut letters = text.chars();
    match letters.next() {
        Some(c) => Some((c, letters.as_str())),
        None => None,
    }
}

impl<'a> Source<'a> {
    /// The next character, and what comes after it.
    pub fn first(self) -> Option<(char, Source<'a>)>
        ensures { MatchOption result (coming self.entry ≡ []) (λ (c, rest). coming self.entry ≡ c ∷ coming rest) }
    {
        match self {
            Source::Letters(text) => match first_letter(text) {
                Some((c, rest)) => Some((c, Source::Letters(rest))),
                None => None,
            },
            Source::Bytes([]) => None,
            Source::Bytes([b, rest @ ..]) => Some((char::from(*b), Source::Bytes(rest))),
        }
    }
}

// The longest front that is UTF-8.
fn utf8_front(bytes: &[u8]) -> &str
    ensures { ((result.now ≡ bytes.now) ⊎ (IsValidUpTo bytes.now (length result.now) × (result.now ≡ take (length result.now) bytes.now))) }
{
    match str::from_utf8(bytes) {
        Ok(text) => text,
        Err(fault) => match str::from_utf8(&bytes[..fault.valid_up_to()]) {
            Ok(text) => text,
            Err(_) => unreachable!(),
        },
    }
}

fn decode_utf8(bytes: &[u8]) -> Decoded<'_>
    ensures { letters result ≡ decoded Utf8 bytes.now }
{
    let front = utf8_front(bytes);
    Decoded {
        source: Source::Letters(front),
        whole: front.len() == bytes.len(),
    }
}

fn decode_ascii(bytes: &[u8]) -> Decoded<'_>
    ensures { letters result ≡ ascii bytes.now }
{
    for i in 0..bytes.len() {
        if bytes[i] >= 128 {
            return Decoded {
                source: Source::Bytes(&bytes[..i]),
                whole: false,
            };
        }
    }
    decode_latin(bytes)
}

fn decode_latin(bytes: &[u8]) -> Decoded<'_>
    ensures { letters result ≡ bytes.now }
{
    Decoded {
        source: Source::Bytes(bytes),
        whole: true,
    }
}

fn decode(bytes: &[u8]) -> Decoded<'_>
    ensures { letters result ≡ decoded (encoding_of_bytes bytes.now) bytes.now }
{
    match encoding_of(bytes) {
        Encoding::Utf8 => decode_utf8(bytes),
        Encoding::Ascii => decode_ascii(bytes),
        Encoding::Latin => decode_latin(bytes),
    }
}

// What follows a mark of UTF-8, if there is one.
fn without_mark(bytes: &[u8]) -> &[u8]
    ensures { result.now ≡ without_mark_of bytes.now }
{
    match bytes {
        [239, 187, 191, rest @ ..] => rest,
        _ => bytes,
    }
}

/// A mark of UTF-16 begins these bytes.
pub fn is_wide(bytes: &[u8]) -> bool
    ensures { result ≡ is_wide_of bytes.now }
{
    matches!(bytes, [254, 255, ..] | [255, 254, ..])
}

/// The characters of a document's bytes: their mark is skipped, and they are read in the declared encoding up to the
/// first byte that no character has.
pub fn characters_of(bytes: &[u8]) -> Decoded<'_>
    ensures characters { letters result ≡ characters bytes.now }
    ensures number { length (letters result) ≤ length bytes.now }
{
    decode(without_mark(bytes))
}

#[cfg(test)]
mod tests {
    use super::*;

    #[test]
    fn marks_of_two_bytes_are_wide(rt: HostRuntime) {
        assert!(rt; is_wide(b"\xFF\xFE<"));
        assert!(rt; is_wide(b"\xFE\xFF"));
        assert!(rt; !is_wide(b"<"));
    }
}
