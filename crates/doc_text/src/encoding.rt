// The encoding that a document's declaration names, found in its bytes.
ghost use Rattle.std.specs.Prelude.{◌≡◌, [], MatchOption, None, Some};
ghost use Rattle.std.specs.Str.{str_eq_ignore_ascii_case};
ghost use Rattle.doc_text.specs.Encodings.{after_word as after_word_of, is_blank_byte, is_digit_byte, is_quote_byte, after_all, after_some, after_quote as after_quote_of};
ghost use Rattle.doc_text.specs.Encodings.{after_heading as after_heading_of, after_version as after_version_of, before_quote as before_quote_of};
ghost use Rattle.doc_text.specs.Encodings.{declared_name as declared_name_of, named_encoding as named_encoding_of, encoding_of as encoding_of_bytes};

/// How bytes are read as characters.
#[derive(Clone, Copy, Debug, PartialEq, Eq)]
pub enum Encoding {
    Utf8,
    Ascii,
    /// ISO-8859-1
    Latin,
}

fn after_word<'a>(bytes: &'a [u8], word: &[u8]) -> Option<&'a [u8]>
    ensures { MatchOption result (after_word_of word.now bytes.now ≡ None) (λ r. after_word_of word.now bytes.now ≡ Some r.now) }
{
    for i in 0..word.len() {
        if i >= bytes.len() {
            return None;
        }
        if bytes[i] != word[i] {
            return None;
        }
    }
    Some(&bytes[word.len()..])
}

pub(crate) fn is_blank(b: u8) -> bool
    ensures { result ≡ is_blank_byte b }
{
    matches!(b, b' ' | b'\t' | b'\n' | b'\r')
}

fn is_digit(b: u8) -> bool
    ensures { result ≡ is_digit_byte b }
{
    matches!(b, b'0'..=b'9')
}

fn after_blanks(bytes: &[u8]) -> &[u8]
    ensures { result.now ≡ after_all is_blank_byte bytes.now }
{
    for i in 0..bytes.len() {
        if !is_blank(bytes[i]) {
            return &bytes[i..];
        }
    }
    &bytes[bytes.len()..]
}

fn after_digits(bytes: &[u8]) -> &[u8]
    ensures { result.now ≡ after_all is_digit_byte bytes.now }
{
    for i in 0..bytes.len() {
        if !is_digit(bytes[i]) {
            return &bytes[i..];
        }
    }
    &bytes[bytes.len()..]
}

fn after_gap(bytes: &[u8]) -> Option<&[u8]>
    ensures { MatchOption result (after_some is_blank_byte bytes.now ≡ None) (λ r. after_some is_blank_byte bytes.now ≡ Some r.now) }
{
    if bytes.is_empty() {
        return None;
    }
    if !is_blank(bytes[0]) {
        return None;
    }
    Some(after_blanks(&bytes[1..]))
}

fn after_number(bytes: &[u8]) -> Option<&[u8]>
    ensures { MatchOption result (after_some is_digit_byte bytes.now ≡ None) (λ r. after_some is_digit_byte bytes.now ≡ Some r.now) }
{
    if bytes.is_empty() {
        return None;
    }
    if !is_digit(bytes[0]) {
        return None;
    }
    Some(after_digits(&bytes[1..]))
}

fn is_quote(b: u8) -> bool
    ensures { result ≡ is_quote_byte b }
{
    matches!(b, b'"' | b'\'')
}

fn after_quote(bytes: &[u8]) -> Option<(u8, &[u8])>
    ensures { MatchOption result (after_quote_of bytes.now ≡ None) (λ r. after_quote_of bytes.now ≡ Some (r.0, r.1.now)) }
{
    if bytes.is_empty() {
        return None;
    }
    if !is_quote(bytes[0]) {
        return None;
    }
    Some((bytes[0], &bytes[1..]))
}

// A blank or more, a word, an equals sign and a quote, which is kept.
fn after_heading<'a>(bytes: &'a [u8], word: &[u8]) -> Option<(u8, &'a [u8])>
    ensures { MatchOption result (after_heading_of word.now bytes.now ≡ None) (λ r. after_heading_of word.now bytes.now ≡ Some (r.0, r.1.now)) }
{
    let named = after_gap(bytes)?;
    let equals = after_word(named, word)?;
    let value = after_word(after_blanks(equals), b"=")?;
    after_quote(after_blanks(value))
}

fn after_version(bytes: &[u8]) -> Option<&[u8]>
    ensures { MatchOption result (after_version_of bytes.now ≡ None) (λ r. after_version_of bytes.now ≡ Some r.now) }
{
    let heading = after_word(bytes, b"<?xml")?;
    let (quote, version) = after_heading(heading, b"version")?;
    let number = after_word(version, b"1.")?;
    after_word(after_number(number)?, &[quote])
}

fn before_quote(bytes: &[u8], quote: u8) -> Option<&[u8]>
    ensures { MatchOption result (before_quote_of quote [] bytes.now ≡ None) (λ r. before_quote_of quote [] bytes.now ≡ Some r.now) }
{
    for i in 0..bytes.len() {
        if bytes[i] == quote {
            return Some(&bytes[..i]);
        }
    }
    None
}

fn declared_name(bytes: &[u8]) -> Option<&[u8]>
    ensures { MatchOption result (declared_name_of bytes.now ≡ None) (λ r. declared_name_of bytes.now ≡ Some r.now) }
{
    let (quote, name) = after_heading(after_version(bytes)?, b"encoding")?;
    before_quote(name, quote)
}

/// The same text, with the letters of ASCII in any case.
pub(crate) fn is_word(name: &[u8], word: &[u8]) -> bool
    ensures { result ≡ str_eq_ignore_ascii_case name.now word.now }
{
    name.eq_ignore_ascii_case(word)
}

fn named_encoding(name: &[u8]) -> Encoding
    ensures { result ≡ named_encoding_of name.now }
{
    if is_word(name, b"ascii") {
        return Encoding::Ascii;
    }
    if is_word(name, b"us-ascii") {
        return Encoding::Ascii;
    }
    if is_word(name, b"iso-8859-1") {
        return Encoding::Latin;
    }
    Encoding::Utf8
}

/// The encoding in which these bytes, without a mark, are read.
pub fn encoding_of(bytes: &[u8]) -> Encoding
    ensures { result ≡ encoding_of_bytes bytes.now }
{
    match declared_name(bytes) {
        Some(name) => named_encoding(name),
        None => Encoding::Utf8,
    }
}
