// Where bytes cease to be a text.
ghost use Rattle.std.specs.Prelude.{◌≡◌, ◌⊎◌, MatchOption, length, take};
ghost use Rattle.std.specs.Str.{IsValidUpTo};
ghost use Rattle.atl_base.specs.XmlText.{is_xml_character as is_xml_character_of, IsXmlText, IsFirstOffence};

fn is_xml_character(c: char) -> bool
    ensures { result ≡ is_xml_character_of c }
{
    matches!(c, '\t' | '\n' | '\r' | '\u{20}'..='\u{D7FF}' | '\u{E000}'..='\u{FFFD}' | '\u{10000}'..='\u{10FFFF}')
}

// The first character that a document may not hold.
pub(crate) fn first_outside(text: &str) -> Option<usize>
    ensures { MatchOption result (IsXmlText text.now) (λ at. IsFirstOffence text.now at) }
{
    for (at, c) in text.char_indices() {
        if !is_xml_character(c) {
            return Some(at);
        }
    }
    None
}

// The longest front that is UTF-8.
pub(crate) fn utf8_front(bytes: &[u8]) -> &str
    ensures { ((result.now ≡ bytes.now) ⊎ (IsValidUpTo bytes.now (length result.now) × (result.now ≡ take (length result.now) bytes.now))) }
{
    match str::from_utf8(bytes) {
        Ok(text) => text,
        Err(fault) => {
            let front = &bytes[..fault.valid_up_to()];
            match str::from_utf8(front) {
                Ok(text) => text,
                Err(_) => unreachable!(),
            }
        }
    }
}
