// Numbers in attributes: decimal digits, bounds and integers of 64 bits.
ghost use Rattle.std.specs.Prelude.{◌≡◌, min};
ghost use Rattle.std.specs.List.{list_all};
ghost use Rattle.std.specs.Int.{is_in_range};
ghost use Rattle.ecore_meta.specs.Valid.{number_of};
ghost use Rattle.xmi_text.specs.Numbers.{is_number as is_number_of, is_digits as is_digits_of, is_upper as is_upper_of, is_many_upper as is_many_upper_of, is_int_text as is_int_text_of};

// Numbers are told apart up to here, which is above all that are spoken of.
const CAP: u128 = 36893488147419103232;

fn is_digit(b: u8) -> bool
    ensures { result ≡ is_in_range 48 57 b }
{
    matches!(b, b'0'..=b'9')
}

fn are_digits(text: &[u8]) -> bool
    ensures { result ≡ list_all (is_in_range 48 57) text.now }
{
    text.iter().all(|b| is_digit(*b))
}

/// Whether a text is one or more digits.
pub(crate) fn is_digits(text: &[u8]) -> bool
    ensures { result ≡ is_digits_of text.now }
{
    if text.is_empty() {
        return false;
    }
    are_digits(text)
}

/// Whether a text is a number without a leading zero.
pub fn is_number(text: &[u8]) -> bool
    ensures { result ≡ is_number_of text.now }
{
    if text.is_empty() {
        return false;
    }
    if text.len() == 1 {
        return is_digit(text[0]);
    }
    matches!(text[0], b'1'..=b'9') && are_digits(&text[1..])
}

/// The number of a text, as far as `CAP`.
pub fn number(text: &[u8]) -> u128
    ensures { result ≡ min (number_of text.now) CAP }
{
    let mut n: u128 = 0;
    for i in 0..text.len() {
        n = (10 * n + u128::from(text[i].saturating_sub(b'0'))).min(CAP);
    }
    n
}

/// Whether a text is an upper bound: -1, -2 or at least 1.
pub fn is_upper(text: &[u8]) -> bool
    ensures { result ≡ is_upper_of text.now }
{
    if text.is_empty() {
        return false;
    }
    if text[0] != b'-' {
        return is_digits(text) && !(number(text) == 0);
    }
    let digits = &text[1..];
    is_digits(digits) && (number(digits) == 1 || number(digits) == 2)
}

/// Whether an upper bound lets several values stand: -1, or above 1.
pub fn is_many_upper(text: &[u8]) -> bool
    ensures { result ≡ is_many_upper_of text.now }
{
    if text.is_empty() {
        return false;
    }
    if text[0] != b'-' {
        return 1 < number(text);
    }
    number(&text[1..]) == 1
}

/// Whether a text is a signed number of 64 bits.
pub fn is_int_text(text: &[u8]) -> bool
    ensures { result ≡ is_int_text_of text.now }
{
    if text.is_empty() {
        return false;
    }
    if text[0] != b'-' {
        return is_digits(text) && number(text) < 9223372036854775808;
    }
    let digits = &text[1..];
    is_digits(digits) && number(digits) <= 9223372036854775808
}
