// Which tokens are refused: numbers that are too wide or have a fraction, a division sign, and the type `Real`.
ghost use Rattle.std.specs.Prelude.{◌≡◌, false};
ghost use Rattle.atl_tree.specs.Tokens.{is_wide as is_wide_text, has_fraction as has_fraction_text, is_mark, leads_name as leads_name_of, begins_arrow as begins_arrow_of, fault_of, first_fault as first_fault_of};

use crate::token::{LexRefusal, Token, TokenSort};

/// The greatest number.
const GREATEST: u64 = 9223372036854775807;

// Whether the digits that a text begins with make a number above the greatest.
fn is_wide(text: &[u8]) -> bool
    ensures { result ≡ is_wide_text text.now }
{
    let mut value: u64 = 0;
    for byte in text {
        if !byte.is_ascii_digit() {
            return false;
        }
        let digit = u64::from(*byte - b'0');
        if value > (GREATEST - digit) / 10 {
            return true;
        }
        value = value * 10 + digit;
    }
    false
}

fn has_fraction(text: &[u8]) -> bool
    ensures { result ≡ has_fraction_text text.now }
{
    text.contains(&b'.')
}

/// Whether a word after the token is read as a name.
pub fn leads_name(token: &Token) -> bool
    ensures { result ≡ leads_name_of token.now }
{
    match token.sort {
        TokenSort::Mark => {
            let text = token.text.as_str();
            text == "." || text == "->" || text == "!"
        }
        TokenSort::Plain | TokenSort::Quoted | TokenSort::Words | TokenSort::Number => false,
    }
}

/// Whether the tokens begin with an arrow, so that a word before them is read as a name.
pub fn begins_arrow(tokens: &[Token]) -> bool
    ensures { result ≡ begins_arrow_of tokens.now }
{
    match tokens {
        [] => false,
        [token, ..] => match token.sort {
            TokenSort::Mark => token.text.as_str() == "<-",
            TokenSort::Plain | TokenSort::Quoted | TokenSort::Words | TokenSort::Number => false,
        },
    }
}

/// Why the token is refused; a plain word may stand where it is read as a name.
pub(crate) fn fault(token: &Token, named: bool) -> Option<LexRefusal>
    ensures { result ≡ fault_of token.now.sort token.now.text named token.now.place }
{
    let real = match token.sort {
        TokenSort::Plain => token.text.as_str() == "Real" && !named,
        TokenSort::Quoted | TokenSort::Words => false,
        TokenSort::Number => {
            if is_wide(token.text.bytes()) {
                return Some(LexRefusal::WideNumber(token.place));
            }
            has_fraction(token.text.bytes())
        }
        TokenSort::Mark => token.text.as_str() == "/",
    };
    if real {
        Some(LexRefusal::RealNumber(token.place))
    } else {
        None
    }
}

/// Why the first token that is refused is refused.
pub(crate) fn first_fault(tokens: &[Token]) -> Option<LexRefusal>
    ensures { result ≡ first_fault_of false tokens.now }
{
    let mut led = false;
    for i in 0..tokens.len() {
        let named = led || begins_arrow(&tokens[i + 1..]);
        if let Some(refusal) = fault(&tokens[i], named) {
            return Some(refusal);
        }
        led = leads_name(&tokens[i]);
    }
    None
}
