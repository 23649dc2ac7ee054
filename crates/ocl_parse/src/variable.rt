// A keyword in the place of an iterator's variable.
ghost use Rattle.std.specs.Prelude.{◌≡◌, ◌≤◌, ◌<◌, IfOk, length};
ghost use Rattle.ocl_parse.specs.Variables.{is_the_mark as is_the_mark_in, is_keyword as is_keyword_in, ends_variable as ends_variable_in, keyword_or as keyword_or_in, refused_at};

use crate::sign::{is_iterator, word};
use crate::symbol::unquoted;
use atl_base::place::Place;
use atl_tree::token::{Token, TokenSort};
use std::alloc::{AllocError, Global};

fn is_the_mark(text: &str, token: &Token) -> bool
    ensures { result ≡ is_the_mark_in text.now token.now }
{
    match token.sort {
        TokenSort::Mark => token.text.as_str() == text,
        TokenSort::Plain | TokenSort::Quoted | TokenSort::Words | TokenSort::Number => false,
    }
}

fn is_keyword(token: &Token) -> bool
    ensures { result ≡ is_keyword_in token.now.sort token.now.text }
{
    match token.sort {
        TokenSort::Plain => word(token.text.as_str()).is_some(),
        TokenSort::Quoted | TokenSort::Words | TokenSort::Number | TokenSort::Mark => false,
    }
}

// Whether the token ends the variable of the iterator with this name.
fn ends_variable(name: &str, token: &Token) -> bool
    ensures { result ≡ ends_variable_in name.now token.now }
{
    is_iterator(name) && is_the_mark("|", token) || name == "iterate" && is_the_mark(";", token)
}

// The place of the keyword, where the tokens begin with one in the place of a variable, or else this place.
fn keyword_or(alloc: Global, place: Place, tokens: &[Token]) -> Result<Place, AllocError>
    ensures { IfOk result (λ p. p ≡ keyword_or_in place tokens.now) }
{
    match tokens {
        [arrow, name, paren, keyword, behind, ..]
            if is_the_mark("->", arrow) && is_the_mark("(", paren) && is_keyword(keyword) => {
            let name = unquoted(alloc, &name.text)?;
            if ends_variable(name.as_str(), behind) {
                return Ok(keyword.place);
            }
            Ok(place)
        }
        _ => Ok(place),
    }
}

/// Where the reading from a token on is refused that can't go on with the i-th, which stands at this place: there, or at a
/// keyword in the place of an iterator's variable.
pub fn refused_place(
    alloc: Global,
    tokens: &[Token],
    from: usize,
    i: usize,
    place: Place,
) -> Result<Place, AllocError>
    requires { i ≤ length tokens.now }
    ensures { IfOk result (λ p. p ≡ refused_at tokens.now from i place) }
{
    if i < 4 || i - 4 < from {
        return Ok(place);
    }
    keyword_or(alloc, place, &tokens[i - 4..])
}
