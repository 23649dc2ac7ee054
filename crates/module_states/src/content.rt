// What a token is to the grammar of modules.
ghost use Rattle.std.specs.Prelude.{◌≡◌, IfOk};
ghost use Rattle.module_grammar.specs.Marks.{content_of, word_or, symbol as symbol_in};
ghost use Rattle.module_states.specs.Nexts.{meant, sign_of};
ghost use Rattle.ocl_parse.specs.Symbols.{symbol_of};

use atl_tree::token::{Token, TokenSort};
use module_grammar::keyword::{Keyword, word};
use ocl_parse::sign::Sign;
use ocl_parse::symbol::{Symbol, read_symbol};
use std::alloc::{AllocError, Global};

/// A keyword that no expression has, or what a token is to expressions.
#[derive(Drop)]
pub enum Content {
    Word(Keyword),
    Shared(Symbol),
}

// The keyword that the token is; `named` says that a plain word there is read as a name.
fn keyword(token: &Token, named: bool) -> Option<Keyword>
    ensures { content_of token.now.sort token.now.text named ≡ word_or result (symbol_of token.now.sort token.now.text named) }
{
    match token.sort {
        TokenSort::Plain => {
            if named {
                return None;
            }
            word(token.text.as_str())
        }
        TokenSort::Mark => {
            if token.text.as_str() == "<-" {
                return Some(Keyword::Gives);
            }
            None
        }
        TokenSort::Quoted | TokenSort::Words | TokenSort::Number => None,
    }
}

/// What the token is; `named` says that a plain word there is read as a name.
pub fn read_content(alloc: Global, token: &Token, named: bool) -> Result<Content, AllocError>
    ensures { IfOk result (λ c. meant c ≡ content_of token.now.sort token.now.text named) }
{
    match keyword(token, named) {
        Some(word) => Ok(Content::Word(word)),
        None => Ok(Content::Shared(read_symbol(alloc, token, named)?)),
    }
}

/// What it is to an expression.
pub fn symbol(content: Content) -> Symbol
    ensures { result ≡ symbol_in (meant content) }
{
    match content {
        Content::Word(_) => Symbol::Fixed(Sign::Other),
        Content::Shared(symbol) => symbol,
    }
}

/// The sign that it is, or no sign of expressions.
pub fn sign(content: &Content) -> Sign
    ensures { result ≡ sign_of (meant content.now) }
{
    match content {
        Content::Word(_) => Sign::Other,
        Content::Shared(Symbol::Fixed(sign)) => *sign,
        Content::Shared(Symbol::Number(_)) => Sign::Other,
        Content::Shared(Symbol::Words(_)) => Sign::Other,
        Content::Shared(Symbol::Name(_)) => Sign::Other,
    }
}
