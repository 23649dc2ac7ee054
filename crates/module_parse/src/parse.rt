// Modules, read from a text.
ghost use Rattle.std.specs.Prelude.{◌≡◌, ◌≤◌, MatchResult, Result, Err, length};
ghost use Rattle.std.specs.Str.{chars};
ghost use Rattle.atl_tree.specs.declared.module.Module.{Module as SomeModule};
ghost use Rattle.atl_tree.specs.Front.{front_of};
ghost use Rattle.ocl_parse.specs.declared.refusal.ParseRefusal.{ParseRefusal as SomeRefusal};
ghost use Rattle.ocl_parse.specs.declared.refusal.ParseRefusal.TheVariants as R;
ghost use Rattle.module_parse.specs.Reading.{module_in, module_of_text, is_at as is_at_of, unless_before as unless_before_of, first_refusal as first_refusal_of, Gives, Fails};

use crate::reading::run::run;
use atl_base::place::Place;
use atl_base::text::Text;
use atl_tree::front::{cut_tokens, sound_length};
use atl_tree::lex::tokens;
use atl_tree::module::Module;
use atl_tree::token::LexRefusal;
use ocl_parse::refusal::ParseRefusal;
use std::alloc::Global;

// Whether two places are one.
fn is_at(p: Place, q: Place) -> bool
    ensures { result ≡ is_at_of p q }
{
    p.line == q.line && p.column == q.column
}

// The refusal of a token at a place, unless what stands before the place is refused.
fn unless_before(
    refusal: LexRefusal,
    place: Place,
    before: Result<Module, ParseRefusal>,
) -> ParseRefusal
    ensures { (r : Result SomeModule SomeRefusal) → MatchResult before (λ m. Gives m r) (λ e. Fails e r)
        → Fails result (Err (unless_before_of (R.Lex refusal) place r)) }
{
    match before {
        Ok(_) => ParseRefusal::Lex(refusal),
        Err(ParseRefusal::Lex(_)) => ParseRefusal::Lex(refusal),
        Err(ParseRefusal::OtherUnit(at)) => ParseRefusal::OtherUnit(at),
        Err(ParseRefusal::Expected(at)) => {
            if is_at(at, place) {
                ParseRefusal::Lex(refusal)
            } else {
                ParseRefusal::Expected(at)
            }
        }
        Err(ParseRefusal::TooDeep(at)) => ParseRefusal::TooDeep(at),
        Err(ParseRefusal::Memory) => ParseRefusal::Memory,
    }
}

// The refusal of a token at a place, unless the tokens before it are refused.
fn refused_at(alloc: Global, text: &Text, refusal: LexRefusal, place: Place) -> ParseRefusal
    requires { length text.now ≤ 4294967294 }
    ensures { Fails result (Err (unless_before_of (R.Lex refusal) place (module_in (front_of (chars text.now)) place))) }
{
    let Ok(list) = cut_tokens(alloc, text) else {
        return ParseRefusal::Memory;
    };
    let cut = list.as_slice();
    let front = &cut[..sound_length(cut)];
    unless_before(refusal, place, run(alloc, front, place))
}

// The first refusal of a text of which a token is refused.
fn first_refusal(alloc: Global, text: &Text, refusal: LexRefusal) -> ParseRefusal
    requires { length text.now ≤ 4294967294 }
    ensures { Fails result (Err (first_refusal_of (front_of (chars text.now)) refusal)) }
{
    match refusal {
        LexRefusal::BadByte(place) => refused_at(alloc, text, LexRefusal::BadByte(place), place),
        LexRefusal::OpenText(place) => refused_at(alloc, text, LexRefusal::OpenText(place), place),
        LexRefusal::WideNumber(place) => {
            refused_at(alloc, text, LexRefusal::WideNumber(place), place)
        }
        LexRefusal::RealNumber(place) => {
            refused_at(alloc, text, LexRefusal::RealNumber(place), place)
        }
        LexRefusal::Memory => ParseRefusal::Memory,
    }
}

/// The module that the text is. A text has at most 4,294,967,294 bytes.
pub fn parse_module(alloc: Global, text: &Text) -> Result<Module, ParseRefusal>
    requires { length text.now ≤ 4294967294 }
    ensures { MatchResult result (λ m. Gives m (module_of_text (chars text.now))) (λ e. Fails e (module_of_text (chars text.now))) }
{
    match tokens(alloc, text) {
        Ok(read) => run(alloc, read.list.as_slice(), read.end),
        Err(refusal) => Err(first_refusal(alloc, text, refusal)),
    }
}

#[cfg(test)]
mod tests;
