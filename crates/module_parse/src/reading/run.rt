// The tokens of a module, one after another.
ghost use Rattle.std.specs.Prelude.{◌≡◌, ◌+◌, ◌<◌, ◌≤◌, ◌||◌, MatchResult, drop, length, true};
ghost use Rattle.atl_tree.specs.Tokens.{begins_arrow as begins_arrow_of};
ghost use Rattle.ocl_parse.specs.Variables.{refused_at};
ghost use Rattle.module_grammar.specs.Marks.{marks};
ghost use Rattle.module_states.specs.Machine.{run as run_of};
ghost use Rattle.module_parse.specs.Reading.{is_other as is_other_of, module_in, told, Gives, Fails, IsRefused};
ghost use Rattle.module_states.specs.Nexts.{meant, state_of};

use crate::reading::finish::finish;
use crate::reading::step::step;
use atl_base::place::Place;
use atl_tree::judge::{begins_arrow, leads_name};
use atl_tree::module::Module;
use atl_tree::token::Token;
use module_grammar::keyword::Keyword;
use module_states::content::{Content, read_content};
use module_states::next::{Header, Move, Next};
use module_states::wanted::leave;
use ocl_parse::refusal::ParseRefusal;
use ocl_parse::variable::refused_place;
use std::alloc::Global;

// Whether a plain word at the place is read as a name, where `led` says that the token before leads one.
fn is_named(tokens: &[Token], at: usize, led: bool) -> bool
    requires { at < length tokens.now }
    ensures { result ≡ (led || begins_arrow_of (drop (at + 1) tokens.now)) }
{
    led || begins_arrow(&tokens[at + 1..])
}

// Whether a token belongs to a unit of another sort, where `first` says that the text begins with it.
fn is_other(first: bool, content: &Content) -> bool
    ensures { result ≡ is_other_of first (meant content.now) }
{
    match content {
        Content::Word(Keyword::Query) => first,
        Content::Word(Keyword::Library) => first,
        Content::Word(Keyword::Uses) => true,
        Content::Word(Keyword::Refining) => true,
        _ => false,
    }
}

// The refusal where the module can't go on with the i-th token, which stands at this place; `other` says that it belongs to a
// unit of another sort.
fn refusal(alloc: Global, other: bool, tokens: &[Token], i: usize, place: Place) -> ParseRefusal
    requires { i ≤ length tokens.now }
    ensures { IsRefused other place (refused_at tokens.now 0 i place) result }
{
    if other {
        return ParseRefusal::OtherUnit(place);
    }
    match refused_place(alloc, tokens, 0, i, place) {
        Ok(place) => ParseRefusal::Expected(place),
        Err(_) => ParseRefusal::Memory,
    }
}

// What the i-th token leads to, and whether it leads a name.
fn advance(
    alloc: Global,
    next: Next,
    tokens: &[Token],
    i: usize,
    led: bool,
    end: Place,
) -> Result<(Next, bool), ParseRefusal>
    requires { i < length tokens.now }
    ensures { MatchResult result
        (λ r. run_of true (state_of next) (marks led (drop i tokens.now)) ≡ run_of true (state_of r.0) (marks r.1 (drop (i + 1) tokens.now)))
        (λ e. Fails e (told tokens.now end (run_of true (state_of next) (marks led (drop i tokens.now))))) }
{
    let token = &tokens[i];
    match read_content(alloc, token, is_named(tokens, i, led)) {
        Ok(content) => {
            let other = is_other(i == 0, &content);
            match step(alloc, next, content, token.place)? {
                Move::Goes(then) => Ok((then, leads_name(token))),
                Move::Refuses => { Err(refusal(alloc, other, tokens, i, token.place)) },
                Move::TooDeep(place) => Err(ParseRefusal::TooDeep(place)),
            }
        }
        Err(_) => {
            leave(next);
            Err(ParseRefusal::Memory)
        }
    }
}

/// The module of these tokens, before the end of the text.
pub fn run(alloc: Global, tokens: &[Token], end: Place) -> Result<Module, ParseRefusal>
    ensures { MatchResult result (λ m. Gives m (module_in tokens.now end)) (λ e. Fails e (module_in tokens.now end)) }
{
    let mut next = Next::InHeader(Header::Start);
    let mut led = false;
    for i in 0..tokens.len() {
        let (then, leads) = advance(alloc, next, tokens, i, led, end)?;
        next = then;
        led = leads;
    }
    finish(alloc, next, end)
}
