// Expressions, read from a token on.
ghost use Rattle.std.specs.Prelude.{◌≡◌, ◌≤◌, ◌<◌, ◌+◌, ◌||◌, List, MatchResult, IfOk, length, drop, true};
ghost use Rattle.atl_tree.specs.Tokens.{begins_arrow as begins_arrow_of};
ghost use Rattle.ocl_parse.specs.Symbols.{Lexeme};
ghost use Rattle.ocl_parse.specs.Machine.{step_of, over as over_of, alone as alone_of};
ghost use Rattle.ocl_parse.specs.Variables.{refused_at};
ghost use Rattle.ocl_parse.specs.Reading.{led_at, expr_in, expr_at, Gives, Fails, Ends, IsRefused};

use crate::frame::{Move, Next};
use crate::pending::end_all;
use crate::refusal::ParseRefusal;
use crate::stack::Stack;
use crate::step::{last, step};
use crate::symbol::read_symbol;
use crate::variable::refused_place;
use atl_base::place::Place;
use atl_tree::expr::Expr;
use atl_tree::judge::{begins_arrow, leads_name};
use atl_tree::token::{Token, Tokens};
use std::alloc::{AllocError, Global};

// Whether the token before leads a name.
fn is_led(tokens: &[Token], from: usize) -> bool
    requires { from ≤ length tokens.now }
    ensures { result ≡ led_at from tokens.now }
{
    if from == 0 {
        return false;
    }
    leads_name(&tokens[from - 1])
}

// The operand is all that is open, once what ends there has ended.
fn alone(stack: &mut Stack, e: Expr) -> Result<Option<Expr>, AllocError>
    ensures { IfOk result (λ r. (rest : List Lexeme) → Ends r rest (alone_of stack.old e rest)) }
{
    match stack.pop() {
        None => Ok(Some(e)),
        Some(frame) => {
            stack.push(frame)?;
            Ok(None)
        }
    }
}

/// The expression that ends with the operand, where all that is open ends there.
pub fn over(alloc: Global, stack: &mut Stack, e: Expr) -> Result<Option<Expr>, AllocError>
    ensures { IfOk result (λ r. (rest : List Lexeme) → Ends r rest (over_of stack.old e rest)) }
{
    let whole = end_all(alloc, stack, e)?;
    alone(stack, whole)
}

// Whether a plain word at the place is read as a name, where `led` says that the token before leads one.
fn is_named(tokens: &[Token], at: usize, led: bool) -> bool
    requires { at < length tokens.now }
    ensures { result ≡ (led || begins_arrow_of (drop (at + 1) tokens.now)) }
{
    led || begins_arrow(&tokens[at + 1..])
}

// The refusal where the reading from a token on can't go on with the i-th, which stands at this place.
fn refusal(alloc: Global, tokens: &[Token], from: usize, i: usize, place: Place) -> ParseRefusal
    requires { i ≤ length tokens.now }
    ensures { IsRefused result (refused_at tokens.now from i place) }
{
    match refused_place(alloc, tokens, from, i, place) {
        Ok(place) => ParseRefusal::Expected(place),
        Err(_) => ParseRefusal::Memory,
    }
}

// The longest expression from the token on, before the end of the text.
#[tactic(auto, using(crate::proofs::Lengths::length_lexemes))]
fn parse_from(
    alloc: Global,
    tokens: &[Token],
    end: Place,
    from: usize,
) -> Result<(Expr, usize), ParseRefusal>
    requires { from ≤ length tokens.now }
    ensures { MatchResult result (λ r. Gives r.0 r.1 (expr_in tokens.now end from)) (λ e. Fails e (expr_in tokens.now end from)) }
{
    let mut stack = Stack::new(alloc);
    let mut next = Next::Operand;
    let mut led = is_led(tokens, from);
    for i in from..tokens.len() {
        let token = &tokens[i];
        let read = read_symbol(alloc, token, is_named(tokens, i, led))?;
        match step(alloc, &mut stack, next, read, token.place)? {
            Move::Goes(then) => next = then,
            Move::Stops(e) => match over(alloc, &mut stack, e)? {
                Some(whole) => return Ok((whole, i)),
                None => return Err(refusal(alloc, tokens, from, i, token.place)),
            },
            Move::Refuses => return Err(refusal(alloc, tokens, from, i, token.place)),
            Move::TooDeep(place) => return Err(ParseRefusal::TooDeep(place)),
        }
        led = leads_name(token);
    }
    match last(alloc, &mut stack, next)? {
        Move::Stops(e) => match over(alloc, &mut stack, e)? {
            Some(whole) => Ok((whole, tokens.len())),
            None => Err(ParseRefusal::Expected(end)),
        },
        Move::TooDeep(place) => Err(ParseRefusal::TooDeep(place)),
        Move::Refuses => Err(ParseRefusal::Expected(end)),
        Move::Goes(next) => {
            drop(next);
            Err(ParseRefusal::Expected(end))
        }
    }
}

/// The longest expression from the token on, and the number of the token after it.
pub fn parse_expr(
    alloc: Global,
    tokens: &Tokens,
    from: usize,
) -> Result<(Expr, usize), ParseRefusal>
    requires { from ≤ length tokens.now.list }
    ensures { MatchResult result (λ r. Gives r.0 r.1 (expr_at tokens.now from)) (λ e. Fails e (expr_at tokens.now from)) }
{
    parse_from(alloc, tokens.list.as_slice(), tokens.end, from)
}

#[cfg(test)]
mod tests;
