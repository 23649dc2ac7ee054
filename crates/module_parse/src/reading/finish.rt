// The end of the text.
ghost use Rattle.std.specs.Prelude.{List, MatchResult, true};
ghost use Rattle.atl_tree.specs.declared.token.Token.{Token};
ghost use Rattle.ocl_parse.specs.Machine.{last as last_of};
ghost use Rattle.module_states.specs.Machine.{finish as finish_of, too_deep as too_deep_of};
ghost use Rattle.module_parse.specs.Reading.{told, Gives, Fails};
ghost use Rattle.module_states.specs.Nexts.{state_of};

use atl_base::place::Place;
use atl_tree::module::Module;
use module_states::next::{Next, Part};
use module_states::wanted::leave;
use ocl_parse::frame::Move as MoveInside;
use ocl_parse::refusal::ParseRefusal;
use ocl_parse::step::last;
use std::alloc::Global;

// In an expression no module ends.
fn finish_expr(alloc: Global, part: Part, end: Place) -> Result<Module, ParseRefusal>
    ensures { MatchResult result (λ m. (ts : List Token) → Gives m (told ts end (too_deep_of (last_of true part.stack part.next)))) (λ e. (ts : List Token) → Fails e (told ts end (too_deep_of (last_of true part.stack part.next)))) }
{
    let Part { stack, next } = part;
    let mut stack = stack;
    match last(alloc, &mut stack, next)? {
        MoveInside::TooDeep(place) => Err(ParseRefusal::TooDeep(place)),
        MoveInside::Refuses => Err(ParseRefusal::Expected(end)),
        MoveInside::Stops(e) => {
            drop(e);
            Err(ParseRefusal::Expected(end))
        }
        MoveInside::Goes(next) => {
            drop(next);
            Err(ParseRefusal::Expected(end))
        }
    }
}

/// The module, where the text may end there.
pub fn finish(alloc: Global, next: Next, end: Place) -> Result<Module, ParseRefusal>
    ensures { MatchResult result (λ m. (ts : List Token) → Gives m (told ts end (finish_of true (state_of next)))) (λ e. (ts : List Token) → Fails e (told ts end (finish_of true (state_of next)))) }
{
    match next {
        Next::Item(before) => Ok(before),
        Next::InExpr(purpose, part) => {
            drop(purpose);
            finish_expr(alloc, part, end)
        }
        other => {
            leave(other);
            Err(ParseRefusal::Expected(end))
        }
    }
}
