// The characters of a document, one after another.
ghost use Rattle.std.specs.Prelude.{◌≡◌, ◌∷◌, MatchResult, true};
ghost use Rattle.doc_text.specs.Answers.{IsRefusal};
ghost use Rattle.doc_text.specs.Machine.{read as read_of, run as run_of};
ghost use Rattle.doc_text.specs.Nexts.{state_of};
ghost use Rattle.doc_text.specs.Stopping.{IsRead};
ghost use Rattle.doc_text.specs.Symbols.{AreSound, IsSound};

use crate::cursor::Cursor;
use crate::reading::finish::finish;
use crate::reading::next::{Content, Move, Next};
use crate::reading::open::Open;
use crate::reading::step::step;
use crate::reading::why::{reason, refusal, why_next};
use crate::refusal::DocRefusal;
use crate::symbol::Symbol;
use std::alloc::Global;

// What a character leads to, from where the characters before it led.
fn advance(alloc: Global, next: Next, symbol: Symbol, rest: &Cursor) -> Result<Next, DocRefusal>
    requires { IsSound symbol.kind }
    ensures { MatchResult result
        (λ n. run_of true rest.now.end (state_of next) (symbol ∷ rest.now.symbols) ≡ run_of true rest.now.end (state_of n) rest.now.symbols)
        (λ r. IsRefusal (run_of true rest.now.end (state_of next) (symbol ∷ rest.now.symbols)) r) }
{
    let why = why_next(&next);
    match step(alloc, next, symbol)? {
        Move::Goes(then) => Ok(then),
        Move::Stops => Err(reason(why, symbol, rest)),
        Move::Breaks(fault, at) => Err(refusal(fault, at)),
    }
}

/// The root that all of these characters give, before its names are resolved.
pub fn run(alloc: Global, cursor: Cursor) -> Result<Open, DocRefusal>
    requires { AreSound cursor.symbols }
    ensures { IsRead (read_of true cursor.entry.end cursor.entry.symbols) result }
{
    let mut cursor = cursor;
    let mut next = Next::InContent(Content::Beginning);
    while let Some(symbol) = cursor.next() {
        next = advance(alloc, next, symbol, &cursor)?;
    }
    finish(alloc, next, cursor.end())
}
