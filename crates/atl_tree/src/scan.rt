// The scanner: one character a step, with constant work at each, but for the slices of the tokens.
ghost use Rattle.std.specs.Prelude.{◌≡◌, ◌≤◌, ◌<◌, ◌+◌, ◌-◌, ◌++◌, ◌∷◌, ◌^◌, [], IfOk, OnOk, drop, length};
ghost use Rattle.std.specs.Str.{IsCharBoundary, chars};
ghost use Rattle.std.specs.Char.{len_utf8};
ghost use Rattle.atl_tree.specs.Machine.{cut_of, begin_of};
ghost use Rattle.atl_tree.specs.Tokens.{place as place_of, past as past_of};
ghost use Rattle.atl_tree.specs.declared.state.State.TheVariants.{Point};
ghost use Rattle.atl_tree.specs.declared.token.TokenSort.TheVariants as T;
ghost use Rattle.atl_tree.specs.Scanner.{slice_token, Closes, IsReady, ended_at, fresh_at, step_at, moved, scan_of};

use crate::cursor::{Cursor, Move, Scanned};
use crate::state::{State, Stop, begin, next};
use crate::token::{Token, TokenSort};
use atl_base::place::Place;
use atl_base::text::Text;
use sqlite_items::Items;
use std::alloc::{AllocError, Global};

// The place after a character.
fn past(place: Place, c: char) -> Place
    requires line { place.line ≤ 4294967294 }
    requires column { place.column ≤ 4294967294 }
    ensures { result ≡ past_of place c }
{
    if c == '\n' {
        Place {
            line: place.line + 1,
            column: 1,
        }
    } else {
        Place {
            line: place.line,
            column: place.column + 1,
        }
    }
}

// Adds the token of a slice.
fn put(
    alloc: Global,
    text: &Text,
    list: &mut Items<Token>,
    sort: TokenSort,
    begin: usize,
    end: usize,
    place: Place,
) -> Result<(), AllocError>
    requires order { begin ≤ end }
    requires begins { IsCharBoundary text.now begin }
    requires ends { IsCharBoundary text.now end }
    ensures { OnOk result (list.new ≡ list.old ++ slice_token sort text.now begin end place ∷ []) }
{
    list.push(Token {
        sort,
        text: text.slice(alloc, begin, end)?,
        begin,
        end,
        place,
    })
}

// Adds the number and the point after it.
fn put_point(
    alloc: Global,
    text: &Text,
    list: &mut Items<Token>,
    cursor: Cursor,
) -> Result<(), AllocError>
    requires ready { IsReady text.now cursor }
    requires point { cursor.state ≡ Point }
    ensures { OnOk result (list.new ≡ list.old ++ slice_token T.Number text.now cursor.begin (cursor.at - 1) cursor.start ∷ slice_token T.Mark text.now (cursor.at - 1) cursor.at (place_of cursor.place.line (cursor.place.column - 1)) ∷ []) }
{
    let point = cursor.at - 1;
    let place = Place {
        line: cursor.place.line,
        column: cursor.place.column - 1,
    };
    put(
        alloc,
        text,
        list,
        TokenSort::Number,
        cursor.begin,
        point,
        cursor.start,
    )?;
    put(alloc, text, list, TokenSort::Mark, point, cursor.at, place)
}

// Adds the tokens of the open piece, or says that it has no end.
fn close(
    alloc: Global,
    text: &Text,
    list: &mut Items<Token>,
    cursor: Cursor,
) -> Result<bool, AllocError>
    requires { IsReady text.now cursor }
    ensures { IfOk result (λ ends. Closes list.old list.new ends (ended_at text.now cursor cursor.state)) }
{
    let sort = match cursor.state {
        State::Quoted | State::Words | State::Escape | State::Dead => return Ok(false),
        State::Start | State::Comment | State::Gap => return Ok(true),
        State::Point => {
            put_point(alloc, text, list, cursor)?;
            return Ok(true);
        }
        State::Plain => TokenSort::Plain,
        State::Number | State::Fraction => TokenSort::Number,
        State::Minus | State::Less | State::Greater => TokenSort::Mark,
        State::Done(sort) => sort,
    };
    put(
        alloc,
        text,
        list,
        sort,
        cursor.begin,
        cursor.at,
        cursor.start,
    )?;
    Ok(true)
}

// The character begins the next piece.
fn fresh(cursor: Cursor, c: char) -> Move
    requires line { cursor.place.line ≤ 4294967294 }
    requires column { cursor.place.column ≤ 4294967294 }
    requires at { cursor.at + len_utf8 c < 2 ^ 64 }
    ensures { result ≡ fresh_at cursor c (begin_of c) }
{
    match begin(c) {
        State::Dead => Move::Stops(Stop::Bad, cursor.place),
        state => Move::Goes(Cursor {
            state,
            begin: cursor.at,
            start: cursor.place,
            at: cursor.at + c.len_utf8(),
            place: past(cursor.place, c),
        }),
    }
}

// One character.
fn step(
    alloc: Global,
    text: &Text,
    list: &mut Items<Token>,
    cursor: Cursor,
    c: char,
) -> Result<Move, AllocError>
    requires ready { IsReady text.now cursor }
    requires line { cursor.place.line ≤ 4294967294 }
    requires column { cursor.place.column ≤ 4294967294 }
    requires at { cursor.at + len_utf8 c < 2 ^ 64 }
    ensures { IfOk result (λ to. step_at text.now list.old cursor c ≡ moved list.new to) }
{
    match next(cursor.state, c) {
        State::Dead => {
            if close(alloc, text, list, cursor)? {
                Ok(fresh(cursor, c))
            } else {
                Ok(Move::Stops(Stop::Open, cursor.start))
            }
        }
        state => Ok(Move::Goes(Cursor {
            state,
            at: cursor.at + c.len_utf8(),
            place: past(cursor.place, c),
            ..cursor
        })),
    }
}

/// The tokens of the text from a byte on, where a character begins.
pub(crate) fn scan(alloc: Global, text: &Text, from: usize) -> Result<Scanned, AllocError>
    requires size { length text.now ≤ 4294967294 }
    requires edge { IsCharBoundary text.now from }
    ensures { IfOk result (λ all. all ≡ scan_of from (cut_of (chars (drop from text.now)))) }
{
    let mut list = Items::new(alloc);
    let origin = Place { line: 1, column: 1 };
    let mut cursor = Cursor {
        state: State::Start,
        begin: from,
        start: origin,
        at: from,
        place: origin,
    };
    for c in text.as_str()[from..].chars() {
        match step(alloc, text, &mut list, cursor, c)? {
            Move::Goes(next) => cursor = next,
            Move::Stops(stop, place) => return Ok(Scanned { list, stop, place }),
        }
    }
    if close(alloc, text, &mut list, cursor)? {
        Ok(Scanned {
            list,
            stop: Stop::Over,
            place: cursor.place,
        })
    } else {
        Ok(Scanned {
            list,
            stop: Stop::Open,
            place: cursor.start,
        })
    }
}
