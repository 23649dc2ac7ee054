// The characters of a document, one after another, with their places.
ghost use Rattle.std.specs.Prelude.{◌≡◌, ◌≤◌, ◌++◌, ◌∷◌, [], ℕ, length, MatchOption, Bool};
ghost use Rattle.doc_text.specs.Characters.{tail, place, symbols as symbols_of, end_of};
ghost use Rattle.doc_text.specs.Cursors.{before, rest_at, rest_after};
ghost use Rattle.doc_text.specs.Sources.{coming};
ghost use Rattle.doc_text.specs.Symbols.{mark};

use crate::characters::kind_of;
use crate::source::{Source, characters_of};
use crate::symbol::{Kind, Symbol};
use atl_base::place::Place;
use std::marker::Model;

/// What is left of a document's characters. Contracts see them with their places, and the place after the last.
#[derive(Drop)]
pub struct Cursor<'a> {
    source: Source<'a>,
    // No byte is left that no character has.
    whole: bool,
    line: u32,
    column: u32,
}

impl<'a> Model for Cursor<'a> {
    ghost use Rattle.std.specs.Prelude.{◌++◌};
    ghost use Rattle.doc_text.specs.Characters.{tail};
    ghost use Rattle.doc_text.specs.Cursors.{Rest, rest_at, IsCounted};
    ghost use Rattle.doc_text.specs.Sources.{coming};

    ghost Value = { Rest };

    ghost view = { λ c. rest_at c.line c.column (coming c.source ++ tail c.whole) };

    ghost invariant = { λ c. IsCounted c.line c.column (coming c.source ++ tail c.whole) };
}

// A character as the grammar sees it, whether its line ends with it, and what comes after it.
#[derive(Clone, Copy)]
struct Taken<'a> {
    kind: Kind,
    ends_line: bool,
    rest: Source<'a>,
}

// A carriage return, with the line feed that follows it, is a line feed.
fn after_return(after: Source<'_>) -> Taken<'_>
    ensures rest { (line column : ℕ) (whole : Bool) → rest_at line column (13 ∷ (coming after.entry ++ tail whole))
        ≡ before (mark (place line column) result.kind) (rest_after result.ends_line line column (coming result.rest ++ tail whole)) }
    ensures number { length (coming result.rest) ≤ length (coming after.entry) }
{
    match after.first() {
        Some(('\n', beyond)) => Taken {
            kind: Kind::Blank('\n'),
            ends_line: true,
            rest: beyond,
        },
        _ => Taken {
            kind: Kind::Blank('\n'),
            ends_line: false,
            rest: after,
        },
    }
}

// A character, before what comes after it.
fn take(c: char, after: Source<'_>) -> Taken<'_>
    ensures rest { (line column : ℕ) (whole : Bool) → rest_at line column (c ∷ (coming after.entry ++ tail whole))
        ≡ before (mark (place line column) result.kind) (rest_after result.ends_line line column (coming result.rest ++ tail whole)) }
    ensures number { length (coming result.rest) ≤ length (coming after.entry) }
{
    match c {
        '\r' => after_return(after),
        _ => Taken {
            kind: kind_of(c),
            ends_line: c == '\n',
            rest: after,
        },
    }
}

impl<'a> Cursor<'a> {
    /// At the first of a document's characters: their mark is skipped, they are read in the declared encoding up to
    /// the first byte that no character has, and each end of a line is one line feed.
    pub fn new(bytes: &'a [u8]) -> Cursor<'a>
        requires { length bytes.now ≤ 4294967294 }
        ensures symbols { result.symbols ≡ symbols_of bytes.now }
        ensures end { result.end ≡ end_of bytes.now }
    {
        let decoded = characters_of(bytes);
        Cursor {
            source: decoded.source,
            whole: decoded.whole,
            line: 1,
            column: 1,
        }
    }

    /// The next character.
    pub fn next(&mut self) -> Option<Symbol>
        ensures { MatchOption result ((self.old.symbols ≡ []) × (self.new ≡ self.old)) (λ s. self.old ≡ before s self.new) }
    {
        let at = Place {
            line: self.line,
            column: self.column,
        };
        let Some((c, after)) = self.source.first() else {
            if self.whole {
                return None;
            }
            self.whole = true;
            self.column += 1;
            return Some(Symbol {
                kind: Kind::Bad,
                at,
            });
        };
        let taken = take(c, after);
        self.source = taken.rest;
        if taken.ends_line {
            self.line += 1;
            self.column = 1;
        } else {
            self.column += 1;
        }
        Some(Symbol {
            kind: taken.kind,
            at,
        })
    }

    /// The same again.
    pub fn copy(&self) -> Cursor<'a>
        ensures { result ≡ self.now }
    {
        Cursor {
            source: self.source,
            whole: self.whole,
            line: self.line,
            column: self.column,
        }
    }

    /// The place after the last character, when none is left.
    pub fn end(&self) -> Place
        requires { self.now.symbols ≡ [] }
        ensures { result ≡ self.now.end }
    {
        Place {
            line: self.line,
            column: self.column,
        }
    }
}

#[cfg(test)]
mod tests {
    use super::*;

    // How many characters there are, the last of them, and the place after it.
    fn last(bytes: &[u8]) -> Option<(usize, Option<Symbol>, Place)> {
        if bytes.len() > 64 {
            return None;
        }
        let mut cursor = Cursor::new(bytes);
        let mut last = None;
        for count in 0..65 {
            match cursor.next() {
                Some(symbol) => last = Some(symbol),
                None => return Some((count, last, cursor.end())),
            }
        }
        None
    }

    #[test]
    fn characters_have_their_places(rt: HostRuntime) {
        let cases: [(&[u8], usize, Kind, Place, Place); 8] = [
            // the last kind and its place, and the end's place
            (b"<a", 2, Kind::Letter('a'), place(1, 2), place(1, 3)),
            (b"\xEF\xBB\xBF<", 1, Kind::Less, place(1, 1), place(1, 2)),
            (b"\xC3\xA9-", 2, Kind::Dash, place(1, 2), place(1, 3)),
            (b"\r\n-", 2, Kind::Dash, place(2, 1), place(2, 2)),
            (b"\r-", 2, Kind::Dash, place(1, 2), place(1, 3)),
            (b"a\xFFb", 2, Kind::Bad, place(1, 2), place(1, 3)),
            (
                b"<?xml version='1.0' encoding='Latin1'?>\xE9",
                40,
                Kind::Bad,
                place(1, 40),
                place(1, 41),
            ),
            (
                b"<?xml version=\"1.0\" encoding=\"iso-8859-1\"?>\xE9",
                44,
                Kind::Letter('\u{E9}'),
                place(1, 44),
                place(1, 45),
            ),
        ];
        for (bytes, count, kind, at, end) in cases {
            assert!(rt; last(bytes) == Some((count, Some(Symbol { kind, at }), end)));
        }
        assert!(rt; last(b"") == Some((0, None, place(1, 1))));
    }

    fn place(line: u32, column: u32) -> Place {
        Place { line, column }
    }
}
