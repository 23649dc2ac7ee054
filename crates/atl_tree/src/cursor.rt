// Where the scanner stands, and what a step of it leads to.
use crate::state::{State, Stop};
use crate::token::Token;
use atl_base::place::Place;
use sqlite_items::Items;

/// The open piece: its state, and the bytes and places where it begins and up to which it has been read.
#[derive(Clone, Copy, Debug)]
pub(crate) struct Cursor {
    pub state: State,
    pub begin: usize,
    pub start: Place,
    pub at: usize,
    pub place: Place,
}

/// What a character leads to.
#[derive(Clone, Copy, Debug)]
pub(crate) enum Move {
    Goes(Cursor),
    Stops(Stop, Place),
}

/// The tokens before the place where the scanner stopped.
#[derive(Debug, Drop)]
pub(crate) struct Scanned {
    pub list: Items<Token>,
    pub stop: Stop,
    pub place: Place,
}
