// The states of the scanner: what has been read of the piece of text that is open, and what one more character makes of it.
ghost use Rattle.std.specs.Prelude.{◌≡◌, if◌then◌else◌};
ghost use Rattle.atl_tree.specs.Pieces.{is_letter as is_letter_of, is_digit as is_digit_of, is_gap as is_gap_of, is_single as is_single_of, is_escape as is_escape_of, is_in_line as is_in_line_of, is_in_quotes as is_in_quotes_of, is_in_words as is_in_words_of};
ghost use Rattle.atl_tree.specs.Machine.{begin_of, next_of};
ghost use Rattle.atl_tree.specs.declared.state.State.TheVariants.{Dead, Number, Quoted, Words, Minus};

use crate::token::TokenSort;

/// What has been read of the open piece.
#[derive(Clone, Copy, Debug, PartialEq, Eq)]
pub(crate) enum State {
    /// Nothing: the text begins.
    Start,
    /// A plain name or a keyword.
    Plain,
    /// Digits.
    Number,
    /// Digits and a point, which belongs to the number only if a digit follows.
    Point,
    /// A number with a fraction.
    Fraction,
    /// A quoted name that is open.
    Quoted,
    /// A text that is open.
    Words,
    /// A text that is open, after a backslash.
    Escape,
    /// `-`
    Minus,
    /// `<`
    Less,
    /// `>`
    Greater,
    /// A comment.
    Comment,
    /// One character between tokens.
    Gap,
    /// A token that nothing can follow.
    Done(TokenSort),
    /// No piece begins so.
    Dead,
}

/// Why a text is cut no further.
#[derive(Clone, Copy, Debug, PartialEq, Eq)]
pub(crate) enum Stop {
    /// The text is over.
    Over,
    /// No piece begins here.
    Bad,
    /// The piece that begins here has no end.
    Open,
}

#[tactic(auto, unfolding(crate::specs::Pieces::is_letter))]
fn is_letter(c: char) -> bool
    ensures { result ≡ is_letter_of c }
{
    matches!(c, 'a'..='z' | 'A'..='Z' | '_')
}

#[tactic(auto, unfolding(crate::specs::Pieces::is_digit))]
pub(crate) fn is_digit(c: char) -> bool
    ensures { result ≡ is_digit_of c }
{
    matches!(c, '0'..='9')
}

#[tactic(auto, unfolding(crate::specs::Pieces::is_gap))]
fn is_gap(c: char) -> bool
    ensures { result ≡ is_gap_of c }
{
    matches!(c, ' ' | '\t' | '\n' | '\r')
}

#[tactic(auto, unfolding(crate::specs::Pieces::is_single))]
fn is_single(c: char) -> bool
    ensures { result ≡ is_single_of c }
{
    matches!(
        c,
        ';' | ':' | ',' | '(' | ')' | '{' | '}' | '!' | '=' | '+' | '*' | '.' | '|' | '#' | '/'
    )
}

#[tactic(auto, unfolding(crate::specs::Pieces::is_escape))]
fn is_escape(c: char) -> bool
    ensures { result ≡ is_escape_of c }
{
    matches!(c, 'n' | 't' | 'r' | '\\' | '\'')
}

#[tactic(auto, unfolding(crate::specs::Pieces::is_in_line))]
fn is_in_line(c: char) -> bool
    ensures { result ≡ is_in_line_of c }
{
    c != '\n'
}

#[tactic(auto, unfolding(crate::specs::Pieces::is_in_quotes))]
fn is_in_quotes(c: char) -> bool
    ensures { result ≡ is_in_quotes_of c }
{
    !matches!(c, '"' | '\n')
}

#[tactic(auto, unfolding(crate::specs::Pieces::is_in_words))]
fn is_in_words(c: char) -> bool
    ensures { result ≡ is_in_words_of c }
{
    !matches!(c, '\'' | '\\' | '\n')
}

/// The state after the first character of a piece.
#[tactic(auto, unfolding(crate::specs::Machine::begin_of))]
pub(crate) fn begin(c: char) -> State
    ensures { result ≡ begin_of c }
{
    if is_letter(c) {
        State::Plain
    } else if is_digit(c) {
        State::Number
    } else if is_gap(c) {
        State::Gap
    } else if is_single(c) {
        State::Done(TokenSort::Mark)
    } else if c == '"' {
        State::Quoted
    } else if c == '\'' {
        State::Words
    } else if c == '-' {
        State::Minus
    } else if c == '<' {
        State::Less
    } else if c == '>' {
        State::Greater
    } else {
        State::Dead
    }
}

// The state where the character goes on with the open piece, and else Dead.
fn going(goes: bool, state: State) -> State
    ensures { result ≡ (if goes then state else Dead) }
{
    if goes { state } else { State::Dead }
}

fn after_number(c: char) -> State
    ensures { result ≡ next_of Number c }
{
    if is_digit(c) {
        State::Number
    } else {
        going(c == '.', State::Point)
    }
}

fn after_quoted(c: char) -> State
    ensures { result ≡ next_of Quoted c }
{
    if is_in_quotes(c) {
        State::Quoted
    } else {
        going(c == '"', State::Done(TokenSort::Quoted))
    }
}

fn after_words(c: char) -> State
    ensures { result ≡ next_of Words c }
{
    if is_in_words(c) {
        State::Words
    } else if c == '\'' {
        State::Done(TokenSort::Words)
    } else {
        going(c == '\\', State::Escape)
    }
}

fn after_minus(c: char) -> State
    ensures { result ≡ next_of Minus c }
{
    if c == '-' {
        State::Comment
    } else {
        going(c == '>', State::Done(TokenSort::Mark))
    }
}

/// The state after one more character.
pub(crate) fn next(state: State, c: char) -> State
    ensures { result ≡ next_of state c }
{
    match state {
        State::Start => begin(c),
        State::Plain => going(is_letter(c) || is_digit(c), State::Plain),
        State::Number => after_number(c),
        State::Point | State::Fraction => going(is_digit(c), State::Fraction),
        State::Quoted => after_quoted(c),
        State::Words => after_words(c),
        State::Escape => going(is_escape(c), State::Words),
        State::Minus => after_minus(c),
        State::Less => going(
            c == '-' || c == '=' || c == '>',
            State::Done(TokenSort::Mark),
        ),
        State::Greater => going(c == '=', State::Done(TokenSort::Mark)),
        State::Comment => going(is_in_line(c), State::Comment),
        State::Gap | State::Done(_) | State::Dead => State::Dead,
    }
}
