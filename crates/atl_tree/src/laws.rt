//! Laws of tokens. Each function has the law as its contract, and does nothing.
ghost use Rattle.std.specs.Prelude.{ℕ, List};
ghost use Rattle.std.specs.Str.{chars};
ghost use Rattle.atl_base.specs.XmlText.{IsXmlText};
ghost use Rattle.atl_tree.specs.declared.token.Tokens.{Tokens};
ghost use Rattle.atl_tree.specs.Tokens.{HasTokens};
ghost use Rattle.atl_tree.specs.Refusals.{IsExact, IsBadFront, IsOpenFront};
ghost use Rattle.atl_tree.specs.Slices.{AreSlices};

/// A text is read as tokens exactly where it has them, and so it has one list of tokens at most. It is refused exactly
/// where that refusal holds of it.
pub fn tokens_are_exact()
    ensures { (text : List ℕ) → IsExact text }
{}

/// No text that agrees with a refused one up to and with its bad character has tokens.
pub fn a_bad_character_is_bad_in_all()
    ensures { (text : List ℕ) → IsBadFront text }
{}

/// No text that agrees with a refused one up to and with the line feed behind its open text or quoted name has tokens.
pub fn an_open_text_is_open_in_all()
    ensures { (text : List ℕ) → IsOpenFront text }
{}

/// The tokens of a text are slices of it, one after another.
pub fn tokens_are_slices()
    ensures { (text : List ℕ) (ts : Tokens) → IsXmlText text → HasTokens (chars text) ts → AreSlices text 0 ts.list }
{}
