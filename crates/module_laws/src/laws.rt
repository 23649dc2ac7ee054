//! The laws of reading, over the definitions alone. Each function has a law as its contract, and does nothing.
ghost use Rattle.std.specs.Prelude.{List, ℕ};
ghost use Rattle.atl_tree.specs.declared.token.Token.{Token as SomeToken};
ghost use Rattle.module_grammar.specs.Marks.{Mark};
ghost use Rattle.module_grammar.specs.Grammar.{WrittenModule};
ghost use Rattle.atl_tree.specs.declared.module.Module.{Module as SomeModule};
ghost use Rattle.module_laws.specs.ReadBack.{HasItsMarks, IsReadBack, IsReadAgain, GivesWellFormed};
ghost use Rattle.module_laws.specs.Laws.{Exact, HasOne, IsCanonical, ReadsBack, SharesSymbols};

/// What is read is a module of the grammar, and all of the grammar is read; a refusal stands at the first mark with which no
/// module goes on, or with which an expression begins that stands too deep; and no other answer would be right.
pub fn reading_is_exact()
    ensures { (ts : List Mark) → Exact ts }
{}

/// The marks of a module's canonical text are those of the same module, places aside.
pub fn canonical_marks_have_the_tree()
    ensures { (w : WrittenModule) → IsCanonical w }
{}

/// No marks are those of two modules.
pub fn marks_have_one_tree()
    ensures { (ts : List Mark) → HasOne ts }
{}

/// To an expression the marks of tokens are the tokens' symbols.
pub fn marks_share_symbols()
    ensures { (ts : List SomeToken) → SharesSymbols ts }
{}

/// The marks of a module's canonical text are read back to the same module, places aside, where it nests no deeper than the limit.
pub fn canonical_marks_are_read_back()
    ensures { (w : WrittenModule) → ReadsBack w }
{}

/// The canonical text of a well-formed module is one of characters, and their tokens are the canonical marks.
pub fn printed_text_has_its_marks()
    ensures { (m : SomeModule) → HasItsMarks m }
{}

/// A well-formed module is read back from its canonical text, places aside, where it nests no deeper than the limit.
pub fn printed_text_is_read_back()
    ensures { (m : SomeModule) → IsReadBack m }
{}

/// What is read from a text is a well-formed module.
pub fn what_is_read_is_well_formed()
    ensures { (text : List ℕ) → GivesWellFormed text }
{}

/// What is read from a text is read back from its canonical text, places aside.
pub fn what_is_read_is_read_back()
    ensures { (text : List ℕ) → IsReadAgain text }
{}
