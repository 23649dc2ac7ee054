//! The laws of reading, over the definitions alone. Each function has a law as its contract, and does nothing.
ghost use Rattle.std.specs.Prelude.{List};
ghost use Rattle.ocl_parse.specs.Symbols.{Lexeme};
ghost use Rattle.ocl_parse.specs.Laws.{Exact};

/// What is read is the longest expression of the grammar; a refusal stands at the first symbol with which no expression goes on,
/// or with which one begins that stands too deep; and no other answer would be right.
pub fn reading_is_exact()
    ensures { (ts : List Lexeme) → Exact ts }
{}
