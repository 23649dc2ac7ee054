// One step of reading.
ghost use Rattle.std.specs.Prelude.{◌≡◌, IfOk, true};
ghost use Rattle.doc_text.specs.Nexts.{state_of, step_of};
ghost use Rattle.doc_text.specs.Steps.{step as stepped};
ghost use Rattle.doc_text.specs.Symbols.{IsSound};

use crate::reading::next::{Move, Next};
use crate::reading::{citation, content, declaration, markup, naming, tags};
use crate::symbol::Symbol;
use std::alloc::{AllocError, Global};

/// What a character leads to.
pub fn step(alloc: Global, next: Next, symbol: Symbol) -> Result<Move, AllocError>
    requires { IsSound symbol.kind }
    ensures { IfOk result (λ m. stepped true (state_of next) symbol.kind symbol.at ≡ step_of m) }
{
    match next {
        Next::InContent(content) => content::step(alloc, content, symbol),
        Next::InMarkup(markup) => markup::step(alloc, markup, symbol),
        Next::InDeclaration(declaration) => declaration::step(alloc, declaration, symbol),
        Next::InName(naming) => naming::step(alloc, naming, symbol),
        Next::InTag(tag) => tags::step(alloc, tag, symbol),
        Next::InReference(citing, at, cited) => {
            citation::step(alloc, citing, at, cited, symbol.kind)
        }
    }
}
