// Reading a document: one step a character, over the elements that are open.
ghost use Rattle.std.specs.Prelude.{◌≤◌, length};
ghost use Rattle.doc_text.specs.Answers.{IsAnswer};
ghost use Rattle.doc_text.specs.Reading.{read_bytes};
ghost use Rattle.doc_text.specs.Stopping.{IsRead};

mod citation;
mod content;
mod declaration;
mod finish;
mod keys;
mod kinds;
mod markup;
mod names;
mod naming;
mod next;
mod open;
mod raw;
mod resolve;
mod run;
mod step;
mod tag_fault;
mod tags;
#[cfg(test)]
mod tests;
mod why;

use crate::cursor::Cursor;
use crate::reading::open::Open;
use crate::reading::resolve::resolve;
use crate::reading::run::run;
use crate::refusal::DocRefusal;
use crate::source::is_wide;
use crate::tree::Doc;
use atl_base::place::Place;
use std::alloc::Global;

// The root before its names are resolved.
fn read_root(alloc: Global, bytes: &[u8]) -> Result<Open, DocRefusal>
    requires { length bytes.now ≤ 4294967294 }
    ensures { IsRead (read_bytes bytes.now) result }
{
    if is_wide(bytes) {
        return Err(DocRefusal::BadEncoding(Place { line: 1, column: 1 }));
    }
    run(alloc, Cursor::new(bytes))
}

/// The document that these bytes are, at most 4,294,967,294 of them.
pub fn read_doc(alloc: Global, bytes: &[u8]) -> Result<Doc, DocRefusal>
    requires { length bytes.now ≤ 4294967294 }
    ensures { IsAnswer bytes.now result }
{
    let Open { tag, children } = read_root(alloc, bytes)?;
    let root = resolve(alloc, tag, children.into_items())?;
    Ok(Doc { root })
}
