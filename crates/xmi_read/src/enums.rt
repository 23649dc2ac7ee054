// The enumerations of a file, with their literals.
ghost use Rattle.std.specs.Prelude.{◌≡◌, IfOk};
ghost use Rattle.ecore_outline.specs.Outline.{name_of as name_of_entry};
ghost use Rattle.ecore_outline.specs.Entries.{entry_of, entries_of};
ghost use Rattle.xmi_read.specs.Groups.{literal_at, literals_behind, enums_in};

use ecore_meta::parts::{EnumDef, Literal};
use ecore_names::data_type::is_literal;
use ecore_outline::outline::Entry;
use ecore_outline::role::is_enum;
use ecore_outline::text::{literal_text, name_text};
use sqlite_items::Items;
use std::alloc::{AllocError, Global};

fn literal_of(alloc: Global, entry: &Entry<'_>) -> Result<Literal, AllocError>
    ensures { IfOk result (λ l. l ≡ literal_at (entry_of entry.now)) }
{
    Ok(Literal {
        name: name_text(alloc, entry)?,
        text: literal_text(alloc, entry)?,
    })
}

// The literals that stand in front of the next enumeration.
fn literals(alloc: Global, behind: &[Entry<'_>]) -> Result<Items<Literal>, AllocError>
    ensures { IfOk result (λ list. list ≡ literals_behind (entries_of behind.now)) }
{
    let mut list = Items::new(alloc);
    for i in 0..behind.len() {
        let entry = &behind[i];
        if is_enum(entry.role) {
            return Ok(list);
        }
        if is_literal(entry.role) {
            list.push(literal_of(alloc, entry)?)?;
        }
    }
    Ok(list)
}

fn enum_of(alloc: Global, entry: &Entry<'_>, behind: &[Entry<'_>]) -> Result<EnumDef, AllocError>
    ensures { IfOk result (λ d. d ≡ record { name = name_of_entry (entry_of entry.now); literals = literals_behind (entries_of behind.now) }) }
{
    Ok(EnumDef {
        name: name_text(alloc, entry)?,
        literals: literals(alloc, behind)?,
    })
}

/// The enumerations of a file, in their order.
pub(crate) fn enums(alloc: Global, file: &[Entry<'_>]) -> Result<Items<EnumDef>, AllocError>
    ensures { IfOk result (λ list. list ≡ enums_in (entries_of file.now)) }
{
    let mut list = Items::new(alloc);
    for i in 0..file.len() {
        if is_enum(file[i].role) {
            list.push(enum_of(alloc, &file[i], &file[i + 1..])?)?;
        }
    }
    Ok(list)
}
