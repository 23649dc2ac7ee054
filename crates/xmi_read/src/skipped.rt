// The features that a metamodel leaves out: derived, volatile and transient ones.
ghost use Rattle.std.specs.Prelude.{◌≡◌, ◌-◌, ◌≤◌, List, length, IfOk};
ghost use Rattle.ecore_outline.specs.Outline.{Entry as SomeEntry, name_of as name_of_entry};
ghost use Rattle.xmi_read.specs.Parts.{class_no, skipped_from};
ghost use Rattle.ecore_outline.specs.Entries.{entry_of, entries_of};

use atl_base::numbers::ClassId;
use ecore_meta::parts::Skipped;
use ecore_names::target::one_more;
use ecore_outline::outline::Entry;
use ecore_outline::role::{is_class, is_skipped};
use ecore_outline::text::name_text;
use sqlite_items::Items;
use std::alloc::{AllocError, Global};

// One of the last of so many classes.
fn skipped_of(alloc: Global, classes: usize, entry: &Entry<'_>) -> Result<Skipped, AllocError>
    requires { classes ≤ 4294967294 }
    ensures { IfOk result (λ s. s ≡ record { owner = class_no (classes - 1); name = name_of_entry (entry_of entry.now) }) }
{
    Ok(Skipped {
        owner: ClassId(classes.saturating_sub(1) as u32),
        name: name_text(alloc, entry)?,
    })
}

/// What a file's classes declare and its metamodel leaves out, in its order.
pub(crate) fn skipped(alloc: Global, file: &[Entry<'_>]) -> Result<Items<Skipped>, AllocError>
    requires { length file.now ≤ 4294967294 }
    ensures { IfOk result (λ list. list ≡ skipped_from (entries_of file.now) 0 (entries_of file.now)) }
{
    let mut list = Items::new(alloc);
    let mut classes = 0;
    for i in 0..file.len() {
        let entry = &file[i];
        if is_skipped(entry.role) {
            list.push(skipped_of(alloc, classes, entry)?)?;
        } else {
            classes = one_more(classes, is_class(entry.role));
        }
    }
    Ok(list)
}
