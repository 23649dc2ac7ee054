// The packages of a file.
ghost use Rattle.std.specs.Prelude.{◌≡◌, IfOk};
ghost use Rattle.xmi_read.specs.Groups.{package_at, packages_in};
ghost use Rattle.ecore_outline.specs.Entries.{entry_of, entries_of};

use ecore_meta::parts::Package;
use ecore_outline::outline::Entry;
use ecore_outline::role::is_package;
use ecore_outline::text::{name_text, prefix_text, uri_text};
use sqlite_items::Items;
use std::alloc::{AllocError, Global};

fn package_of(alloc: Global, entry: &Entry<'_>) -> Result<Package, AllocError>
    ensures { IfOk result (λ p. p ≡ package_at (entry_of entry.now)) }
{
    Ok(Package {
        name: name_text(alloc, entry)?,
        uri: uri_text(alloc, entry)?,
        prefix: prefix_text(alloc, entry)?,
    })
}

/// The packages of a file, in their order.
pub(crate) fn packages(alloc: Global, file: &[Entry<'_>]) -> Result<Items<Package>, AllocError>
    ensures { IfOk result (λ list. list ≡ packages_in (entries_of file.now)) }
{
    let mut list = Items::new(alloc);
    for i in 0..file.len() {
        if is_package(file[i].role) {
            list.push(package_of(alloc, &file[i])?)?;
        }
    }
    Ok(list)
}
