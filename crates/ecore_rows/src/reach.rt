// What classes inherit: the numbers of their supertypes, and walks over them.
ghost use Rattle.std.specs.Prelude.{◌≡◌, ℕ, map, filter_map, nat_eq, ◌<◌, length, slice_index_or, [], OnOk, IfOk};
ghost use Rattle.std.specs.List.{list_any};
ghost use Rattle.indexmap.specs.IndexSet.{insert_all};
ghost use Rattle.ecore_names.specs.References.{class_named as class_named_in};
ghost use Rattle.xmi_text.specs.Inheriting.{conforms, is_own_super as is_own_super_of};
ghost use Rattle.ecore_rows.specs.Rows.{super_numbers as super_numbers_in, class_rows as class_rows_in};
ghost use Rattle.ecore_outline.specs.Entries.{entries_of};
ghost use Rattle.ecore_rows.specs.CodeRows.{class_rows_of};
ghost use Rattle.ecore_rows.specs.Walks.{AreWithin, LeadWithin};

use crate::rows::ClassRow;
use ecore_names::file::File;
use ecore_names::target::class_named;
use ecore_outline::outline::Entry;
use indexmap::IndexSet;
use sqlite_items::Items;
use std::alloc::{AllocError, Global};

// The classes that words name.
fn numbers_of(alloc: Global, file: &File<'_>, words: &[&[u8]]) -> Result<Items<usize>, AllocError>
    ensures { IfOk result (λ numbers. numbers ≡ filter_map (class_named_in (entries_of file.now)) (map (λ w. w.now) words.now)) }
{
    let mut numbers = Vec::new(alloc);
    for i in 0..words.len() {
        if let Some(class) = class_named(file, words[i]) {
            numbers.push(class)?;
        }
    }
    Ok(Items::from_vec(numbers))
}

/// For each class the numbers of its supertypes.
pub fn super_numbers(
    alloc: Global,
    file: &File<'_>,
    classes: &[ClassRow<'_>],
) -> Result<Vec<Items<usize>>, AllocError>
    requires { class_rows_of classes.now ≡ class_rows_in (entries_of file.now) }
    ensures { IfOk result (λ rows. rows.items ≡ super_numbers_in (entries_of file.now)) }
{
    let mut rows = Vec::with_capacity(alloc, classes.len())?;
    for i in 0..classes.len() {
        rows.push(numbers_of(alloc, file, &classes[i].supers)?)?;
    }
    Ok(rows)
}

// Adds those that are not there yet at the end.
fn add_new(reached: &mut IndexSet<usize>, classes: &[usize]) -> Result<(), AllocError>
    ensures { OnOk result (reached.new.keys ≡ insert_all nat_eq reached.old.keys classes.now) }
{
    for i in 0..classes.len() {
        reached.insert(classes[i])?;
    }
    Ok(())
}

// The supertypes of a class.
fn above(supers: &[Items<usize>], class: usize) -> &[usize]
    requires { class < length supers.now }
    ensures { result.now ≡ slice_index_or supers.now class [] }
{
    supers[class].as_slice()
}

/// The classes that some of these are or inherit from.
pub(crate) fn reach(
    alloc: Global,
    supers: &[Items<usize>],
    starts: &[usize],
) -> Result<IndexSet<usize>, AllocError>
    requires leads { LeadWithin supers.now }
    requires starts { AreWithin supers.now starts.now }
    ensures { IfOk result (λ reached. (d : ℕ) → list_any (nat_eq d) reached.keys ≡ list_any (λ s. conforms supers.now s d) starts.now) }
{
    let mut reached = IndexSet::new(alloc);
    add_new(&mut reached, starts)?;
    for at in 0..supers.len() {
        if at >= reached.len() {
            return Ok(reached);
        }
        let class = reached.as_slice()[at];
        add_new(&mut reached, above(supers, class))?;
    }
    Ok(reached)
}

/// Whether a class inherits from itself.
pub fn is_own_super(
    alloc: Global,
    supers: &[Items<usize>],
    class: usize,
) -> Result<bool, AllocError>
    requires leads { LeadWithin supers.now }
    requires class { class < length supers.now }
    ensures { IfOk result (λ is. is ≡ is_own_super_of supers.now class) }
{
    let reached = reach(alloc, supers, above(supers, class))?;
    Ok(reached.contains(&class))
}
