// Names that stand twice among the features that are seen in a class.
ghost use Rattle.std.specs.Prelude.{◌≡◌, ◌<◌, ◌≤◌, ◌+◌, ℕ, List, true, max, [], ◌∷◌, nat_eq, nat_le, map, filter, drop, IfOk, length, Some, if◌then◌else◌};
ghost use Rattle.std.specs.Option.{option_copied, option_or};
ghost use Rattle.std.specs.List.{list_any};
ghost use Rattle.std.specs.List.Sorted.{IsNonDecreasing};
ghost use Rattle.ecore_outline.specs.Outline.{name_of as name_of_entry};
ghost use Rattle.xmi_text.specs.Inheriting.{conforms};
ghost use Rattle.ecore_rows.specs.Rows.{FeatureRow as SomeRow, twice_from};
ghost use Rattle.ecore_rows.specs.Runs.{IsRising, past_run};
ghost use Rattle.ecore_outline.specs.Entries.{entry_of};
ghost use Rattle.ecore_rows.specs.CodeRows.{feature_row_of, feature_rows_of};
ghost use Rattle.ecore_rows.specs.Walks.{LeadWithin};

use crate::reach::reach;
use crate::rows::FeatureRow;
use ecore_outline::role::name_of;
use indexmap::IndexSet;
use sqlite_items::Items;
use std::alloc::{AllocError, Global};

// The classes in rising order.
fn sorted(alloc: Global, classes: &[usize]) -> Result<Vec<usize>, AllocError>
    ensures rising { IfOk result (λ list. IsNonDecreasing list.items) }
    ensures same { IfOk result (λ list. (d : ℕ) → list_any (nat_eq d) list.items ≡ list_any (nat_eq d) classes.now) }
{
    let mut list = Vec::from_slice(alloc, classes)?;
    list.sort()?;
    Ok(list)
}

// Where the features of this class and of later ones begin.
fn begin_of(features: &[FeatureRow<'_>], class: u128) -> usize
    requires { IsRising 0 (feature_rows_of features.now) }
    ensures within { result ≤ length features.now }
    ensures begin { feature_rows_of (drop result features.now) ≡ filter (λ row. nat_le class row.owner) (feature_rows_of features.now) }
{
    features.partition_point(|row| (row.owner as u128) < class)
}

fn later(next: u128, class: usize) -> u128
    ensures { result ≡ max next class }
{
    next.max(class as u128)
}

fn past(next: u128, class: usize) -> u128
    ensures { result ≡ max next (class + 1) }
{
    next.max(class as u128 + 1)
}

// Adds the name of a feature, where it has one, and says whether it stands there already.
fn twice_here<'a>(seen: &mut IndexSet<&'a str>, row: &FeatureRow<'a>) -> Result<bool, AllocError>
    ensures { IfOk result (λ twice. (supers : List (List ℕ)) (class : ℕ) (rows : List SomeRow) → conforms supers class row.now.owner ≡ true
        → twice_from supers class (map (λ k. k.now) seen.old.keys) (feature_row_of row.now ∷ rows)
        ≡ (if twice then Some (name_of_entry (entry_of row.now.entry)) else twice_from supers class (map (λ k. k.now) seen.new.keys) rows)) }
{
    let name = name_of(&row.entry);
    if name.is_empty() {
        return Ok(false);
    }
    let is_new = seen.insert(name)?;
    Ok(!is_new)
}

// The first name that stands twice among those before and those of the features of a class that stand first.
fn twice_own<'a>(
    seen: &mut IndexSet<&'a str>,
    owner: usize,
    rows: &[FeatureRow<'a>],
) -> Result<Option<&'a str>, AllocError>
    ensures { IfOk result (λ name. (supers : List (List ℕ)) (class : ℕ) → conforms supers class owner ≡ true
        → twice_from supers class (map (λ k. k.now) seen.old.keys) (feature_rows_of rows.now)
        ≡ option_or (option_copied name) (twice_from supers class (map (λ k. k.now) seen.new.keys) (past_run owner (feature_rows_of rows.now)))) }
{
    for i in 0..rows.len() {
        let row = &rows[i];
        if row.owner != owner {
            return Ok(None);
        }
        let twice = twice_here(seen, row)?;
        if twice {
            return Ok(Some(name_of(&row.entry)));
        }
    }
    Ok(None)
}

/// The first name of a feature that is seen in a class twice.
pub fn twice_seen<'a>(
    alloc: Global,
    supers: &[Items<usize>],
    class: usize,
    features: &[FeatureRow<'a>],
) -> Result<Option<&'a str>, AllocError>
    requires leads { LeadWithin supers.now }
    requires class { class < length supers.now }
    requires rising { IsRising 0 (feature_rows_of features.now) }
    ensures { IfOk result (λ name. option_copied name ≡ twice_from supers.now class [] (feature_rows_of features.now)) }
{
    let reached = reach(alloc, supers, &[class])?;
    let classes = sorted(alloc, reached.as_slice())?;
    let mut seen = IndexSet::new(alloc);
    let mut next: u128 = 0;
    let list = classes.as_slice();
    for k in 0..list.len() {
        let owner = list[k];
        let start = later(next, owner);
        let begin = begin_of(features, start);
        let name = twice_own(&mut seen, owner, &features[begin..])?;
        if name.is_some() {
            return Ok(name);
        }
        next = past(next, owner);
    }
    Ok(None)
}
