// The features of each class by their names: a name leads to the place of a feature that bears it, and in each class
// that place leads to the class's own feature of the name.
ghost use Rattle.std.specs.Prelude.{◌≡◌, ◌⊎◌, ℕ, ◌<◌, List, [], length, map, IfOk, OnOk, Some, Contains, slice_index, slice_index_or};
ghost use Rattle.std.specs.HashMap.{get_by_text};
ghost use Rattle.atl_base.specs.declared.numbers.FeatId.{FeatId};
ghost use Rattle.ecore_meta.specs.Valid.{AllDiffer};
ghost use Rattle.ecore_meta.specs.Tables.{AreFirsts, ArePlacesOf, IsRow, Row};

use crate::parts::Feature;
use atl_base::numbers::FeatId;
use sqlite_items::Items;
use std::alloc::{AllocError, Global};
use std::collections::HashMap;

// For each name of a feature the place of the first that bears it, and for each feature that place.
#[derive(Drop)]
pub(crate) struct Places {
    pub firsts: HashMap<String, usize>,
    pub of: Vec<usize>,
}

// The place that a name leads to: this one, where it leads to none yet.
fn place_of(
    alloc: Global,
    firsts: &mut HashMap<String, usize>,
    name: &str,
    place: usize,
) -> Result<usize, AllocError>
    ensures here { IfOk result (λ first. get_by_text firsts.new name.now ≡ Some first) }
    ensures kept { OnOk result ((q : List ℕ) (i : ℕ) → get_by_text firsts.old q ≡ Some i
        → get_by_text firsts.new q ≡ Some i) }
    ensures added { OnOk result ((q : List ℕ) (i : ℕ) → get_by_text firsts.new q ≡ Some i
        → ((get_by_text firsts.old q ≡ Some i) ⊎ ((q ≡ name.now) × (i ≡ place)))) }
{
    if let Some(first) = firsts.get(name) {
        return Ok(*first);
    }
    firsts.insert(String::from_str(alloc, name)?, place)?;
    Ok(place)
}

// For each name of a feature the place of the first that bears it.
pub(crate) fn first_places(alloc: Global, features: &[Feature]) -> Result<Places, AllocError>
    ensures firsts { IfOk result (λ places. AreFirsts features.now places.firsts) }
    ensures of { IfOk result (λ places. ArePlacesOf features.now places.firsts places.of.items) }
{
    let mut firsts = HashMap::new(alloc);
    let mut of = Vec::with_capacity(alloc, features.len())?;
    for (place, feature) in features.iter().enumerate() {
        let first = place_of(alloc, &mut firsts, feature.name.as_str(), place)?;
        of.push(first)?;
    }
    Ok(Places { firsts, of })
}

// The features of a class, each under its place.
fn named_row(
    alloc: Global,
    places: &[usize],
    seen: &[FeatId],
) -> Result<HashMap<usize, FeatId>, AllocError>
    requires within { (f : FeatId) → Contains seen.now f → f.0 < length places.now }
    requires differ { AllDiffer (map (λ f. slice_index places.now f.0) seen.now) }
    ensures { IfOk result (IsRow places.now seen.now) }
{
    let mut row = HashMap::new(alloc);
    for feature in seen {
        row.insert(places[feature.0 as usize], *feature)?;
    }
    Ok(row)
}

// The features of each class, each under its place.
pub(crate) fn named_rows(
    alloc: Global,
    places: &[usize],
    lists: &[Items<FeatId>],
) -> Result<Vec<HashMap<usize, FeatId>>, AllocError>
    requires within { (c : ℕ) (f : FeatId) → Contains (slice_index_or lists.now c []) f
        → f.0 < length places.now }
    requires differ { (c : ℕ) →
        AllDiffer (map (λ f. slice_index places.now f.0) (slice_index_or lists.now c [])) }
    ensures lengths { IfOk result (λ rows. length rows.items ≡ length lists.now) }
    ensures each { IfOk result (λ rows. (c : ℕ) (d : Row) → c < length lists.now
        → IsRow places.now (slice_index_or lists.now c []) (slice_index_or rows.items c d)) }
{
    let mut rows = Vec::with_capacity(alloc, lists.len())?;
    for list in lists {
        rows.push(named_row(alloc, places, list.as_slice())?)?;
    }
    Ok(rows)
}
