// The tables of what each class inherits: the features that are seen in it, and the classes that it conforms to.
ghost use Rattle.std.specs.Prelude.{◌≡◌, ℕ, ◌<◌, ◌↔◌, ◌++◌, List, [], ◌∷◌, length, IfOk, OnOk, slice_index_or, Contains, flat_map};
ghost use Rattle.std.specs.List.Sorted.{IsStrictlyIncreasing};
ghost use Rattle.atl_base.specs.declared.numbers.ClassId.{ClassId};
ghost use Rattle.atl_base.specs.declared.numbers.FeatId.{FeatId};
ghost use Rattle.ecore_meta.specs.Inheritance.{IsAcyclic, distinct, features};
ghost use Rattle.ecore_meta.specs.Order.{AreWithin, IsSupersFirst};
ghost use Rattle.ecore_meta.specs.Tables.{AreFeatureLists, AreConformed};

use crate::parts::Class;
use atl_base::numbers::{ClassId, FeatId};
use indexmap::IndexSet;
use sqlite_items::Items;
use std::alloc::{AllocError, Global};

// Adds the features that are not there yet at the end.
fn add_new(seen: &mut IndexSet<FeatId>, features: &[FeatId]) -> Result<(), AllocError>
    ensures { OnOk result ((before : List FeatId) → seen.old.keys ≡ distinct before
        → seen.new.keys ≡ distinct (before ++ features.now)) }
{
    for feature in features {
        seen.insert(*feature)?;
    }
    Ok(())
}

// The features of a class, from the lists of its supertypes.
fn features_seen(
    alloc: Global,
    class: &Class,
    lists: &[Items<FeatId>],
) -> Result<Items<FeatId>, AllocError>
    requires { (s : ClassId) → Contains class.now.supers s → s.0 < length lists.now }
    ensures { IfOk result (λ list.
        list ≡ distinct (flat_map (λ s. slice_index_or lists.now s.0 []) class.now.supers) ++ class.now.own) }
{
    let mut seen = IndexSet::new(alloc);
    for sup in class.supers.as_slice() {
        add_new(&mut seen, lists[sup.0 as usize].as_slice())?;
    }
    let mut list = Vec::from_slice(alloc, seen.as_slice())?;
    list.extend_from_slice(class.own.as_slice())?;
    Ok(Items::from_vec(list))
}

// The places of the classes that a class conforms to, from the lists of its supertypes.
fn conformed(
    alloc: Global,
    class: usize,
    supers: &[ClassId],
    lists: &[Items<usize>],
) -> Result<Items<usize>, AllocError>
    requires { (s : ClassId) → Contains supers.now s → s.0 < length lists.now }
    ensures rising { IfOk result IsStrictlyIncreasing }
    ensures each { IfOk result (λ list. (d : ℕ) →
        Contains list d ↔ Contains (class ∷ flat_map (λ s. slice_index_or lists.now s.0 []) supers.now) d) }
{
    let mut list = vec![in alloc; class]?;
    for sup in supers {
        list.extend_from_slice(lists[sup.0 as usize].as_slice())?;
    }
    list.sort()?;
    list.dedup();
    Ok(Items::from_vec(list))
}

// As many empty lists.
fn empty_lists<T: Drop>(alloc: Global, count: usize) -> Result<Vec<Items<T>>, AllocError>
    ensures { IfOk result (λ lists. length lists.items ≡ count) }
{
    let mut lists = Vec::with_capacity(alloc, count)?;
    for _ in 0..count {
        lists.push(Items::new(alloc))?;
    }
    Ok(lists)
}

// For each class the features that are seen in it.
pub(crate) fn feature_lists(
    alloc: Global,
    classes: &[Class],
    order: &[usize],
) -> Result<Vec<Items<FeatId>>, AllocError>
    requires acyclic { IsAcyclic classes.now }
    requires within { AreWithin classes.now }
    requires order { IsSupersFirst classes.now order.now }
    ensures { IfOk result (λ lists. AreFeatureLists classes.now lists.items) }
{
    let mut lists = empty_lists(alloc, classes.len())?;
    for class in order {
        let list = features_seen(alloc, &classes[*class], &lists)?;
        lists[*class] = list;
    }
    Ok(lists)
}

// For each class the places of the classes that it conforms to.
pub(crate) fn conformed_lists(
    alloc: Global,
    classes: &[Class],
    order: &[usize],
) -> Result<Vec<Items<usize>>, AllocError>
    requires within { AreWithin classes.now }
    requires order { IsSupersFirst classes.now order.now }
    ensures { IfOk result (λ lists. AreConformed classes.now lists.items) }
{
    let mut lists = empty_lists(alloc, classes.len())?;
    for class in order {
        let list = conformed(alloc, *class, classes[*class].supers.as_slice(), &lists)?;
        lists[*class] = list;
    }
    Ok(lists)
}
