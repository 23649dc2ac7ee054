// The first thing that is wrong in a file.
ghost use Rattle.std.specs.Prelude.{◌≡◌, ◌+◌, ◌-◌, ◌<◌, ◌^◌, ◌++◌, ◌∷◌, [], List, Option, Some, None, IfOk, length, option_map, true, if◌then◌else◌};
ghost use Rattle.ecore_outline.specs.Outline.{Entry as SomeEntry, count, is_class_role, is_feature_role, name_of as name_of_entry};
ghost use Rattle.ecore_rows.specs.Rows.{typed as typed_in, twice_seen as twice_seen_in, feature_rows as feature_rows_in};
ghost use Rattle.ecore_faults.specs.Faults.{Fault as SomeFault, when as when_of, or_else as or_else_of, twice_fault as twice_fault_in, type_fault as type_fault_in, cycle_fault as cycle_fault_in, opposite_fault as opposite_fault_in, number_fault as number_fault_in, fault_at as fault_at_in, first_fault as first_fault_in, TwiceName};
ghost use Rattle.ecore_outline.specs.Entries.{entry_of, entries_of};
ghost use Rattle.ecore_rows.specs.CodeRows.{typed_of, feature_rows_of};
ghost use Rattle.ecore_faults.specs.Tables.{AreTables, AreCounted};
ghost use Rattle.ecore_faults.specs.FoundFaults.{fault_in, told};
ghost use Rattle.ecore_faults.specs.Seen.{repeats};

use crate::earlier_names::{is_repeated, none_seen, note_names};
use crate::fault::{Fault, FoundFault, Kind, element_fault, when};
use crate::number_fault::number_fault;
use crate::opposite::{is_bad_opposite, is_reference};
use crate::type_fault::{class_fault, feature_type_fault, supers_fault, typed_fault};
use ecore_names::file::File;
use ecore_names::target::one_more;
use ecore_outline::outline::{Entry, Role};
use ecore_outline::role::{is_class, is_enum, is_feature, name_of};
use ecore_rows::reach::{is_own_super, super_numbers};
use ecore_rows::repeated::twice_seen;
use ecore_rows::rows::{FeatureRow, class_rows, feature_rows};
use ecore_rows::typed::{Typed, child_typed, href};
use sqlite_items::Items;
use std::alloc::{AllocError, Global};

/// The supertypes of each class, and the features.
#[derive(Drop)]
pub(crate) struct Tables<'a> {
    pub supers: Vec<Items<usize>>,
    pub features: Vec<FeatureRow<'a>>,
}

/// How many classes, enumerations and features stand before an element, and the last feature's part.
#[derive(Clone, Copy)]
pub(crate) struct Counts {
    pub classes: usize,
    pub enums: usize,
    pub features: usize,
    pub last: Role,
}

fn tables_of<'a>(alloc: Global, file: &File<'a>) -> Result<Tables<'a>, AllocError>
    ensures { IfOk result (λ tables. AreTables (entries_of file.now) tables) }
{
    let classes = class_rows(alloc, file.entries())?;
    let supers = super_numbers(alloc, file, &classes)?;
    let features = feature_rows(alloc, file)?;
    Ok(Tables { supers, features })
}

fn last_past(last: Role, role: Role) -> Role
    ensures { result ≡ (if is_feature_role role then role else last) }
{
    if is_feature(role) { role } else { last }
}

// The counts past an element.
fn past(counts: &Counts, entry: &Entry<'_>) -> Counts
    requires classes { counts.now.classes < 2 ^ 63 }
    requires enums { counts.now.enums < 2 ^ 63 }
    requires features { counts.now.features < 2 ^ 63 }
    ensures { (file part : List SomeEntry) → AreCounted file counts.now part → AreCounted file result (part ++ (entry_of entry.now ∷ [])) }
{
    Counts {
        classes: one_more(counts.classes, is_class(entry.role)),
        enums: one_more(counts.enums, is_enum(entry.role)),
        features: one_more(counts.features, is_feature(entry.role)),
        last: last_past(counts.last, entry.role),
    }
}

// A class whose name stands twice, or in which a name is seen twice.
fn class_twice<'a>(
    alloc: Global,
    file: &File<'a>,
    tables: &Tables<'a>,
    repeated: bool,
    class: usize,
    entry: &Entry<'a>,
) -> Result<Option<Fault<'a>>, AllocError>
    requires tables { AreTables (entries_of file.now) tables.now }
    requires class { class < length tables.now.supers.items }
    ensures { IfOk result (λ fault. fault_in fault ≡ or_else_of (when_of repeated TwiceName (name_of_entry (entry_of entry.now)))
        (option_map (λ n. (TwiceName, n)) (twice_seen_in (entries_of file.now) class))) }
{
    if repeated {
        return Ok(Some(Fault {
            kind: Kind::TwiceName,
            value: name_of(entry).as_bytes(),
        }));
    }
    match twice_seen(alloc, &tables.supers, class, &tables.features)? {
        Some(name) => Ok(Some(Fault {
            kind: Kind::TwiceName,
            value: name.as_bytes(),
        })),
        None => Ok(None),
    }
}

// A name that stands twice.
fn twice_fault<'a>(
    alloc: Global,
    file: &File<'a>,
    tables: &Tables<'a>,
    before: &[Entry<'a>],
    repeated: bool,
    counts: &Counts,
    entry: &Entry<'a>,
) -> Result<Option<Fault<'a>>, AllocError>
    requires tables { AreTables (entries_of file.now) tables.now }
    requires counts { AreCounted (entries_of file.now) counts.now (entries_of before.now) }
    requires repeated { repeated ≡ repeats (entries_of before.now) (entry_of entry.now) }
    requires class { is_class_role entry.now.role ≡ true → counts.now.classes < length tables.now.supers.items }
    ensures { IfOk result (λ fault. fault_in fault ≡ twice_fault_in (entries_of file.now) (entries_of before.now) (entry_of entry.now)) }
{
    if is_class(entry.role) {
        let fault = class_twice(alloc, file, tables, repeated, counts.classes, entry)?;
        return Ok(fault);
    }
    let name = name_of(entry);
    Ok(when(repeated, Kind::TwiceName, name.as_bytes()))
}

// The type of the feature of this number; where the element is none, nothing is told of it.
fn type_at<'a>(
    file: &File<'a>,
    features: &[FeatureRow<'a>],
    feature: usize,
    before: &[Entry<'a>],
    entry: &Entry<'a>,
    behind: &[Entry<'a>],
) -> Typed<'a>
    requires whole { entries_of file.now ≡ entries_of before.now ++ (entry_of entry.now ∷ entries_of behind.now) }
    requires features { feature_rows_of features.now ≡ feature_rows_in (entries_of file.now) }
    requires feature { feature ≡ count is_feature_role (entries_of before.now) }
    ensures { is_feature_role entry.now.role ≡ true → typed_of result ≡ typed_in (entries_of file.now) (entry_of entry.now) (entries_of behind.now) }
{
    if feature < features.len() {
        let row = &features[feature];
        return row.typed;
    }
    Typed::Untyped(&[])
}

// A type or a supertype that names nothing, or a class of another file.
fn type_fault<'a>(
    alloc: Global,
    file: &File<'a>,
    before: &[Entry<'a>],
    counts: &Counts,
    entry: &Entry<'a>,
    behind: &[Entry<'a>],
    typed: &Typed<'a>,
) -> Result<Option<Fault<'a>>, AllocError>
    requires counts { AreCounted (entries_of file.now) counts.now (entries_of before.now) }
    requires typed { is_feature_role entry.now.role ≡ true → typed_of typed.now ≡ typed_in (entries_of file.now) (entry_of entry.now) (entries_of behind.now) }
    ensures { IfOk result (λ fault. fault_in fault ≡ type_fault_in (entries_of file.now) (entries_of before.now) (entry_of entry.now) (entries_of behind.now)) }
{
    match entry.role {
        Role::Class => class_fault(alloc, file, entry),
        Role::Super => Ok(supers_fault(file, &[href(entry).as_bytes()])),
        Role::TypeOf => Ok(typed_fault(&child_typed(counts.last, file, href(entry).as_bytes()))),
        Role::Attribute => Ok(feature_type_fault(entry, behind, typed)),
        Role::Reference => Ok(feature_type_fault(entry, behind, typed)),
        _ => Ok(None),
    }
}

// A class that inherits from itself.
fn cycle_fault<'a>(
    alloc: Global,
    file: &File<'a>,
    tables: &Tables<'a>,
    before: &[Entry<'a>],
    counts: &Counts,
    entry: &Entry<'a>,
) -> Result<Option<Fault<'a>>, AllocError>
    requires tables { AreTables (entries_of file.now) tables.now }
    requires counts { AreCounted (entries_of file.now) counts.now (entries_of before.now) }
    requires class { is_class_role entry.now.role ≡ true → counts.now.classes < length tables.now.supers.items }
    ensures { IfOk result (λ fault. fault_in fault ≡ cycle_fault_in (entries_of file.now) (entries_of before.now) (entry_of entry.now)) }
{
    if !is_class(entry.role) {
        return Ok(None);
    }
    let is_cyclic = is_own_super(alloc, &tables.supers, counts.classes)?;
    Ok(when(is_cyclic, Kind::SuperCycle, name_of(entry).as_bytes()))
}

// A reference whose opposite does not fit.
fn opposite_fault<'a>(
    file: &File<'a>,
    tables: &Tables<'a>,
    before: &[Entry<'a>],
    counts: &Counts,
    entry: &Entry<'a>,
) -> Option<Fault<'a>>
    requires tables { AreTables (entries_of file.now) tables.now }
    requires counts { AreCounted (entries_of file.now) counts.now (entries_of before.now) }
    ensures { fault_in result ≡ opposite_fault_in (entries_of file.now) (entries_of before.now) (entry_of entry.now) }
{
    if !is_reference(entry.role) {
        return None;
    }
    let feature = counts.features;
    if feature >= tables.features.len() {
        return None;
    }
    let is_bad = is_bad_opposite(file, &tables.features, feature, &tables.features[feature]);
    when(is_bad, Kind::BadOpposite, name_of(entry).as_bytes())
}

// What is wrong with an element in its file, behind what is wrong with it by itself.
fn fault_in_file<'a>(
    alloc: Global,
    file: &File<'a>,
    tables: &Tables<'a>,
    before: &[Entry<'a>],
    repeated: bool,
    counts: &Counts,
    entry: &Entry<'a>,
    behind: &[Entry<'a>],
) -> Result<Option<Fault<'a>>, AllocError>
    requires whole { entries_of file.now ≡ entries_of before.now ++ (entry_of entry.now ∷ entries_of behind.now) }
    requires tables { AreTables (entries_of file.now) tables.now }
    requires repeated { repeated ≡ repeats (entries_of before.now) (entry_of entry.now) }
    requires counts { AreCounted (entries_of file.now) counts.now (entries_of before.now) }
    ensures { IfOk result (λ fault. fault_in fault
        ≡ or_else_of (twice_fault_in (entries_of file.now) (entries_of before.now) (entry_of entry.now))
        (or_else_of (type_fault_in (entries_of file.now) (entries_of before.now) (entry_of entry.now) (entries_of behind.now))
        (or_else_of (cycle_fault_in (entries_of file.now) (entries_of before.now) (entry_of entry.now))
        (or_else_of (opposite_fault_in (entries_of file.now) (entries_of before.now) (entry_of entry.now))
        (or_else_of (number_fault_in (entries_of file.now) entry.now.role (typed_in (entries_of file.now) (entry_of entry.now) (entries_of behind.now)) entry.now.element.now) None))))) }
{
    if let Some(fault) = twice_fault(alloc, file, tables, before, repeated, counts, entry)? {
        return Ok(Some(fault));
    }
    let typed = type_at(
        file,
        &tables.features,
        counts.features,
        before,
        entry,
        behind,
    );
    if let Some(fault) = type_fault(alloc, file, before, counts, entry, behind, &typed)? {
        return Ok(Some(fault));
    }
    if let Some(fault) = cycle_fault(alloc, file, tables, before, counts, entry)? {
        return Ok(Some(fault));
    }
    if let Some(fault) = opposite_fault(file, tables, before, counts, entry) {
        return Ok(Some(fault));
    }
    Ok(number_fault(file, entry.role, &typed, entry.element))
}

// The first kind of fault at an element, where these stand before it and behind it.
fn fault_at<'a>(
    alloc: Global,
    file: &File<'a>,
    tables: &Tables<'a>,
    before: &[Entry<'a>],
    repeated: bool,
    counts: &Counts,
    entry: &Entry<'a>,
    behind: &[Entry<'a>],
) -> Result<Option<Fault<'a>>, AllocError>
    requires whole { entries_of file.now ≡ entries_of before.now ++ (entry_of entry.now ∷ entries_of behind.now) }
    requires tables { AreTables (entries_of file.now) tables.now }
    requires repeated { repeated ≡ repeats (entries_of before.now) (entry_of entry.now) }
    requires counts { AreCounted (entries_of file.now) counts.now (entries_of before.now) }
    ensures { IfOk result (λ fault. fault_in fault ≡ fault_at_in (entries_of file.now) (entries_of before.now) (entry_of entry.now) (entries_of behind.now)) }
{
    if let Some(fault) = element_fault(entry, behind) {
        return Ok(Some(fault));
    }
    fault_in_file(alloc, file, tables, before, repeated, counts, entry, behind)
}

/// The first thing that is wrong in a file.
pub fn first_fault<'a>(alloc: Global, file: &File<'a>) -> Result<Option<FoundFault<'a>>, AllocError>
    ensures { IfOk result (λ fault. told fault ≡ first_fault_in (entries_of file.now)) }
{
    let tables = tables_of(alloc, file)?;
    let mut counts = Counts {
        classes: 0,
        enums: 0,
        features: 0,
        last: Role::Stray,
    };
    let mut seen = none_seen(alloc);
    let entries = file.entries();
    for i in 0..entries.len() {
        let entry = &entries[i];
        let repeated = is_repeated(&seen, counts.enums, entry);
        note_names(&mut seen, counts.enums, entry)?;
        let fault = fault_at(
            alloc,
            file,
            &tables,
            &entries[..i],
            repeated,
            &counts,
            entry,
            &entries[i + 1..],
        )?;
        if let Some(fault) = fault {
            return Ok(Some(FoundFault {
                fault,
                place: entry.element.place,
            }));
        }
        counts = past(&counts, entry);
    }
    Ok(None)
}
