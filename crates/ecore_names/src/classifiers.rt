// The classifiers of a file, by name and package.
ghost use Rattle.std.specs.Prelude.{◌≡◌, ◌++◌, ◌∷◌, ◌<◌, ◌^◌, ◌&&◌, [], ℕ, List, Option, true, false, IfOk, OnOk, map, length, bytes_eq, option_map, slice_get, if◌then◌else◌};
ghost use Rattle.std.specs.List.{position_from};
ghost use Rattle.xmi_text.specs.Options.{then_, earlier as earlier_of};
ghost use Rattle.ecore_names.specs.References.{target as target_in};
ghost use Rattle.ecore_outline.specs.Outline.{name_of as name_of_entry, is_package_role, is_classifier_role};
ghost use Rattle.ecore_outline.specs.Entries.{entry_of, entries_of};
ghost use Rattle.ecore_names.specs.Targets.{stand_of, target_of, path_of as path_seen};
ghost use Rattle.xmi_text.specs.Keys.{key_of, keys_of, has_place, AreFirsts};
ghost use Rattle.ecore_names.specs.DataTypes.{data_type_of};
ghost use Rattle.ecore_names.specs.Classifiers.{data_of, classifier_here as classifier_here_of, classifiers_in, named, numbered, aliased, holders_in, alias_of as alias_in, is_named, is_numbered, is_of_holder, row_in, row_target, row_data};
ghost use Rattle.ecore_names.specs.FileTables.{row_of, rows_of, AreTargets};

use crate::data_type::{DataKind, DataType, own_type, plain};
use crate::target::{Stand, Target, past, target_here};
use ecore_outline::outline::Entry;
use ecore_outline::role::{is_classifier, is_package, name_of};
use std::alloc::{AllocError, Global};
use std::collections::HashMap;
use xmi_text::keys::{Key, first_place, first_places};
use xmi_text::numbers::{is_number, number};
use xmi_text::references::Path;

/// A classifier: its name, the number of its package, where that package's name stands first among the names of packages,
/// what a reference to the classifier names, and the type that it gives where it is a data type.
#[derive(Clone, Copy)]
pub(crate) struct Classifier<'a> {
    pub name: &'a [u8],
    pub number: usize,
    pub alias: usize,
    pub target: Target<'a>,
    pub gives: DataType<'a>,
}

/// The classifiers in their order, and where each stands first by its name, by its name and the number of its package, and by
/// its name and the name of its package.
#[derive(Drop)]
pub(crate) struct Targets<'a> {
    pub rows: Vec<Classifier<'a>>,
    pub holders: HashMap<Key<'a>, usize>,
    pub names: HashMap<Key<'a>, usize>,
    pub numbers: HashMap<Key<'a>, usize>,
    pub aliases: HashMap<Key<'a>, usize>,
}

// The names of packages, behind an empty one for what stands in none.
fn holder_keys<'a>(alloc: Global, entries: &[Entry<'a>]) -> Result<Vec<Key<'a>>, AllocError>
    ensures { IfOk result (λ keys. keys_of keys.items ≡ holders_in (entries_of entries.now)) }
{
    let mut keys = Vec::new(alloc);
    keys.push(Key {
        number: 0,
        text: &[],
    })?;
    for i in 0..entries.len() {
        if is_package(entries[i].role) {
            keys.push(Key {
                number: 0,
                text: name_of(&entries[i]).as_bytes(),
            })?;
        }
    }
    Ok(keys)
}

// Where the name of a package stands first.
fn alias_of(holders: &HashMap<Key<'_>, usize>, name: &[u8]) -> usize
    ensures { (keys : List (ℕ × List ℕ)) → AreFirsts holders.now keys → result ≡ alias_in keys name.now }
{
    match first_place(holders, 0, name) {
        Some(place) => place,
        None => 0,
    }
}

fn alias_past(holders: &HashMap<Key<'_>, usize>, alias: usize, entry: &Entry<'_>) -> usize
    ensures { (keys : List (ℕ × List ℕ)) → AreFirsts holders.now keys → result ≡ (if is_package_role entry.now.role then alias_in keys (name_of_entry (entry_of entry.now)) else alias) }
{
    if is_package(entry.role) {
        return alias_of(holders, name_of(entry).as_bytes());
    }
    alias
}

// The type that a data type gives.
fn data_here<'a>(target: &Target<'a>) -> DataType<'a>
    ensures { data_type_of result ≡ data_of (target_of target.now) }
{
    match target {
        Target::Class(_) => plain(DataKind::Opaque),
        Target::Enum(_) => plain(DataKind::Opaque),
        Target::Data(element) => own_type(element),
    }
}

fn classifier_here<'a>(stand: &Stand<'a>, alias: usize, entry: &Entry<'a>) -> Classifier<'a>
    ensures { (keys : List (ℕ × List ℕ)) → alias ≡ alias_in keys stand.now.holder.now → row_of result ≡ row_in keys (classifier_here_of (stand_of stand.now) (entry_of entry.now)) }
{
    let target = target_here(stand, entry);
    Classifier {
        name: name_of(entry).as_bytes(),
        number: stand.packages.saturating_sub(1),
        alias,
        target,
        gives: data_here(&target),
    }
}

// Adds the entry where it is a classifier.
fn push_classifier<'a>(
    rows: &mut Vec<Classifier<'a>>,
    stand: &Stand<'a>,
    alias: usize,
    entry: &Entry<'a>,
) -> Result<(), AllocError>
    ensures { OnOk result ((keys : List (ℕ × List ℕ)) → alias ≡ alias_in keys stand.now.holder.now
        → rows_of rows.new.items ≡ rows_of rows.old.items ++ map (row_in keys) (if is_classifier_role entry.now.role then classifier_here_of (stand_of stand.now) (entry_of entry.now) ∷ [] else [])) }
{
    if !is_classifier(entry.role) {
        return Ok(());
    }
    let row = classifier_here(stand, alias, entry);
    rows.push(row)?;
    Ok(())
}

// The classifiers in their order.
fn classifiers<'a>(
    alloc: Global,
    entries: &[Entry<'a>],
    holders: &HashMap<Key<'a>, usize>,
) -> Result<Vec<Classifier<'a>>, AllocError>
    requires { AreFirsts holders.now (holders_in (entries_of entries.now)) }
    ensures { IfOk result (λ rows. rows_of rows.items ≡ map (row_in (holders_in (entries_of entries.now))) (classifiers_in (entries_of entries.now))) }
{
    let mut rows = Vec::new(alloc);
    let mut alias = alias_of(holders, &[]);
    let mut stand = Stand {
        packages: 0,
        holder: "",
        classes: 0,
        enums: 0,
    };
    for i in 0..entries.len() {
        let entry = &entries[i];
        push_classifier(&mut rows, &stand, alias, entry)?;
        alias = alias_past(holders, alias, entry);
        stand = past(&stand, entry);
    }
    Ok(rows)
}

fn name_keys<'a>(alloc: Global, rows: &[Classifier<'a>]) -> Result<Vec<Key<'a>>, AllocError>
    ensures { IfOk result (λ keys. keys_of keys.items ≡ map named (rows_of rows.now)) }
{
    let mut keys = Vec::with_capacity(alloc, rows.len())?;
    for i in 0..rows.len() {
        keys.push(Key {
            number: 0,
            text: rows[i].name,
        })?;
    }
    Ok(keys)
}

fn number_keys<'a>(alloc: Global, rows: &[Classifier<'a>]) -> Result<Vec<Key<'a>>, AllocError>
    ensures { IfOk result (λ keys. keys_of keys.items ≡ map numbered (rows_of rows.now)) }
{
    let mut keys = Vec::with_capacity(alloc, rows.len())?;
    for i in 0..rows.len() {
        keys.push(Key {
            number: rows[i].number,
            text: rows[i].name,
        })?;
    }
    Ok(keys)
}

fn alias_keys<'a>(alloc: Global, rows: &[Classifier<'a>]) -> Result<Vec<Key<'a>>, AllocError>
    ensures { IfOk result (λ keys. keys_of keys.items ≡ map aliased (rows_of rows.now)) }
{
    let mut keys = Vec::with_capacity(alloc, rows.len())?;
    for i in 0..rows.len() {
        keys.push(Key {
            number: rows[i].alias,
            text: rows[i].name,
        })?;
    }
    Ok(keys)
}

fn holder_places<'a>(
    alloc: Global,
    entries: &[Entry<'a>],
) -> Result<HashMap<Key<'a>, usize>, AllocError>
    ensures { IfOk result (λ t. AreFirsts t (holders_in (entries_of entries.now))) }
{
    let keys = holder_keys(alloc, entries)?;
    let places = first_places(alloc, &keys)?;
    Ok(places)
}

fn name_places<'a>(
    alloc: Global,
    rows: &[Classifier<'a>],
) -> Result<HashMap<Key<'a>, usize>, AllocError>
    ensures { IfOk result (λ t. AreFirsts t (map named (rows_of rows.now))) }
{
    let keys = name_keys(alloc, rows)?;
    let places = first_places(alloc, &keys)?;
    Ok(places)
}

fn number_places<'a>(
    alloc: Global,
    rows: &[Classifier<'a>],
) -> Result<HashMap<Key<'a>, usize>, AllocError>
    ensures { IfOk result (λ t. AreFirsts t (map numbered (rows_of rows.now))) }
{
    let keys = number_keys(alloc, rows)?;
    let places = first_places(alloc, &keys)?;
    Ok(places)
}

fn alias_places<'a>(
    alloc: Global,
    rows: &[Classifier<'a>],
) -> Result<HashMap<Key<'a>, usize>, AllocError>
    ensures { IfOk result (λ t. AreFirsts t (map aliased (rows_of rows.now))) }
{
    let keys = alias_keys(alloc, rows)?;
    let places = first_places(alloc, &keys)?;
    Ok(places)
}

/// The classifiers of a file.
pub(crate) fn targets_in<'a>(
    alloc: Global,
    entries: &[Entry<'a>],
) -> Result<Targets<'a>, AllocError>
    ensures { IfOk result (λ t. AreTargets (entries_of entries.now) t) }
{
    let holders = holder_places(alloc, entries)?;
    let rows = classifiers(alloc, entries, &holders)?;
    let names = name_places(alloc, &rows)?;
    let numbers = number_places(alloc, &rows)?;
    let aliases = alias_places(alloc, &rows)?;
    Ok(Targets {
        rows,
        holders,
        names,
        numbers,
        aliases,
    })
}

fn earlier(place: Option<usize>, other: Option<usize>) -> Option<usize>
    ensures { result ≡ earlier_of place other }
{
    match (place, other) {
        (Some(here), Some(there)) => Some(here.min(there)),
        (Some(here), None) => Some(here),
        (None, there) => there,
    }
}

// The first classifier of a name in the package of this number.
fn by_number(entries: &[Entry<'_>], table: &Targets<'_>, path: &Path<'_>) -> Option<usize>
    requires { AreTargets (entries_of entries.now) table.now }
    ensures { result ≡ position_from (is_numbered (path_seen path.now)) 0 (classifiers_in (entries_of entries.now)) }
{
    if !is_number(path.holder) {
        return None;
    }
    let wanted = number(path.holder);
    if wanted >= entries.len() as u128 {
        return None;
    }
    first_place(&table.numbers, wanted as usize, path.name)
}

// The first classifier of a name in a package of this name.
fn by_holder(entries: &[Entry<'_>], table: &Targets<'_>, path: &Path<'_>) -> Option<usize>
    requires tables { AreTargets (entries_of entries.now) table.now }
    requires holder { bytes_eq path.now.holder.now [] ≡ false }
    ensures { result ≡ position_from (is_of_holder (path_seen path.now)) 0 (classifiers_in (entries_of entries.now)) }
{
    let alias = first_place(&table.holders, 0, path.holder);
    match alias {
        Some(alias) => first_place(&table.aliases, alias, path.name),
        None => None,
    }
}

// Whether a path names the packages of all names.
fn is_any(path: &Path<'_>) -> bool
    ensures { result ≡ bytes_eq path.now.holder.now [] }
{
    let any: &[u8] = &[];
    path.holder == any
}

fn first_named(entries: &[Entry<'_>], table: &Targets<'_>, path: &Path<'_>) -> Option<usize>
    requires { AreTargets (entries_of entries.now) table.now }
    ensures { result ≡ position_from (is_named (path_seen path.now)) 0 (classifiers_in (entries_of entries.now)) }
{
    if is_any(path) {
        return first_place(&table.names, 0, path.name);
    }
    let numbered = by_number(entries, table, path);
    let held = by_holder(entries, table, path);
    earlier(numbered, held)
}

// What stands at a place.
fn target_at<'a>(rows: &[Classifier<'a>], place: Option<usize>) -> Option<Target<'a>>
    ensures { option_map target_of result ≡ then_ place (λ k. option_map row_target (slice_get (rows_of rows.now) k)) }
{
    match place {
        Some(place) => {
            if place < rows.len() {
                return Some(rows[place].target);
            }
            None
        }
        None => None,
    }
}

/// What the first classifier that a path names is.
pub(crate) fn target_named<'a>(
    entries: &[Entry<'a>],
    table: &Targets<'a>,
    path: &Path<'_>,
) -> Option<Target<'a>>
    requires { AreTargets (entries_of entries.now) table.now }
    ensures { option_map target_of result ≡ target_in (entries_of entries.now) (path_seen path.now) }
{
    let place = first_named(entries, table, path);
    target_at(&table.rows, place)
}

// The type that stands at a place.
fn data_at<'a>(rows: &[Classifier<'a>], place: Option<usize>) -> Option<DataType<'a>>
    ensures { option_map data_type_of result ≡ then_ place (λ k. option_map row_data (slice_get (rows_of rows.now) k)) }
{
    match place {
        Some(place) => {
            if place < rows.len() {
                return Some(rows[place].gives);
            }
            None
        }
        None => None,
    }
}

/// The type that the first classifier gives that a path names.
pub(crate) fn data_named<'a>(
    entries: &[Entry<'a>],
    table: &Targets<'a>,
    path: &Path<'_>,
) -> Option<DataType<'a>>
    requires { AreTargets (entries_of entries.now) table.now }
    ensures { option_map data_type_of result ≡ option_map data_of (target_in (entries_of entries.now) (path_seen path.now)) }
{
    let place = first_named(entries, table, path);
    data_at(&table.rows, place)
}
