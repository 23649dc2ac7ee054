// The classes and features of a file in their order, each with what belongs to it.
ghost use Rattle.std.specs.Prelude.{◌≡◌, ◌++◌, ◌∷◌, [], ◌-◌, map, OnOk, IfOk};
ghost use Rattle.ecore_rows.specs.Rows.{is_super_role, ends_class as ends_class_of, supers_behind, super_words, typed as typed_in, class_rows as class_rows_in, feature_rows as feature_rows_in};
ghost use Rattle.ecore_outline.specs.Entries.{entry_of, entries_of};
ghost use Rattle.ecore_rows.specs.CodeRows.{typed_of, class_rows_of, feature_rows_of};

use crate::typed::{Typed, href, type_of};
use ecore_names::file::File;
use ecore_names::target::one_more;
use ecore_outline::outline::{Entry, Role};
use ecore_outline::role::{is_class, is_classifier, is_feature, is_package};
use std::alloc::{AllocError, Global};
use xmi_text::markup::given_text;
use xmi_text::words::words;

/// A class, the number of its package, and the words that name its supertypes.
#[derive(Drop)]
pub struct ClassRow<'a> {
    pub entry: Entry<'a>,
    pub holder: usize,
    pub supers: Vec<&'a [u8]>,
}

/// A feature, the number of the class that declares it, and its type.
#[derive(Clone, Copy)]
pub struct FeatureRow<'a> {
    pub entry: Entry<'a>,
    pub owner: usize,
    pub typed: Typed<'a>,
}

fn is_super(role: Role) -> bool
    ensures { result ≡ is_super_role role }
{
    matches!(role, Role::Super)
}

// Whether what has this part belongs to no class before it.
fn ends_class(role: Role) -> bool
    ensures { result ≡ ends_class_of role }
{
    is_package(role) || is_classifier(role)
}

// Adds the supertypes that the children of a class name, among what stands behind the class.
fn push_supers_behind<'a>(words: &mut Vec<&'a [u8]>, behind: &[Entry<'a>]) -> Result<(), AllocError>
    ensures { OnOk result (map (λ w. w.now) words.new.items
        ≡ map (λ w. w.now) words.old.items ++ supers_behind (entries_of behind.now)) }
{
    for i in 0..behind.len() {
        let entry = &behind[i];
        if ends_class(entry.role) {
            return Ok(());
        }
        if is_super(entry.role) {
            words.push(href(entry).as_bytes())?;
        }
    }
    Ok(())
}

// The words that name the supertypes of a class.
fn supers_of<'a>(
    alloc: Global,
    entry: &Entry<'a>,
    behind: &[Entry<'a>],
) -> Result<Vec<&'a [u8]>, AllocError>
    ensures { IfOk result (λ words. map (λ w. w.now) words.items
        ≡ super_words (entry_of entry.now) ++ supers_behind (entries_of behind.now)) }
{
    let mut words = words(alloc, given_text("eSuperTypes", entry.element).as_bytes())?;
    push_supers_behind(&mut words, behind)?;
    Ok(words)
}

// Adds the row of a class, before which so many packages stand.
fn push_class<'a>(
    alloc: Global,
    rows: &mut Vec<ClassRow<'a>>,
    packages: usize,
    entry: &Entry<'a>,
    behind: &[Entry<'a>],
) -> Result<(), AllocError>
    ensures { OnOk result (class_rows_of rows.new.items ≡ class_rows_of rows.old.items
        ++ (record { entry = entry_of entry.now; holder = packages - 1; supers = super_words (entry_of entry.now) ++ supers_behind (entries_of behind.now) } ∷ [])) }
{
    let supers = supers_of(alloc, entry, behind)?;
    rows.push(ClassRow {
        entry: *entry,
        holder: packages.saturating_sub(1),
        supers,
    })?;
    Ok(())
}

/// The classes of a file.
pub fn class_rows<'a>(alloc: Global, file: &[Entry<'a>]) -> Result<Vec<ClassRow<'a>>, AllocError>
    ensures { IfOk result (λ rows. class_rows_of rows.items ≡ class_rows_in (entries_of file.now)) }
{
    let mut rows = Vec::new(alloc);
    let mut packages = 0;
    for i in 0..file.len() {
        let entry = &file[i];
        if is_class(entry.role) {
            push_class(alloc, &mut rows, packages, entry, &file[i + 1..])?;
        } else {
            packages = one_more(packages, is_package(entry.role));
        }
    }
    Ok(rows)
}

// Adds the row of a feature, before which so many classes stand.
fn push_feature<'a>(
    alloc: Global,
    rows: &mut Vec<FeatureRow<'a>>,
    classes: usize,
    file: &File<'a>,
    entry: &Entry<'a>,
    behind: &[Entry<'a>],
) -> Result<(), AllocError>
    ensures { OnOk result (feature_rows_of rows.new.items ≡ feature_rows_of rows.old.items
        ++ (record { entry = entry_of entry.now; owner = classes - 1; type = typed_in (entries_of file.now) (entry_of entry.now) (entries_of behind.now) } ∷ [])) }
{
    let typed = type_of(alloc, file, entry, behind)?;
    rows.push(FeatureRow {
        entry: *entry,
        owner: classes.saturating_sub(1),
        typed,
    })?;
    Ok(())
}

/// The features of a file.
pub fn feature_rows<'a>(alloc: Global, file: &File<'a>) -> Result<Vec<FeatureRow<'a>>, AllocError>
    ensures { IfOk result (λ rows. feature_rows_of rows.items ≡ feature_rows_in (entries_of file.now)) }
{
    let mut rows = Vec::new(alloc);
    let mut classes = 0;
    let entries = file.entries();
    for i in 0..entries.len() {
        let entry = &entries[i];
        if is_feature(entry.role) {
            push_feature(alloc, &mut rows, classes, file, entry, &entries[i + 1..])?;
        } else {
            classes = one_more(classes, is_class(entry.role));
        }
    }
    Ok(rows)
}
