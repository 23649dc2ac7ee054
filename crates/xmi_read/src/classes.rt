// The classes of a file: what each inherits from, and what it declares.
ghost use Rattle.std.specs.Prelude.{◌≡◌, ◌≤◌, ◌||◌, List, length, map, drop, codes, All, IfOk};
ghost use Rattle.xmi_text.specs.Markup.{flag as flag_of};
ghost use Rattle.ecore_outline.specs.Outline.{name_of as name_of_entry};
ghost use Rattle.ecore_rows.specs.Rows.{class_rows as class_rows_in, super_numbers, feature_rows as feature_rows_in};
ghost use Rattle.xmi_read.specs.Parts.{class_no, classes_from};
ghost use Rattle.ecore_outline.specs.Entries.{entry_of, entries_of};
ghost use Rattle.ecore_rows.specs.CodeRows.{class_row_of, class_rows_of, feature_rows_of};
ghost use Rattle.xmi_read.specs.Groups.{own_run};

use atl_base::numbers::{ClassId, FeatId};
use ecore_meta::parts::Class;
use ecore_outline::outline::Entry;
use ecore_outline::text::name_text;
use ecore_rows::rows::{ClassRow, FeatureRow};
use sqlite_items::Items;
use std::alloc::{AllocError, Global};
use xmi_text::markup::flag;

// Whether a class has no objects of its own.
fn is_abstract(entry: &Entry<'_>) -> bool
    ensures { result ≡ (flag_of (codes "abstract") (entry_of entry.now).site.element || flag_of (codes "interface") (entry_of entry.now).site.element) }
{
    flag("abstract", entry.element) || flag("interface", entry.element)
}

fn class_ids(alloc: Global, numbers: &[usize]) -> Result<Items<ClassId>, AllocError>
    requires { All (λ n. n ≤ 4294967294) numbers.now }
    ensures { IfOk result (λ list. list ≡ map class_no numbers.now) }
{
    let mut list = Items::new(alloc);
    for i in 0..numbers.len() {
        list.push(ClassId(numbers[i] as u32))?;
    }
    Ok(list)
}

// The features of a class, which stand together from a number on.
fn own_of(
    alloc: Global,
    features: &[FeatureRow<'_>],
    begin: usize,
    class: usize,
) -> Result<Items<FeatId>, AllocError>
    requires { length features.now ≤ 4294967294 }
    ensures { IfOk result (λ list. list ≡ own_run class begin (feature_rows_of (drop begin features.now))) }
{
    let mut list = Items::new(alloc);
    for i in begin..features.len() {
        if features[i].owner != class {
            return Ok(list);
        }
        list.push(FeatId(i as u32))?;
    }
    Ok(list)
}

fn class_of(
    alloc: Global,
    row: &ClassRow<'_>,
    supers: &[usize],
    own: Items<FeatId>,
) -> Result<Class, AllocError>
    requires holder { row.now.holder ≤ 4294967294 }
    requires supers { All (λ n. n ≤ 4294967294) supers.now }
    ensures { IfOk result (λ c. c ≡ record {
      name = name_of_entry (entry_of row.now.entry);
      «package» = row.now.holder;
      is_abstract = flag_of (codes "abstract") (entry_of row.now.entry).site.element || flag_of (codes "interface") (entry_of row.now.entry).site.element;
      supers = map class_no supers.now;
      own = own;
    }) }
{
    let entry = &row.entry;
    Ok(Class {
        name: name_text(alloc, entry)?,
        package: row.holder as u32,
        is_abstract: is_abstract(entry),
        supers: class_ids(alloc, supers)?,
        own,
    })
}

/// The classes of a file, in their order, of which these are the supertypes and the features.
pub(crate) fn classes(
    alloc: Global,
    file: &[Entry<'_>],
    rows: &[ClassRow<'_>],
    supers: &[Items<usize>],
    features: &[FeatureRow<'_>],
) -> Result<Items<Class>, AllocError>
    requires size { length file.now ≤ 4294967294 }
    requires rows { class_rows_of rows.now ≡ class_rows_in (entries_of file.now) }
    requires supers { supers.now ≡ super_numbers (entries_of file.now) }
    requires features { feature_rows_of features.now ≡ feature_rows_in (entries_of file.now) }
    ensures { IfOk result (λ list. list ≡ classes_from (entries_of file.now) 0 (class_rows_in (entries_of file.now))) }
{
    let mut list = Items::new(alloc);
    let mut begin = 0;
    for i in 0..rows.len() {
        let own = own_of(alloc, features, begin, i)?;
        begin += own.len();
        list.push(class_of(alloc, &rows[i], supers[i].as_slice(), own)?)?;
    }
    Ok(list)
}
