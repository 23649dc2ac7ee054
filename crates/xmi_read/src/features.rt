// The features of a file: what each holds, how many, and its default.
ghost use Rattle.std.specs.Prelude.{◌≡◌, ◌≤◌, ◌&&◌, true, false, List, length, map, codes, bytes_eq, Some, IfOk};
ghost use Rattle.std.specs.Option.{option_copied, option_map_or};
ghost use Rattle.atl_base.specs.XmlText.{IsXmlText};
ghost use Rattle.xmi_text.specs.Markup.{given as given_of, flag as flag_of, or_empty};
ghost use Rattle.ecore_outline.specs.Outline.{Entry as SomeEntry};
ghost use Rattle.ecore_names.specs.References.{feature_named as feature_named_in};
ghost use Rattle.ecore_rows.specs.Rows.{feature_rows as feature_rows_in};
ghost use Rattle.xmi_text.specs.Numbers.{is_many_upper as is_many_upper_of};
ghost use Rattle.ecore_faults.specs.Faults.{is_attribute_role};
ghost use Rattle.xmi_read.specs.Parts.{kept, opposite_of as opposite_of_entry, kind_of as kind_of_row, default_of as default_of_row, is_unique as is_unique_of, feature_of as feature_of_row};
ghost use Rattle.ecore_outline.specs.Entries.{entry_of, entries_of};
ghost use Rattle.ecore_names.specs.DataTypes.{kind_of as kind_of_data};
ghost use Rattle.ecore_rows.specs.CodeRows.{typed_of, feature_row_of, feature_rows_of};
ghost use Rattle.xmi_read.specs.Sizes.{IsSmallKind, IsSmallType};
ghost use Rattle.ecore_outline.specs.Texts.{AreTexts};
ghost use Rattle.xmi_read.specs.TypeTexts.{HasTextDefault};

use atl_base::numbers::{ClassId, FeatId};
use atl_base::text::Text;
use ecore_meta::parts::{FeatKind, Feature};
use ecore_names::data_type::DataKind;
use ecore_names::file::File;
use ecore_names::own::{Own, feature_named};
use ecore_outline::outline::{Entry, Role};
use ecore_outline::text::{name_text, text_of};
use ecore_rows::rows::FeatureRow;
use ecore_rows::typed::Typed;
use sqlite_items::Items;
use std::alloc::{AllocError, Global};
use xmi_text::markup::{flag, given};
use xmi_text::numbers::is_many_upper;

fn is_attribute(role: Role) -> bool
    ensures { result ≡ is_attribute_role role }
{
    matches!(role, Role::Attribute)
}

// Whether several values may stand.
fn is_many(entry: &Entry<'_>) -> bool
    ensures { result ≡ option_map_or is_many_upper_of (given_of (codes "upperBound") (entry_of entry.now).site.element) false }
{
    match given("upperBound", entry.element) {
        Some(text) => is_many_upper(text.bytes()),
        None => false,
    }
}

fn is_said_unique(entry: &Entry<'_>) -> bool
    ensures { result ≡ option_map_or (bytes_eq (codes "true")) (given_of (codes "unique") (entry_of entry.now).site.element) true }
{
    match given("unique", entry.element) {
        Some(text) => "true" == text.as_str(),
        None => true,
    }
}

fn is_unique(entry: &Entry<'_>) -> bool
    ensures { (file : List SomeEntry) → result ≡ is_unique_of file (entry_of entry.now) }
{
    if is_attribute(entry.role) {
        return is_said_unique(entry);
    }
    true
}

// The number of the feature that a reference names as its opposite.
fn opposite_of(file: &File<'_>, entry: &Entry<'_>) -> Option<FeatId>
    requires { length file.now ≤ 4294967294 }
    ensures { result ≡ opposite_of_entry (entries_of file.now) (entry_of entry.now) }
{
    match given("eOpposite", entry.element) {
        Some(text) => number_of(file, text.bytes()),
        None => None,
    }
}

// The number of the feature that a word names, where it is kept.
fn number_of(file: &File<'_>, word: &[u8]) -> Option<FeatId>
    requires { length file.now ≤ 4294967294 }
    ensures { result ≡ kept (entries_of file.now) (feature_named_in (entries_of file.now) word.now) }
{
    match feature_named(file, word) {
        Some(Own::Kept(feature, _)) => Some(FeatId(feature as u32)),
        Some(Own::Skips) => None,
        None => None,
    }
}

fn data_kind(kind: DataKind) -> FeatKind
    requires { IsSmallKind (kind_of_data kind) }
    ensures { result ≡ kind_of_data kind }
{
    match kind {
        DataKind::Str => FeatKind::Str,
        DataKind::Int => FeatKind::Int,
        DataKind::Truth => FeatKind::Truth,
        DataKind::Enum(place) => FeatKind::Enum(place as u32),
        DataKind::Opaque => FeatKind::Opaque,
    }
}

fn kind_of(file: &File<'_>, row: &FeatureRow<'_>) -> FeatKind
    requires size { length file.now ≤ 4294967294 }
    requires small { IsSmallType (typed_of row.now.typed) }
    ensures { result ≡ kind_of_row (entries_of file.now) (feature_row_of row.now) (typed_of row.now.typed) }
{
    match row.typed {
        Typed::Data(data) => data_kind(data.kind),
        Typed::Class(class) => FeatKind::Refer {
            class: ClassId(class as u32),
            contains: flag("containment", row.entry.element),
            opposite: opposite_of(file, &row.entry),
        },
        Typed::Foreign(_) => FeatKind::Opaque,
        Typed::Untyped(_) => FeatKind::Opaque,
    }
}

// The default that an attribute's type gives.
fn type_default(alloc: Global, default: Option<&str>) -> Result<Option<Text>, AllocError>
    requires { IsXmlText (or_empty (option_copied default)) }
    ensures { IfOk result (λ d. d ≡ option_copied default.entry) }
{
    match default {
        Some(text) => Ok(Some(text_of(alloc, text.as_bytes())?)),
        None => Ok(None),
    }
}

// An attribute's own default, else its type's.
fn data_default(
    alloc: Global,
    entry: &Entry<'_>,
    default: Option<&str>,
) -> Result<Option<Text>, AllocError>
    requires { IsXmlText (or_empty (option_copied default)) }
    ensures { IfOk result (λ d. d ≡ option_map_or Some (given_of (codes "defaultValueLiteral") (entry_of entry.now).site.element) (option_copied default.entry)) }
{
    match given("defaultValueLiteral", entry.element) {
        Some(text) => Ok(Some(text.copy(alloc)?)),
        None => type_default(alloc, default),
    }
}

fn default_of(alloc: Global, row: &FeatureRow<'_>) -> Result<Option<Text>, AllocError>
    requires { HasTextDefault (typed_of row.now.typed) }
    ensures { IfOk result (λ d. (file : List SomeEntry) → d ≡ default_of_row file (feature_row_of row.now) (typed_of row.now.typed)) }
{
    match row.typed {
        Typed::Data(data) => data_default(alloc, &row.entry, data.default),
        Typed::Class(_) => Ok(None),
        Typed::Foreign(_) => Ok(None),
        Typed::Untyped(_) => Ok(None),
    }
}

fn is_id(entry: &Entry<'_>) -> bool
    ensures { result ≡ (is_attribute_role (entry_of entry.now).role && flag_of (codes "iD") (entry_of entry.now).site.element) }
{
    is_attribute(entry.role) && flag("iD", entry.element)
}

fn feature_of(alloc: Global, file: &File<'_>, row: &FeatureRow<'_>) -> Result<Feature, AllocError>
    requires size { length file.now ≤ 4294967294 }
    requires owner { row.now.owner ≤ 4294967294 }
    requires small { IsSmallType (typed_of row.now.typed) }
    requires text { HasTextDefault (typed_of row.now.typed) }
    ensures { IfOk result (λ f. f ≡ feature_of_row (entries_of file.now) (feature_row_of row.now)) }
{
    let entry = &row.entry;
    Ok(Feature {
        name: name_text(alloc, entry)?,
        owner: ClassId(row.owner as u32),
        kind: kind_of(file, row),
        many: is_many(entry),
        unique: is_unique(entry),
        is_id: is_id(entry),
        default: default_of(alloc, row)?,
    })
}

/// The features of a file, in their order.
pub(crate) fn features(
    alloc: Global,
    file: &File<'_>,
    rows: &[FeatureRow<'_>],
) -> Result<Items<Feature>, AllocError>
    requires size { length file.now ≤ 4294967294 }
    requires texts { AreTexts (entries_of file.now) }
    requires rows { feature_rows_of rows.now ≡ feature_rows_in (entries_of file.now) }
    ensures { IfOk result (λ list. list ≡ map (feature_of_row (entries_of file.now)) (feature_rows_in (entries_of file.now))) }
{
    let mut list = Items::new(alloc);
    for i in 0..rows.len() {
        list.push(feature_of(alloc, file, &rows[i])?)?;
    }
    Ok(list)
}
