// Opposites: a reference that names another has to be named back by it.
ghost use Rattle.std.specs.Prelude.{◌≡◌, [], false, codes, slice_get};
ghost use Rattle.std.specs.Option.{option_map_or};
ghost use Rattle.xmi_text.specs.Markup.{given as given_of};
ghost use Rattle.ecore_names.specs.References.{feature_named as feature_named_in};
ghost use Rattle.ecore_rows.specs.Rows.{ByClass, feature_rows as feature_rows_in};
ghost use Rattle.ecore_faults.specs.Faults.{is_reference_role, is_contained as is_contained_of, is_this as is_this_of, fit_both as fit_both_of, fit as fit_of, is_opposite as is_opposite_of, is_bad_end as is_bad_end_of, is_bad_opposite as is_bad_opposite_of};
ghost use Rattle.ecore_outline.specs.Entries.{entry_of, entries_of};
ghost use Rattle.ecore_rows.specs.CodeRows.{typed_of, feature_row_of, feature_rows_of};

use ecore_names::file::File;
use ecore_names::own::{Own, feature_named};
use ecore_outline::outline::{Entry, Role};
use ecore_rows::rows::FeatureRow;
use ecore_rows::typed::Typed;
use xmi_text::markup::{flag, given};

pub(crate) fn is_reference(role: Role) -> bool
    ensures { result ≡ is_reference_role role }
{
    matches!(role, Role::Reference)
}

fn is_contained(entry: &Entry<'_>) -> bool
    ensures { result ≡ is_contained_of [] (entry_of entry.now) }
{
    flag("containment", entry.element)
}

// Whether a word names the feature of this number.
fn names_feature(file: &File<'_>, word: &[u8], feature: usize) -> bool
    ensures { result ≡ is_this_of [] feature (feature_named_in (entries_of file.now) word.now) }
{
    match feature_named(file, word) {
        Some(Own::Kept(number, _)) => number == feature,
        Some(Own::Skips) => false,
        None => false,
    }
}

// Whether the opposite of an element is the feature of this number.
fn names_back(file: &File<'_>, entry: &Entry<'_>, feature: usize) -> bool
    ensures { result ≡ option_map_or (λ text. is_this_of [] feature (feature_named_in (entries_of file.now) text)) (given_of (codes "eOpposite") entry.now.element.now) false }
{
    match given("eOpposite", entry.element) {
        Some(word) => names_feature(file, word.bytes(), feature),
        None => false,
    }
}

// Whether the classes of two ends fit, each the owner of the other end, where both have one.
fn fit_both(typed: &Typed<'_>, owner: usize, other: &Typed<'_>, other_owner: usize) -> bool
    ensures { result ≡ fit_both_of [] (typed_of typed.now) owner (typed_of other.now) other_owner }
{
    match typed {
        Typed::Class(class) => fits_class(*class, owner, other, other_owner),
        Typed::Data(_) => true,
        Typed::Foreign(_) => true,
        Typed::Untyped(_) => true,
    }
}

fn fits_class(class: usize, owner: usize, other: &Typed<'_>, other_owner: usize) -> bool
    ensures { result ≡ fit_both_of [] (ByClass class) owner (typed_of other.now) other_owner }
{
    match other {
        Typed::Class(back) => class == other_owner && *back == owner,
        Typed::Data(_) => true,
        Typed::Foreign(_) => true,
        Typed::Untyped(_) => true,
    }
}

// Whether the classes of a feature and of the one of this number fit.
fn fits(features: &[FeatureRow<'_>], row: &FeatureRow<'_>, other: usize) -> bool
    ensures { result ≡ fit_of [] (feature_row_of row.now) (slice_get (feature_rows_of features.now) other) }
{
    if other < features.len() {
        return fit_both(
            &row.typed,
            row.owner,
            &features[other].typed,
            features[other].owner,
        );
    }
    false
}

// Whether the feature of number `other`, at this element, is the opposite of the one of number `feature`.
fn is_opposite(
    file: &File<'_>,
    features: &[FeatureRow<'_>],
    feature: usize,
    row: &FeatureRow<'_>,
    other: usize,
    entry: &Entry<'_>,
) -> bool
    requires { feature_rows_of features.now ≡ feature_rows_in (entries_of file.now) }
    ensures { result ≡ is_opposite_of (entries_of file.now) feature (feature_row_of row.now) other (entry_of entry.now) }
{
    is_reference(entry.role)
        && names_back(file, entry, feature)
        && fits(features, row, other)
        && !(is_contained(&row.entry) && is_contained(entry))
}

// Whether a word names no opposite of a feature.
fn is_bad_end(
    file: &File<'_>,
    features: &[FeatureRow<'_>],
    feature: usize,
    row: &FeatureRow<'_>,
    word: &[u8],
) -> bool
    requires { feature_rows_of features.now ≡ feature_rows_in (entries_of file.now) }
    ensures { result ≡ is_bad_end_of (entries_of file.now) feature (feature_row_of row.now) (feature_named_in (entries_of file.now) word.now) }
{
    match feature_named(file, word) {
        Some(Own::Kept(other, entry)) => !is_opposite(file, features, feature, row, other, &entry),
        Some(Own::Skips) => false,
        None => true,
    }
}

/// Whether a feature, of this number, names an opposite that is none.
pub(crate) fn is_bad_opposite(
    file: &File<'_>,
    features: &[FeatureRow<'_>],
    feature: usize,
    row: &FeatureRow<'_>,
) -> bool
    requires { feature_rows_of features.now ≡ feature_rows_in (entries_of file.now) }
    ensures { result ≡ is_bad_opposite_of (entries_of file.now) feature (feature_row_of row.now) }
{
    match given("eOpposite", row.entry.element) {
        Some(word) => is_bad_end(file, features, feature, row, word.bytes()),
        None => false,
    }
}
