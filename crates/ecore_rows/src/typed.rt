// The types of features, as an attribute or a child names them.
ghost use Rattle.std.specs.Prelude.{◌≡◌, [], ◌∷◌, List, IfOk, map};
ghost use Rattle.std.specs.Option.{option_copied, option_map_or};
ghost use Rattle.doc_text.specs.declared.tree.Prefix.{Prefix};
ghost use Rattle.ecore_rows.specs.Rows.{Untyped, is_type_role, ends_feature as ends_feature_of, href as href_of, type_behind as type_behind_of, or_foreign as or_foreign_of, is_foreign_data as is_foreign_data_of, attribute_child_typed as attribute_child_typed_in, reference_child_typed as reference_child_typed_in, attribute_typed as attribute_typed_in, reference_typed as reference_typed_in, text_typed as text_typed_in, typed as typed_in, child_typed as child_typed_in, by_data as by_data_of, by_class as by_class_of};
ghost use Rattle.ecore_names.specs.Types.{local_type as local_type_in};
ghost use Rattle.ecore_names.specs.References.{class_named as class_named_in};
ghost use Rattle.xmi_text.specs.Scopes.{scope_of};
ghost use Rattle.ecore_outline.specs.Entries.{entry_of, entries_of};
ghost use Rattle.ecore_rows.specs.CodeRows.{typed_of};

use ecore_names::data_type::{DataType, foreign_type, local_type};
use ecore_names::file::File;
use ecore_names::target::class_named;
use ecore_outline::outline::{Entry, Role};
use std::alloc::{AllocError, Global};
use xmi_text::markup::{given, given_text};
use xmi_text::references::names_file;
use xmi_text::scope::{Scope, names};
use xmi_text::words::words;

/// The type of a feature.
#[derive(Clone, Copy)]
pub enum Typed<'a> {
    Data(DataType<'a>),
    /// A class by its number.
    Class(usize),
    /// A class of another file, by the word that names it.
    Foreign(&'a [u8]),
    /// A text that names no classifier of the sort that is needed.
    Untyped(&'a [u8]),
}

fn ends_feature(role: Role) -> bool
    ensures { result ≡ ends_feature_of role }
{
    !matches!(role, Role::Stray)
}

fn is_type(role: Role) -> bool
    ensures { result ≡ is_type_role role }
{
    matches!(role, Role::TypeOf)
}

/// What an element refers to.
pub fn href<'a>(entry: &Entry<'a>) -> &'a str
    ensures { result.now ≡ href_of (entry_of entry.now) }
{
    given_text("href", entry.element)
}

/// The child that names a feature's type, among what stands behind the feature.
pub fn type_behind<'a>(behind: &[Entry<'a>]) -> Option<&'a str>
    ensures { option_copied result ≡ type_behind_of (entries_of behind.now) }
{
    for i in 0..behind.len() {
        let entry = &behind[i];
        if is_type(entry.role) {
            return Some(href(entry));
        }
        if ends_feature(entry.role) {
            return None;
        }
    }
    None
}

// The first word that names a file, or else the text.
fn or_foreign<'a>(words: &[&'a [u8]], text: &'a [u8]) -> Typed<'a>
    ensures { typed_of result ≡ or_foreign_of (map (λ w. w.now) words.now) text.now }
{
    for i in 0..words.len() {
        if names_file(words[i]) {
            return Typed::Foreign(words[i]);
        }
    }
    Typed::Untyped(text)
}

fn is_foreign_data(scope: &Scope<'_>, sort: &[u8], reference: &[u8]) -> bool
    ensures { result ≡ is_foreign_data_of (scope_of scope.now) sort.now reference.now }
{
    names(scope, sort, "EDataType") && names_file(reference)
}

fn by_data<'a>(file: &File<'a>, text: &'a [u8], word: &[u8]) -> Typed<'a>
    ensures { typed_of result ≡ by_data_of text.now (local_type_in (entries_of file.now) word.now) }
{
    match local_type(file, word) {
        Some(found) => Typed::Data(found),
        None => Typed::Untyped(text),
    }
}

fn by_class<'a>(file: &File<'a>, text: &'a [u8], word: &[u8]) -> Typed<'a>
    ensures { typed_of result ≡ by_class_of text.now (class_named_in (entries_of file.now) word.now) }
{
    match class_named(file, word) {
        Some(class) => Typed::Class(class),
        None => Typed::Untyped(text),
    }
}

fn attribute_child_typed<'a>(file: &File<'a>, word: &'a [u8]) -> Typed<'a>
    ensures { typed_of result ≡ attribute_child_typed_in (entries_of file.now) word.now }
{
    if names_file(word) {
        return Typed::Data(foreign_type(word));
    }
    by_data(file, word, word)
}

fn reference_child_typed<'a>(file: &File<'a>, word: &'a [u8]) -> Typed<'a>
    ensures { typed_of result ≡ reference_child_typed_in (entries_of file.now) word.now }
{
    if names_file(word) {
        return Typed::Foreign(word);
    }
    by_class(file, word, word)
}

/// The type that a child of a feature names.
pub fn child_typed<'a>(role: Role, file: &File<'a>, word: &'a [u8]) -> Typed<'a>
    ensures { typed_of result ≡ child_typed_in role (entries_of file.now) word.now }
{
    match role {
        Role::Attribute => attribute_child_typed(file, word),
        _ => reference_child_typed(file, word),
    }
}

fn attribute_word_typed<'a>(file: &File<'a>, text: &'a [u8], word: &'a [u8]) -> Typed<'a>
    ensures { (scope : List Prefix) → typed_of result ≡ attribute_typed_in (entries_of file.now) scope text.now (word.now ∷ []) }
{
    if names_file(word) {
        return Typed::Foreign(word);
    }
    by_data(file, text, word)
}

// The type that the words of an attribute's `eType` name.
fn attribute_typed<'a>(
    file: &File<'a>,
    scope: &Scope<'_>,
    text: &'a [u8],
    words: &[&'a [u8]],
) -> Typed<'a>
    ensures { typed_of result ≡ attribute_typed_in (entries_of file.now) (scope_of scope.now) text.now (map (λ w. w.now) words.now) }
{
    match words {
        [word] => attribute_word_typed(file, text, word),
        [sort, reference] => {
            if is_foreign_data(scope, sort, reference) {
                Typed::Data(foreign_type(reference))
            } else {
                or_foreign(words, text)
            }
        }
        _ => or_foreign(words, text),
    }
}

fn reference_word_typed<'a>(file: &File<'a>, text: &'a [u8], word: &'a [u8]) -> Typed<'a>
    ensures { (scope : List Prefix) → typed_of result ≡ reference_typed_in (entries_of file.now) scope text.now (word.now ∷ []) }
{
    if names_file(word) {
        return Typed::Foreign(word);
    }
    by_class(file, text, word)
}

// The type that the words of a reference's `eType` name.
fn reference_typed<'a>(
    file: &File<'a>,
    scope: &Scope<'_>,
    text: &'a [u8],
    words: &[&'a [u8]],
) -> Typed<'a>
    ensures { typed_of result ≡ reference_typed_in (entries_of file.now) (scope_of scope.now) text.now (map (λ w. w.now) words.now) }
{
    match words {
        [word] => reference_word_typed(file, text, word),
        [sort, reference] => {
            if is_foreign_data(scope, sort, reference) {
                Typed::Untyped(text)
            } else {
                or_foreign(words, text)
            }
        }
        _ => or_foreign(words, text),
    }
}

fn text_typed<'a>(
    alloc: Global,
    file: &File<'a>,
    entry: &Entry<'a>,
    text: &'a [u8],
) -> Result<Typed<'a>, AllocError>
    ensures { IfOk result (λ t. typed_of t ≡ text_typed_in entry.now.role (entries_of file.now) (scope_of entry.now.scope) text.now) }
{
    let words = words(alloc, text)?;
    match entry.role {
        Role::Attribute => Ok(attribute_typed(file, &entry.scope, text, &words)),
        _ => Ok(reference_typed(file, &entry.scope, text, &words)),
    }
}

/// The type of a feature, behind which these stand.
pub(crate) fn type_of<'a>(
    alloc: Global,
    file: &File<'a>,
    entry: &Entry<'a>,
    behind: &[Entry<'a>],
) -> Result<Typed<'a>, AllocError>
    ensures { IfOk result (λ t. typed_of t ≡ typed_in (entries_of file.now) (entry_of entry.now) (entries_of behind.now)) }
{
    match given("eType", entry.element) {
        Some(text) => text_typed(alloc, file, entry, text.bytes()),
        None => Ok(child_or_untyped(file, entry.role, type_behind(behind))),
    }
}

fn child_or_untyped<'a>(file: &File<'a>, role: Role, word: Option<&'a str>) -> Typed<'a>
    ensures { typed_of result ≡ option_map_or (child_typed_in role (entries_of file.now)) (option_copied word.entry) (Untyped []) }
{
    match word {
        Some(word) => child_typed(role, file, word.as_bytes()),
        None => Typed::Untyped(&[]),
    }
}
