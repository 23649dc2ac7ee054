// The types of attributes: data types of Ecore and of the file, and enumerations, each with the default that it gives.
ghost use Rattle.std.specs.Prelude.{◌≡◌, ◌∷◌, ℕ, List, MatchOption, None, Some, option_map};
ghost use Rattle.std.specs.Option.{option_copied};
ghost use Rattle.xmi_text.specs.Fragments.{file_of as file_of_word, behind_hash as behind_hash_of, behind_slashes as behind_slashes_of};
ghost use Rattle.ecore_outline.specs.Enumerations.{literal_text as literal_text_of, is_literal_role};
ghost use Rattle.ecore_names.specs.Types.{plain as plain_of, DataType as SomeDataType, typed_by, ecore_types, instance_types, named_types, own_type as own_type_of, foreign_type as foreign_type_of, local_type as local_type_in};
ghost use Rattle.ecore_outline.specs.Entries.{entry_of, entries_of};
ghost use Rattle.ecore_names.specs.DataTypes.{kind_of, data_type_of};
ghost use Rattle.ecore_names.specs.References.{local_target as local_target_in};
ghost use Rattle.ecore_names.specs.Classifiers.{data_of};

use crate::file::File;
use crate::target::{Target, local_target};
use doc_text::tree::Element;
use ecore_outline::outline::{Entry, Role};
use ecore_outline::role::name_of;
use xmi_text::cut::place_of;
use xmi_text::markup::{ECORE, given, given_text};
use xmi_text::references::{fragment, path_of};

/// A sort of attribute; an enumeration by its number.
#[derive(Clone, Copy)]
pub enum DataKind {
    Str,
    Int,
    Truth,
    Enum(usize),
    Opaque,
}

/// A sort of attribute, and the default of its type.
#[derive(Clone, Copy)]
pub struct DataType<'a> {
    pub kind: DataKind,
    pub default: Option<&'a str>,
}

/// A type without a default.
pub(crate) fn plain<'a>(kind: DataKind) -> DataType<'a>
    ensures { data_type_of result ≡ plain_of (kind_of kind) }
{
    DataType {
        kind,
        default: None,
    }
}

// The type of a row that bears a word, where it is the name, else what the rows behind it give.
fn by_row<'a>(
    word: &str,
    kind: DataKind,
    default: Option<&'a str>,
    name: &[u8],
    behind: DataType<'a>,
) -> DataType<'a>
    ensures { (rows : List (List ℕ × SomeDataType)) → data_type_of behind.entry ≡ typed_by rows name.now
        → data_type_of result ≡ typed_by ((word.now, record { kind = kind_of kind; default = option_copied default.entry }) ∷ rows) name.now }
{
    if word.as_bytes() == name {
        return DataType { kind, default };
    }
    behind
}

fn ecore_type<'a>(name: &[u8]) -> DataType<'a>
    ensures { data_type_of result ≡ typed_by ecore_types name.now }
{
    let found = plain(DataKind::Opaque);
    let found = by_row("EBooleanObject", DataKind::Truth, None, name, found);
    let found = by_row("EBoolean", DataKind::Truth, Some("false"), name, found);
    let found = by_row("EBigInteger", DataKind::Int, None, name, found);
    let found = by_row("EByteObject", DataKind::Int, None, name, found);
    let found = by_row("EShortObject", DataKind::Int, None, name, found);
    let found = by_row("ELongObject", DataKind::Int, None, name, found);
    let found = by_row("EIntegerObject", DataKind::Int, None, name, found);
    let found = by_row("EByte", DataKind::Int, Some("0"), name, found);
    let found = by_row("EShort", DataKind::Int, Some("0"), name, found);
    let found = by_row("ELong", DataKind::Int, Some("0"), name, found);
    let found = by_row("EInt", DataKind::Int, Some("0"), name, found);
    by_row("EString", DataKind::Str, None, name, found)
}

fn instance_type<'a>(name: &[u8]) -> DataType<'a>
    ensures { data_type_of result ≡ typed_by instance_types name.now }
{
    let found = plain(DataKind::Opaque);
    let found = by_row("java.lang.Boolean", DataKind::Truth, None, name, found);
    let found = by_row("boolean", DataKind::Truth, Some("false"), name, found);
    let found = by_row("java.lang.Byte", DataKind::Int, None, name, found);
    let found = by_row("java.lang.Short", DataKind::Int, None, name, found);
    let found = by_row("java.lang.Long", DataKind::Int, None, name, found);
    let found = by_row("java.lang.Integer", DataKind::Int, None, name, found);
    let found = by_row("byte", DataKind::Int, Some("0"), name, found);
    let found = by_row("short", DataKind::Int, Some("0"), name, found);
    let found = by_row("long", DataKind::Int, Some("0"), name, found);
    let found = by_row("int", DataKind::Int, Some("0"), name, found);
    by_row("java.lang.String", DataKind::Str, None, name, found)
}

fn named_type<'a>(name: &[u8]) -> DataType<'a>
    ensures { data_type_of result ≡ typed_by named_types name.now }
{
    let found = plain(DataKind::Opaque);
    let found = by_row("Boolean", DataKind::Truth, None, name, found);
    let found = by_row("Integer", DataKind::Int, None, name, found);
    by_row("String", DataKind::Str, None, name, found)
}

/// The type of a data type of the file's own.
pub(crate) fn own_type<'a>(element: &Element) -> DataType<'a>
    ensures { data_type_of result ≡ own_type_of element.now }
{
    match given("instanceClassName", element) {
        Some(name) => instance_type(name.bytes()),
        None => named_type(given_text("name", element).as_bytes()),
    }
}

/// The text of a literal: its own, else its name.
pub fn literal_text<'a>(entry: &Entry<'a>) -> &'a str
    ensures { result.now ≡ literal_text_of (entry_of entry.now) }
{
    match given("literal", entry.element) {
        Some(text) => text.as_str(),
        None => name_of(entry),
    }
}

// The file that a reference names.
fn file_of(word: &[u8]) -> &[u8]
    ensures { result.now ≡ file_of_word word.now }
{
    let at = place_of(b'#', word);
    &word[..at]
}

fn behind_hash(word: &[u8]) -> &[u8]
    ensures { result.now ≡ behind_hash_of word.now }
{
    let at = place_of(b'#', word);
    if at < word.len() {
        return &word[at + 1..];
    }
    &[]
}

fn behind_slashes(word: &[u8]) -> &[u8]
    ensures { result.now ≡ behind_slashes_of word.now }
{
    match word {
        [a, b, rest @ ..] => { if *a == b'/' && *b == b'/' { rest } else { &[] } }
        _ => &[],
    }
}

/// The type of a data type of another file.
pub fn foreign_type<'a>(word: &[u8]) -> DataType<'a>
    ensures { data_type_of result ≡ foreign_type_of word.now }
{
    if file_of(word) == ECORE.as_bytes() {
        return ecore_type(behind_slashes(behind_hash(word)));
    }
    plain(DataKind::Opaque)
}

/// Literals of enumerations.
pub fn is_literal(role: Role) -> bool
    ensures { result ≡ is_literal_role role }
{
    matches!(role, Role::Literal)
}

// The type that the data type gives which a word names in its file.
fn local_data<'a>(file: &File<'a>, word: &[u8]) -> Option<DataType<'a>>
    ensures { option_map data_type_of result ≡ option_map data_of (local_target_in (entries_of file.now) word.now) }
{
    match path_of(fragment(word)) {
        Some(path) => file.given_type(&path),
        None => None,
    }
}

/// The type that a word names in its file.
pub fn local_type<'a>(file: &File<'a>, word: &[u8]) -> Option<DataType<'a>>
    ensures { MatchOption result (local_type_in (entries_of file.now) word.now ≡ None)
        (λ t. local_type_in (entries_of file.now) word.now ≡ Some (data_type_of t)) }
{
    match local_target(file, word) {
        Some(Target::Class(_)) => None,
        Some(Target::Enum(place)) => Some(DataType {
            kind: DataKind::Enum(place),
            default: file.first_literal(place),
        }),
        Some(Target::Data(_)) => local_data(file, word),
        None => None,
    }
}
