// Types and supertypes that name nothing, or a class of another file.
ghost use Rattle.std.specs.Prelude.{◌≡◌, [], ◌&&◌, map, find, is_none, is_some, None, IfOk, List, option_map, codes, if◌then◌else◌};
ghost use Rattle.std.specs.Option.{option_copied};
ghost use Rattle.xmi_text.specs.Markup.{given as given_of};
ghost use Rattle.ecore_names.specs.References.{class_named as class_named_in};
ghost use Rattle.ecore_rows.specs.Rows.{super_words, type_behind as type_behind_of, foreign_word as foreign_word_of};
ghost use Rattle.ecore_faults.specs.Faults.{typed_fault as typed_fault_of, supers_fault as supers_fault_in};
ghost use Rattle.ecore_outline.specs.Entries.{entry_of, entries_of};
ghost use Rattle.ecore_rows.specs.CodeRows.{typed_of};
ghost use Rattle.ecore_faults.specs.FoundFaults.{fault_in};

use crate::fault::{Fault, Kind};
use ecore_names::file::File;
use ecore_names::target::class_named;
use ecore_outline::outline::Entry;
use ecore_rows::typed::{Typed, type_behind};
use std::alloc::{AllocError, Global};
use xmi_text::markup::{given, given_text};
use xmi_text::references::names_file;
use xmi_text::words::words;

/// What is wrong with a type.
pub(crate) fn typed_fault<'a>(typed: &Typed<'a>) -> Option<Fault<'a>>
    ensures { fault_in result ≡ typed_fault_of [] (typed_of typed.now) }
{
    match typed {
        Typed::Foreign(word) => Some(Fault {
            kind: Kind::OtherFile,
            value: word,
        }),
        Typed::Untyped(text) => Some(Fault {
            kind: Kind::NoType,
            value: text,
        }),
        Typed::Data(_) => None,
        Typed::Class(_) => None,
    }
}

fn has_child_type(entry: &Entry<'_>, behind: &[Entry<'_>]) -> bool
    ensures { result ≡ (is_none (given_of (codes "eType") entry.now.element.now) && is_some (type_behind_of (entries_of behind.now))) }
{
    given("eType", entry.element).is_none() && type_behind(behind).is_some()
}

/// What is wrong with the type of a feature. One that a child names is judged at the child.
pub(crate) fn feature_type_fault<'a>(
    entry: &Entry<'a>,
    behind: &[Entry<'a>],
    typed: &Typed<'a>,
) -> Option<Fault<'a>>
    ensures { fault_in result ≡ (if is_none (given_of (codes "eType") entry.now.element.now) && is_some (type_behind_of (entries_of behind.now)) then None else typed_fault_of [] (typed_of typed.now)) }
{
    if has_child_type(entry, behind) {
        return None;
    }
    typed_fault(typed)
}

// The first word that names a file.
fn foreign_word<'a>(words: &[&'a [u8]]) -> Option<&'a [u8]>
    ensures { option_copied result ≡ foreign_word_of (map (λ w. w.now) words.now) }
{
    for i in 0..words.len() {
        if names_file(words[i]) {
            return Some(words[i]);
        }
    }
    None
}

// The first word that names no class.
fn no_class<'a>(file: &File<'a>, words: &[&'a [u8]]) -> Option<&'a [u8]>
    ensures { option_copied result ≡ find (λ w. is_none (class_named_in (entries_of file.now) w)) (map (λ w. w.now) words.now) }
{
    for i in 0..words.len() {
        if class_named(file, words[i]).is_none() {
            return Some(words[i]);
        }
    }
    None
}

/// What is wrong with the words that name supertypes.
pub(crate) fn supers_fault<'a>(file: &File<'a>, words: &[&'a [u8]]) -> Option<Fault<'a>>
    ensures { fault_in result ≡ supers_fault_in (entries_of file.now) (map (λ w. w.now) words.now) }
{
    if let Some(value) = foreign_word(words) {
        return Some(Fault {
            kind: Kind::OtherFile,
            value,
        });
    }
    match no_class(file, words) {
        Some(value) => Some(Fault {
            kind: Kind::NoType,
            value,
        }),
        None => None,
    }
}

/// What is wrong with the supertypes that a class names by itself.
pub(crate) fn class_fault<'a>(
    alloc: Global,
    file: &File<'a>,
    entry: &Entry<'a>,
) -> Result<Option<Fault<'a>>, AllocError>
    ensures { IfOk result (λ fault. fault_in fault ≡ supers_fault_in (entries_of file.now) (super_words (entry_of entry.now))) }
{
    let words = words(alloc, given_text("eSuperTypes", entry.element).as_bytes())?;
    Ok(supers_fault(file, &words))
}
