// A file's entries, with tables of what its references and defaults name.
ghost use Rattle.std.specs.Prelude.{◌≡◌, IfOk, option_map, bytes_eq};
ghost use Rattle.std.specs.Option.{option_copied};
ghost use Rattle.std.specs.List.{list_any};
ghost use Rattle.ecore_names.specs.References.{own_feature, target as target_in};
ghost use Rattle.ecore_outline.specs.Enumerations.{literals_of, literal_text as literal_text_of, first_text as first_text_of};
ghost use Rattle.ecore_outline.specs.Entries.{entries_of};
ghost use Rattle.ecore_names.specs.Targets.{own_of, target_of, path_of as path_seen};
ghost use Rattle.ecore_names.specs.Classifiers.{data_of};
ghost use Rattle.ecore_names.specs.DataTypes.{data_type_of};

use crate::classifiers::{Targets, data_named, target_named, targets_in};
use crate::data_type::DataType;
use crate::literals::{Literals, first_text, is_text, literals_in};
use crate::own::Own;
use crate::owns::{Owns, own_named, owns_in};
use crate::target::Target;
use ecore_outline::outline::Entry;
use std::alloc::{AllocError, Global};
use std::marker::Model;
use xmi_text::references::Path;

/// The entries of a file, which contracts see as their list. Each look-up by name takes a time that does not grow with the
/// file.
#[derive(Drop)]
pub struct File<'a> {
    entries: Vec<Entry<'a>>,
    targets: Targets<'a>,
    owns: Owns<'a>,
    literals: Literals<'a>,
}

impl<'a> Model for File<'a> {
    ghost use Rattle.std.specs.Prelude.{List};
    ghost use Rattle.std.specs.Coded.{codes};
    ghost use Rattle.doc_text.specs.contracts.tree.Child as child;
    ghost use Rattle.ecore_outline.specs.declared.outline.Entry.{Entry as CodeEntry};
    ghost use Rattle.ecore_outline.specs.Entries.{entries_of};
    ghost use Rattle.ecore_names.specs.FileTables.{AreTargets, AreOwns, AreLiterals};

    ghost Value = { List CodeEntry };

    ghost coded = { Prim.hlevel (codes, child.the_row.coded) };

    ghost view = { λ f. f.entries.items };

    ghost invariant = { λ f. AreTargets (entries_of f.entries.items) f.targets × AreOwns (entries_of f.entries.items) f.owns × AreLiterals (entries_of f.entries.items) f.literals };
}

impl<'a> File<'a> {
    /// The file of these entries.
    pub fn new(alloc: Global, entries: Vec<Entry<'a>>) -> Result<File<'a>, AllocError>
        ensures { IfOk result (λ file. file ≡ entries.entry.items) }
    {
        let targets = targets_in(alloc, &entries)?;
        let owns = owns_in(alloc, &entries)?;
        let literals = literals_in(alloc, &entries)?;
        Ok(File {
            entries,
            targets,
            owns,
            literals,
        })
    }

    /// All entries, in their order.
    pub fn entries(&self) -> &[Entry<'a>]
        ensures { result.now ≡ self.now }
    {
        &self.entries
    }

    /// What the first classifier that a path names is.
    pub(crate) fn target(&self, path: &Path<'_>) -> Option<Target<'a>>
        ensures { option_map target_of result ≡ target_in (entries_of self.now) (path_seen path.now) }
    {
        target_named(&self.entries, &self.targets, path)
    }

    /// The type that the first classifier gives that a path names. What is no data type of the file's own counts as opaque.
    pub(crate) fn given_type(&self, path: &Path<'_>) -> Option<DataType<'a>>
        ensures { option_map data_type_of result ≡ option_map data_of (target_in (entries_of self.now) (path_seen path.now)) }
    {
        data_named(&self.entries, &self.targets, path)
    }

    /// A class's own feature of this name.
    pub(crate) fn own(&self, class: usize, name: &[u8]) -> Option<Own<'a>>
        ensures { option_map own_of result ≡ own_feature class name.now (entries_of self.now) }
    {
        own_named(&self.entries, &self.owns, class, name)
    }

    /// Whether an enumeration has a literal of this text.
    pub fn has_literal(&self, enumeration: usize, text: &[u8]) -> bool
        ensures { result ≡ list_any (λ l. bytes_eq (literal_text_of l) text.now) (literals_of (entries_of self.now) enumeration) }
    {
        is_text(&self.entries, &self.literals, enumeration, text)
    }

    /// The text of an enumeration's first literal.
    pub(crate) fn first_literal(&self, enumeration: usize) -> Option<&'a str>
        ensures { option_copied result ≡ first_text_of (literals_of (entries_of self.now) enumeration) }
    {
        first_text(&self.entries, &self.literals, enumeration)
    }
}
