// The metamodel that a file is read by, with tables of its names.
ghost use Rattle.std.specs.Prelude.{◌≡◌, IfOk, position, bytes_eq, slice_get, []};
ghost use Rattle.std.specs.Option.{option_map_or};
ghost use Rattle.std.specs.List.{list_any};
ghost use Rattle.xmi_names.specs.Names.{is_class_named};
ghost use Rattle.xmi_names.specs.Tables.{has_skipped as has_skipped_in};

use crate::tables::{Tables, tables_of};
use atl_base::numbers::ClassId;
use ecore_meta::metamodel::Metamodel;
use std::alloc::{AllocError, Global};
use std::marker::Model;
use xmi_text::keys::first_place;

/// A metamodel, which contracts see as its lists. Looks for names take a time that does not grow with its lists.
#[derive(Drop)]
pub struct Vocabulary<'m> {
    meta: &'m Metamodel,
    tables: Tables<'m>,
}

impl<'m> Model for Vocabulary<'m> {
    ghost use Rattle.ecore_meta.specs.declared.parts.Parts.{Parts};
    ghost use Rattle.xmi_names.specs.Tables.{AreTables};

    ghost Value = { Parts };

    ghost view = { λ v. v.meta.now };

    ghost invariant = { λ v. AreTables v.meta.now v.tables };
}

impl<'m> Vocabulary<'m> {
    /// The vocabulary of a metamodel.
    pub fn new(alloc: Global, meta: &'m Metamodel) -> Result<Vocabulary<'m>, AllocError>
        ensures { IfOk result (λ v. v ≡ meta.now) }
    {
        let tables = tables_of(alloc, meta)?;
        Ok(Vocabulary { meta, tables })
    }

    pub fn metamodel(&self) -> &'m Metamodel
        ensures { result.now ≡ self.now }
    {
        self.meta
    }

    /// The place of the first class of this name in the package of this namespace.
    pub(crate) fn place_named(&self, space: &[u8], name: &[u8]) -> Option<usize>
        ensures { result ≡ position (is_class_named self.now space.now name.now) self.now.classes }
    {
        match first_place(&self.tables.packages, 0, space) {
            Some(number) => first_place(&self.tables.classes, number, name),
            None => None,
        }
    }

    /// Whether a skipped feature that is seen in a class has this name.
    pub(crate) fn has_skipped(&self, class: ClassId, name: &[u8]) -> bool
        ensures { result ≡ has_skipped_in self.now class name.now }
    {
        first_place(&self.tables.skipped, class.0 as usize, name).is_some()
    }

    /// Whether an enumeration has a literal of this text.
    pub fn has_literal(&self, enumeration: usize, text: &[u8]) -> bool
        ensures { result ≡ list_any (λ l. bytes_eq l.text text.now) (option_map_or (λ d. d.literals) (slice_get self.now.enums enumeration) []) }
    {
        first_place(&self.tables.literals, enumeration, text).is_some()
    }
}
