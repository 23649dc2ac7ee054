// The attributes of a start tag, with an index of its namespace declarations.
ghost use Rattle.std.specs.Prelude.{◌≡◌, ◌++◌, ◌∷◌, ◌<◌, [], ℕ, List, length, IfSome, IfOk, OnOk, OnErr, Some, None, true, if◌then◌else◌, bytes_eq, string_bytes};
ghost use Rattle.std.specs.HashMap.{get_by_text};
ghost use Rattle.doc_text.specs.Declarations.{declared_prefix as declared_prefix_of, first_of, is_declaration as is_declaration_name};
ghost use Rattle.doc_text.specs.DeclarationIndex.{place_in as place_in_index};

use crate::declarations::{declared_prefix, is_declaration};
use crate::growing::Growing;
use crate::state::Pair;
use sqlite_items::Items;
use std::alloc::{AllocError, Global};
use std::collections::HashMap;
use std::marker::Model;

/// The attributes of a start tag in their order, namespace declarations too. Contracts see the list. A declaration is
/// found by its prefix in a time that does not grow with their number.
#[derive(Debug, Drop)]
pub struct Pairs {
    items: Growing<Pair>,
    // Where each prefix is declared first.
    declared: Option<Box<HashMap<String, usize>>>,
    alloc: Global,
}

impl Model for Pairs {
    ghost use Rattle.std.specs.Prelude.{◌≡◌, ℕ, List};
    ghost use Rattle.doc_text.specs.declared.state.Pair.{Pair};
    ghost use Rattle.doc_text.specs.Declarations.{first_of};
    ghost use Rattle.doc_text.specs.DeclarationIndex.{place_in};

    ghost Value = { List Pair };

    ghost view = { λ p. p.items };

    ghost invariant = { λ p. (q : List ℕ) → place_in p.declared q ≡ first_of q p.items };
}

// Where a prefix is declared first.
fn place_in(index: &Option<Box<HashMap<String, usize>>>, prefix: &str) -> Option<usize>
    ensures { result ≡ place_in_index index.now prefix.now }
{
    match index {
        Some(map) => map.get(prefix).copied(),
        None => None,
    }
}

// Notes the place of a declaration.
fn note(index: &mut HashMap<String, usize>, prefix: String, place: usize) -> Result<(), AllocError>
    ensures ok { OnOk result ((q : List ℕ) → get_by_text index.new q ≡ (if bytes_eq (string_bytes prefix) q then Some place else get_by_text index.old q)) }
    ensures err { OnErr result ((q : List ℕ) → get_by_text index.new q ≡ get_by_text index.old q) }
{
    index.insert(prefix, place)?;
    Ok(())
}

// An index of one declaration.
fn index_of(
    alloc: Global,
    prefix: String,
    place: usize,
) -> Result<Box<HashMap<String, usize>>, AllocError>
    ensures { IfOk result (λ index. (q : List ℕ) → get_by_text index.value q ≡ (if bytes_eq (string_bytes prefix) q then Some place else None)) }
{
    let mut index = HashMap::new(alloc);
    note(&mut index, prefix, place)?;
    Ok(Box::new(alloc, index)?)
}

// Notes the place of a declaration, the first one too.
fn note_first(
    alloc: Global,
    index: &mut Option<Box<HashMap<String, usize>>>,
    prefix: String,
    place: usize,
) -> Result<(), AllocError>
    ensures ok { OnOk result ((q : List ℕ) → place_in_index index.new q ≡ (if bytes_eq (string_bytes prefix) q then Some place else place_in_index index.old q)) }
    ensures err { OnErr result ((q : List ℕ) → place_in_index index.new q ≡ place_in_index index.old q) }
{
    match index {
        Some(map) => note(map, prefix, place),
        None => {
            let made = index_of(alloc, prefix, place)?;
            *index = Some(made);
            Ok(())
        }
    }
}

impl Pairs {
    pub fn new(alloc: Global) -> Pairs
        ensures { result ≡ [] }
    {
        Pairs {
            items: Growing::new(alloc),
            declared: None,
            alloc,
        }
    }

    pub fn len(&self) -> usize
        ensures { result ≡ length self.now }
    {
        self.items.len()
    }

    pub fn as_slice(&self) -> &[Pair]
        ensures { result.now ≡ self.now }
    {
        self.items.as_slice()
    }

    /// The attributes alone.
    pub fn into_items(self) -> Items<Pair>
        ensures { result ≡ self }
    {
        let Pairs { items, .. } = self;
        items.into_items()
    }

    /// The place, from 0, of the first attribute that declares a prefix.
    pub fn first_of(&self, prefix: &str) -> Option<usize>
        ensures place { result ≡ first_of prefix.now self.now }
        ensures within { IfSome result (λ place. place < length self.now) }
    {
        place_in(&self.declared, prefix)
    }

    // Adds the first declaration of a prefix.
    fn push_first(&mut self, pair: Pair, prefix: String) -> Result<(), AllocError>
        requires declares { (is_declaration_name pair.name ≡ true) × (string_bytes prefix ≡ declared_prefix_of pair.name) }
        requires first { first_of (string_bytes prefix) self.old ≡ None }
        ensures ok { OnOk result (self.new ≡ self.old ++ pair ∷ []) }
        ensures err { OnErr result (self.new ≡ self.old) }
    {
        let place = self.items.len();
        self.items.push(pair)?;
        match note_first(self.alloc, &mut self.declared, prefix, place) {
            Ok(()) => Ok(()),
            Err(e) => {
                self.items.pop();
                Err(e)
            }
        }
    }

    /// Adds an attribute at the end. After an `Err` they are as before.
    pub fn push(&mut self, pair: Pair) -> Result<(), AllocError>
        ensures ok { OnOk result (self.new ≡ self.old ++ pair ∷ []) }
        ensures err { OnErr result (self.new ≡ self.old) }
    {
        if is_declaration(&pair.name) {
            let prefix = declared_prefix(&pair.name);
            if self.first_of(prefix).is_none() {
                let prefix = String::from_str(self.alloc, prefix)?;
                return self.push_first(pair, prefix);
            }
        }
        self.items.push(pair)?;
        Ok(())
    }
}
