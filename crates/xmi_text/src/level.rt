// The namespace declarations of an element: looked through where they are few, found in a table where they are many.
ghost use Rattle.std.specs.Prelude.{◌≡◌, ◌&&◌, IfOk, IfSome, true, find, map, slice_get, bytes_eq};
ghost use Rattle.std.specs.Option.{option_copied};
ghost use Rattle.xmi_text.specs.Options.{then_};
ghost use Rattle.xmi_text.specs.Keys.{keys_of, prefix_key, AreFirsts};
ghost use Rattle.xmi_text.specs.Scopes.{declared_of};

use crate::keys::{Key, first_place, first_places};
use atl_base::place::Place;
use doc_text::tree::{Child, Element, Prefix};
use std::alloc::{AllocError, Global};
use std::collections::HashMap;
use std::marker::Model;

// So many declarations are looked through without a table.
const FEW: usize = 16;

/// The many declarations of one element, which contracts see as their list.
#[derive(Drop)]
pub struct Level<'a> {
    declared: &'a [Prefix],
    places: HashMap<Key<'a>, usize>,
}

impl<'a> Model for Level<'a> {
    ghost use Rattle.std.specs.Prelude.{List, map};
    ghost use Rattle.doc_text.specs.declared.tree.Prefix.{Prefix};
    ghost use Rattle.xmi_text.specs.Keys.{prefix_key, AreFirsts};

    ghost Value = { List Prefix };

    ghost view = { λ l. l.declared.now };

    ghost invariant = { λ l. AreFirsts l.places (map prefix_key l.declared.now) };
}

/// The declarations of one element.
#[derive(Clone, Copy)]
pub enum Declared<'a> {
    Few(&'a [Prefix]),
    Many(&'a Level<'a>),
}

// Where an element starts.
#[derive(Clone, Copy, Debug, PartialEq, Eq, Hash, Drop)]
struct Start {
    line: u32,
    column: u32,
}

/// The tables of all elements with many declarations, by where each element starts.
#[derive(Drop)]
pub struct Levels<'a> {
    levels: Vec<Level<'a>>,
    places: HashMap<Start, usize>,
}

impl<'a> Model for Levels<'a> {
    ghost use Rattle.std.specs.Prelude.{List};
    ghost use Rattle.doc_text.specs.declared.tree.Prefix.{Prefix};

    ghost Value = { List (List Prefix) };

    ghost view = { λ l. l.levels.items };
}

fn start_of(place: Place) -> Start {
    Start {
        line: place.line,
        column: place.column,
    }
}

fn prefix_keys<'a>(alloc: Global, declared: &'a [Prefix]) -> Result<Vec<Key<'a>>, AllocError>
    ensures { IfOk result (λ keys. keys_of keys.items ≡ map prefix_key declared.now) }
{
    let mut keys = Vec::with_capacity(alloc, declared.len())?;
    for i in 0..declared.len() {
        keys.push(Key {
            number: 0,
            text: declared[i].prefix.bytes(),
        })?;
    }
    Ok(keys)
}

fn prefix_places<'a>(
    alloc: Global,
    declared: &'a [Prefix],
) -> Result<HashMap<Key<'a>, usize>, AllocError>
    ensures { IfOk result (λ t. AreFirsts t (map prefix_key declared.now)) }
{
    let keys = prefix_keys(alloc, declared)?;
    let places = first_places(alloc, &keys)?;
    Ok(places)
}

fn declared_at<'a>(declared: &'a [Prefix], place: Option<usize>) -> Option<&'a Prefix>
    ensures { option_copied result ≡ then_ place (λ k. slice_get declared.now k) }
{
    match place {
        Some(place) => {
            if place < declared.len() {
                return Some(&declared[place]);
            }
            None
        }
        None => None,
    }
}

fn find_many<'a>(
    declared: &'a [Prefix],
    places: &HashMap<Key<'a>, usize>,
    prefix: &[u8],
) -> Option<&'a Prefix>
    requires { AreFirsts places.now (map prefix_key declared.now) }
    ensures { option_copied result ≡ find (λ d. bytes_eq d.prefix prefix.now) declared.now }
{
    let place = first_place(places, 0, prefix);
    declared_at(declared, place)
}

impl<'a> Level<'a> {
    fn new(alloc: Global, declared: &'a [Prefix]) -> Result<Level<'a>, AllocError>
        ensures { IfOk result (λ level. level ≡ declared.now) }
    {
        let places = prefix_places(alloc, declared)?;
        Ok(Level { declared, places })
    }

    fn declared(&self) -> &'a [Prefix]
        ensures { result.now ≡ self.now }
    {
        self.declared
    }

    /// The first declaration of a prefix.
    fn first_of(&self, prefix: &[u8]) -> Option<&'a Prefix>
        ensures { option_copied result ≡ find (λ d. bytes_eq d.prefix prefix.now) self.now }
    {
        find_many(self.declared, &self.places, prefix)
    }
}

// Makes a table where an element has many declarations.
fn push_level<'a>(
    alloc: Global,
    levels: &mut Levels<'a>,
    element: &'a Element,
) -> Result<(), AllocError> {
    let declared = element.declared.as_slice();
    if declared.len() <= FEW {
        return Ok(());
    }
    let place = levels.levels.len();
    let level = Level::new(alloc, declared)?;
    levels.levels.push(level)?;
    levels.places.insert(start_of(element.place), place)?;
    Ok(())
}

fn push_levels<'a>(
    alloc: Global,
    levels: &mut Levels<'a>,
    elements: &[&'a Element],
) -> Result<(), AllocError> {
    for i in 0..elements.len() {
        push_level(alloc, levels, elements[i])?;
    }
    Ok(())
}

fn push_children<'a>(out: &mut Vec<&'a Element>, children: &'a [Child]) -> Result<(), AllocError> {
    for i in 0..children.len() {
        match &children[i] {
            Child::Sub(element) => out.push(element)?,
            Child::Words(_) => {}
        }
    }
    Ok(())
}

// All elements one level below.
fn below<'a>(alloc: Global, elements: &[&'a Element]) -> Result<Vec<&'a Element>, AllocError> {
    let mut out = Vec::new(alloc);
    for i in 0..elements.len() {
        push_children(&mut out, elements[i].children.as_slice())?;
    }
    Ok(out)
}

/// The tables of the elements of a document that have many declarations, for as many levels from the root.
pub fn levels_in<'a>(
    alloc: Global,
    root: &'a Element,
    deepest: usize,
) -> Result<Levels<'a>, AllocError> {
    let mut levels = Levels {
        levels: Vec::new(alloc),
        places: HashMap::new(alloc),
    };
    let mut elements = Vec::new(alloc);
    elements.push(root)?;
    for _ in 0..deepest {
        if elements.is_empty() {
            return Ok(levels);
        }
        push_levels(alloc, &mut levels, &elements)?;
        elements = below(alloc, &elements)?;
    }
    Ok(levels)
}

fn is_same_prefix(left: &Prefix, right: &Prefix) -> bool
    ensures { result ≡ (bytes_eq left.now.prefix right.now.prefix && bytes_eq left.now.uri right.now.uri) }
{
    left.prefix.bytes() == right.prefix.bytes() && left.uri.bytes() == right.uri.bytes()
}

fn are_same(left: &[Prefix], right: &[Prefix]) -> bool
    ensures { result ≡ true → left.now ≡ right.now }
{
    if left.len() != right.len() {
        return false;
    }
    for i in 0..left.len() {
        if !is_same_prefix(&left[i], &right[i]) {
            return false;
        }
    }
    true
}

// The table of what starts at this place.
fn level_at<'a>(levels: &'a Levels<'a>, place: Place) -> Option<&'a Level<'a>> {
    match levels.places.get(&start_of(place)) {
        Some(found) => {
            if *found < levels.levels.len() {
                return Some(&levels.levels[*found]);
            }
            None
        }
        None => None,
    }
}

// That no two elements start at one place is not known here, so a table's declarations are compared with the element's, once.
fn known_level<'a>(
    levels: &'a Levels<'a>,
    place: Place,
    declared: &[Prefix],
) -> Option<&'a Level<'a>>
    ensures { IfSome result (λ l. l.now ≡ declared.now) }
{
    match level_at(levels, place) {
        Some(level) => {
            if are_same(level.declared(), declared) {
                return Some(level);
            }
            None
        }
        None => None,
    }
}

/// The declarations of an element.
pub fn declared_by<'a>(levels: &'a Levels<'a>, element: &'a Element) -> Declared<'a>
    ensures { declared_of result ≡ element.now.declared }
{
    let declared = element.declared.as_slice();
    if declared.len() <= FEW {
        return Declared::Few(declared);
    }
    match known_level(levels, element.place, declared) {
        Some(level) => Declared::Many(level),
        None => Declared::Few(declared),
    }
}

fn find_few<'a>(declared: &'a [Prefix], prefix: &[u8]) -> Option<&'a Prefix>
    ensures { option_copied result ≡ find (λ d. bytes_eq d.prefix prefix.now) declared.now }
{
    declared.iter().find(|d| d.prefix.bytes() == prefix)
}

/// The first of an element's declarations for a prefix.
pub fn declared_in<'a>(declared: &Declared<'a>, prefix: &[u8]) -> Option<&'a Prefix>
    ensures { option_copied result ≡ find (λ d. bytes_eq d.prefix prefix.now) (declared_of declared.now) }
{
    match declared {
        Declared::Few(few) => find_few(few, prefix),
        Declared::Many(level) => level.first_of(prefix),
    }
}
