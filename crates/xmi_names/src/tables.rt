// Tables of what a metamodel's names lead to: its packages and classes, the features that it skips, and the literals of its enumerations.
ghost use Rattle.std.specs.Prelude.{◌≡◌, ◌++◌, IfOk, OnOk, map};
ghost use Rattle.xmi_text.specs.Keys.{keys_of, AreFirsts};
ghost use Rattle.xmi_names.specs.Tables.{package_key, class_key, literal_key, literal_keys, AreSkipped, AreTables};

use crate::skipped::seen_keys;
use ecore_meta::metamodel::Metamodel;
use ecore_meta::parts::{Class, EnumDef, Literal, Package};
use std::alloc::{AllocError, Global};
use std::collections::HashMap;
use xmi_text::keys::{Key, first_places};

/// Where each package stands first by its namespace, each class by its package and name, and each literal by its enumeration and
/// text; and the skipped features that are seen in each class, by its number and their names.
#[derive(Drop)]
pub(crate) struct Tables<'m> {
    pub packages: HashMap<Key<'m>, usize>,
    pub classes: HashMap<Key<'m>, usize>,
    pub skipped: HashMap<Key<'m>, usize>,
    pub literals: HashMap<Key<'m>, usize>,
}

fn package_keys<'m>(alloc: Global, packages: &'m [Package]) -> Result<Vec<Key<'m>>, AllocError>
    ensures { IfOk result (λ keys. keys_of keys.items ≡ map package_key packages.now) }
{
    let mut keys = Vec::with_capacity(alloc, packages.len())?;
    for i in 0..packages.len() {
        keys.push(Key {
            number: 0,
            text: packages[i].uri.bytes(),
        })?;
    }
    Ok(keys)
}

fn class_keys<'m>(alloc: Global, classes: &'m [Class]) -> Result<Vec<Key<'m>>, AllocError>
    ensures { IfOk result (λ keys. keys_of keys.items ≡ map class_key classes.now) }
{
    let mut keys = Vec::with_capacity(alloc, classes.len())?;
    for i in 0..classes.len() {
        keys.push(Key {
            number: classes[i].package as usize,
            text: classes[i].name.bytes(),
        })?;
    }
    Ok(keys)
}

// Adds the literals of the enumeration of this number.
fn push_literals<'m>(
    keys: &mut Vec<Key<'m>>,
    number: usize,
    literals: &'m [Literal],
) -> Result<(), AllocError>
    ensures { OnOk result (keys_of keys.new.items ≡ keys_of keys.old.items ++ map (literal_key number) literals.now) }
{
    for i in 0..literals.len() {
        keys.push(Key {
            number,
            text: literals[i].text.bytes(),
        })?;
    }
    Ok(())
}

fn literal_keys_in<'m>(alloc: Global, enums: &'m [EnumDef]) -> Result<Vec<Key<'m>>, AllocError>
    ensures { IfOk result (λ keys. keys_of keys.items ≡ literal_keys enums.now) }
{
    let mut keys = Vec::new(alloc);
    for i in 0..enums.len() {
        push_literals(&mut keys, i, enums[i].literals.as_slice())?;
    }
    Ok(keys)
}

fn package_places<'m>(
    alloc: Global,
    packages: &'m [Package],
) -> Result<HashMap<Key<'m>, usize>, AllocError>
    ensures { IfOk result (λ t. AreFirsts t (map package_key packages.now)) }
{
    let keys = package_keys(alloc, packages)?;
    let places = first_places(alloc, &keys)?;
    Ok(places)
}

fn class_places<'m>(
    alloc: Global,
    classes: &'m [Class],
) -> Result<HashMap<Key<'m>, usize>, AllocError>
    ensures { IfOk result (λ t. AreFirsts t (map class_key classes.now)) }
{
    let keys = class_keys(alloc, classes)?;
    let places = first_places(alloc, &keys)?;
    Ok(places)
}

fn skipped_places<'m>(
    alloc: Global,
    meta: &'m Metamodel,
) -> Result<HashMap<Key<'m>, usize>, AllocError>
    ensures { IfOk result (AreSkipped meta.now) }
{
    let keys = seen_keys(alloc, meta)?;
    let places = first_places(alloc, &keys)?;
    Ok(places)
}

fn literal_places<'m>(
    alloc: Global,
    enums: &'m [EnumDef],
) -> Result<HashMap<Key<'m>, usize>, AllocError>
    ensures { IfOk result (λ t. AreFirsts t (literal_keys enums.now)) }
{
    let keys = literal_keys_in(alloc, enums)?;
    let places = first_places(alloc, &keys)?;
    Ok(places)
}

/// The tables of a metamodel.
pub(crate) fn tables_of<'m>(alloc: Global, meta: &'m Metamodel) -> Result<Tables<'m>, AllocError>
    ensures { IfOk result (λ t. AreTables meta.now t) }
{
    let parts = meta.parts();
    let packages = package_places(alloc, parts.packages.as_slice())?;
    let classes = class_places(alloc, parts.classes.as_slice())?;
    let skipped = skipped_places(alloc, meta)?;
    let literals = literal_places(alloc, parts.enums.as_slice())?;
    Ok(Tables {
        packages,
        classes,
        skipped,
        literals,
    })
}
