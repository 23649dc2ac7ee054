// Names within what bears a number, and where each stands first.
ghost use Rattle.std.specs.Prelude.{◌≡◌, ℕ, List, Some, IfOk, OnOk, if◌then◌else◌};
ghost use Rattle.xmi_text.specs.Keys.{is_key, key_of, keys_of, has_place, AreFirsts};

use std::alloc::{AllocError, Global};
use std::collections::HashMap;

/// A name within what bears this number.
#[derive(Clone, Copy, Debug, PartialEq, Eq, Hash, Drop)]
pub struct Key<'a> {
    pub number: usize,
    pub text: &'a [u8],
}

// Notes that a key stands at this place.
fn note<'a>(
    places: &mut HashMap<Key<'a>, usize>,
    key: Key<'a>,
    place: usize,
) -> Result<(), AllocError>
    ensures { OnOk result ((n : ℕ) (q : List ℕ) → has_place places.new n q ≡ (if is_key n q (key_of key.entry) then Some place else has_place places.old n q)) }
{
    places.insert(key, place)?;
    Ok(())
}

/// Where each of these keys stands first.
pub fn first_places<'a>(
    alloc: Global,
    keys: &[Key<'a>],
) -> Result<HashMap<Key<'a>, usize>, AllocError>
    ensures { IfOk result (λ places. AreFirsts places (keys_of keys.now)) }
{
    let mut places = HashMap::new(alloc);
    for step in 0..keys.len() {
        let i = keys.len() - 1 - step;
        note(&mut places, keys[i], i)?;
    }
    Ok(places)
}

/// Where a key stands first.
pub fn first_place(places: &HashMap<Key<'_>, usize>, number: usize, text: &[u8]) -> Option<usize>
    ensures { result ≡ has_place places.now number text.now }
{
    match places.get(&Key { number, text }) {
        Some(place) => Some(*place),
        None => None,
    }
}
