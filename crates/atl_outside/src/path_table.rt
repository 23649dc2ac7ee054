// Paths with their bytes, as pairs in order of first sight. A look-up goes along them, which suits a few paths.
ghost use Rattle.std.specs.Prelude.{◌≡◌, ◌<◌, length, IfSome, OnOk, OnErr, nat_lt, if◌then◌else◌};
ghost use Rattle.std.specs.Option.{option_copied};
ghost use Rattle.std.specs.List.{position_from};
ghost use Rattle.std.specs.Str.{bytes_eq};
ghost use Rattle.atl_outside.specs.Held.{content_of, with_content, held_of};
ghost use Rattle.atl_outside.specs.Memory.{GivesOrMemory};

use crate::files::FileFault;
use atl_base::text::Text;
use std::alloc::{AllocError, Global};
use std::marker::Model;

/// What files hold. Contracts see it as a finite map.
#[derive(Drop)]
pub struct PathTable {
    pairs: Vec<(Text, Vec<u8>)>,
}

impl Model for PathTable {
    ghost use Rattle.atl_outside.specs.Held.{Held, held_code, held_of};

    ghost Value = { Held };

    ghost coded = { held_code };

    ghost view = { λ table. held_of table.pairs.items };
}

/// The number of the first pair with this path.
fn place_of(pairs: &[(Text, Vec<u8>)], path: &Text) -> Option<usize>
    ensures first { result ≡ position_from (λ pair. bytes_eq pair.0 path.now) 0 pairs.now }
    ensures within { IfSome result (λ place. place < length pairs.now) }
{
    pairs.iter().position(|pair| pair.0 == *path)
}

impl PathTable {
    /// What these pairs hold.
    pub fn new(pairs: Vec<(Text, Vec<u8>)>) -> PathTable
        ensures { result ≡ held_of pairs.items }
    {
        PathTable { pairs }
    }

    /// The bytes at the path, if it is held.
    pub fn content(&self, path: &Text) -> Option<&[u8]>
        ensures { option_copied result ≡ content_of self.now path.now }
    {
        for pair in &self.pairs {
            if pair.0 == *path {
                return Some(pair.1.as_slice());
            }
        }
        None
    }

    /// Makes these bytes the content of the path.
    pub fn set(&mut self, alloc: Global, path: &Text, bytes: &[u8]) -> Result<(), AllocError>
        ensures ok { OnOk result (self.new ≡ with_content self.old path.now bytes.now) }
        ensures err { OnErr result (self.new ≡ self.old) }
    {
        let bytes = Vec::from_slice(alloc, bytes)?;
        match place_of(&self.pairs, path) {
            Some(place) => self.pairs[place].1 = bytes,
            None => self.pairs.push((path.copy(alloc)?, bytes))?,
        }
        Ok(())
    }
}

/// A copy of the bytes, if they are within the limit.
pub fn read_within(alloc: Global, bytes: &[u8], limit: u64) -> Result<Vec<u8>, FileFault>
    ensures { GivesOrMemory result (if nat_lt limit (length bytes.now) then Err FileFault.TooBig else Ok bytes.now) }
{
    if bytes.len() as u64 > limit {
        return Err(FileFault::TooBig);
    }
    Ok(Vec::from_slice(alloc, bytes)?)
}
