// Files and a sink in memory that never fail: their count of faults stays 0. A path that is not held reads as empty.
ghost use Rattle.std.specs.Prelude.{◌≡◌, [], Some};
ghost use Rattle.std.specs.Option.{option_copied};
ghost use Rattle.atl_outside.specs.Held.{content_of, held_of};

use crate::files::{FileFault, Files};
use crate::path_table::{PathTable, read_within};
use crate::sink::{Sink, SinkFault};
use atl_base::text::Text;
use std::alloc::Global;
use std::marker::Model;

/// Files in memory that never fail. Contracts see them as the map from paths to bytes.
#[derive(Drop)]
pub struct SureFiles {
    table: PathTable,
}

impl Model for SureFiles {
    ghost use Rattle.atl_outside.specs.Held.{Held, held_code};

    ghost Value = { Held };

    ghost coded = { held_code };

    ghost view = { λ files. files.table };
}

impl SureFiles {
    /// Files that hold these pairs. Of a path that stands twice the first pair counts.
    pub fn new(held: Vec<(Text, Vec<u8>)>) -> SureFiles
        ensures { result ≡ held_of held.items }
    {
        SureFiles {
            table: PathTable::new(held),
        }
    }

    /// The bytes at the path, if it is held.
    pub fn content(&self, path: &Text) -> Option<&[u8]>
        ensures { option_copied result ≡ content_of self.now path.now }
    {
        self.table.content(path)
    }
}

impl Files for SureFiles {
    ghost held = { λ files. Some files };

    ghost faults = { λ _. 0 };

    fn read(&mut self, alloc: Global, path: &Text, limit: u64) -> Result<Vec<u8>, FileFault> {
        let bytes = self.table.content(path).unwrap_or(&[]);
        read_within(alloc, bytes, limit)
    }

    fn write(&mut self, alloc: Global, path: &Text, bytes: &[u8]) -> Result<(), FileFault> {
        Ok(self.table.set(alloc, path, bytes)?)
    }
}

/// A sink in memory that never fails. Contracts see it as the bytes taken.
#[derive(Drop)]
pub struct SureSink {
    bytes: Vec<u8>,
}

impl Model for SureSink {
    ghost use Rattle.std.specs.Prelude.{ℕ, List};

    ghost Value = { List ℕ };

    ghost view = { λ sink. sink.bytes.items };
}

impl SureSink {
    /// A sink that has taken nothing.
    pub fn new(alloc: Global) -> SureSink
        ensures { result ≡ [] }
    {
        SureSink {
            bytes: Vec::new(alloc),
        }
    }

    /// The bytes taken so far.
    pub fn bytes(&self) -> &[u8]
        ensures { result.now ≡ self.now }
    {
        &self.bytes
    }
}

impl Sink for SureSink {
    ghost taken = { λ sink. Some sink };

    ghost faults = { λ _. 0 };

    fn put(&mut self, _alloc: Global, bytes: &[u8]) -> Result<(), SinkFault> {
        Ok(self.bytes.extend_from_slice(bytes)?)
    }
}
