// Files by path, as all code above sees them.
ghost use Rattle.std.specs.Prelude.{◌≡◌, ◌≤◌, ◌<◌, ◌⊎◌, ℕ, length, is_some, IfOk, OnOk, IfSome, IsErrOf};
ghost use Rattle.std.specs.Option.{option_map};
ghost use Rattle.std.specs.declared.option.Option.{Option};
ghost use Rattle.atl_outside.specs.declared.files.FileFault.TheVariants.{Memory};
ghost use Rattle.atl_outside.specs.Held.{Held, bytes_at, with_content, SameElsewhere};
ghost use Rattle.atl_outside.specs.Rose.{Rose};

use atl_base::text::Text;
use std::alloc::{AllocError, AllocFailed, Global};

/// Why a call on files did not do what it was asked to.
#[derive(Clone, Copy, Debug, PartialEq, Eq)]
pub enum FileFault {
    /// The files failed, and their count of faults rose.
    Failed,
    /// A read found more bytes than its limit.
    TooBig,
    /// Memory was refused.
    Memory,
}

impl From<AllocError> for FileFault {
    ghost from_gives = { λ _ e. e ≡ Memory };

    fn from(_e: AllocError) -> FileFault {
        FileFault::Memory
    }
}

impl<T: Drop> From<AllocFailed<T>> for FileFault {
    ghost from_gives = { λ _ e. e ≡ Memory };

    fn from(_e: AllocFailed<T>) -> FileFault {
        FileFault::Memory
    }
}

/// Files by path.
pub trait Files {
    /// The bytes at each path, where the object tells them.
    ghost held: { Self → Option Held };

    /// How often the files have failed. It never falls, and stops at the last value of its counter.
    ghost faults: { Self → ℕ };

    /// All bytes at the path, if they are at most `limit`. A path that is not held has none, or the read fails.
    fn read(&mut self, alloc: Global, path: &Text, limit: u64) -> Result<Vec<u8>, FileFault>
        ensures kept { held self.new ≡ held self.old }
        ensures counted { faults self.old ≤ faults self.new }
        ensures failed { IsErrOf result FileFault.Failed → Rose (faults self.old) (faults self.new) }
        ensures within { IfOk result (λ v. length v.items ≤ limit) }

        // where the content is told
        ensures bytes { IfSome (held self.old) (λ m. IfOk result (λ v. v.items ≡ bytes_at m path.now)) }
        ensures too_big { IfSome (held self.old) (λ m. IsErrOf result FileFault.TooBig → limit < length (bytes_at m path.now)) }
        ensures too_long { IfSome (held self.old) (λ m. limit < length (bytes_at m path.now)
            → IsErrOf result FileFault.TooBig ⊎ IsErrOf result FileFault.Failed) };

    /// Makes these bytes the content of the path. After a failure that path's content is unknown.
    fn write(&mut self, alloc: Global, path: &Text, bytes: &[u8]) -> Result<(), FileFault>
        ensures counted { faults self.old ≤ faults self.new }
        ensures failed { IsErrOf result FileFault.Failed → Rose (faults self.old) (faults self.new) }
        ensures not_too_big { IsErrOf result FileFault.TooBig → ⊥ }
        ensures ok { OnOk result (held self.new ≡ option_map (λ m. with_content m path.now bytes.now) (held self.old)) }
        ensures memory { IsErrOf result FileFault.Memory → held self.new ≡ held self.old }

        // whatever it answers
        ensures told { is_some (held self.new) ≡ is_some (held self.old) }
        ensures elsewhere { SameElsewhere path.now (held self.old) (held self.new) };
}
