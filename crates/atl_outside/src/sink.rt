// A place where bytes go, in order.
ghost use Rattle.std.specs.Prelude.{◌≡◌, ◌≤◌, ◌++◌, ℕ, List, is_some, OnOk, IsErrOf};
ghost use Rattle.std.specs.Option.{option_map};
ghost use Rattle.std.specs.declared.option.Option.{Option};
ghost use Rattle.atl_outside.specs.declared.sink.SinkFault.TheVariants.{Memory};
ghost use Rattle.atl_outside.specs.Taken.{TakesFront};
ghost use Rattle.atl_outside.specs.Rose.{Rose};

use std::alloc::{AllocError, Global};

/// Why a piece was not taken.
#[derive(Clone, Copy, Debug, PartialEq, Eq)]
pub enum SinkFault {
    /// The sink failed, its count of faults rose, and of the piece a front part was taken.
    Failed,
    /// Memory was refused, and nothing of the piece was taken.
    Memory,
}

impl From<AllocError> for SinkFault {
    ghost from_gives = { λ _ e. e ≡ Memory };

    fn from(_e: AllocError) -> SinkFault {
        SinkFault::Memory
    }
}

/// A place where bytes go.
pub trait Sink {
    /// All bytes taken so far, where the object tells them.
    ghost taken: { Self → Option (List ℕ) };

    /// How often the sink has failed. It never falls, and stops at the last value of its counter.
    ghost faults: { Self → ℕ };

    /// Takes all bytes of the piece, behind those taken before.
    fn put(&mut self, alloc: Global, bytes: &[u8]) -> Result<(), SinkFault>
        ensures counted { faults self.old ≤ faults self.new }
        ensures failed { IsErrOf result SinkFault.Failed → Rose (faults self.old) (faults self.new) }
        ensures ok { OnOk result (taken self.new ≡ option_map (λ before. before ++ bytes.now) (taken self.old)) }
        ensures front { IsErrOf result SinkFault.Failed → TakesFront bytes.now (taken self.old) (taken self.new) }
        ensures memory { IsErrOf result SinkFault.Memory → taken self.new ≡ taken self.old }
        ensures told { is_some (taken self.new) ≡ is_some (taken self.old) };
}
