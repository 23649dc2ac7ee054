// Why a model is not written.
use atl_base::numbers::ObjId;
use sqlite_items::Items;
use std::alloc::AllocError;

/// Why a model is not written.
#[derive(Debug, Drop)]
pub enum WriteRefusal {
    /// Containment has a cycle: the one with the least object number, from that object on, each object containing the next.
    Cycle(Items<ObjId>),
    /// Memory was refused.
    Memory,
}

impl From<AllocError> for WriteRefusal {
    ghost use Rattle.std.specs.Prelude.{◌≡◌};
    ghost use Rattle.xmi_write.specs.declared.refusal.WriteRefusal.TheVariants.{Memory};

    ghost from_gives = { λ _ e. e ≡ Memory };

    fn from(_e: AllocError) -> WriteRefusal {
        WriteRefusal::Memory
    }
}
