// Why a call on a model is refused.
use std::alloc::AllocError;

/// A refusal leaves the model as it was.
#[derive(Clone, Copy, Debug, PartialEq, Eq)]
pub enum StoreRefusal {
    /// The number is no object's.
    NoObject,
    /// The object's class has no such feature.
    NoFeature,
    /// A value is not of the feature's type, or there are two for a single-valued feature.
    BadType,
    /// There are 1,000,000 objects, or 4,294,967,295 numbers have been given.
    Full,
    /// Memory was refused.
    Memory,
}

impl From<AllocError> for StoreRefusal {
    ghost use Rattle.std.specs.Prelude.{◌≡◌};
    ghost use Rattle.model_store.specs.declared.refusal.StoreRefusal.TheVariants.{Memory};

    ghost from_gives = { λ _ e. e ≡ Memory };

    fn from(_e: AllocError) -> StoreRefusal {
        StoreRefusal::Memory
    }
}
