//! The laws of written models, over the definitions alone. Each function has a law as its contract, and does nothing.
ghost use Rattle.std.specs.Prelude.{◌≡◌, ◌≤◌};
ghost use Rattle.model_store.specs.Contents.{Contents};
ghost use Rattle.model_store.specs.Order.{HasNoCycle};
ghost use Rattle.model_store.specs.Valid.{IsValid};
ghost use Rattle.xmi_write.specs.Xmi.{document};
ghost use Rattle.xmi_round_trip.specs.Renumbered.{IsRenumbering, number, renumbered};
ghost use Rattle.xmi_round_trip.specs.RoundTrip.{IsInBounds, IsReadTo, opened};

/// The file of a model is read back to the same model, its objects numbered from 0 in preorder, where at most 200 elements are open
/// at once.
pub fn a_written_model_is_read_back()
    ensures { (m : Contents) → IsValid m → HasNoCycle m → IsInBounds m → opened (document m).root ≤ 200 → IsReadTo m (renumbered m) }
{}

/// That is the same model but for its numbers, and in the same order.
pub fn a_renumbered_model_is_the_same()
    ensures { (m : Contents) → IsValid m → HasNoCycle m → IsRenumbering (number m) m (renumbered m) }
{}
