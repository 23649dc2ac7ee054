// What elements are named for.
use atl_base::numbers::{ClassId, FeatId};

/// What an element is named for: `xmi:XMI`, the class of a root, or the feature that a value or an object stands in.
#[derive(Clone, Copy, Debug, PartialEq, Eq)]
pub enum Named {
    Around,
    Root(ClassId),
    Inside(FeatId),
}
