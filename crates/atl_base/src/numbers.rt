// Numbers that can't be taken for one another.

/// The number of an object in its model, in order of creation from 0.
#[derive(Clone, Copy, Debug, PartialEq, Eq, PartialOrd, Ord, Hash)]
pub struct ObjId(pub u32);

/// The number of a feature: its place in its metamodel's list of features, from 0.
#[derive(Clone, Copy, Debug, PartialEq, Eq, PartialOrd, Ord, Hash)]
pub struct FeatId(pub u32);

/// The number of a class: its place in its metamodel's list of classes, from 0.
#[derive(Clone, Copy, Debug, PartialEq, Eq, PartialOrd, Ord, Hash)]
pub struct ClassId(pub u32);

/// What there can be too much of while a module runs.
#[derive(Clone, Copy, Debug, PartialEq, Eq)]
pub enum Limit {
    /// Objects of one source or target, at most 1,000,000.
    Objects,
    /// Candidates of a live session, at most 1,000,000.
    Candidates,
    /// The size of a helper or a flat rule, at most 16,777,216.
    Nodes,
}
