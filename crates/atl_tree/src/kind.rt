// Types, as they are written of parameters, results and variables.
ghost use Rattle.std.specs.Prelude.{◌≡◌};

use crate::name::ClassRef;
use atl_base::place::Place;
use sqlite_items::Boxed;

/// A word for a primitive type: `String`, `Integer`, `Boolean` or `OclAny`.
#[derive(Clone, Copy, Debug, PartialEq, Eq)]
pub enum BasicWord {
    /// `String`
    Words,
    /// `Integer`
    Whole,
    /// `Boolean`
    Truth,
    /// `OclAny`
    Any,
}

/// A word for a kind of collection.
#[derive(Clone, Copy, Debug, PartialEq, Eq)]
pub enum CollWord {
    Sequence,
    Set,
    Bag,
    OrderedSet,
}

/// A written type, with the place of its first token. Types in one another are let go by a loop, however deep they lie.
#[derive(Debug)]
#[cycle(kind)]
pub struct KindNode {
    pub what: KindSort,
    pub place: Place,
}

/// What a written type is.
#[derive(Debug, Drop)]
#[cycle(kind)]
pub enum KindSort {
    Basic(BasicWord),
    Class(ClassRef),
    /// A collection, and the type of its elements.
    Coll(CollWord, Boxed<KindNode>),
}

impl KindNode {
    /// What the type is, and its place.
    pub fn into_parts(self) -> (KindSort, Place)
        ensures what { result.0 ≡ self.what }
        ensures place { result.1 ≡ self.place }
    {
        let KindNode { what, place } = self;
        (what, place)
    }
}

impl Drop for KindNode {
    // Collections may lie in one another as deep as the text is long: a loop goes down them.
    #[cycle(kind)]
    fn drop(mut self) {
        loop {
            let KindNode { what, place: _ } = self;
            match what {
                KindSort::Coll(_word, inner) => self = inner.into_inner(),
                other => {
                    drop(other);
                    return;
                }
            }
        }
    }
}

#[cfg(test)]
mod tests {
    use super::*;
    use std::alloc::{AllocError, Global};
    use std::test::Fail;

    const PLACE: Place = Place { line: 1, column: 1 };

    // `Sequence(Sequence(.. Integer ..))`
    fn deep_kind(alloc: Global, depth: u32) -> Result<KindNode, AllocError> {
        let mut kind = KindNode {
            what: KindSort::Basic(BasicWord::Whole),
            place: PLACE,
        };
        for _ in 0..depth {
            kind = KindNode {
                what: KindSort::Coll(CollWord::Sequence, Boxed::new(alloc, kind)?),
                place: PLACE,
            };
        }
        Ok(kind)
    }

    #[test]
    fn deep_types_are_let_go(rt: HostRuntime) -> Result<(), Fail> {
        let (what, place) = deep_kind(rt.alloc(), 1_000_000)?.into_parts();
        assert!(rt; matches!(what, KindSort::Coll(CollWord::Sequence, _)));
        assert_eq!(rt; place, PLACE);
        Ok(())
    }
}
