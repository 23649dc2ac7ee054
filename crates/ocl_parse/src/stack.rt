// What is open, as a stack.
ghost use Rattle.std.specs.Prelude.{◌≡◌, ℕ, suc, [], ◌∷◌, OnOk, MatchOption, if◌then◌else◌};
ghost use Rattle.ocl_parse.specs.Depth.{deepened, deep};

use crate::frame::Frame;
use sqlite_items::Items;
use std::alloc::{AllocError, Global};
use std::marker::Model;

/// The constructs that are open, with the number of those that nest. Contracts see the list, the innermost first.
#[derive(Drop)]
pub struct Stack {
    frames: Items<Frame>,
    depth: usize,
}

impl Model for Stack {
    ghost use Rattle.std.specs.Prelude.{◌≡◌, List, reverse};
    ghost use Rattle.std.specs.Coded.{codes};
    ghost use Rattle.atl_tree.specs.contracts.expr.ExprKind as e;
    ghost use Rattle.atl_tree.specs.contracts.kind.KindSort as k;
    ghost use Rattle.ocl_parse.specs.declared.frame.Frame.{Frame};
    ghost use Rattle.ocl_parse.specs.Depth.{deep};

    ghost Value = { List Frame };

    ghost coded = { Prim.hlevel (codes, e.the_row.coded, k.the_row.coded) };

    ghost view = { λ s. reverse s.frames };

    ghost invariant = { λ s. s.depth ≡ deep (reverse s.frames) };
}

// Whether an expression stands deeper in it.
fn nests(frame: &Frame) -> bool
    ensures { (depth : ℕ) → deepened frame.now depth ≡ (if result then suc depth else depth) }
{
    !matches!(frame, Frame::Left(_, _, _))
}

impl Stack {
    pub fn new(alloc: Global) -> Stack
        ensures { result ≡ [] }
    {
        Stack {
            frames: Items::new(alloc),
            depth: 0,
        }
    }

    /// How deep an expression stands that begins now.
    pub fn depth(&self) -> usize
        ensures { result ≡ deep self.now }
    {
        self.depth
    }

    pub fn push(&mut self, frame: Frame) -> Result<(), AllocError>
        ensures { OnOk result (self.new ≡ frame ∷ self.old) }
    {
        let is_deeper = nests(&frame);
        self.frames.push(frame)?;
        let has_room = self.depth < self.frames.len();
        prove!(has_room);
        if is_deeper {
            self.depth += 1;
        }
        Ok(())
    }

    pub fn pop(&mut self) -> Option<Frame>
        ensures { MatchOption result ((self.old ≡ []) × (self.new ≡ [])) (λ frame. self.old ≡ frame ∷ self.new) }
    {
        match self.frames.pop() {
            Some(frame) => {
                if nests(&frame) {
                    self.depth -= 1;
                }
                Some(frame)
            }
            None => None,
        }
    }
}
