// Blocks of statements that nest deep, let go without a call in a call.
ghost use Rattle.std.specs.Prelude.{◌≡◌, ◌∷◌, [], ◌++◌, OnOk, OnErr};

use crate::expr::Expr;
use crate::module::Stat;
use crate::name::Name;
use sqlite_items::Items;
use std::alloc::{AllocError, Global};
use std::marker::Model;

/// The statements of a block. Those in one another are let go by a loop, however deep they lie.
#[derive(Debug)]
pub struct Statements {
    list: Items<Stat>,
}

impl Model for Statements {
    ghost use Rattle.std.specs.Prelude.{List};
    ghost use Rattle.std.specs.Coded.{codes};
    ghost use Rattle.atl_tree.specs.declared.module.Stat.{Stat as SomeStat};
    ghost use Rattle.atl_tree.specs.contracts.module.Stat as stats;

    ghost Value = { List SomeStat };

    ghost coded = { Prim.hlevel (codes, stats.the_row.coded) };

    ghost view = { λ it. it.list };
}

impl Statements {
    pub fn new(alloc: Global) -> Statements
        ensures { result ≡ [] }
    {
        Statements {
            list: Items::new(alloc),
        }
    }

    pub fn as_slice(&self) -> &[Stat]
        ensures { result.now ≡ self.now }
    {
        self.list.as_slice()
    }

    pub fn push(&mut self, stat: Stat) -> Result<(), AllocError>
        ensures ok { OnOk result (self.new ≡ self.old ++ stat ∷ []) }
        ensures err { OnErr result (self.new ≡ self.old) }
    {
        self.list.push(stat)
    }

    /// The statements, to stand in a statement.
    pub fn into_items(self) -> Items<Stat>
        ensures { result ≡ self }
    {
        let Statements { list } = self;
        list
    }
}

impl Drop for Statements {
    fn drop(self) {
        let Statements { list } = self;
        let_go(list);
    }
}

// A list that is taken apart, and the statement that is next when nothing is left of it: mostly the one that the list stood in,
// which then holds the list round it.
type Level = (Items<Stat>, Option<Stat>);

// The statement that waited goes to the end of the list, into the room that the last one left.
fn with(list: Items<Stat>, waits: Option<Stat>) -> Items<Stat> {
    let mut list = list;
    if let Some(stat) = waits {
        let _ = list.push(stat);
    }
    list
}

// Down into the statement, which was the list's last.
fn enter(list: Items<Stat>, waits: Option<Stat>, stat: Stat) -> Level {
    match stat {
        Stat::If(condition, branch, other) => {
            let round = Stat::If(condition, with(list, waits), other);
            (branch, Some(round))
        }
        Stat::For(name, values, body) => {
            let round = Stat::For(name, values, with(list, waits));
            (body, Some(round))
        }
        _ => (list, waits),
    }
}

fn with_last_waiting(list: Items<Stat>) -> Level {
    let mut list = list;
    let last = list.pop();
    (list, last)
}

// On to what the statement that waited still holds, where its list is empty.
fn leave(empty: Items<Stat>, stat: Stat) -> Level {
    match stat {
        Stat::If(condition, round, other) => match other {
            Some(other) => (other, Some(Stat::If(condition, round, None))),
            None => with_last_waiting(round),
        },
        Stat::For(_, _, round) => with_last_waiting(round),
        _ => (empty, None),
    }
}

fn let_go(stats: Items<Stat>) {
    let mut level: Level = (stats, None);
    for _turn in 0..u64::MAX {
        let (mut list, waits) = level;
        match (list.pop(), waits) {
            (Some(stat), waits) => level = enter(list, waits, stat),
            (None, Some(stat)) => level = leave(list, stat),
            (None, None) => return,
        }
    }
}

#[cfg(test)]
mod tests {
    use super::*;
    use crate::expr::ExprKind;
    use atl_base::place::Place;
    use atl_base::text::Text;
    use std::test::Fail;

    const PLACE: Place = Place { line: 1, column: 1 };

    fn truth() -> Expr {
        Expr {
            what: ExprKind::Truth(true),
            place: PLACE,
        }
    }

    // A block with these statements in one of its own.
    fn around(alloc: Global, inner: Items<Stat>, turn: u32) -> Result<Items<Stat>, AllocError> {
        let name = Name {
            text: Text::new(alloc),
            place: PLACE,
        };
        let nested = match turn % 3 {
            0 => Stat::If(truth(), inner, Some(Items::new(alloc))),
            1 => Stat::If(truth(), Items::new(alloc), Some(inner)),
            _ => Stat::For(name, truth(), inner),
        };
        let mut stats = Items::new(alloc);
        stats.push(Stat::Eval(truth()))?;
        stats.push(nested)?;
        if turn % 2 == 0 {
            stats.push(Stat::Eval(truth()))?;
        }
        Ok(stats)
    }

    #[test]
    fn deep_statements_are_let_go(rt: HostRuntime) -> Result<(), Fail> {
        let mut stats = Items::new(rt.alloc());
        for turn in 0..200_000 {
            stats = around(rt.alloc(), stats, turn)?;
        }
        let mut block = Statements::new(rt.alloc());
        block.push(Stat::If(truth(), stats, None))?;
        assert_eq!(rt; block.as_slice().len(), 1);
        Ok(())
    }
}
