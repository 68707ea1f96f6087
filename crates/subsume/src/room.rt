// Room for matching the literals of a clause.
ghost use Rattle.std.specs.Prelude.{◌≡◌, ◌≤◌, IfOk, OnOk, length};
ghost use Rattle.subsume.specs.Variables.{standing};

use fol_core::Clause;
use std::alloc::{AllocError, Global};
use std::marker::Model;
use term_matches::{Matches, occurrences};

/// Room for the places to which the literals of a clause are matched, and for the terms that stand for its variables; contracts
/// see for how many of each there is.
#[derive(Drop)]
pub struct Places<'a> {
    pub(crate) taken: Vec<usize>,
    pub(crate) found: Matches<'a>,
    size: usize,
}

impl<'a> Model for Places<'a> {
    ghost use Rattle.std.specs.Prelude.{ℕ};

    ghost Value = { ℕ };

    ghost view = { λ a. a.size };

    ghost use Rattle.subsume.specs.Rooms.{HasRoom};

    ghost invariant = { HasRoom };
}

// How often variables stand in the literals of a clause, if that is a number of the machine.
#[tactic(auto, using(crate::proofs::Standing::standing_next, crate::proofs::Standing::standing_all))]
fn standing(clause: &Clause) -> Result<usize, AllocError>
    ensures { IfOk result (λ n. n ≡ standing clause.now) }
{
    let mut count = 0usize;
    for literal in &clause.literals {
        let more = occurrences(&literal.atom)?;
        count = count.checked_add(more).ok_or(AllocError)?;
    }
    Ok(count)
}

impl<'a> Places<'a> {
    /// No room.
    pub fn new(alloc: Global) -> Places<'a> {
        Places {
            taken: Vec::new(alloc),
            found: Matches::new(alloc),
            size: 0,
        }
    }

    /// Makes room for a clause with so many literals, and in which variables stand so often.
    pub fn reserve(&mut self, size: usize) -> Result<(), AllocError>
        ensures room { OnOk result (size ≤ self.new) }
        ensures kept { self.old ≤ self.new }
    {
        if size <= self.size {
            return Ok(());
        }
        self.taken.clear();
        self.found.undo(0);
        self.taken.reserve(size)?;
        self.found.reserve_more(size)?;
        self.size = size;
        Ok(())
    }

    /// Makes room for a clause.
    pub fn reserve_for(&mut self, clause: &Clause) -> Result<(), AllocError>
        ensures literals { OnOk result (length clause.now ≤ self.new) }
        ensures variables { OnOk result (standing clause.now ≤ self.new) }
    {
        let variables = standing(clause)?;
        self.reserve(variables.max(clause.len()))
    }
}
