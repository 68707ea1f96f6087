// Clauses of a set by several numbers.
ghost use Rattle.std.specs.Prelude.{◌≡◌, ◌++◌, IfOk, OnOk, filter};
ghost use Rattle.clause_index.specs.Numbered.{is_numbered};
ghost use Rattle.held_clauses.specs.Holding.{lent};
ghost use Rattle.prover_steps.specs.HeldOrder.{numbers_of};

use crate::held_set::HeldSet;
use crate::lists::all_with;
use discrim_tree::put_in_order;
use held_clauses::Held;
use std::alloc::{AllocError, Global};

/// Adds the numbers of clauses.
pub fn add_numbers(found: &[&Held], numbers: &mut Vec<u64>) -> Result<(), AllocError>
    ensures { OnOk result (numbers.new.items ≡ numbers.old.items ++ numbers_of (lent found.now)) }
{
    for held in found {
        numbers.push(held.number())?;
    }
    Ok(())
}

/// The clauses of a set that have one of these numbers, by rising number.
pub fn all_numbered<'a>(
    alloc: Global,
    set: &'a HeldSet,
    mut numbers: Vec<u64>,
) -> Result<Vec<&'a Held>, AllocError>
    ensures { IfOk result (λ hs. lent hs.items ≡ filter (is_numbered numbers.items) set.now) }
{
    put_in_order(&mut numbers);
    let found = all_with(alloc, numbers.as_slice(), set.as_slice())?;
    Ok(found)
}
