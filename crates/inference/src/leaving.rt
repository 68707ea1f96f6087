// Lists of the literals that a rule leaves.
ghost use Rattle.std.specs.Prelude.{◌≡◌, ◌<◌, ◌++◌, ◌∷◌, ◌==◌, [], OnOk, length, map};
ghost use Rattle.derivation.specs.Places.{others};
ghost use Rattle.fol_core.specs.ClauseView.{literal_of};
ghost use Rattle.fol_core.specs.Free.{is_in};
ghost use Rattle.inference.specs.Judged.{clash_of};
ghost use Rattle.inference.specs.Left.{all_left, all_whole, change_tree, left_tree, changed_left};

use crate::fitting::is_taken;
use crate::left::{Change, Left};
use derivation::Satellite;
use fol_core::{Clause, Literal};
use std::alloc::AllocError;

/// Some literals of a parent, as they are.
pub fn leave_all<'a>(
    literals: &'a [Literal],
    parent: u64,
    left: &mut Vec<Left<'a>>,
) -> Result<(), AllocError>
    ensures { OnOk result (all_left left.new.items ≡ all_left left.old.items
        ++ all_whole parent (map literal_of literals.now)) }
{
    for literal in literals {
        left.push(Left {
            parent,
            literal,
            change: None,
        })?;
    }
    Ok(())
}

/// Those of a clause but for the one at a place.
pub fn leave_others<'a>(
    clause: &'a Clause,
    parent: u64,
    place: usize,
    left: &mut Vec<Left<'a>>,
) -> Result<(), AllocError>
    requires { place < length clause.now }
    ensures { OnOk result (all_left left.new.items ≡ all_left left.old.items
        ++ all_whole parent (others (λ k. k == place) clause.now)) }
{
    let literals = clause.as_slice();
    leave_all(&literals[..place], parent, left)?;
    leave_all(&literals[place + 1..], parent, left)
}

/// All of a clause, the one at a place with another term in it.
pub fn leave_changed<'a>(
    clause: &'a Clause,
    parent: u64,
    place: usize,
    change: Change<'a>,
    left: &mut Vec<Left<'a>>,
) -> Result<(), AllocError>
    requires { place < length clause.now }
    ensures { OnOk result (all_left left.new.items ≡ all_left left.old.items
        ++ changed_left parent clause.now place (change_tree change.entry)) }
{
    let literals = clause.as_slice();
    leave_all(&literals[..place], parent, left)?;
    left.push(Left {
        parent,
        literal: &literals[place],
        change: Some(change),
    })?;
    leave_all(&literals[place + 1..], parent, left)
}

/// Those of a nucleus but for those that clash.
pub fn leave_untaken<'a>(
    nucleus: &'a Clause,
    satellites: &[Satellite],
    left: &mut Vec<Left<'a>>,
) -> Result<(), AllocError>
    ensures { OnOk result (all_left left.new.items ≡ all_left left.old.items
        ++ all_whole 0 (others (λ n. is_in n (map (λ k. k.0) (map clash_of satellites.now)))
        nucleus.now)) }
{
    for (place, literal) in nucleus.literals.iter().enumerate() {
        if !is_taken(place as u64, satellites) {
            left.push(Left {
                parent: 0,
                literal,
                change: None,
            })?;
        }
    }
    Ok(())
}
