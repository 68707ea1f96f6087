// How much room the variables of a formula need.
ghost use Rattle.std.specs.Prelude.{◌≡◌, ◌≤◌, suc, max, length, Some, OnOk, OnErr, MatchOption, ⊤};
ghost use Rattle.fol_core.specs.Fol.{Fol};
ghost use Rattle.fol_core.specs.FormulaView.{fol_of};
ghost use Rattle.fol_core.specs.Free.{closed_over};
ghost use Rattle.model_tables.specs.Variables.{room_of};

use crate::env::Env;
use fol_core::{Formula, Shape};
use std::alloc::AllocError;

/// Makes room for the closure of a formula, whose free variables these are; room that was there stays.
pub fn reserve_closure(
    env: &mut Env,
    formula: &Formula,
    variables: &[u64],
) -> Result<(), AllocError>
    ensures room { OnOk result (room_of (closed_over variables.now (fol_of formula.now.shape))
        ≤ length env.new) }
    ensures kept { length env.old ≤ length env.new }
    ensures err { OnErr result (env.new ≡ env.old) }
{
    match closed_room(&formula.shape, variables) {
        None => Err(AllocError),
        Some(room) => env.reserve(room),
    }
}

// How many slots a formula and these variables need, if so many can be had.
fn closed_room(shape: &Shape, variables: &[u64]) -> Option<u64>
    ensures { MatchOption result ⊤ (λ n. n ≡ room_of
        (closed_over variables.now (fol_of shape.now))) }
{
    behind_all(variables, room(shape)?)
}

// How many slots these variables and a formula that needs so many slots need, if so many can be had.
fn behind_all(variables: &[u64], room: u64) -> Option<u64>
    ensures { (f : Fol) → room ≡ room_of f → MatchOption result ⊤
        (λ n. n ≡ room_of (closed_over variables.now f)) }
{
    let mut all = room;
    let mut at = variables.len();
    while at > 0 {
        at -= 1;
        all = behind(variables[at])?.max(all);
    }
    Some(all)
}

// How many slots the quantifiers of a formula need, if so many can be had.
fn room(shape: &Shape) -> Option<u64>
    ensures { MatchOption result ⊤ (λ n. n ≡ room_of (fol_of shape.now)) }
{
    match shape {
        Shape::True => Some(0),
        Shape::False => Some(0),
        Shape::Eq(_) => Some(0),
        Shape::Atom(_, _) => Some(0),
        Shape::Not(part) => room(part.shape()),
        Shape::And(left, right) => greater(room(left.shape())?, room(right.shape())?),
        Shape::Or(left, right) => greater(room(left.shape())?, room(right.shape())?),
        Shape::If(left, right) => greater(room(left.shape())?, room(right.shape())?),
        Shape::Iff(left, right) => greater(room(left.shape())?, room(right.shape())?),
        Shape::All(variable, part) => greater(behind(*variable)?, room(part.shape())?),
        Shape::Exists(variable, part) => greater(behind(*variable)?, room(part.shape())?),
    }
}

fn greater(m: u64, n: u64) -> Option<u64>
    ensures { result ≡ Some (max m n) }
{
    Some(m.max(n))
}

fn behind(variable: u64) -> Option<u64>
    ensures { MatchOption result ⊤ (λ n. n ≡ suc variable) }
{
    variable.checked_add(1)
}
