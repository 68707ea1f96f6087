// The numbers of the lines that a line takes.
ghost use Rattle.std.specs.Prelude.{◌≡◌, ◌++◌, ◌∷◌, [], OnOk, map};
ghost use Rattle.derivation.specs.Later.{later_parents};
ghost use Rattle.derivation.specs.View.{first_word_of, later_of};
ghost use Rattle.clause_store.specs.Ancestors.{first_parents};
ghost use Rattle.clause_store.specs.Parents.{just_parents};

use derivation::{First, Just, Later, Satellite};
use std::alloc::AllocError;

// Puts a number behind others.
fn add(n: u64, numbers: &mut Vec<u64>) -> Result<(), AllocError>
    ensures { OnOk result (numbers.new.items ≡ numbers.old.items ++ n ∷ []) }
{
    numbers.push(n)?;
    Ok(())
}

// Puts those of a nucleus and its satellites behind others.
fn add_clash(n: u64, satellites: &[Satellite], numbers: &mut Vec<u64>) -> Result<(), AllocError>
    ensures { OnOk result (numbers.new.items
        ≡ numbers.old.items ++ n ∷ map (λ s. s.clause) satellites.now) }
{
    numbers.push(n)?;
    for satellite in satellites {
        numbers.push(satellite.clause)?;
    }
    Ok(())
}

// Those of a first word.
fn add_first(first: &First, numbers: &mut Vec<u64>) -> Result<(), AllocError>
    ensures { OnOk result (numbers.new.items
        ≡ numbers.old.items ++ first_parents (first_word_of first.now)) }
{
    match first {
        First::Assumption => Ok(()),
        First::Goal => Ok(()),
        First::Clausify(n) => add(*n, numbers),
        First::Deny(n) => add(*n, numbers),
        First::Copy(n) => add(*n, numbers),
        First::BackRewrite(n) => add(*n, numbers),
        First::BackUnitDel(n) => add(*n, numbers),
        First::Resolve(n, satellite) => {
            add(*n, numbers)?;
            add(satellite.clause, numbers)
        }
        First::Hyper(n, satellites) => add_clash(*n, satellites, numbers),
        First::Ur(n, satellites) => add_clash(*n, satellites, numbers),
        First::Factor(n, _, _) => add(*n, numbers),
        First::Para(step) => {
            add(step.from, numbers)?;
            add(step.into, numbers)
        }
        First::XxRes(n, _) => add(*n, numbers),
        First::Instantiate(n, _) => add(*n, numbers),
    }
}

// Those of a later word.
fn add_later(later: &Later, numbers: &mut Vec<u64>) -> Result<(), AllocError>
    ensures { OnOk result (numbers.new.items
        ≡ numbers.old.items ++ later_parents (later_of later.now)) }
{
    match later {
        Later::Rewrite(step) => add(step.rule, numbers),
        Later::Flip(_) => Ok(()),
        Later::Merge(_) => Ok(()),
        Later::Xx(_) => Ok(()),
        Later::UnitDel(_, n) => add(*n, numbers),
    }
}

/// Puts the numbers of the lines that a line takes behind others.
pub fn add_parents(just: &Just, numbers: &mut Vec<u64>) -> Result<(), AllocError>
    ensures { OnOk result (numbers.new.items ≡ numbers.old.items ++ just_parents just.now) }
{
    add_first(&just.first, numbers)?;
    for later in &just.steps {
        add_later(later, numbers)?;
    }
    Ok(())
}
