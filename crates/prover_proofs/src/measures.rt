// The level of a proof, and the greatest size of its clauses.
ghost use Rattle.std.specs.Prelude.{ℕ, ◌≡◌, ◌+◌, ◌∷◌, ◌++◌, [], List, IfOk, OnOk, map};
ghost use Rattle.clause_store.specs.Lines.{plain_content, plain_line};
ghost use Rattle.derivation.specs.View.{lines_of};
ghost use Rattle.fol_core.specs.Sizes.{size_of};
ghost use Rattle.fol_core.specs.TermView.{tree_of};
ghost use Rattle.prover_proofs.specs.KnownLevels.{AreLevels};
ghost use Rattle.prover_proofs.specs.Levels.{level_among, level_above, level_in, content_size, greatest_size};
ghost use Rattle.prover_steps.specs.Searching.{clause_size};

use clause_store::add_parents;
use derivation::{Content, Line};
use fol_core::{Clause, Term};
use std::alloc::{AllocError, Global};
use std::collections::BTreeMap;

// The level of a number, among lines with their levels.
#[tactic(auto, using(crate::proofs::Known::level_there, crate::proofs::Known::level_missing))]
fn level_among(levels: &BTreeMap<u64, u64>, n: u64) -> u64
    ensures { (ks : List (ℕ × ℕ)) → AreLevels levels.now ks → result ≡ level_among ks n }
{
    match levels.get(&n) {
        Some(level) => *level,
        None => 0,
    }
}

// One more line with its level; of lines with one number the first has it.
fn enter(levels: &mut BTreeMap<u64, u64>, number: u64, level: u64) -> Result<(), AllocError>
    ensures { OnOk result ((ks : List (ℕ × ℕ)) → AreLevels levels.old ks
        → AreLevels levels.new (ks ++ (number, level) ∷ [])) }
{
    if levels.contains_key(&number) {
        return Ok(());
    }
    levels.insert(number, level)?;
    Ok(())
}

/// The sum; there are no more lines, symbols and variables than numbers.
pub fn sum_of(n: u64, more: u64) -> Result<u64, AllocError>
    ensures { IfOk result (λ sum. sum ≡ n + more) }
{
    n.checked_add(more).ok_or(AllocError)
}

// The level of a line with these parents.
#[tactic(auto, using(crate::proofs::Remaining::above_next, crate::proofs::Remaining::above_end))]
fn level_above(levels: &BTreeMap<u64, u64>, parents: &[u64]) -> Result<u64, AllocError>
    ensures { IfOk result (λ level. (ks : List (ℕ × ℕ)) → AreLevels levels.now ks
        → level ≡ level_above ks parents.now) }
{
    let mut highest = 0;
    for parent in parents {
        let level = sum_of(level_among(levels, *parent), 1)?;
        highest = level.max(highest);
    }
    Ok(highest)
}

/// The level of the line of a number.
#[tactic(auto, using(crate::proofs::Remaining::levels_next, crate::proofs::Remaining::levels_end))]
pub fn level_in(alloc: Global, lines: &[Line], n: u64) -> Result<u64, AllocError>
    ensures { IfOk result (λ level. level ≡ level_in (lines_of lines.now) n) }
{
    let mut levels = BTreeMap::new(alloc);
    for line in lines {
        let mut parents = Vec::new(alloc);
        add_parents(&line.just, &mut parents)?;
        let level = level_above(&levels, parents.as_slice())?;
        enter(&mut levels, line.number, level)?;
    }
    Ok(level_among(&levels, n))
}

// How many symbols and variables a term has.
#[tactic(auto, using(crate::proofs::Remaining::terms_next, crate::proofs::Remaining::terms_end))]
fn size_of(term: &Term) -> Result<u64, AllocError>
    ensures { IfOk result (λ n. n ≡ size_of (tree_of term.now)) }
{
    match term {
        Term::Var(_) => Ok(1),
        Term::Elem(_) => Ok(1),
        Term::App(_, terms) => {
            let mut sum = 1;
            for term in &terms.items {
                sum = sum_of(sum, size_of(term)?)?;
            }
            Ok(sum)
        }
    }
}

// And a clause.
#[tactic(auto, using(crate::proofs::Remaining::literals_next, crate::proofs::Remaining::literals_end))]
fn clause_size(clause: &Clause) -> Result<u64, AllocError>
    ensures { IfOk result (λ n. n ≡ clause_size clause.now) }
{
    let mut sum = 0;
    for literal in &clause.literals {
        sum = sum_of(sum, size_of(&literal.atom)?)?;
    }
    Ok(sum)
}

fn content_size(content: &Content) -> Result<u64, AllocError>
    ensures { IfOk result (λ n. n ≡ content_size (plain_content content.now)) }
{
    match content {
        Content::Formula(_, _) => Ok(0),
        Content::Clause(clause) => clause_size(clause),
    }
}

/// How many the greatest clause of some lines has.
#[tactic(auto, using(crate::proofs::Remaining::greatest_next, crate::proofs::Remaining::greatest_end))]
pub fn greatest_size(lines: &[Line]) -> Result<u64, AllocError>
    ensures { IfOk result (λ n. n ≡ greatest_size (map plain_line lines.now)) }
{
    let mut greatest = 0;
    for line in lines {
        greatest = content_size(&line.content)?.max(greatest);
    }
    Ok(greatest)
}
