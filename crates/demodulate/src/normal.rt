// A clause rewritten step by step.
ghost use Rattle.std.specs.Prelude.{◌≡◌, ◌≤◌, ◌∷◌, IfOk, IsTrue, is_some};
ghost use Rattle.std.specs.Option.{option_map};
ghost use Rattle.clause_index.specs.Normal.{HaveNoStep};
ghost use Rattle.demodulate.specs.Resumed.{AreLiteralsNormalBefore};
ghost use Rattle.demodulate.specs.Steps.{IsFit, IsPlaceIn, IsTaken, placed_step, put_by, tidied_of};
ghost use Rattle.fol_core.specs.TermView.{tree_of};
ghost use Rattle.inference.specs.Followed.{IsPutIn};
ghost use Rattle.prover_steps.specs.Rewriting.{clause_step, normal_form, rewritten_by};
ghost use Rattle.prover_steps.specs.Searching.{is_too_large};

use crate::rewriting::{atom_step, is_passed, place_within};
use crate::step::{PlacedStep, Step, Taken, Tidied};
use clause_index::{NormalTerms, RewriteRules};
use derivation::{Later, Rewrite};
use discrim_tree::Tries;
use fol_core::{Clause, Term};
use held_clauses::{Held, rule_left, rule_right};
use inference::{exchange, match_of, put_small};
use std::alloc::{AllocError, Global};

// The first step of a clause, with the place of its literal.
#[tactic(auto, using(crate::proofs::Redexes::normal_literals_more, crate::proofs::Redexes::literal_step, crate::proofs::Redexes::no_literal_step))]
fn first_in_clause<'a>(
    alloc: Global,
    rules: &'a RewriteRules,
    known: &mut NormalTerms,
    clause: &'a Clause,
    from: &[u64],
    tries: &mut Tries,
) -> Result<Option<PlacedStep<'a>>, AllocError>
    requires before { AreLiteralsNormalBefore rules.now from.now 0 clause.now }
    requires known { HaveNoStep rules.now known.old }
    ensures step { IfOk result (λ o. option_map (placed_step clause.now) o
        ≡ clause_step rules.now 0 clause.now) }
    ensures known { HaveNoStep rules.now known.new }
    ensures place { IfOk result (λ o. IsPlaceIn clause.now o) }
    ensures fits { IfOk result (λ o. IsFit (option_map (λ p. p.step) o)) }
    ensures on { tries.old ≤ tries.new }
{
    for (place, literal) in clause.literals.iter().enumerate() {
        let number = place as u64;
        if is_passed(number, from) {
            continue;
        }
        if let Some(step) = atom_step(
            alloc,
            rules,
            known,
            &literal.atom,
            place_within(number, from),
            tries,
        )? {
            return Ok(Some(PlacedStep { place, step }));
        }
    }
    Ok(None)
}

// A place below an atom, as one of the clause.
fn place_below(alloc: Global, literal: usize, path: &[u64]) -> Result<Vec<u64>, AllocError>
    ensures { IfOk result (λ place. place.items ≡ literal ∷ path.now) }
{
    let mut place = Vec::with_capacity(alloc, path.len() + 1)?;
    place.push(literal as u64)?;
    place.extend_from_slice(path)?;
    Ok(place)
}

// What a step puts in, unless it makes the clause too large.
#[tactic(auto, using(derivation::proofs::SideSteps::or_tree, derivation::proofs::SideSteps::or_variable))]
fn part_of(
    alloc: Global,
    clause: &Clause,
    place: usize,
    path: &[u64],
    rule: &Held,
    term: &Term,
) -> Result<Option<Term>, AllocError>
    requires { IsTrue (is_some (rewritten_by rule.now (tree_of term.now))) }
    ensures { IfOk result (IsPutIn clause.now place path.now
        (put_by rule.now (tree_of term.now))) }
{
    let variable = Term::Var(0);
    let left = rule_left(rule).unwrap_or(&variable);
    let right = rule_right(rule).unwrap_or(&variable);
    match match_of(alloc, left, term)? {
        Some(found) => put_small(alloc, clause, place, path, found, right),
        None => Ok(None),
    }
}

// The next step, built, unless it makes the clause too large.
fn next_step(
    alloc: Global,
    rules: &RewriteRules,
    known: &mut NormalTerms,
    clause: &Clause,
    from: &[u64],
    tries: &mut Tries,
) -> Result<Option<Taken>, AllocError>
    requires before { AreLiteralsNormalBefore rules.now from.now 0 clause.now }
    requires known { HaveNoStep rules.now known.old }
    ensures step { IfOk result (IsTaken clause.now (clause_step rules.now 0 clause.now)) }
    ensures known { HaveNoStep rules.now known.new }
    ensures on { tries.old ≤ tries.new }
{
    let Some(found) = first_in_clause(alloc, rules, known, clause, from, tries)? else {
        return Ok(None);
    };
    let PlacedStep { place, step } = found;
    let Step { rule, path, term } = step;
    match part_of(alloc, clause, place, path.as_slice(), rule, term)? {
        None => Ok(None),
        Some(part) => Ok(Some(Taken {
            rule: rule.number(),
            place,
            path,
            part,
        })),
    }
}

// A clause after so many steps, or after as many as there are, or as don't make it too large; with their words.
#[tactic(auto, using(crate::proofs::Redexes::steps_end, crate::proofs::Redexes::steps_stop, crate::proofs::Resuming::nothing_before_literals))]
fn after_steps(
    alloc: Global,
    rules: &RewriteRules,
    known: &mut NormalTerms,
    limit: u32,
    clause: Clause,
    tries: &mut Tries,
) -> Result<Tidied, AllocError>
    requires { HaveNoStep rules.now known.old }
    ensures normal { IfOk result (λ t. tidied_of t ≡ normal_form is_too_large rules.now limit clause) }
    ensures known { HaveNoStep rules.now known.new }
    ensures on { tries.old ≤ tries.new }
{
    let mut clause = clause;
    let mut words = Vec::new(alloc);
    let mut from = Vec::new(alloc);
    for _step in 0..limit {
        let taken = next_step(alloc, rules, known, &clause, from.as_slice(), tries)?;
        let Some(taken) = taken else {
            return Ok(Tidied { clause, words });
        };
        let Taken {
            rule,
            place,
            path,
            part,
        } = taken;
        let _old = exchange(&mut clause, place, path.as_slice(), part);
        from = place_below(alloc, place, path.as_slice())?;
        words.push(Later::Rewrite(Rewrite {
            rule,
            literal: place as u64,
            path,
        }))?;
    }
    Ok(Tidied { clause, words })
}

/// A clause after so many steps, or after as many as there are, or as don't make it too large; with their words. Terms that turn
/// out to be in normal form stay known to the rules.
#[tactic(auto, using(crate::proofs::Ruleless::no_rules))]
pub fn normal_form(
    alloc: Global,
    rules: &mut RewriteRules,
    limit: u32,
    clause: Clause,
    tries: &mut Tries,
) -> Result<Tidied, AllocError>
    ensures normal { IfOk result (λ t. tidied_of t ≡ normal_form is_too_large rules.old limit clause) }
    ensures rules { rules.new ≡ rules.old }
    ensures on { tries.old ≤ tries.new }
{
    if rules.is_empty() {
        return Ok(Tidied {
            clause,
            words: Vec::new(alloc),
        });
    }
    let mut known = rules.hand_out(alloc);
    let tidied = after_steps(alloc, rules, &mut known, limit, clause, tries);
    rules.hand_in(known);
    tidied
}
