// The first step of rewriting: in the arguments, from the left, else of the whole, by the first rule that fits. What is left of
// the place of the step before is in normal form, and isn't looked at again, and neither are terms that are known to be so.
ghost use Rattle.std.specs.Prelude.{ℕ, ◌≡◌, ◌≤◌, IfOk};
ghost use Rattle.std.specs.Option.{option_map};
ghost use Rattle.clause_index.specs.Normal.{HaveNoStep};
ghost use Rattle.demodulate.specs.Resumed.{is_passed, place_within, IsNormalBefore, AreNormalBefore};
ghost use Rattle.demodulate.specs.Steps.{FitsThere, IsFit, part_step, step_below, step_in_term};
ghost use Rattle.fol_core.specs.TermView.{tree_of};
ghost use Rattle.fol_core.specs.Tree.{app, trees_of};
ghost use Rattle.prover_steps.specs.Rewriting.{step_at_top, widened, first_step, step_in, atom_step};

use crate::step::Step;
use clause_index::{NormalTerms, RewriteRules};
use discrim_tree::Tries;
use fol_core::{Term, Terms};
use std::alloc::{AllocError, Global};

// The step of the first rule that fits the term as a whole.
#[tactic(auto, using(crate::proofs::Redexes::top_found, crate::proofs::Redexes::top_fits, crate::proofs::Redexes::top_none))]
fn step_at_top<'a>(
    alloc: Global,
    rules: &'a RewriteRules,
    term: &'a Term,
    tries: &mut Tries,
) -> Result<Option<Step<'a>>, AllocError>
    ensures step { IfOk result (λ o. option_map (step_in_term (tree_of term.now)) o
        ≡ step_at_top rules.now (tree_of term.now)) }
    ensures fits { IfOk result IsFit }
    ensures on { tries.old ≤ tries.new }
{
    let Some(rule) = rules.first_for(term, tries)? else {
        return Ok(None);
    };
    Ok(Some(Step {
        rule,
        path: Vec::new(alloc),
        term,
    }))
}

// A step of an argument, by its number, is one of the application.
fn step_below<'a>(number: u64, step: Step<'a>) -> Result<Step<'a>, AllocError>
    ensures step { IfOk result (λ s. part_step s ≡ step_below number (part_step step.entry)) }
    ensures fits { IfOk result (λ s. FitsThere step.entry → FitsThere s) }
{
    let mut step = step;
    step.path.insert(0, number)?;
    Ok(step)
}

/// Whether a part is left of a place.
pub fn is_passed(number: u64, place: &[u64]) -> bool
    ensures { result ≡ is_passed number place.now }
{
    match place.split_first() {
        None => false,
        Some((first, _)) => number < *first,
    }
}

/// The rest of a place that is in a part.
pub fn place_within(number: u64, place: &[u64]) -> &[u64]
    ensures { result.now ≡ place_within number place.now }
{
    match place.split_first() {
        None => &[],
        Some((first, rest)) => { if number == *first { rest } else { &[] } }
    }
}

/// The first step in arguments, as one of the application.
#[cycle(first_step)]
#[tactic(auto, using(crate::proofs::Redexes::normal_more, crate::proofs::Redexes::argument_step, crate::proofs::Redexes::no_argument_step))]
pub fn step_within<'a>(
    alloc: Global,
    rules: &'a RewriteRules,
    known: &mut NormalTerms,
    terms: &'a Terms,
    from: &[u64],
    tries: &mut Tries,
) -> Result<Option<Step<'a>>, AllocError>
    requires before { AreNormalBefore rules.now from.now 1 (trees_of terms.now) }
    requires known { HaveNoStep rules.now known.old }
    ensures step { IfOk result (λ o. (f : ℕ)
        → option_map (step_in_term (app f (trees_of terms.now))) o
        ≡ option_map (widened (app f)) (step_in rules.now 1 (trees_of terms.now))) }
    ensures fits { IfOk result IsFit }
    ensures known { HaveNoStep rules.now known.new }
    ensures on { tries.old ≤ tries.new }
{
    for (i, term) in terms.items.iter().enumerate() {
        let number = i as u64 + 1;
        if is_passed(number, from) {
            continue;
        }
        if let Some(step) = first_step(
            alloc,
            rules,
            known,
            term,
            place_within(number, from),
            tries,
        )? {
            return Ok(Some(step_below(number, step)?));
        }
    }
    Ok(None)
}

/// The first step of a term.
#[cycle(first_step)]
#[tactic(auto, using(crate::proofs::Redexes::step_inside, crate::proofs::Redexes::step_outside))]
pub fn first_step<'a>(
    alloc: Global,
    rules: &'a RewriteRules,
    known: &mut NormalTerms,
    term: &'a Term,
    from: &[u64],
    tries: &mut Tries,
) -> Result<Option<Step<'a>>, AllocError>
    requires before { IsNormalBefore rules.now from.now (tree_of term.now) }
    requires known { HaveNoStep rules.now known.old }
    ensures step { IfOk result (λ o. option_map (step_in_term (tree_of term.now)) o
        ≡ first_step rules.now (tree_of term.now)) }
    ensures fits { IfOk result IsFit }
    ensures known { HaveNoStep rules.now known.new }
    ensures on { tries.old ≤ tries.new }
{
    match term {
        Term::Var(_) => Ok(None),
        Term::Elem(_) => Ok(None),
        Term::App(_, terms) => {
            if known.has(term) {
                return Ok(None);
            }
            if let Some(step) = step_within(alloc, rules, known, terms, from, tries)? {
                return Ok(Some(step));
            }
            match step_at_top(alloc, rules, term, tries)? {
                Some(step) => Ok(Some(step)),
                None => {
                    known.note(alloc, term);
                    Ok(None)
                }
            }
        }
    }
}

/// The first step below an atom.
pub fn atom_step<'a>(
    alloc: Global,
    rules: &'a RewriteRules,
    known: &mut NormalTerms,
    atom: &'a Term,
    from: &[u64],
    tries: &mut Tries,
) -> Result<Option<Step<'a>>, AllocError>
    requires before { IsNormalBefore rules.now from.now (tree_of atom.now) }
    requires known { HaveNoStep rules.now known.old }
    ensures step { IfOk result (λ o. option_map (step_in_term (tree_of atom.now)) o
        ≡ atom_step rules.now (tree_of atom.now)) }
    ensures fits { IfOk result IsFit }
    ensures known { HaveNoStep rules.now known.new }
    ensures on { tries.old ≤ tries.new }
{
    match atom {
        Term::Var(_) => Ok(None),
        Term::Elem(_) => Ok(None),
        Term::App(_, terms) => step_within(alloc, rules, known, terms, from, tries),
    }
}
