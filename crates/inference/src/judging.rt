// What the rule of a first word comes to.
ghost use Rattle.std.specs.Prelude.{◌≡◌, ◌∷◌, [], IfOk, IsTrue};
ghost use Rattle.derivation.specs.Places.{atom_at, has_place};
ghost use Rattle.derivation.specs.View.{first_word_of};
ghost use Rattle.derivation.specs.Words.{copy_rule, factor_rule, para_rule, side_of, xx_rule};
ghost use Rattle.fol_core.specs.TermView.{tree_of};
ghost use Rattle.inference.specs.Applied.{AppliedAs};
ghost use Rattle.inference.specs.Judged.{rule_by, JudgedAs};
ghost use Rattle.inference.specs.Lent.{lent_clauses};

use crate::applied::Applied;
use crate::applying::{
    apply_clash, apply_copy, apply_factor, apply_paramodulation, apply_reflexivity,
};
use crate::concluding::conclude_applied;
use crate::fitting::{atom, chosen};
use crate::rules::{Judged, Putting};
use derivation::{First, Paramodulation, below, has_place, sides};
use fol_core::{Clause, Term};
use std::alloc::{AllocError, Global};

// A copy of the one parent.
#[tactic(auto, using(crate::proofs::JudgeSteps::copy_alone))]
fn copy_of<'a>(alloc: Global, parents: &[&'a Clause]) -> Result<Applied<'a>, AllocError>
    ensures { IfOk result (AppliedAs copy_rule (lent_clauses parents.now)) }
{
    if parents.len() != 1 {
        return Ok(Applied::Unfit);
    }
    apply_copy(alloc, parents[0])
}

// A factor of it.
#[tactic(auto, using(crate::proofs::JudgeSteps::factor_alone))]
fn factor_of<'a>(
    alloc: Global,
    a: u64,
    b: u64,
    parents: &[&'a Clause],
) -> Result<Applied<'a>, AllocError>
    ensures { IfOk result (AppliedAs (factor_rule a b) (lent_clauses parents.now)) }
{
    if parents.len() != 1 {
        return Ok(Applied::Unfit);
    }
    apply_factor(alloc, a, b, parents[0])
}

// What is left of it where an equation is false of the same.
#[tactic(auto, using(crate::proofs::JudgeSteps::xx_alone))]
fn reflexivity_of<'a>(
    alloc: Global,
    a: u64,
    parents: &[&'a Clause],
) -> Result<Applied<'a>, AllocError>
    ensures { IfOk result (AppliedAs (xx_rule a) (lent_clauses parents.now)) }
{
    if parents.len() != 1 {
        return Ok(Applied::Unfit);
    }
    apply_reflexivity(alloc, a, parents[0])
}

// Paramodulation where the side is found, and the term has to be.
fn paramodulate_into<'a>(
    alloc: Global,
    step: &'a Paramodulation,
    from: &'a Clause,
    side: &Term,
    into: &'a Clause,
) -> Result<Applied<'a>, AllocError>
    requires side { tree_of side.now ≡ side_of step.now.side (atom_at from.now step.now.equation) }
    requires place { IsTrue (has_place into.now step.now.literal) }
    ensures { IfOk result (AppliedAs (para_rule step.now.equation step.now.side step.now.literal
        step.now.path.items) (from.now ∷ into.now ∷ [])) }
{
    let path = step.path.as_slice();
    let at = Putting {
        equation: step.equation,
        side: step.side,
        literal: step.literal,
        path,
    };
    match below(atom(into, step.literal), path) {
        None => Ok(Applied::Unfit),
        Some(term) => apply_paramodulation(alloc, at, from, side, into, term),
    }
}

// Of two parents, where the side has to be found too.
fn find_and_paramodulate<'a>(
    alloc: Global,
    step: &'a Paramodulation,
    from: &'a Clause,
    into: &'a Clause,
) -> Result<Applied<'a>, AllocError>
    ensures { IfOk result (AppliedAs (para_rule step.now.equation step.now.side step.now.literal
        step.now.path.items) (from.now ∷ into.now ∷ [])) }
{
    if !has_place(from, step.equation) {
        return Ok(Applied::Unfit);
    }
    if !has_place(into, step.literal) {
        return Ok(Applied::Unfit);
    }
    let Some((first, second)) = sides(atom(from, step.equation)) else {
        return Ok(Applied::Unfit);
    };
    let side = chosen(step.side, first, second);
    paramodulate_into(alloc, step, from, side, into)
}

// Paramodulation from the first of two parents into the second.
#[tactic(auto, using(crate::proofs::JudgeSteps::para_both))]
fn paramodulate_of<'a>(
    alloc: Global,
    step: &'a Paramodulation,
    parents: &[&'a Clause],
) -> Result<Applied<'a>, AllocError>
    ensures { IfOk result (AppliedAs (para_rule step.now.equation step.now.side step.now.literal
        step.now.path.items) (lent_clauses parents.now)) }
{
    if parents.len() != 2 {
        return Ok(Applied::Unfit);
    }
    find_and_paramodulate(alloc, step, parents[0], parents[1])
}

/// What the rule of a first word takes of its parents, with nothing of it built; a word without a rule counts as a copy here.
pub fn apply_rule<'a>(
    alloc: Global,
    first: &'a First,
    parents: &[&'a Clause],
) -> Result<Applied<'a>, AllocError>
    ensures { IfOk result (AppliedAs (rule_by (first_word_of first.now))
        (lent_clauses parents.now)) }
{
    match first {
        First::Resolve(_, satellite) => apply_clash(alloc, &[*satellite], parents),
        First::Hyper(_, satellites) => apply_clash(alloc, satellites.as_slice(), parents),
        First::Ur(_, satellites) => apply_clash(alloc, satellites.as_slice(), parents),
        First::Factor(_, a, b) => factor_of(alloc, *a, *b, parents),
        First::Para(step) => paramodulate_of(alloc, step, parents),
        First::XxRes(_, a) => reflexivity_of(alloc, *a, parents),
        First::Copy(_) => copy_of(alloc, parents),
        First::BackRewrite(_) => copy_of(alloc, parents),
        First::BackUnitDel(_) => copy_of(alloc, parents),
        First::Assumption => copy_of(alloc, parents),
        First::Goal => copy_of(alloc, parents),
        First::Clausify(_) => copy_of(alloc, parents),
        First::Deny(_) => copy_of(alloc, parents),
        First::Instantiate(_, _) => copy_of(alloc, parents),
    }
}

/// What the rule comes to on them.
pub fn judge<'a>(
    alloc: Global,
    first: &'a First,
    parents: &[&'a Clause],
) -> Result<Judged<'a>, AllocError>
    ensures { IfOk result (JudgedAs (rule_by (first_word_of first.now))
        (lent_clauses parents.now)) }
{
    let applied = apply_rule(alloc, first, parents)?;
    conclude_applied(alloc, applied)
}
