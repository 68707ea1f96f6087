// The rules of first words, one function each, on parents that are lent: premises over conclusion.
ghost use Rattle.std.specs.Prelude.{◌≡◌, ◌∷◌, [], Some, IfOk, map};
ghost use Rattle.derivation.specs.Equations.{below};
ghost use Rattle.derivation.specs.Places.{atom_at};
ghost use Rattle.derivation.specs.Words.{clash_rule, copy_rule, factor_rule, para_rule, side_of, xx_rule};
ghost use Rattle.fol_core.specs.TermView.{tree_of};
ghost use Rattle.inference.specs.Judged.{clash_of, JudgedAs};
ghost use Rattle.inference.specs.Lent.{lent_clauses};

use crate::applying::{
    apply_clash, apply_copy, apply_factor, apply_paramodulation, apply_reflexivity,
};
use crate::concluding::conclude_applied;
use crate::large::LargeConclusion;
use clause_limits::SmallClause;
use derivation::Satellite;
use fol_core::{Clause, Term};
use std::alloc::{AllocError, Global};

/// What a rule comes to: a literal, path or side isn't there or isn't taken; what has to be equal isn't; or the clause that it
/// concludes, built with its variables numbered exactly where it isn't too large for a search.
#[derive(Drop)]
pub enum Judged<'a> {
    Unfit,
    Apart,
    Small(SmallClause),
    Large(LargeConclusion<'a>),
}

/// Where a side of an equation is put in: the literal and side of the equation, and the literal and path of the term.
#[derive(Clone, Copy)]
pub struct Putting<'a> {
    pub equation: u64,
    pub side: u64,
    pub literal: u64,
    pub path: &'a [u64],
}

/// C / C
pub fn copy<'a>(alloc: Global, parent: &'a Clause) -> Result<Judged<'a>, AllocError>
    ensures { IfOk result (JudgedAs copy_rule (parent.now ∷ [])) }
{
    let applied = apply_copy(alloc, parent)?;
    conclude_applied(alloc, applied)
}

/// A1 | .. | An | C, -A1 | C1, .., -An | Cn / C | C1 | .. | Cn
pub fn clash<'a>(
    alloc: Global,
    satellites: &[Satellite],
    parents: &[&'a Clause],
) -> Result<Judged<'a>, AllocError>
    ensures { IfOk result (JudgedAs (clash_rule (map clash_of satellites.now))
        (lent_clauses parents.now)) }
{
    let applied = apply_clash(alloc, satellites, parents)?;
    conclude_applied(alloc, applied)
}

/// A | A | C / A | C, where the second is left out
pub fn factor<'a>(
    alloc: Global,
    a: u64,
    b: u64,
    parent: &'a Clause,
) -> Result<Judged<'a>, AllocError>
    ensures { IfOk result (JudgedAs (factor_rule a b) (parent.now ∷ [])) }
{
    let applied = apply_factor(alloc, a, b, parent)?;
    conclude_applied(alloc, applied)
}

/// t != t | C / C
pub fn reflexivity<'a>(alloc: Global, a: u64, parent: &'a Clause) -> Result<Judged<'a>, AllocError>
    ensures { IfOk result (JudgedAs (xx_rule a) (parent.now ∷ [])) }
{
    let applied = apply_reflexivity(alloc, a, parent)?;
    conclude_applied(alloc, applied)
}

/// s = t | C, L[s] | D / L[t] | D | C, where who has them hands in s and the term that it is put in for
pub fn paramodulate<'a>(
    alloc: Global,
    at: Putting<'a>,
    from: &'a Clause,
    side: &Term,
    into: &'a Clause,
    term: &Term,
) -> Result<Judged<'a>, AllocError>
    requires side { tree_of side.now ≡ side_of at.side (atom_at from.now at.equation) }
    requires there { below (atom_at into.now at.literal) at.path.now ≡ Some (tree_of term.now) }
    ensures { IfOk result (JudgedAs
        (para_rule at.entry.equation at.entry.side at.entry.literal at.entry.path.now)
        (from.now ∷ into.now ∷ [])) }
{
    let applied = apply_paramodulation(alloc, at, from, side, into, term)?;
    conclude_applied(alloc, applied)
}
