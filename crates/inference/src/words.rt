// The words behind the first one, one function each, on a clause whose words are being followed: premises over conclusion.
ghost use Rattle.std.specs.Prelude.{◌≡◌, ◌∷◌, [], ℕ, List, IfOk, IsTrue};
ghost use Rattle.derivation.specs.Later.{flipped, merged, reflexive, rewritten, unit_deleted};
ghost use Rattle.derivation.specs.Places.{are_opposite, has_place};
ghost use Rattle.derivation.specs.View.{later_of};
ghost use Rattle.fol_core.specs.Literals.{ClauseTree};
ghost use Rattle.fol_core.specs.TermView.{tree_of};
ghost use Rattle.inference.specs.Followed.{AreRuleSides, FollowsAs, followed_put};
ghost use Rattle.inference.specs.Lent.{lent_clauses};
ghost use Rattle.inference.specs.declared.followed.Followed.TheVariants.{TooLarge};

use crate::fitting::atom;
use crate::followed::Followed;
use crate::rewriting::rule_sides;
use crate::underway::{Put, Underway};
use derivation::{Later, has_literal};
use fol_core::{Clause, Term};
use std::alloc::{AllocError, Global};

// Whether there is a literal at the place.
fn has_place<C: Underway>(clause: &C, a: u64) -> bool
    ensures { result ≡ has_place (C.clause clause.now) a }
{
    clause.has_literal(true, a) || clause.has_literal(false, a)
}

// Whether the sign of the literal there is another than that of a clause's first one.
fn is_denied<C: Underway>(clause: &C, a: u64, unit: &Clause) -> bool
    ensures { result ≡ are_opposite (C.clause clause.now) a unit.now 0 }
{
    let first = clause.has_literal(true, a) && has_literal(unit, false, 0);
    let second = clause.has_literal(false, a) && has_literal(unit, true, 0);
    first || second
}

/// s = t | C / t = s | C, under either sign
#[tactic(auto, using(crate::proofs::WordSteps::flips_no_place, crate::proofs::WordSteps::flips_no_equation, crate::proofs::WordSteps::flips))]
pub fn flip<C: Underway>(clause: &mut C, a: u64) -> Result<Followed, AllocError>
    ensures { (ps : List ClauseTree)
        → IfOk result (FollowsAs C.exceeds (flipped a) (C.clause clause.old) ps (C.clause clause.new)) }
{
    if !has_place(clause, a) {
        return Ok(Followed::Misplaced);
    }
    if !clause.is_equation_at(a) {
        return Ok(Followed::Misplaced);
    }
    clause.turn_at(a)?;
    Ok(Followed::Done)
}

/// L | C, where L is in C / C
#[tactic(auto, using(crate::proofs::WordSteps::merges_no_place, crate::proofs::WordSteps::merges_not, crate::proofs::WordSteps::merges))]
pub fn merge<C: Underway>(clause: &mut C, a: u64) -> Followed
    ensures follows { (ps : List ClauseTree)
        → FollowsAs C.exceeds (merged a) (C.clause clause.old) ps (C.clause clause.new) result }
    ensures held { result ≡ TooLarge → ⊥ }
{
    if !has_place(clause, a) {
        return Followed::Misplaced;
    }
    if !clause.is_repeated(a) {
        return Followed::Differs;
    }
    clause.take_out(a);
    Followed::Done
}

/// t != t | C / C
#[tactic(auto, using(crate::proofs::WordSteps::drops_no_literal, crate::proofs::WordSteps::drops_no_equation, crate::proofs::WordSteps::drops_not, crate::proofs::WordSteps::drops, crate::proofs::OneSteps::sign_place))]
pub fn drop_reflexive<C: Underway>(clause: &mut C, a: u64) -> Followed
    ensures follows { (ps : List ClauseTree)
        → FollowsAs C.exceeds (reflexive a) (C.clause clause.old) ps (C.clause clause.new) result }
    ensures held { result ≡ TooLarge → ⊥ }
{
    if !clause.has_literal(false, a) {
        return Followed::Misplaced;
    }
    if !clause.is_equation_at(a) {
        return Followed::Misplaced;
    }
    if !clause.has_same_sides_at(a) {
        return Followed::Differs;
    }
    clause.take_out(a);
    Followed::Done
}

/// A[s] | C, -A / C
#[tactic(auto, using(crate::proofs::WordSteps::deletes_no_unit, crate::proofs::WordSteps::deletes_no_literal, crate::proofs::WordSteps::deletes_not, crate::proofs::WordSteps::deletes))]
pub fn delete_unit<C: Underway>(
    alloc: Global,
    clause: &mut C,
    a: u64,
    unit: &Clause,
) -> Result<Followed, AllocError>
    ensures { (n : ℕ) → IfOk result (FollowsAs C.exceeds (unit_deleted a n) (C.clause clause.old)
        (unit.now ∷ []) (C.clause clause.new)) }
{
    if unit.len() != 1 {
        return Ok(Followed::Misplaced);
    }
    if !is_denied(clause, a, unit) {
        return Ok(Followed::Misplaced);
    }
    if !clause.is_instance_at(alloc, a, atom(unit, 0))? {
        return Ok(Followed::Differs);
    }
    clause.take_out(a);
    Ok(Followed::Done)
}

// What comes of putting a rule in, as what comes of a word.
fn put_word(put: Put) -> Followed
    ensures { result ≡ followed_put put }
{
    match put {
        Put::Missing => Followed::Misplaced,
        Put::Differs => Followed::Differs,
        Put::TooLarge => Followed::TooLarge,
        Put::Done => Followed::Done,
    }
}

// By the sides of a rule, at a place that is there.
fn rewrite_by<C: Underway>(
    alloc: Global,
    clause: &mut C,
    a: u64,
    path: &[u64],
    rule: &Clause,
    left: &Term,
    right: &Term,
) -> Result<Followed, AllocError>
    requires place { IsTrue (has_place (C.clause clause.old) a) }
    requires rule { AreRuleSides rule.now (tree_of left.now) (tree_of right.now) }
    ensures { (n : ℕ) → IfOk result (FollowsAs C.exceeds (rewritten n a path.now) (C.clause clause.old)
        (rule.now ∷ []) (C.clause clause.new)) }
{
    let put = clause.rewrite_at(alloc, a, path, left, right)?;
    Ok(put_word(put))
}

/// L[u[s]] | C, u = v / L[v[s]] | C
#[tactic(auto, using(crate::proofs::WordSteps::no_rule, crate::proofs::WordSteps::rewrites_no_place))]
pub fn rewrite<C: Underway>(
    alloc: Global,
    clause: &mut C,
    a: u64,
    path: &[u64],
    rule: &Clause,
) -> Result<Followed, AllocError>
    ensures { (n : ℕ) → IfOk result (FollowsAs C.exceeds (rewritten n a path.now) (C.clause clause.old)
        (rule.now ∷ []) (C.clause clause.new)) }
{
    if !has_place(clause, a) {
        return Ok(Followed::Misplaced);
    }
    match rule_sides(rule) {
        None => Ok(Followed::Misplaced),
        Some((left, right)) => rewrite_by(alloc, clause, a, path, rule, left, right),
    }
}

// With the one unit.
#[tactic(auto, using(crate::proofs::WordSteps::no_units))]
fn delete_unit_of<C: Underway>(
    alloc: Global,
    clause: &mut C,
    a: u64,
    parents: &[&Clause],
) -> Result<Followed, AllocError>
    ensures { (n : ℕ) → IfOk result (FollowsAs C.exceeds (unit_deleted a n) (C.clause clause.old)
        (lent_clauses parents.now) (C.clause clause.new)) }
{
    if parents.len() != 1 {
        return Ok(Followed::Misplaced);
    }
    delete_unit(alloc, clause, a, parents[0])
}

// With the one rule.
#[tactic(auto, using(crate::proofs::WordSteps::no_rules))]
fn rewrite_of<C: Underway>(
    alloc: Global,
    clause: &mut C,
    a: u64,
    path: &[u64],
    parents: &[&Clause],
) -> Result<Followed, AllocError>
    ensures { (n : ℕ) → IfOk result (FollowsAs C.exceeds (rewritten n a path.now) (C.clause clause.old)
        (lent_clauses parents.now) (C.clause clause.new)) }
{
    if parents.len() != 1 {
        return Ok(Followed::Misplaced);
    }
    rewrite(alloc, clause, a, path, parents[0])
}

/// What a word comes to on a clause, with the clauses that it takes.
pub fn follow<C: Underway>(
    alloc: Global,
    word: &Later,
    clause: &mut C,
    parents: &[&Clause],
) -> Result<Followed, AllocError>
    ensures { IfOk result (FollowsAs C.exceeds (later_of word.now) (C.clause clause.old)
        (lent_clauses parents.now) (C.clause clause.new)) }
{
    match word {
        Later::Flip(a) => flip(clause, *a),
        Later::Merge(a) => Ok(merge(clause, *a)),
        Later::Xx(a) => Ok(drop_reflexive(clause, *a)),
        Later::UnitDel(a, _) => delete_unit_of(alloc, clause, *a, parents),
        Later::Rewrite(entry) => {
            rewrite_of(alloc, clause, entry.literal, entry.path.as_slice(), parents)
        }
    }
}
