// What the rules of first words take of parents that are lent: the unifier, and what is left.
ghost use Rattle.std.specs.Prelude.{◌≡◌, ◌==◌, ◌<◌, ◌∷◌, [], Some, false, IfOk, IsTrue, length, map};
ghost use Rattle.derivation.specs.Equations.{below};
ghost use Rattle.derivation.specs.Places.{atom_at, has_literal, others};
ghost use Rattle.derivation.specs.Sides.{AreSides};
ghost use Rattle.derivation.specs.Words.{clash_rule, copy_rule, factor_rule, other_side_of, para_rule, side_of, xx_rule};
ghost use Rattle.fol_core.specs.TermView.{tree_of};
ghost use Rattle.inference.specs.Applied.{AppliedAs, AreWith};
ghost use Rattle.inference.specs.Judged.{clash_of};
ghost use Rattle.inference.specs.Left.{Leaves, all_left, all_whole};
ghost use Rattle.inference.specs.Lent.{lent_clauses};

use crate::applied::{Applied, Premises};
use crate::clashing::clash_pairs;
use crate::fitting::{atom, chosen, clash_fits, is_side, is_variable};
use crate::leaving::{leave_all, leave_changed, leave_others, leave_untaken};
use crate::left::{Change, Left};
use crate::rules::Putting;
use derivation::{Satellite, are_alike, has_literal, sides};
use fol_core::{Clause, Term};
use std::alloc::{AllocError, Global};
use term_unifiers::{Pairs, Solution};

// All literals of the one parent are left.
fn keep_whole<'a>(
    alloc: Global,
    unifier: Solution,
    parent: &'a Clause,
) -> Result<Premises<'a>, AllocError>
    ensures { IfOk result (AreWith unifier 1 (all_whole 0 parent.now)) }
{
    let mut left = Vec::with_capacity(alloc, parent.len())?;
    leave_all(parent.as_slice(), 0, &mut left)?;
    Ok(Premises {
        unifier,
        many: 1,
        left,
    })
}

// All of them but for one.
fn keep_without<'a>(
    alloc: Global,
    unifier: Solution,
    parent: &'a Clause,
    place: u64,
) -> Result<Premises<'a>, AllocError>
    requires { place < length parent.now }
    ensures { IfOk result (AreWith unifier 1
        (all_whole 0 (others (λ k. k == place) parent.now))) }
{
    let mut left = Vec::with_capacity(alloc, parent.len())?;
    leave_others(parent, 0, place as usize, &mut left)?;
    Ok(Premises {
        unifier,
        many: 1,
        left,
    })
}

/// A copy takes all of the clause.
pub fn apply_copy<'a>(alloc: Global, parent: &'a Clause) -> Result<Applied<'a>, AllocError>
    ensures { IfOk result (AppliedAs copy_rule (parent.now ∷ [])) }
{
    let found = Pairs::new(alloc, 1)?.unify()?;
    match found {
        None => Ok(Applied::Apart),
        Some(unifier) => {
            let premises = keep_whole(alloc, unifier, parent)?;
            Ok(Applied::To(premises))
        }
    }
}

// What a nucleus and its satellites leave.
fn clash_left<'a>(
    alloc: Global,
    satellites: &[Satellite],
    parents: &[&'a Clause],
) -> Result<Vec<Left<'a>>, AllocError>
    requires { IsTrue ((clash_rule (map clash_of satellites.now)).fits
        (lent_clauses parents.now)) }
    ensures { IfOk result (λ left. Leaves (clash_rule (map clash_of satellites.now))
        (lent_clauses parents.now) (all_left left.items)) }
{
    let mut left = Vec::new(alloc);
    leave_untaken(parents[0], satellites, &mut left)?;
    for (i, s) in satellites.iter().enumerate() {
        leave_others(parents[i + 1], i as u64 + 1, s.literal as usize, &mut left)?;
    }
    Ok(left)
}

/// A clash takes the nucleus and its satellites but for what clashes.
pub fn apply_clash<'a>(
    alloc: Global,
    satellites: &[Satellite],
    parents: &[&'a Clause],
) -> Result<Applied<'a>, AllocError>
    ensures { IfOk result (AppliedAs (clash_rule (map clash_of satellites.now))
        (lent_clauses parents.now)) }
{
    if !clash_fits(satellites, parents) {
        return Ok(Applied::Unfit);
    }
    let found = clash_pairs(alloc, satellites, parents)?.unify()?;
    match found {
        None => Ok(Applied::Apart),
        Some(unifier) => {
            let left = clash_left(alloc, satellites, parents)?;
            Ok(Applied::To(Premises {
                unifier,
                many: parents.len() as u64,
                left,
            }))
        }
    }
}

/// A factor takes the clause but for the second of two literals.
pub fn apply_factor<'a>(
    alloc: Global,
    a: u64,
    b: u64,
    parent: &'a Clause,
) -> Result<Applied<'a>, AllocError>
    ensures { IfOk result (AppliedAs (factor_rule a b) (parent.now ∷ [])) }
{
    if a == b {
        return Ok(Applied::Unfit);
    }
    if !are_alike(parent, a, parent, b) {
        return Ok(Applied::Unfit);
    }
    let mut pairs = Pairs::new(alloc, 1)?;
    pairs.push(atom(parent, a), 0, atom(parent, b), 0)?;
    let found = pairs.unify()?;
    match found {
        None => Ok(Applied::Apart),
        Some(unifier) => {
            let premises = keep_without(alloc, unifier, parent, b)?;
            Ok(Applied::To(premises))
        }
    }
}

// An equation that is false, by its sides.
fn reflexivity_there<'a>(
    alloc: Global,
    a: u64,
    parent: &'a Clause,
    s: &Term,
    t: &Term,
) -> Result<Applied<'a>, AllocError>
    requires literal { IsTrue (has_literal false parent.now a) }
    requires sides { AreSides (atom_at parent.now a) (tree_of s.now) (tree_of t.now) }
    ensures { IfOk result (AppliedAs (xx_rule a) (parent.now ∷ [])) }
{
    let mut pairs = Pairs::new(alloc, 1)?;
    pairs.push(s, 0, t, 0)?;
    let found = pairs.unify()?;
    match found {
        None => Ok(Applied::Apart),
        Some(unifier) => {
            let premises = keep_without(alloc, unifier, parent, a)?;
            Ok(Applied::To(premises))
        }
    }
}

/// An equation that is false of the same is left out.
#[tactic(auto, using(crate::proofs::OneSteps::xx_no_literal, crate::proofs::OneSteps::xx_no_equation))]
pub fn apply_reflexivity<'a>(
    alloc: Global,
    a: u64,
    parent: &'a Clause,
) -> Result<Applied<'a>, AllocError>
    ensures { IfOk result (AppliedAs (xx_rule a) (parent.now ∷ [])) }
{
    if !has_literal(parent, false, a) {
        return Ok(Applied::Unfit);
    }
    let Some((s, t)) = sides(atom(parent, a)) else {
        return Ok(Applied::Unfit);
    };
    reflexivity_there(alloc, a, parent, s, t)
}

// The clause into which the other side is put, then the rest of the equation's.
fn para_left<'a>(
    alloc: Global,
    at: Putting<'a>,
    from: &'a Clause,
    into: &'a Clause,
    other: &'a Term,
) -> Result<Vec<Left<'a>>, AllocError>
    requires fits { IsTrue ((para_rule at.equation at.side at.literal at.path.now).fits
        (from.now ∷ into.now ∷ [])) }
    requires other { tree_of other.now ≡ other_side_of at.side (atom_at from.now at.equation) }
    ensures { IfOk result (λ left. Leaves
        (para_rule at.entry.equation at.entry.side at.entry.literal at.entry.path.now)
        (from.now ∷ into.now ∷ []) (all_left left.items)) }
{
    let change = Change {
        path: at.path,
        parent: 0,
        term: other,
    };
    let mut left = Vec::with_capacity(alloc, from.len().saturating_add(into.len()))?;
    leave_changed(into, 1, at.literal as usize, change, &mut left)?;
    leave_others(from, 0, at.equation as usize, &mut left)?;
    Ok(left)
}

// What it takes, where all is there.
fn paramodulate_there<'a>(
    alloc: Global,
    at: Putting<'a>,
    from: &'a Clause,
    side: &Term,
    into: &'a Clause,
    term: &Term,
    other: &'a Term,
) -> Result<Applied<'a>, AllocError>
    requires fits { IsTrue ((para_rule at.equation at.side at.literal at.path.now).fits
        (from.now ∷ into.now ∷ [])) }
    requires side { tree_of side.now ≡ side_of at.side (atom_at from.now at.equation) }
    requires there { below (atom_at into.now at.literal) at.path.now ≡ Some (tree_of term.now) }
    requires other { tree_of other.now ≡ other_side_of at.side (atom_at from.now at.equation) }
    ensures { IfOk result (AppliedAs
        (para_rule at.entry.equation at.entry.side at.entry.literal at.entry.path.now)
        (from.now ∷ into.now ∷ [])) }
{
    let mut pairs = Pairs::new(alloc, 2)?;
    pairs.push(side, 0, term, 1)?;
    let found = pairs.unify()?;
    match found {
        None => Ok(Applied::Apart),
        Some(unifier) => {
            let left = para_left(alloc, at, from, into, other)?;
            Ok(Applied::To(Premises {
                unifier,
                many: 2,
                left,
            }))
        }
    }
}

/// A paramodulant takes the clause into which the other side is put, then the rest of the equation's.
pub fn apply_paramodulation<'a>(
    alloc: Global,
    at: Putting<'a>,
    from: &'a Clause,
    side: &Term,
    into: &'a Clause,
    term: &Term,
) -> Result<Applied<'a>, AllocError>
    requires side { tree_of side.now ≡ side_of at.side (atom_at from.now at.equation) }
    requires there { below (atom_at into.now at.literal) at.path.now ≡ Some (tree_of term.now) }
    ensures { IfOk result (AppliedAs
        (para_rule at.entry.equation at.entry.side at.entry.literal at.entry.path.now)
        (from.now ∷ into.now ∷ [])) }
{
    if !has_literal(from, true, at.equation) {
        return Ok(Applied::Unfit);
    }
    let Some((first, second)) = sides(atom(from, at.equation)) else {
        return Ok(Applied::Unfit);
    };
    if is_variable(term) {
        return Ok(Applied::Unfit);
    }
    if !is_side(at.side) {
        return Ok(Applied::Unfit);
    }
    let other = chosen(at.side, second, first);
    paramodulate_there(alloc, at, from, side, into, term, other)
}
