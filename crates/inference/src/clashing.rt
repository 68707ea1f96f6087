// What has to be equal for a clash, and whether it can be.
ghost use Rattle.std.specs.Prelude.{◌≡◌, true, false, IsTrue, IfOk, map};
ghost use Rattle.derivation.specs.Rule.{UnifiesFamily};
ghost use Rattle.derivation.specs.Words.{clash_rule};
ghost use Rattle.inference.specs.Judged.{clash_of, CanUnify, Equates};
ghost use Rattle.inference.specs.Lent.{lent_clauses};
ghost use Rattle.substitutions.specs.Apart.{Own};

use crate::fitting::{atom, clash_fits};
use derivation::Satellite;
use fol_core::Clause;
use std::alloc::{AllocError, Global};
use term_unifiers::Pairs;

/// The atoms of a nucleus with those of its satellites, renamed apart.
pub fn clash_pairs(
    alloc: Global,
    satellites: &[Satellite],
    parents: &[&Clause],
) -> Result<Pairs, AllocError>
    requires { IsTrue ((clash_rule (map clash_of satellites.now)).fits
        (lent_clauses parents.now)) }
    ensures { IfOk result (Equates (clash_rule (map clash_of satellites.now))
        (lent_clauses parents.now)) }
{
    let mut pairs = Pairs::new(alloc, parents.len() as u64)?;
    for (i, s) in satellites.iter().enumerate() {
        let left = atom(parents[0], s.place);
        let right = atom(parents[i + 1], s.literal);
        pairs.push(left, 0, right, i as u64 + 1)?;
    }
    Ok(pairs)
}

/// Whether a nucleus and its satellites fit and can be unified: no unifier is built.
pub fn can_clash(
    alloc: Global,
    satellites: &[Satellite],
    parents: &[&Clause],
) -> Result<bool, AllocError>
    ensures yes { IfOk result (λ b. b ≡ true
        → IsTrue ((clash_rule (map clash_of satellites.now)).fits (lent_clauses parents.now))
        × CanUnify (clash_rule (map clash_of satellites.now)) (lent_clauses parents.now)) }
    ensures no { IfOk result (λ b. b ≡ false
        → IsTrue ((clash_rule (map clash_of satellites.now)).fits (lent_clauses parents.now))
        → (own : Own)
        → ¬ UnifiesFamily (clash_rule (map clash_of satellites.now)) (lent_clauses parents.now) own) }
{
    if !clash_fits(satellites, parents) {
        return Ok(false);
    }
    clash_pairs(alloc, satellites, parents)?.can_unify()
}
