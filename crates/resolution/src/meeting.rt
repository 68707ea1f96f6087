// Literals whose atoms may be made the same: tests that need no memory, before anything is copied.
ghost use Rattle.std.specs.Prelude.{◌≡◌, false};
ghost use Rattle.resolution.specs.Meeting.{NeverClash, NeverMerge};

use discrim_tree::may_meet;
use fol_core::Clause;

/// Whether literals of two clauses may clash: they have opposite signs, and their atoms may meet.
#[tactic(auto, using(crate::proofs::Meetings::never_clash_past, crate::proofs::Meetings::never_clash_behind, crate::proofs::Meetings::never_clash_signs, crate::proofs::Meetings::never_clash_atoms))]
pub fn may_clash(c: &Clause, a: u64, d: &Clause, b: u64) -> bool
    ensures { result ≡ false → NeverClash c.now a d.now b }
{
    let ls = c.as_slice();
    let ks = d.as_slice();
    if a >= ls.len() as u64 {
        return false;
    }
    if b >= ks.len() as u64 {
        return false;
    }
    if ls[a as usize].positive == ks[b as usize].positive {
        return false;
    }
    may_meet(&ls[a as usize].atom, &ks[b as usize].atom)
}

/// Whether literals of one clause may be merged: they have one sign, and their atoms may meet.
#[tactic(auto, using(crate::proofs::Meetings::never_merge_past, crate::proofs::Meetings::never_merge_behind, crate::proofs::Meetings::never_merge_signs, crate::proofs::Meetings::never_merge_atoms))]
pub fn may_merge(c: &Clause, a: u64, b: u64) -> bool
    ensures { result ≡ false → NeverMerge c.now a b }
{
    let ls = c.as_slice();
    if a >= ls.len() as u64 {
        return false;
    }
    if b >= ls.len() as u64 {
        return false;
    }
    if ls[a as usize].positive != ls[b as usize].positive {
        return false;
    }
    may_meet(&ls[a as usize].atom, &ls[b as usize].atom)
}
