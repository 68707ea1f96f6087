// A most general unifier.
ghost use Rattle.std.specs.Prelude.{ℕ, ◌≡◌, ◌≤◌, ◌++◌, List, IfOk, OnOk};
ghost use Rattle.clause_limits.specs.Sizes.{measured};
ghost use Rattle.fol_core.specs.Free.{joined, variables_of};
ghost use Rattle.fol_core.specs.Renumbered.{by_place};
ghost use Rattle.fol_core.specs.Sizes.{size_of, saturated};
ghost use Rattle.fol_core.specs.Substitutions.{substitute};
ghost use Rattle.fol_core.specs.TermView.{tree_of};
ghost use Rattle.substitutions.specs.Bindings.{by_bindings};
ghost use Rattle.term_unifiers.specs.Renamed.{own_among};
ghost use Rattle.term_unifiers.specs.Shared.{IsShared};
ghost use Rattle.term_unifiers.specs.Solutions.{IsFound, bindings_of};

use crate::found::Found;
use crate::instances::most_under;
use crate::numbers::Numbers;
use crate::sharing::{OfParent, Shared, share_among};
use crate::sizes::measure_among;
use crate::writing::write_among;
use clause_limits::Measure;
use fol_core::Term;
use std::alloc::{AllocError, Global};
use std::marker::Model;

/// A unifier; contracts see what variables are bound to. A variable that isn't bound stays.
#[derive(Drop)]
pub struct Solution {
    found: Found,
}

impl Model for Solution {
    ghost use Rattle.std.specs.Prelude.{List};
    ghost use Rattle.substitutions.specs.Bindings.{Binding, coded_bindings};
    ghost use Rattle.term_unifiers.specs.Solutions.{bindings_of, IsFound};

    ghost Value = { List Binding };

    ghost coded = { coded_bindings };

    ghost view = { λ a. bindings_of a.found };

    ghost invariant = { λ a. IsFound a.found };
}

impl Solution {
    /// What is found, as a unifier.
    pub(crate) fn new(found: Found) -> Solution
        requires { IsFound found }
        ensures { result ≡ bindings_of found }
    {
        Solution { found }
    }

    /// How large a term of one of so many clauses is under the unifier of these renamed apart: nothing is built.
    pub fn measure(&self, term: &Term, many: u64, parent: u64) -> Measure
        ensures { result ≡ measured (substitute (own_among many (by_bindings self.now) parent)
            (tree_of term.now)) }
    {
        measure_among(&self.found, term, many, parent)
    }

    /// That term, as a tree; its variables are numbered behind those that are.
    pub fn write(
        &self,
        alloc: Global,
        term: &Term,
        many: u64,
        parent: u64,
        numbers: &mut Numbers,
    ) -> Result<Term, AllocError>
        ensures numbers { OnOk result (numbers.new ≡ joined numbers.old (variables_of
            (substitute (own_among many (by_bindings self.now) parent) (tree_of term.now)))) }
        ensures term { IfOk result (λ made. (behind : List ℕ) → tree_of made
            ≡ substitute (by_place (numbers.new ++ behind))
            (substitute (own_among many (by_bindings self.now) parent) (tree_of term.now))) }
    {
        write_among(alloc, &self.found, term, many, parent, numbers)
    }

    /// Terms of so many clauses, and others of them, under the unifier of these renamed apart, in a bank: what occurs often
    /// stands there once. Variables have numbers by which each term is another's variant.
    pub fn share(
        &self,
        alloc: Global,
        many: u64,
        terms: &[OfParent],
        others: &[OfParent],
    ) -> Result<Shared, AllocError>
        ensures { IfOk result (IsShared many self.now terms.now others.now) }
    {
        share_among(alloc, &self.found, many, terms, others)
    }

    /// A number of symbols and variables that no variable's term has more of, up to the greatest number.
    pub fn most_symbols(&self) -> u64
        ensures one { 1 ≤ result }
        ensures all { (x : ℕ) → saturated (size_of (by_bindings self.now x)) ≤ result }
    {
        most_under(&self.found)
    }
}
