// A clause on shared terms.
ghost use Rattle.std.specs.Prelude.{◌≡◌, ◌↔◌, ◌<◌, IfOk, IsTrue, length, map, slice_get, take};
ghost use Rattle.fol_core.specs.ClauseView.{literal_of};
ghost use Rattle.inference.specs.Left.{all_left, left_clause};
ghost use Rattle.inference.specs.Measured.{clause_measured};
ghost use Rattle.shared_clauses.specs.Shared.{AreLiteralsIn, clause_in};
ghost use Rattle.substitutions.specs.Bindings.{by_bindings};
ghost use Rattle.substitutions.specs.Instances.{AreVariants};
ghost use Rattle.term_unifiers.specs.Renamed.{own_among};

use crate::following::is_same;
use crate::making::{clause_literals, conclusion_literals, instance_literals};
use clause_limits::Measure;
use fol_core::{Clause, Literal};
use inference::{LargeConclusion, LargeInstance, Left};
use std::alloc::{AllocError, Global};
use std::marker::Model;
use term_bank::{Bank, TermId};
use term_unifiers::Solution;

/// A literal whose atom has a number in a bank.
#[derive(Clone, Copy)]
pub struct SharedLiteral {
    pub positive: bool,
    pub atom: TermId,
}

/// A clause whose atoms stand in a bank; contracts see the clause.
#[derive(Drop)]
pub struct SharedClause {
    pub(crate) bank: Bank,
    pub(crate) literals: Vec<SharedLiteral>,
}

impl Model for SharedClause {
    ghost use Rattle.std.specs.Prelude.{length, map};
    ghost use Rattle.fol_core.specs.Literals.{ClauseTree};
    ghost use Rattle.fol_core.specs.LitCodes.{coded_clause};
    ghost use Rattle.shared_clauses.specs.Shared.{AreLiteralsIn, clause_in};

    ghost Value = { ClauseTree };

    ghost coded = { coded_clause };

    ghost view = { λ a. clause_in a.bank a.literals.items };

    ghost invariant = { λ a. AreLiteralsIn a.bank a.literals.items };
}

// How large the atoms are, one beside the other.
fn measure_literals(bank: &Bank, literals: &[SharedLiteral]) -> Measure
    requires { AreLiteralsIn bank.now literals.now }
    ensures { result ≡ clause_measured (clause_in bank.now literals.now) }
{
    let mut all = Measure::none();
    for literal in literals {
        let one = Measure {
            size: bank.size(literal.atom),
            depth: bank.depth(literal.atom),
        };
        all = all.beside(one);
    }
    all
}

// The literals with their atoms built.
fn plain_literals(
    alloc: Global,
    bank: &Bank,
    literals: &[SharedLiteral],
) -> Result<Vec<Literal>, AllocError>
    requires { AreLiteralsIn bank.now literals.now }
    ensures { IfOk result (λ ls. map literal_of ls.items ≡ clause_in bank.now literals.now) }
{
    let mut plain = Vec::with_capacity(alloc, literals.len())?;
    for literal in literals {
        let atom = bank.plain(literal.atom)?;
        plain.push(Literal {
            positive: literal.positive,
            atom,
        })?;
    }
    Ok(plain)
}

impl SharedClause {
    /// A plain clause's terms, each once.
    pub fn of(alloc: Global, clause: &Clause) -> Result<SharedClause, AllocError>
        ensures { IfOk result (λ c. c ≡ clause.now) }
    {
        let mut bank = Bank::new(alloc);
        let literals = clause_literals(alloc, &mut bank, clause)?;
        Ok(SharedClause { bank, literals })
    }

    /// Those of an instance that isn't built.
    pub fn of_instance(alloc: Global, large: &LargeInstance) -> Result<SharedClause, AllocError>
        ensures { IfOk result (λ c. c ≡ large.now) }
    {
        let (values, parent) = large.parts();
        let mut bank = Bank::new(alloc);
        let literals = instance_literals(alloc, &mut bank, values, parent)?;
        Ok(SharedClause { bank, literals })
    }

    /// Those of a conclusion that isn't built, whose variables have other numbers then.
    pub fn of_conclusion(alloc: Global, large: &LargeConclusion) -> Result<SharedClause, AllocError>
        ensures { IfOk result (λ c. AreVariants c large.now) }
    {
        let (unifier, many, left) = large.parts();
        SharedClause::of_left(alloc, unifier, many, left)
    }

    /// Those of what is left of so many parents under a unifier; their variables have other numbers then.
    pub fn of_left(
        alloc: Global,
        unifier: &Solution,
        many: u64,
        left: &[Left],
    ) -> Result<SharedClause, AllocError>
        ensures { IfOk result (λ c. AreVariants c
            (left_clause (own_among many (by_bindings unifier.now)) (all_left left.now))) }
    {
        let (bank, literals) = conclusion_literals(alloc, unifier, many, left)?;
        Ok(SharedClause { bank, literals })
    }

    /// How many literals there are.
    pub fn len(&self) -> usize
        ensures { result ≡ length self.now }
    {
        self.literals.len()
    }

    /// Whether the literals at two places are the same.
    pub fn are_same(&self, a: usize, b: usize) -> bool
        requires a { a < length self.now }
        requires b { b < length self.now }
        ensures { IsTrue result ↔ (slice_get self.now a ≡ slice_get self.now b) }
    {
        is_same(&self.bank, self.literals[a], self.literals[b])
    }

    /// The first so many literals are kept.
    pub fn truncate(&mut self, len: usize)
        ensures { self.new ≡ take len self.old }
    {
        self.literals.truncate(len);
    }

    /// The bank and the literals whose atoms stand in it.
    pub fn parts(&self) -> (&Bank, &[SharedLiteral])
        ensures within { AreLiteralsIn result.0.now result.1.now }
        ensures clause { clause_in result.0.now result.1.now ≡ self.now }
    {
        (&self.bank, self.literals.as_slice())
    }

    /// How large it is, each number up to the greatest one.
    pub fn measure(&self) -> Measure
        ensures { result ≡ clause_measured self.now }
    {
        measure_literals(&self.bank, self.literals.as_slice())
    }

    /// The clause with its terms built, however large they are: it takes stack for their levels.
    pub fn plain(&self, alloc: Global) -> Result<Clause, AllocError>
        ensures { IfOk result (λ c. c ≡ self.now) }
    {
        let literals = plain_literals(alloc, &self.bank, self.literals.as_slice())?;
        Ok(Clause { literals })
    }
}
