// Clauses as signs and atoms of a bank.
ghost use Rattle.std.specs.Prelude.{◌≡◌, IfOk};
ghost use Rattle.term_bank.specs.Bank.{Grows};
ghost use Rattle.clause_store.specs.Stored.{stored_clause, AreLiteralsIn, IsStoredAs};

use derivation::Just;
use fol_core::{Clause, Literal};
use std::alloc::{AllocError, Global};
use term_bank::{Bank, TermId};

/// The literals of a clause: signs, and atoms of a bank.
#[derive(Drop)]
pub struct Stored {
    pub literals: Vec<(bool, TermId)>,
}

/// A conclusion, and how it is come by.
#[derive(Drop)]
pub struct New {
    pub clause: Stored,
    pub just: Just,
}

impl Stored {
    /// A clause, whose atoms are put into the bank.
    pub fn put(alloc: Global, clause: &Clause, bank: &mut Bank) -> Result<Stored, AllocError>
        ensures grows { Grows bank.old bank.new }
        ensures clause { IfOk result (λ s. IsStoredAs bank.new s.literals.items clause.now) }
    {
        let mut literals = Vec::new(alloc);
        for literal in &clause.literals {
            literals.push((literal.positive, bank.put(&literal.atom)?))?;
        }
        Ok(Stored { literals })
    }

    /// The clause.
    pub fn plain(&self, alloc: Global, bank: &Bank) -> Result<Clause, AllocError>
        requires { AreLiteralsIn bank.now self.now.literals.items }
        ensures { IfOk result (λ c. c ≡ stored_clause bank.now self.now.literals.items) }
    {
        let mut clause = Clause::new(alloc);
        for literal in &self.literals {
            let atom = bank.plain(literal.1)?;
            clause.push(Literal {
                positive: literal.0,
                atom,
            })?;
        }
        Ok(clause)
    }
}
