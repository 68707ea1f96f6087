// A clause under its number.
ghost use Rattle.std.specs.Prelude.{◌≡◌, IfOk};
ghost use Rattle.held_clauses.specs.Holding.{held};

use fol_core::Clause;
use std::alloc::{AllocError, Global};
use std::marker::Model;
use std::rc::Rc;

/// A clause under the number of its line; contracts see both. Copies share the clause.
#[derive(Drop)]
pub struct Held {
    number: u64,
    clause: Rc<Clause>,
}

impl Model for Held {
    ghost use Rattle.held_clauses.specs.Holding.{HeldClause, coded_held, held};

    ghost Value = { HeldClause };

    ghost coded = { coded_held };

    ghost view = { λ a. held a.number a.clause.value };
}

impl Held {
    /// The clause under the number.
    pub fn new(alloc: Global, number: u64, clause: Clause) -> Result<Held, AllocError>
        ensures { IfOk result (λ h. h ≡ held number clause) }
    {
        let clause = Rc::new(alloc, clause)?;
        Ok(Held { number, clause })
    }

    /// The number.
    pub fn number(&self) -> u64
        ensures { result ≡ self.now.number }
    {
        self.number
    }

    /// The clause.
    pub fn clause(&self) -> &Clause
        ensures { result.now ≡ self.now.clause }
    {
        &self.clause
    }

    /// The clause, shared.
    pub fn shared(&self) -> Result<Rc<Clause>, AllocError>
        ensures { IfOk result (λ c. c.value ≡ self.now.clause) }
    {
        self.clause.clone()
    }

    /// The same clause under the same number.
    pub fn copy(&self) -> Result<Held, AllocError>
        ensures { IfOk result (λ copy. copy ≡ self.now) }
    {
        let clause = self.clause.clone()?;
        Ok(Held {
            number: self.number,
            clause,
        })
    }
}
