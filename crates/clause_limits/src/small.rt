// Clauses that are known to be within the limits.
ghost use Rattle.std.specs.Prelude.{◌≡◌, false, IfOk};
ghost use Rattle.clause_limits.specs.Sizes.{is_too_large};
ghost use Rattle.fol_core.specs.Renumbered.{renumbered};

use crate::numbering::numbered_anew;
use fol_core::Clause;
use std::alloc::{AllocError, Global};
use std::marker::Model;

/// A clause that isn't too large; contracts see the clause.
#[derive(Drop)]
pub struct SmallClause {
    clause: Clause,
}

impl Model for SmallClause {
    ghost use Rattle.std.specs.Prelude.{◌≡◌, false};
    ghost use Rattle.clause_limits.specs.Sizes.{is_too_large};
    ghost use Rattle.fol_core.specs.Literals.{ClauseTree};
    ghost use Rattle.fol_core.specs.LitCodes.{coded_clause};

    ghost Value = { ClauseTree };

    ghost coded = { coded_clause };

    ghost view = { λ a. a.clause };

    ghost invariant = { λ a. is_too_large a.clause ≡ false };
}

impl SmallClause {
    /// A clause that isn't too large, with its variables numbered.
    #[tactic(auto, using(crate::proofs::Numbered::numbered_as_large))]
    pub fn numbered(alloc: Global, clause: Clause) -> Result<SmallClause, AllocError>
        requires { is_too_large clause ≡ false }
        ensures { IfOk result (λ c. c ≡ renumbered clause) }
    {
        Ok(SmallClause {
            clause: numbered_anew(alloc, clause)?,
        })
    }

    /// A clause that isn't too large, as it is.
    pub fn of(clause: Clause) -> SmallClause
        requires { is_too_large clause ≡ false }
        ensures { result ≡ clause }
    {
        SmallClause { clause }
    }

    /// It isn't too large.
    pub fn keeps_to_limits(&self)
        ensures { is_too_large self.now ≡ false }
    {
        let _ = &self.clause;
    }

    /// The clause alone.
    pub fn into_clause(self) -> Clause
        ensures { result ≡ self }
    {
        self.clause
    }
}
