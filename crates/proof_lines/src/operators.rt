// The operators that lines are read with.
ghost use Rattle.std.specs.Prelude.{◌≡◌, IfOk};
ghost use Rattle.proof_lines.specs.ContentTokens.{line_tables, tables_of};

use ladr_lex::Ops;
use std::alloc::{AllocError, Global};

/// The operators of formulas, which are the problem's, and those of clauses.
#[derive(Drop)]
pub struct LineOperators {
    pub formulas: Ops,
    pub clauses: Ops,
}

impl LineOperators {
    /// Those of a problem with these operators and this style of variables.
    pub fn of(alloc: Global, operators: Ops, prolog: bool) -> Result<LineOperators, AllocError>
        ensures { IfOk result (λ o. tables_of o ≡ line_tables prolog operators) }
    {
        let clauses = operators.of_clauses(alloc, prolog)?;
        Ok(LineOperators {
            formulas: operators,
            clauses,
        })
    }
}
