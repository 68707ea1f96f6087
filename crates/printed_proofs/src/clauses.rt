// The variables of clauses.
ghost use Rattle.fol_core.specs.Free.{variables_of};
ghost use Rattle.fol_core.specs.TermView.{tree_of};
ghost use Rattle.printed_proofs.specs.LineBounds.{HasFewVariables};
ghost use Rattle.words_print.specs.Sayable.{AreShort};

use crate::words::number_is_short;
use fol_core::{Clause, Term};

/// Each variable is a number below 2 ^ 64, so a clause has no more of them.
pub fn variables_are_few(clause: &Clause)
    ensures { HasFewVariables clause.now }
{
    for literal in &clause.literals {
        variables_are_short(&literal.atom);
    }
}

// The variables of a term are numbers below 2 ^ 64.
fn variables_are_short(term: &Term)
    ensures { AreShort (variables_of (tree_of term.now)) }
{
    match term {
        Term::Var(x) => number_is_short(*x),
        Term::Elem(_) => (),
        Term::App(_, terms) => {
            for part in &terms.items {
                variables_are_short(part);
            }
        }
    }
}
