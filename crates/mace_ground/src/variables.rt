// The variables of clauses, which are numbered from 0 on.
ghost use Rattle.std.specs.Prelude.{◌≡◌, ◌≤◌, ◌^◌, min};
ghost use Rattle.fol_core.specs.Tree.{trees_of};
ghost use Rattle.fol_core.specs.TermView.{tree_of};
ghost use Rattle.mace_ground.specs.Instances.{above_variables, variables_in};

use fol_core::{Clause, Term};

fn above_variables(term: &Term) -> u128
    ensures above { result ≡ above_variables (tree_of term.now) }
    ensures few { result ≤ 2 ^ 64 }
{
    match term {
        Term::Var(x) => u128::from(*x) + 1,
        Term::Elem(_) => 0,
        Term::App(_, terms) => {
            let mut above = 0;
            for term in &terms.items {
                above = above_variables(term).max(above);
            }
            above
        }
    }
}

/// How many variables a clause has.
pub fn variables_in(clause: &Clause) -> u128
    ensures many { result ≡ variables_in clause.now }
    ensures few { result ≤ 2 ^ 64 }
{
    let mut above = 0;
    for literal in &clause.literals {
        above = above_variables(&literal.atom).max(above);
    }
    above
}
