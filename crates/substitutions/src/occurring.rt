// Variables that occur in terms.
ghost use Rattle.std.specs.Prelude.{◌≡◌};
ghost use Rattle.fol_core.specs.TermView.{tree_of};
ghost use Rattle.substitutions.specs.Occurring.{has_variable};

use fol_core::Term;

/// Whether the term has the variable.
#[tactic(auto, using(crate::proofs::Variables::variable_here, crate::proofs::Variables::variable_behind, crate::proofs::Variables::variable_end))]
pub fn has_variable(term: &Term, x: u64) -> bool
    ensures { result ≡ has_variable x (tree_of term.now) }
{
    match term {
        Term::Var(y) => x == *y,
        Term::Elem(_) => false,
        Term::App(_, terms) => {
            for term in &terms.items {
                if has_variable(term, x) {
                    return true;
                }
            }
            false
        }
    }
}
