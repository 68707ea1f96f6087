// How often variables stand in terms.
ghost use Rattle.std.specs.Prelude.{◌≡◌, IfOk};
ghost use Rattle.fol_core.specs.TermView.{tree_of};
ghost use Rattle.term_matches.specs.Occurrences.{occurrences};

use fol_core::Term;
use std::alloc::AllocError;

/// How often variables stand in a term, if that is a number of the machine.
#[tactic(auto, using(crate::proofs::Counting::counted_next, crate::proofs::Counting::counted_all))]
pub fn occurrences(term: &Term) -> Result<usize, AllocError>
    ensures { IfOk result (λ n. n ≡ occurrences (tree_of term.now)) }
{
    match term {
        Term::Var(_) => Ok(1),
        Term::Elem(_) => Ok(0),
        Term::App(_, terms) => {
            let mut count = 0usize;
            for term in &terms.items {
                let more = occurrences(term)?;
                count = count.checked_add(more).ok_or(AllocError)?;
            }
            Ok(count)
        }
    }
}
