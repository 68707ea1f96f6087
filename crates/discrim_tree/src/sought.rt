// What is sought in an index.
ghost use Rattle.std.specs.Prelude.{◌≡◌, IfOk};
ghost use Rattle.fol_core.specs.TermView.{tree_of};
ghost use Rattle.discrim_tree.specs.Seeking.{fits_below, fits_above, passes};

use crate::comparing::can_unify;
use crate::meeting::may_meet;
use fol_core::Term;
use std::alloc::{AllocError, Global};
use term_matches::is_instance;

/// Which terms are sought: those of which a term is an instance, its instances, or those that unify with it.
#[derive(Drop)]
pub enum Sought {
    Generalizations,
    Instances,
    Unifiable,
}

impl Sought {
    /// Whether variables of terms of the index stand for other terms.
    pub fn fits_below(&self) -> bool
        ensures { result ≡ fits_below self.now }
    {
        match self {
            Sought::Generalizations => true,
            Sought::Instances => false,
            Sought::Unifiable => true,
        }
    }

    /// Whether variables of the term stand for other terms.
    pub fn fits_above(&self) -> bool
        ensures { result ≡ fits_above self.now }
    {
        match self {
            Sought::Generalizations => false,
            Sought::Instances => true,
            Sought::Unifiable => true,
        }
    }

    /// Whether a term of the index is sought.
    #[tactic(auto, using(crate::proofs::Meetings::never_unify))]
    pub fn passes(&self, alloc: Global, t: &Term, s: &Term) -> Result<bool, AllocError>
        ensures { IfOk result (λ b. b ≡ passes self.now (tree_of t.now) (tree_of s.now)) }
    {
        match self {
            Sought::Generalizations => is_instance(alloc, s, t),
            Sought::Instances => is_instance(alloc, t, s),
            Sought::Unifiable => {
                if !may_meet(s, t) {
                    return Ok(false);
                }
                let below = is_instance(alloc, s, t)?;
                if below {
                    return Ok(true);
                }
                let above = is_instance(alloc, t, s)?;
                if above {
                    return Ok(true);
                }
                can_unify(alloc, s, t)
            }
        }
    }
}
