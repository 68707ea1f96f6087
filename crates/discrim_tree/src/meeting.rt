// Terms that may be made the same: a test that needs no memory, before a unifier is sought.
ghost use Rattle.std.specs.Prelude.{◌≡◌, false};
ghost use Rattle.fol_core.specs.TermView.{tree_of};
ghost use Rattle.discrim_tree.specs.Meeting.{NeverMeet};

use fol_core::Term;

/// Whether terms may be made the same by what is put in for the variables, for those of each by itself: no only where nothing
/// does.
#[tactic(auto, using(crate::proofs::Meetings::apart_heads, crate::proofs::Meetings::apart_elements))]
pub fn may_meet(s: &Term, t: &Term) -> bool
    ensures { result ≡ false → NeverMeet (tree_of s.now) (tree_of t.now) }
{
    match (s, t) {
        (Term::Var(_), _) => true,
        (_, Term::Var(_)) => true,
        (Term::Elem(k), Term::Elem(n)) => k == n,
        (Term::Elem(_), Term::App(_, _)) => false,
        (Term::App(_, _), Term::Elem(_)) => false,
        (Term::App(f, ls), Term::App(g, rs)) => {
            if f.0 != g.0 {
                return false;
            }
            if ls.items.len() != rs.items.len() {
                return false;
            }
            for (i, l) in ls.items.iter().enumerate() {
                if !may_meet(l, &rs.items[i]) {
                    return false;
                }
            }
            true
        }
    }
}
