// A clause whose words are being followed.
ghost use Rattle.std.specs.Prelude.{Bool, ◌≡◌, ◌↔◌, ◌==◌, [], IsTrue, IfOk, OnOk, is_some};
ghost use Rattle.derivation.specs.Equations.{equation, is_equation, left_of, right_of};
ghost use Rattle.derivation.specs.Later.{IsRepeated};
ghost use Rattle.derivation.specs.Places.{atom_at, has_literal, has_place, others, with_atom};
ghost use Rattle.fol_core.specs.Literals.{ClauseTree};
ghost use Rattle.fol_core.specs.TermView.{tree_of};
ghost use Rattle.inference.specs.Followed.{PutAs};
ghost use Rattle.unifiers.specs.Matching.{matched, same_tree};

use fol_core::Term;
use std::alloc::{AllocError, Global};

/// What comes of putting a rule in at a path: there is no term there, or it is no instance of the left side; the clause would be
/// larger than this form holds; or it is done.
#[derive(Clone, Copy)]
pub enum Put {
    Missing,
    Differs,
    TooLarge,
    Done,
}

/// A clause in some form, of which later words ask what they have to know, and which they change.
pub trait Underway {
    ghost clause: { Self → ClauseTree };

    // Which clauses are too large for the form.
    ghost exceeds: { ClauseTree → Bool };

    /// Whether there is a literal of the sign at the place.
    fn has_literal(&self, positive: bool, place: u64) -> bool
        ensures { result ≡ has_literal positive (clause self.now) place };

    /// Whether the atom there is an equation.
    fn is_equation_at(&self, place: u64) -> bool
        requires { IsTrue (has_place (clause self.now) place) }
        ensures { result ≡ is_equation (atom_at (clause self.now) place) };

    /// Whether the sides of the equation there are the same.
    fn has_same_sides_at(&self, place: u64) -> bool
        requires place { IsTrue (has_place (clause self.now) place) }
        requires equation { IsTrue (is_equation (atom_at (clause self.now) place)) }
        ensures { result ≡ same_tree (left_of (atom_at (clause self.now) place))
            (right_of (atom_at (clause self.now) place)) };

    /// Whether an earlier literal is the same.
    fn is_repeated(&self, place: u64) -> bool
        requires { IsTrue (has_place (clause self.now) place) }
        ensures { IsTrue result ↔ IsRepeated (clause self.now) place };

    /// Whether the atom there is an instance of a term.
    fn is_instance_at(&self, alloc: Global, place: u64, general: &Term) -> Result<bool, AllocError>
        requires { IsTrue (has_place (clause self.now) place) }
        ensures { IfOk result (λ b. b
            ≡ is_some (matched (tree_of general.now) (atom_at (clause self.now) place) [])) };

    /// The sides of the equation there are exchanged.
    fn turn_at(&mut self, place: u64) -> Result<(), AllocError>
        requires place { IsTrue (has_place (clause self.old) place) }
        requires equation { IsTrue (is_equation (atom_at (clause self.old) place)) }
        ensures { OnOk result (clause self.new ≡ with_atom (clause self.old) place
            (equation (right_of (atom_at (clause self.old) place))
            (left_of (atom_at (clause self.old) place)))) };

    /// The literal there is left out.
    fn take_out(&mut self, place: u64)
        requires { IsTrue (has_place (clause self.old) place) }
        ensures { clause self.new ≡ others (λ k. k == place) (clause self.old) };

    /// The term at a path there becomes what a rule makes of it. Each variable of the right side has to be one of the left.
    fn rewrite_at(
        &mut self,
        alloc: Global,
        place: u64,
        path: &[u64],
        left: &Term,
        right: &Term,
    ) -> Result<Put, AllocError>
        requires { IsTrue (has_place (clause self.old) place) }
        ensures { IfOk result (PutAs exceeds (clause self.old) place path.now (tree_of left.now)
            (tree_of right.now) (clause self.new)) };
}
