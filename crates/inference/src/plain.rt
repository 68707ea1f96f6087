// A plain clause whose words are being followed: changed in place.
ghost use Rattle.std.specs.Prelude.{◌≡◌, ◌↔◌, ◌<◌, ◌==◌, [], Some, IsTrue, IfOk, OnOk, is_some, length};
ghost use Rattle.clause_limits.specs.Sizes.{is_too_large};
ghost use Rattle.derivation.specs.Equations.{below, equation, is_equation, left_of, right_of};
ghost use Rattle.derivation.specs.Later.{IsRepeated};
ghost use Rattle.derivation.specs.Places.{atom_at, has_literal, has_place, others, with_atom};
ghost use Rattle.fol_core.specs.TermView.{tree_of};
ghost use Rattle.fol_core.specs.Tree.{Tree};
ghost use Rattle.inference.specs.Followed.{IsExchanged, PutAs};
ghost use Rattle.unifiers.specs.Matching.{matched, same_tree};

use crate::changing::{exchange, take_out, turn_at};
use crate::fitting::atom;
use crate::putting::{Exchanged, put_for};
use crate::underway::{Put, Underway};
use derivation::{below, has_literal, is_equation, sides};
use fol_core::{Clause, Term};
use std::alloc::{AllocError, Global};
use substitutions::{same, same_literal};
use term_matches::is_instance;

// Whether an earlier literal is the same.
#[tactic(auto, using(crate::proofs::PlainSteps::repeated_here, crate::proofs::PlainSteps::repeated_not, crate::proofs::PlainSteps::repeated_end))]
fn is_repeated(clause: &Clause, place: usize) -> bool
    requires { place < length clause.now }
    ensures { IsTrue result ↔ IsRepeated clause.now place }
{
    let literals = clause.as_slice();
    for earlier in 0..place {
        if same_literal(&literals[earlier], &literals[place]) {
            return true;
        }
    }
    false
}

// What a rule makes of a term, put in for it.
#[tactic(auto, using(crate::proofs::PlainSteps::put_differs, crate::proofs::PlainSteps::put_large))]
fn put_made(clause: &mut Clause, place: usize, path: &[u64], made: Exchanged) -> Put
    requires { IsTrue (has_place clause.old place) }
    ensures { (left right t : Tree) → below (atom_at clause.old place) path.now ≡ Some t
        → IsExchanged left right t made
        → PutAs is_too_large clause.old place path.now left right clause.new result }
{
    match made {
        Exchanged::Differs => Put::Differs,
        Exchanged::TooLarge => Put::TooLarge,
        Exchanged::By(new) => {
            let _old = exchange(clause, place, path, new);
            Put::Done
        }
    }
}

impl Underway for Clause {
    ghost clause = { λ c. c };

    ghost exceeds = { is_too_large };

    fn has_literal(&self, positive: bool, place: u64) -> bool
        ensures { result ≡ has_literal positive self.now place }
    {
        has_literal(self, positive, place)
    }

    fn is_equation_at(&self, place: u64) -> bool
        requires { IsTrue (has_place self.now place) }
        ensures { result ≡ is_equation (atom_at self.now place) }
    {
        is_equation(atom(self, place))
    }

    fn has_same_sides_at(&self, place: u64) -> bool
        requires place { IsTrue (has_place self.now place) }
        requires equation { IsTrue (is_equation (atom_at self.now place)) }
        ensures { result ≡ same_tree (left_of (atom_at self.now place))
            (right_of (atom_at self.now place)) }
    {
        match sides(atom(self, place)) {
            None => false,
            Some((left, right)) => same(left, right),
        }
    }

    fn is_repeated(&self, place: u64) -> bool
        requires { IsTrue (has_place self.now place) }
        ensures { IsTrue result ↔ IsRepeated self.now place }
    {
        is_repeated(self, place as usize)
    }

    fn is_instance_at(&self, alloc: Global, place: u64, general: &Term) -> Result<bool, AllocError>
        requires { IsTrue (has_place self.now place) }
        ensures { IfOk result (λ b. b
            ≡ is_some (matched (tree_of general.now) (atom_at self.now place) [])) }
    {
        is_instance(alloc, general, atom(self, place))
    }

    fn turn_at(&mut self, place: u64) -> Result<(), AllocError>
        requires place { IsTrue (has_place self.old place) }
        requires equation { IsTrue (is_equation (atom_at self.old place)) }
        ensures { OnOk result (self.new ≡ with_atom self.old place
            (equation (right_of (atom_at self.old place)) (left_of (atom_at self.old place)))) }
    {
        turn_at(self, place as usize);
        Ok(())
    }

    fn take_out(&mut self, place: u64)
        requires { IsTrue (has_place self.old place) }
        ensures { self.new ≡ others (λ k. k == place) self.old }
    {
        take_out(self, place as usize);
    }

    fn rewrite_at(
        &mut self,
        alloc: Global,
        place: u64,
        path: &[u64],
        left: &Term,
        right: &Term,
    ) -> Result<Put, AllocError>
        requires { IsTrue (has_place self.old place) }
        ensures { IfOk result (PutAs is_too_large self.old place path.now (tree_of left.now)
            (tree_of right.now) self.new) }
    {
        let Some(term) = below(atom(self, place), path) else {
            return Ok(Put::Missing);
        };
        let made = put_for(alloc, left, right, term)?;
        Ok(put_made(self, place as usize, path, made))
    }
}
