// A clause on shared terms whose later words are being followed: none is too large for it.
ghost use Rattle.std.specs.Prelude.{◌≡◌, ◌↔◌, ◌<◌, ◌==◌, ℕ, List, [], None, false, IsTrue, IfOk, OnOk, MatchOption, is_some, length};
ghost use Rattle.derivation.specs.Equations.{equation, is_equation, left_of, right_of};
ghost use Rattle.derivation.specs.Later.{IsRepeated};
ghost use Rattle.derivation.specs.Places.{atom_at, has_literal, has_place, others, with_atom};
ghost use Rattle.fol_core.specs.Literals.{ClauseTree};
ghost use Rattle.fol_core.specs.TermView.{tree_of};
ghost use Rattle.fol_core.specs.Tree.{Tree};
ghost use Rattle.inference.specs.Followed.{PutAs, exchanged};
ghost use Rattle.shared_clauses.specs.Rewriting.{IsExchangedTo, IsRewritten};
ghost use Rattle.shared_clauses.specs.Shared.{AreLiteralsIn, clause_in, literal_in};
ghost use Rattle.term_bank.specs.Bank.{Grows, tree_at};
ghost use Rattle.unifiers.specs.Matching.{matched, same_tree};

use crate::matching::match_onto;
use crate::nodes::sides;
use crate::paths::{put_along, way_along};
use crate::putting::put_with;
use crate::shared::{SharedClause, SharedLiteral};
use fol_core::{EQ, Term};
use inference::{Put, Underway};
use std::alloc::{AllocError, Global};
use term_bank::{Bank, TermId};

// What comes of putting a rule in at a path of an atom: there is no term there, or it is no instance of the left side; or the atom
// that it becomes.
#[derive(Clone, Copy)]
enum Rewritten {
    Missing,
    Differs,
    Atom(TermId),
}

// Whether there is a literal of the sign at the place.
fn is_there(literals: &[SharedLiteral], positive: bool, place: u64) -> bool
    ensures { (bank : List Tree) → result ≡ has_literal positive (clause_in bank literals.now) place }
{
    if place >= literals.len() as u64 {
        return false;
    }
    literals[place as usize].positive == positive
}

// The number of the atom at a place.
fn atom(bank: &Bank, literals: &[SharedLiteral], place: u64) -> TermId
    requires literals { AreLiteralsIn bank.now literals.now }
    requires place { IsTrue (has_place (clause_in bank.now literals.now) place) }
    ensures tree { tree_at bank.now result.0 ≡ atom_at (clause_in bank.now literals.now) place }
    ensures within { result.0 < length bank.now }
{
    literals[place as usize].atom
}

// Another atom at a place.
fn put_atom(literals: &mut Vec<SharedLiteral>, place: u64, atom: TermId)
    requires { place < length literals.old.items }
    ensures clause { (bank : List Tree) → clause_in bank literals.new.items
        ≡ with_atom (clause_in bank literals.old.items) place (tree_at bank atom.0) }
    ensures within { (bank : List Tree) → atom.0 < length bank → AreLiteralsIn bank literals.old.items
        → AreLiteralsIn bank literals.new.items }
{
    literals[place as usize].atom = atom;
}

/// Whether two literals are the same.
pub fn is_same(bank: &Bank, l: SharedLiteral, m: SharedLiteral) -> bool
    requires l { l.atom.0 < length bank.now }
    requires m { m.atom.0 < length bank.now }
    ensures { IsTrue result ↔ (literal_in bank.now l ≡ literal_in bank.now m) }
{
    l.positive == m.positive && bank.same(l.atom, m.atom)
}

// Whether an earlier literal is the same.
fn is_repeated(bank: &Bank, literals: &[SharedLiteral], place: usize) -> bool
    requires literals { AreLiteralsIn bank.now literals.now }
    requires place { place < length literals.now }
    ensures { IsTrue result ↔ IsRepeated (clause_in bank.now literals.now) place }
{
    for earlier in 0..place {
        if is_same(bank, literals[earlier], literals[place]) {
            return true;
        }
    }
    false
}

// A rule's right side under what makes its left side the term, if something does.
fn exchange(
    alloc: Global,
    bank: &mut Bank,
    left: &Term,
    right: &Term,
    id: TermId,
) -> Result<Option<TermId>, AllocError>
    requires { id.0 < length bank.old }
    ensures grows { Grows bank.old bank.new }
    ensures made { IfOk result (λ o. MatchOption o
        (exchanged (tree_of left.now) (tree_of right.now) (tree_at bank.old id.0) ≡ None)
        (λ k. IsExchangedTo bank.new (exchanged (tree_of left.now) (tree_of right.now) (tree_at bank.old id.0)) k.0)) }
{
    let mut bindings = Vec::new(alloc);
    if !match_onto(bank, left, id, &mut bindings)? {
        return Ok(None);
    }
    let made = put_with(alloc, bank, right, bindings.as_slice())?;
    Ok(Some(made))
}

// An atom with a rule put in at a path.
fn put_rule(
    alloc: Global,
    bank: &mut Bank,
    id: TermId,
    path: &[u64],
    left: &Term,
    right: &Term,
) -> Result<Rewritten, AllocError>
    requires { id.0 < length bank.old }
    ensures grows { Grows bank.old bank.new }
    ensures made { IfOk result (IsRewritten bank.new (tree_at bank.old id.0) path.now (tree_of left.now) (tree_of right.now)) }
{
    if path.len() == 0 {
        return Ok(Rewritten::Missing);
    }
    let Some(way) = way_along(alloc, bank, id, path)? else {
        return Ok(Rewritten::Missing);
    };
    let Some(new) = exchange(alloc, bank, left, right, way[path.len()])? else {
        return Ok(Rewritten::Differs);
    };
    let atom = put_along(alloc, bank, way.as_slice(), path, new)?;
    Ok(Rewritten::Atom(atom))
}

// What comes of it, and the atom at the place.
fn put_done(literals: &mut Vec<SharedLiteral>, place: u64, done: Rewritten) -> Put
    requires { place < length literals.old.items }
    ensures put { (bank : List Tree) (c : ClauseTree) (t : Tree) (path : List ℕ) (left right : Tree)
        → IsRewritten bank t path left right done → clause_in bank literals.old.items ≡ c → t ≡ atom_at c place
        → PutAs (λ c. false) c place path left right (clause_in bank literals.new.items) result }
    ensures within { (bank : List Tree) (t : Tree) (path : List ℕ) (left right : Tree)
        → IsRewritten bank t path left right done → AreLiteralsIn bank literals.old.items
        → AreLiteralsIn bank literals.new.items }
{
    match done {
        Rewritten::Missing => Put::Missing,
        Rewritten::Differs => Put::Differs,
        Rewritten::Atom(atom) => {
            put_atom(literals, place, atom);
            Put::Done
        }
    }
}

impl Underway for SharedClause {
    ghost clause = { λ c. c };

    ghost exceeds = { λ c. false };

    fn has_literal(&self, positive: bool, place: u64) -> bool
        ensures { result ≡ has_literal positive self.now place }
    {
        is_there(self.literals.as_slice(), positive, place)
    }

    fn is_equation_at(&self, place: u64) -> bool
        requires { IsTrue (has_place self.now place) }
        ensures { result ≡ is_equation (atom_at self.now place) }
    {
        sides(
            &self.bank,
            atom(&self.bank, self.literals.as_slice(), place),
        )
        .is_some()
    }

    fn has_same_sides_at(&self, place: u64) -> bool
        requires place { IsTrue (has_place self.now place) }
        requires equation { IsTrue (is_equation (atom_at self.now place)) }
        ensures { result ≡ same_tree (left_of (atom_at self.now place))
            (right_of (atom_at self.now place)) }
    {
        match sides(
            &self.bank,
            atom(&self.bank, self.literals.as_slice(), place),
        ) {
            None => false,
            Some((left, right)) => self.bank.same(left, right),
        }
    }

    fn is_repeated(&self, place: u64) -> bool
        requires { IsTrue (has_place self.now place) }
        ensures { IsTrue result ↔ IsRepeated self.now place }
    {
        is_repeated(&self.bank, self.literals.as_slice(), place as usize)
    }

    fn is_instance_at(&self, alloc: Global, place: u64, general: &Term) -> Result<bool, AllocError>
        requires { IsTrue (has_place self.now place) }
        ensures { IfOk result (λ b. b
            ≡ is_some (matched (tree_of general.now) (atom_at self.now place) [])) }
    {
        let mut bindings = Vec::new(alloc);
        let id = atom(&self.bank, self.literals.as_slice(), place);
        match_onto(&self.bank, general, id, &mut bindings)
    }

    fn turn_at(&mut self, place: u64) -> Result<(), AllocError>
        requires place { IsTrue (has_place self.old place) }
        requires equation { IsTrue (is_equation (atom_at self.old place)) }
        ensures { OnOk result (self.new ≡ with_atom self.old place
            (equation (right_of (atom_at self.old place)) (left_of (atom_at self.old place)))) }
    {
        let id = atom(&self.bank, self.literals.as_slice(), place);
        match sides(&self.bank, id) {
            None => Ok(()),
            Some((left, right)) => {
                let turned = self.bank.apply(EQ, &[right, left])?;
                put_atom(&mut self.literals, place, turned);
                Ok(())
            }
        }
    }

    fn take_out(&mut self, place: u64)
        requires { IsTrue (has_place self.old place) }
        ensures { self.new ≡ others (λ k. k == place) self.old }
    {
        let _literal = self.literals.remove(place as usize);
    }

    fn rewrite_at(
        &mut self,
        alloc: Global,
        place: u64,
        path: &[u64],
        left: &Term,
        right: &Term,
    ) -> Result<Put, AllocError>
        requires { IsTrue (has_place self.old place) }
        ensures { IfOk result (PutAs (λ c. false) self.old place path.now (tree_of left.now)
            (tree_of right.now) self.new) }
    {
        let id = atom(&self.bank, self.literals.as_slice(), place);
        let done = put_rule(alloc, &mut self.bank, id, path, left, right)?;
        Ok(put_done(&mut self.literals, place, done))
    }
}
