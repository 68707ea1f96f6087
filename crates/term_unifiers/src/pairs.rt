// Terms of several clauses with variables of their own each, that are to be made the same.
ghost use Rattle.std.specs.Prelude.{◌≡◌, ◌↔◌, ◌++◌, ◌∷◌, [], IfOk, OnOk, IsTrue, MatchOption, map};
ghost use Rattle.fol_core.specs.Substitutions.{Substitution, substitute};
ghost use Rattle.fol_core.specs.TermView.{tree_of};
ghost use Rattle.substitutions.specs.Apart.{interleaved};
ghost use Rattle.substitutions.specs.Bindings.{by_bindings};
ghost use Rattle.term_unifiers.specs.Entered.{IsEntered, left_terms, right_terms};
ghost use Rattle.term_unifiers.specs.Paired.{AreEven, HasOneMore, pairs_in};
ghost use Rattle.term_unifiers.specs.Renamed.{left_sides, right_sides};
ghost use Rattle.term_unifiers.specs.Solved.{HasNoUnifier};
ghost use Rattle.unifiers.specs.Unifier.{IsMostGeneral, Unifies};

use crate::apart::put_apart;
use crate::arena::{empty_arena, roomy_arena};
use crate::entered::Entered;
use crate::measuring::unmeasured;
use crate::paired::Paired;
use crate::room::enter;
use crate::solution::Solution;
use crate::unifying::{have_unifier, unifier_of};
use fol_core::Term;
use std::alloc::{AllocError, Global};
use std::marker::Model;

// How many nodes there is room for at first.
const FEW: usize = 32;

/// Pairs of terms of so many clauses, each renamed by its clause's place; contracts see how many clauses there are, and the pairs.
#[derive(Drop)]
pub struct Pairs {
    nodes: Paired,
    many: u64,
    alloc: Global,
}

impl Model for Pairs {
    ghost use Rattle.term_unifiers.specs.Renamed.{Equated, coded_equated};

    ghost Value = { Equated };

    ghost coded = { coded_equated };

    ghost use Rattle.term_unifiers.specs.Paired.{AreEven, pairs_in};

    ghost view = { λ a. record { many = a.many; pairs = pairs_in a.nodes } };

    ghost invariant = { λ a. AreEven a.nodes };
}

impl Pairs {
    /// None yet, of so many clauses.
    pub fn new(alloc: Global, many: u64) -> Result<Pairs, AllocError>
        ensures many { IfOk result (λ p. p.many ≡ many) }
        ensures pairs { IfOk result (λ p. p.pairs ≡ []) }
    {
        let nodes = roomy_pairs(alloc, FEW)?;
        Ok(Pairs { nodes, many, alloc })
    }

    /// One more, of two clauses; where there is no memory for it none is left.
    pub fn push(&mut self, s: &Term, i: u64, t: &Term, j: u64) -> Result<(), AllocError>
        ensures many { self.new.many ≡ self.old.many }
        ensures pairs { OnOk result (self.new.pairs ≡ self.old.pairs ++ (
          substitute (interleaved self.old.many i) (tree_of s.now),
          substitute (interleaved self.old.many j) (tree_of t.now),
        ) ∷ []) }
    {
        match put_pair(&mut self.nodes, self.many, s, i, t, j) {
            Ok(()) => Ok(()),
            Err(refused) => {
                self.nodes = no_pairs(self.alloc);
                Err(refused)
            }
        }
    }

    /// A most general unifier of all pairs, if they have one.
    pub fn unify(self) -> Result<Option<Solution>, AllocError>
        ensures { IfOk result (λ o. MatchOption o
            (HasNoUnifier (left_sides self.pairs) (right_sides self.pairs))
            (λ s. IsMostGeneral (by_bindings s) (left_sides self.pairs) (right_sides self.pairs))) }
    {
        let alloc = self.alloc;
        let nodes = entered(self)?;
        let measures = unmeasured(alloc, nodes.arena.nodes.len())?;
        Ok(unifier_of(nodes, measures))
    }

    /// Whether they have one: none is built, and nothing is measured.
    pub fn can_unify(self) -> Result<bool, AllocError>
        ensures { IfOk result (λ b. IsTrue b ↔ ((u : Substitution)
            × Unifies u (left_sides self.pairs) (right_sides self.pairs))) }
    {
        let nodes = entered(self)?;
        Ok(have_unifier(nodes))
    }
}

// No pairs, with room for so many nodes.
fn roomy_pairs(alloc: Global, room: usize) -> Result<Paired, AllocError>
    ensures even { IfOk result AreEven }
    ensures none { IfOk result (λ p. pairs_in p ≡ []) }
{
    let arena = roomy_arena(alloc, room)?;
    let lefts = Vec::with_capacity(alloc, room)?;
    let rights = Vec::with_capacity(alloc, room)?;
    Ok(Paired {
        arena,
        lefts,
        rights,
    })
}

// No pairs, without memory.
fn no_pairs(alloc: Global) -> Paired
    ensures even { AreEven result }
    ensures none { pairs_in result ≡ [] }
{
    Paired {
        arena: empty_arena(alloc),
        lefts: Vec::new(alloc),
        rights: Vec::new(alloc),
    }
}

// One pair more.
fn put_pair(
    nodes: &mut Paired,
    many: u64,
    s: &Term,
    i: u64,
    t: &Term,
    j: u64,
) -> Result<(), AllocError>
    requires { AreEven nodes.old }
    ensures { OnOk result (HasOneMore nodes.old nodes.new
        (substitute (interleaved many i) (tree_of s.now))
        (substitute (interleaved many j) (tree_of t.now))) }
{
    put_apart(&mut nodes.arena, s, many, i, &mut nodes.lefts)?;
    put_apart(&mut nodes.arena, t, many, j, &mut nodes.rights)?;
    Ok(())
}

// The nodes of all pairs, with room for making them the same.
fn entered(pairs: Pairs) -> Result<Entered, AllocError>
    ensures entered { IfOk result IsEntered }
    ensures left { IfOk result (λ e. left_terms e ≡ map (λ p. p.0) pairs.pairs) }
    ensures right { IfOk result (λ e. right_terms e ≡ map (λ p. p.1) pairs.pairs) }
{
    let Pairs {
        nodes,
        many: _many,
        alloc,
    } = pairs;
    let Paired {
        arena,
        lefts,
        rights,
    } = nodes;
    enter(alloc, arena, lefts, rights)
}
