// Bindings of variables.
ghost use Rattle.std.specs.Prelude.{◌≡◌, ◌≤◌, ℕ, [], IsTrue, OnOk, OnErr, IfOk, length, take};
ghost use Rattle.fol_core.specs.Substitutions.{substitute};
ghost use Rattle.substitutions.specs.Occurring.{has_variable};
ghost use Rattle.term_bank.specs.Bank.{IsAt, Grows};
ghost use Rattle.unify.specs.Bindings.{AreBindings, IsSpot, bound_variables, resolved};
ghost use Rattle.unify.specs.Rooms.{HasBindingRoom, RoomStays};
ghost use Rattle.unify.specs.Spots.{spot_tree, spot, In};
ghost use Rattle.unify.specs.Unified.{IsUnited, IsMatched};

use crate::ending::unite_or_undo;
use crate::instancing::built;
use crate::reaching::reach;
use crate::spot::{Spot, Workspace};
use std::alloc::{AllocError, Global};
use std::marker::Model;
use term_bank::{Bank, TermId};

/// Terms that are bound to variables, the oldest first, and room for more. Contracts see the list,
/// and for how many variables and nodes there is room.
#[derive(Drop)]
pub struct Bindings {
    work: Workspace,
    nodes: usize,
}

impl Model for Bindings {
    ghost use Rattle.unify.specs.Value.{BindingsValue};

    ghost Value = { BindingsValue };

    ghost use Rattle.std.specs.Prelude.{vec_capacity};
    ghost use Rattle.unify.specs.Inside.{HasCapacity};

    ghost view = { λ a. record {
      bound = a.work.bound.items;
      vars = vec_capacity a.work.bound;
      nodes = a.nodes;
    } };

    ghost invariant = { HasCapacity };
}

impl Bindings {
    /// Nothing is bound, and there is no room.
    pub fn new(alloc: Global) -> Bindings
        ensures { result.bound ≡ [] }
    {
        Bindings {
            work: Workspace {
                bound: Vec::new(alloc),
                links: Vec::new(alloc),
                reached: Vec::new(alloc),
                kept: Vec::new(alloc),
            },
            nodes: 0,
        }
    }

    /// Makes room for so many variables, those that are bound among them, and for so many nodes in
    /// contexts.
    pub fn reserve(&mut self, vars: u64, nodes: u64) -> Result<(), AllocError>
        ensures bound { self.new.bound ≡ self.old.bound }
        ensures vars { OnOk result (vars ≤ self.new.vars) }
        ensures nodes { OnOk result (nodes ≤ self.new.nodes) }
        ensures kept { (self.old.vars ≤ self.new.vars) × (self.old.nodes ≤ self.new.nodes) }
    {
        let nodes = nodes as usize;
        let vars = vars as usize;
        self.work.links.clear();
        self.work.reached.clear();
        self.work.kept.clear();
        let bound = self.work.bound.len();
        if bound < vars {
            self.work.bound.reserve(vars - bound)?;
        }
        self.work.links.reserve(nodes)?;
        self.work.reached.reserve(nodes)?;
        self.work.kept.reserve(nodes)?;
        if self.nodes < nodes {
            self.nodes = nodes;
        }
        Ok(())
    }

    /// How many variables are bound.
    pub fn mark(&self) -> u64
        ensures { result ≡ length self.now.bound }
    {
        self.work.bound.len() as u64
    }

    /// Forgets all but so many bindings, the oldest.
    pub fn undo(&mut self, mark: u64)
        requires { mark ≤ length self.old.bound }
        ensures bound { self.new.bound ≡ take mark self.old.bound }
        ensures room { (self.new.vars ≡ self.old.vars) × (self.new.nodes ≡ self.old.nodes) }
    {
        self.work.bound.truncate(mark as usize);
    }

    /// Whether some substitution meets the bindings and makes the terms, in their contexts, the same;
    /// then the new bindings say what is common to all that do. The room (`reserve`) has to be for
    /// all variables and nodes, in their contexts, that take part: the terms' own, those that
    /// bindings lead to, and the variables that are bound. The new bindings ask for no more.
    pub fn unify(&mut self, bank: &Bank, s: TermId, i: u64, t: TermId, j: u64) -> bool
        requires bindings { AreBindings bank.now self.old.bound }
        requires room { HasBindingRoom bank.now self.old.bound self.old.vars self.old.nodes
            (spot s i)
            (spot t j) }
        ensures united { IsUnited bank.now self.old.bound self.new.bound
            (spot_tree bank.now (spot s i)) (spot_tree bank.now (spot t j)) result }
        ensures stays { RoomStays bank.now self.old.bound self.new.bound self.old.vars
            self.old.nodes (spot s i) (spot t j) }
        ensures room { (self.new.vars ≡ self.old.vars) × (self.new.nodes ≡ self.old.nodes) }
    {
        self.work.kept.clear();
        let left = Spot {
            term: s,
            context: i,
        };
        let right = Spot {
            term: t,
            context: j,
        };
        unite_or_undo(bank, &mut self.work, left, right)
    }

    /// Whether some substitution meets the bindings, leaves the second term alone, and makes it of
    /// the first one; then the new bindings say what is common to all that do. No variable of the
    /// second term may be bound. The room is as for `unify`.
    pub fn match_onto(
        &mut self,
        bank: &Bank,
        general: TermId,
        i: u64,
        special: TermId,
        j: u64,
    ) -> bool
        requires bindings { AreBindings bank.now self.old.bound }
        requires room { HasBindingRoom bank.now self.old.bound self.old.vars self.old.nodes
            (spot general i) (spot special j) }
        requires unbound { (x : ℕ) → IsTrue (has_variable x (spot_tree bank.now (spot special j)))
            → ¬ In x (bound_variables self.old.bound) }
        ensures matched { IsMatched bank.now self.old.bound self.new.bound
            (spot_tree bank.now (spot general i)) (spot_tree bank.now (spot special j)) result }
        ensures stays { RoomStays bank.now self.old.bound self.new.bound self.old.vars
            self.old.nodes (spot general i) (spot special j) }
        ensures room { (self.new.vars ≡ self.old.vars) × (self.new.nodes ≡ self.old.nodes) }
    {
        let left = Spot {
            term: general,
            context: i,
        };
        let right = Spot {
            term: special,
            context: j,
        };
        reach(bank, &self.work.bound, &mut self.work.kept, right);
        unite_or_undo(bank, &mut self.work, left, right)
    }

    /// The number of what a term, in its context, becomes with what is bound to its variables, and to
    /// the variables of that in turn.
    pub fn instance(&self, bank: &mut Bank, t: TermId, i: u64) -> Result<TermId, AllocError>
        requires bindings { AreBindings bank.old self.now.bound }
        requires spot { IsSpot bank.old (spot t i) }
        ensures grows { Grows bank.old bank.new }
        ensures term { IfOk result (λ id. IsAt bank.new id.0
            (substitute (resolved bank.old self.now.bound) (spot_tree bank.old (spot t i)))) }
    {
        let alloc = *self.work.bound.allocator();
        let root = Spot {
            term: t,
            context: i,
        };
        built(alloc, bank, &self.work.bound, root)
    }
}
