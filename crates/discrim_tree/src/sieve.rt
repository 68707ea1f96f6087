// Numbers under terms, of which a retrieval leaves out none.
ghost use Rattle.std.specs.Prelude.{ℕ, OnOk, IfOk};
ghost use Rattle.std.specs.List.Sorted.{IsStrictlyIncreasing};
ghost use Rattle.fol_core.specs.Tree.{Tree};
ghost use Rattle.fol_core.specs.TermView.{tree_of};
ghost use Rattle.discrim_tree.specs.Sieves.{IsUnder, StayUnder, OthersStay, LeavesOutNone};

use crate::edge::path_of;
use crate::nodes::Nodes;
use crate::seeking::put_in_order;
use crate::sought::Sought;
use fol_core::Term;
use std::alloc::{AllocError, Global};

// For how many nodes a walk has room at first.
const ROOM: usize = 64;

/// Numbers under terms. Only the paths of the terms are kept, so a retrieval answers the numbers under terms that are sought
/// and may answer others: whoever asks tests what stands under them.
#[derive(Drop)]
pub struct Sieve {
    nodes: Nodes,
}

impl Sieve {
    /// No numbers.
    pub fn new(alloc: Global) -> Sieve
        ensures { (t : Tree) (n : ℕ) → IsUnder result t n → ⊥ }
    {
        Sieve {
            nodes: Nodes::new(alloc),
        }
    }

    /// A number under one more term.
    pub fn put(&mut self, alloc: Global, term: &Term, number: u64) -> Result<(), AllocError>
        ensures others { StayUnder self.old self.new }
        ensures put { OnOk result (IsUnder self.new (tree_of term.now) number) }
    {
        let path = path_of(alloc, term)?;
        self.nodes.put(alloc, &path, number)
    }

    /// A number is taken from under a term.
    pub fn take(&mut self, term: &Term, number: u64)
        ensures others { OthersStay number self.old self.new }
        ensures gone { IsUnder self.new (tree_of term.now) number → ⊥ }
    {
        self.nodes.take_term(term, number);
    }

    /// The numbers under terms that are sought with a term, and others, rising.
    pub fn found(&self, alloc: Global, sought: &Sought, t: &Term) -> Result<Vec<u64>, AllocError>
        ensures rise { IfOk result (λ ns. IsStrictlyIncreasing ns.items) }
        ensures found { IfOk result (λ ns. LeavesOutNone self.now sought.now
            (tree_of t.now) ns.items) }
    {
        let mut walk = Vec::with_capacity(alloc, ROOM)?;
        let mut numbers = Vec::new(alloc);
        let below = sought.fits_below();
        let above = sought.fits_above();
        self.nodes
            .fitting(&mut walk, &mut numbers, below, above, t)?;
        put_in_order(&mut numbers);
        Ok(numbers)
    }
}
