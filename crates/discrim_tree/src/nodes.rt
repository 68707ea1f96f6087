// A tree of paths: nodes under their keys, the root under 0.
ghost use Rattle.std.specs.Prelude.{ℕ, ◌≡◌, ◌⊎◌, ◌+◌, ◌-◌, ◌<◌, List, [], Some, None, false, IfOk, IfSome, IsTrue, OnOk, OnErr};
ghost use Rattle.slab.specs.Slab.{get, slab_len, ContainsKey, Updates};
ghost use Rattle.fol_core.specs.TermView.{tree_of};
ghost use Rattle.discrim_tree.specs.Nodes.{child, Holds, IsIn, Reaches, Grows, IsEmptyAt, Ends, EndsFrom, KeepsOthers, KeepsPaths};
ghost use Rattle.discrim_tree.specs.Paths.{path_of};
ghost use Rattle.discrim_tree.specs.Trees.{link_of, AllUsed, AllUsedBut, ComesOnly, IsAlike, IsBranched, IsFresh, IsFull, IsOneMore, IsRenumbered, IsSame, IsTree, Leads};
ghost use Rattle.discrim_tree.specs.declared.edge.Edge.{Edge};
ghost use Rattle.discrim_tree.specs.Walks.{IsFound};

use crate::contents::Contents;
use crate::edge::{Edge, step_of};
use fol_core::Term;
use slab::Slab;
use std::alloc::{AllocError, Global};

/// A node: its numbers and branches, and the node above.
#[derive(Drop)]
pub struct Node {
    pub contents: Contents,
    pub link: usize,
}

/// Nodes.
#[derive(Drop)]
pub struct Nodes {
    pub items: Slab<Node>,
}

impl Node {
    // Neither numbers nor branches, below a node.
    fn new(above: usize) -> Node
        ensures numbers { result.contents.numbers ≡ [] }
        ensures branches { result.contents.branches ≡ [] }
        ensures link { result.link ≡ above }
    {
        Node {
            contents: Contents::new(),
            link: above,
        }
    }
}

impl Nodes {
    /// No nodes.
    pub fn new(alloc: Global) -> Nodes
        ensures none { (k : ℕ) → get result.items k ≡ None }
        ensures first { result.items.vacant_key ≡ 0 }
    {
        Nodes {
            items: Slab::new(alloc),
        }
    }

    /// Where a step leads from a node.
    #[inline(always)]
    pub fn child(&self, at: usize, edge: Edge) -> Option<usize>
        ensures { result ≡ child self.now.items at edge }
    {
        match self.items.get(at) {
            None => None,
            Some(node) => node.contents.target(edge),
        }
    }

    // An empty node more, below another one.
    fn fresh(&mut self, above: usize) -> Result<usize, AllocError>
        ensures fresh { IfOk result (λ k. IsFresh above k self.old.items self.new.items) }
        ensures err { OnErr result (IsSame self.old.items self.new.items) }
    {
        Ok(self.items.insert(Node::new(above))?)
    }

    // One more branch of a node; want of memory also where there is no such node.
    fn attach(&mut self, alloc: Global, at: usize, edge: Edge, k: usize) -> Result<(), AllocError>
        requires { child self.old.items at edge ≡ None }
        ensures others { OnOk result (IsBranched at edge self.old.items self.new.items) }
        ensures branch { OnOk result (child self.new.items at edge ≡ Some k) }
        ensures err { OnErr result (IsSame self.old.items self.new.items) }
    {
        match self.items.get_mut(at) {
            None => Err(AllocError),
            Some(node) => node.contents.put_branch(alloc, edge, k),
        }
    }

    // A branch is taken away.
    fn cut(&mut self, at: usize, edge: Edge)
        ensures others { ContainsKey self.old.items at → IsBranched at edge self.old.items self.new.items }
        ensures gone { child self.new.items at edge ≡ None }
        ensures as_many { slab_len self.new.items ≡ slab_len self.old.items }
    {
        if let Some(node) = self.items.get_mut(at) {
            node.contents.take_branch(edge);
        }
    }

    // A node is taken away.
    fn release(&mut self, k: usize)
        ensures updates { Updates self.old.items self.new.items k None }
        ensures next { ContainsKey self.old.items k → self.new.items.vacant_key ≡ k }
        ensures fewer { ContainsKey self.old.items k → slab_len self.new.items + 1 ≡ slab_len self.old.items }
    {
        let _node = self.items.try_remove(k);
    }

    // An empty node more, to which a branch leads.
    fn grown(&mut self, alloc: Global, at: usize, edge: Edge) -> Result<usize, AllocError>
        requires there { ContainsKey self.old.items at }
        requires none { child self.old.items at edge ≡ None }
        ensures more { IfOk result (λ k. IsOneMore at edge k self.old.items self.new.items) }
        ensures link { IfOk result (λ k. link_of self.new.items k ≡ Some at) }
        ensures err { OnErr result (IsSame self.old.items self.new.items) }
    {
        let k = self.fresh(at)?;
        match self.attach(alloc, at, edge, k) {
            Ok(()) => Ok(k),
            Err(error) => {
                self.release(k);
                Err(error)
            }
        }
    }

    // Where a step leads from a node, from now on; want of memory also where there is no such node.
    fn entered(&mut self, alloc: Global, at: usize, edge: Edge) -> Result<usize, AllocError>
        ensures alike { IsAlike self.old.items self.new.items }
        ensures grows { Grows self.old.items self.new.items }
        ensures branch { IfOk result (λ k. child self.new.items at edge ≡ Some k) }
        ensures used { IfOk result (λ k. AllUsedBut at self.old.items → AllUsedBut k self.new.items) }
        ensures err { OnErr result (AllUsedBut at self.old.items → AllUsedBut at self.new.items) }
    {
        if let Some(k) = self.child(at, edge) {
            return Ok(k);
        }
        if !self.items.contains(at) {
            return Err(AllocError);
        }
        self.grown(alloc, at, edge)
    }

    // Whether a node has neither numbers nor branches.
    fn is_empty_at(&self, at: usize) -> bool
        ensures yes { IsTrue result → IsEmptyAt self.now.items at }
        ensures no { result ≡ false → ContainsKey self.now.items at → IsFull self.now.items at }
    {
        match self.items.get(at) {
            None => false,
            Some(node) => node.contents.is_empty(),
        }
    }

    // The node above a node.
    fn above(&self, at: usize) -> Option<usize>
        ensures { result ≡ link_of self.now.items at }
    {
        match self.items.get(at) {
            None => None,
            Some(node) => Some(node.link),
        }
    }

    // The step that leads from a node to another.
    fn step_to(&self, at: usize, k: usize) -> Option<Edge>
        ensures step { IfSome result (λ edge. child self.now.items at edge ≡ Some k) }
        ensures none { result ≡ None → (edge : Edge) → child self.now.items at edge ≡ Some k → ⊥ }
    {
        match self.items.get(at) {
            None => None,
            Some(node) => node.contents.step_to(k),
        }
    }

    // An empty node is taken away, and the branch that leads to it; the node above it, where it went.
    fn prune(&mut self, at: usize) -> Option<usize>
        ensures alike { IsAlike self.old.items self.new.items }
        ensures fewer { IfSome result (λ above. slab_len self.new.items < slab_len self.old.items) }
        ensures pruned { IfSome result (λ above. IsTree self.old.items → AllUsedBut at self.old.items → AllUsedBut above self.new.items) }
        ensures stays { result ≡ None → IsTree self.old.items → AllUsedBut at self.old.items → AllUsed self.new.items }
    {
        if !self.is_empty_at(at) {
            return None;
        }
        let above = self.above(at)?;
        let edge = self.step_to(above, at)?;
        self.cut(above, edge);
        self.release(at);
        Some(above)
    }

    // From a node up empty nodes are taken away.
    fn prune_up(&mut self, end: usize)
        ensures alike { IsAlike self.old.items self.new.items }
        ensures used { IsTree self.old.items → AllUsedBut end self.old.items → AllUsed self.new.items }
    {
        let mut at = end;
        while let Some(above) = self.prune(at) {
            at = above;
        }
    }

    // The root is there from now on.
    fn plant(&mut self) -> Result<(), AllocError>
        ensures alike { IsAlike self.old.items self.new.items }
        ensures used { IsTree self.old.items → AllUsed self.old.items → AllUsed self.new.items }
    {
        if !self.items.contains(0) {
            let _root = self.fresh(usize::MAX)?;
        }
        Ok(())
    }

    // The end of a path, which is there from now on; for want of memory no node comes.
    fn made(&mut self, alloc: Global, path: &[Edge]) -> Result<usize, AllocError>
        ensures alike { IsAlike self.old.items self.new.items }
        ensures leads { IfOk result (λ end. Leads self.new.items 0 path.now end) }
        ensures used { IfOk result (λ end. AllUsed self.old.items → AllUsedBut end self.new.items) }
        ensures err { OnErr result (IsTree self.old.items → AllUsed self.old.items → AllUsed self.new.items) }
    {
        let mut at = 0;
        for i in 0..path.len() {
            match self.entered(alloc, at, path[i]) {
                Ok(k) => at = k,
                Err(error) => {
                    self.prune_up(at);
                    return Err(error);
                }
            }
        }
        Ok(at)
    }

    // One more number at a node; want of memory also where there is no such node.
    fn note(&mut self, alloc: Global, at: usize, number: u64) -> Result<(), AllocError>
        ensures others { OnOk result (IsRenumbered at self.old.items self.new.items) }
        ensures kept { OnOk result ((n : ℕ) → Holds self.old.items at n → Holds self.new.items at n) }
        ensures noted { OnOk result (Holds self.new.items at number) }
        ensures only { OnOk result ((n : ℕ) → Holds self.new.items at n → Holds self.old.items at n ⊎ (n ≡ number)) }
        ensures err { OnErr result (IsSame self.old.items self.new.items) }
    {
        match self.items.get_mut(at) {
            None => Err(AllocError),
            Some(node) => node.contents.put_number(alloc, number),
        }
    }

    /// A number at the end of a path; for want of memory nothing comes.
    pub fn put(&mut self, alloc: Global, path: &[Edge], number: u64) -> Result<(), AllocError>
        ensures kept { KeepsPaths self.old.items self.new.items }
        ensures reached { OnOk result (Reaches self.new.items 0 path.now number) }
        ensures only { OnOk result (IsTree self.old.items → ComesOnly path.now number self.old.items self.new.items) }
        ensures err { OnErr result (KeepsPaths self.new.items self.old.items) }
        ensures tree { IsTree self.old.items → IsTree self.new.items }
        ensures used { IsTree self.old.items → AllUsed self.old.items → AllUsed self.new.items }
    {
        self.plant()?;
        let end = self.made(alloc, path)?;
        match self.note(alloc, end, number) {
            Ok(()) => Ok(()),
            Err(error) => {
                self.prune_up(end);
                Err(error)
            }
        }
    }

    // A number is at a node no more.
    fn forget(&mut self, at: usize, number: u64)
        ensures others { KeepsOthers number self.old.items self.new.items }
        ensures fewer { Grows self.new.items self.old.items }
        ensures gone { Holds self.new.items at number → ⊥ }
        ensures branches { (a : ℕ) (edge : Edge) → child self.new.items a edge ≡ child self.old.items a edge }
        ensures tree { IsTree self.old.items → IsTree self.new.items }
        ensures used { AllUsed self.old.items → AllUsedBut at self.new.items }
    {
        if let Some(node) = self.items.get_mut(at) {
            node.contents.take_number(number);
        }
    }

    // The node to which a term's path leads from a node.
    fn end_of_term(&self, at: usize, t: &Term) -> Option<usize>
        ensures { EndsFrom self.now.items at (path_of (tree_of t.now)) result }
    {
        let mut end = self.child(at, step_of(t))?;
        match t {
            Term::Var(_) => Some(end),
            Term::Elem(_) => Some(end),
            Term::App(_, terms) => {
                for term in &terms.items {
                    end = self.end_of_term(end, term)?;
                }
                Some(end)
            }
        }
    }

    /// A number leaves a node; nodes without numbers and branches go.
    pub fn take_at(&mut self, at: usize, number: u64)
        ensures others { KeepsOthers number self.old.items self.new.items }
        ensures fewer { KeepsPaths self.new.items self.old.items }
        ensures gone { (path : List Edge) → Ends self.old.items path (Some at) → Reaches self.new.items 0 path number → ⊥ }
        ensures tree { IsTree self.old.items → IsTree self.new.items }
        ensures used { IsTree self.old.items → AllUsed self.old.items → AllUsed self.new.items }
    {
        self.forget(at, number);
        self.prune_up(at);
    }

    /// A number leaves the end of a term's path; nodes without numbers and branches go.
    pub fn take_term(&mut self, t: &Term, number: u64)
        ensures others { KeepsOthers number self.old.items self.new.items }
        ensures fewer { KeepsPaths self.new.items self.old.items }
        ensures gone { Reaches self.new.items 0 (path_of (tree_of t.now)) number → ⊥ }
        ensures tree { IsTree self.old.items → IsTree self.new.items }
        ensures used { IsTree self.old.items → AllUsed self.old.items → AllUsed self.new.items }
    {
        match self.end_of_term(0, t) {
            None => {}
            Some(end) => self.take_at(end, number),
        }
    }

    // The numbers at a node come to a list.
    fn add_numbers(&self, numbers: &mut Vec<u64>, at: usize) -> Result<(), AllocError>
        ensures kept { OnOk result ((n : ℕ) → IsIn n numbers.old.items → IsIn n numbers.new.items) }
        ensures added { OnOk result ((n : ℕ) → Holds self.now.items at n → IsIn n numbers.new.items) }
        ensures only { OnOk result ((n : ℕ) → IsIn n numbers.new.items → IsIn n numbers.old.items ⊎ Holds self.now.items at n) }
    {
        match self.items.get(at) {
            None => Ok(()),
            Some(node) => {
                numbers.extend_from_slice(node.contents.numbers())?;
                Ok(())
            }
        }
    }

    /// The numbers at the nodes of a walk; what stood in the list is gone.
    pub fn numbers_at(&self, numbers: &mut Vec<u64>, walk: &[usize]) -> Result<(), AllocError>
        ensures all { OnOk result ((n : ℕ) → IsFound self.now.items walk.now n → IsIn n numbers.new.items) }
        ensures only { OnOk result ((n : ℕ) → IsIn n numbers.new.items → IsFound self.now.items walk.now n) }
    {
        numbers.clear();
        for at in walk {
            self.add_numbers(numbers, *at)?;
        }
        Ok(())
    }

    /// How many nodes there are, but for the root.
    pub fn count(&self) -> u64
        ensures { result ≡ slab_len self.now.items - 1 }
    {
        self.items.len().saturating_sub(1) as u64
    }
}
