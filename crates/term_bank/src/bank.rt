// A bank of terms.
ghost use Rattle.std.specs.Prelude.{◌≡◌, ℕ, ◌<◌, ◌↔◌, [], IfOk, IsTrue, length, map};
ghost use Rattle.fol_core.specs.Sizes.{size_of, depth_of, saturated};
ghost use Rattle.fol_core.specs.Tree.{app, trees_of};
ghost use Rattle.fol_core.specs.TermView.{tree_of};
ghost use Rattle.term_bank.specs.Bank.{tree_at, IsAt, Grows, AreOnce};
ghost use Rattle.term_bank.specs.Cells.{tree_in, ArgumentsAreIn, IsMeasured, AreNumbersBelow, numbers, IsStored};
ghost use Rattle.term_bank.specs.Nodes.{node_tree, NodeIsBelow};

use crate::cell::{Measures, TermCell};
use crate::id::{Node, TermId};
use fol_core::{Sym, Term, Terms};
use indexmap::IndexMap;
use smallvec::SmallVec;
use std::alloc::{AllocError, Global};
use std::marker::Model;

/// Terms by number; contracts see the list of them. A term that was put in stays under its number.
#[derive(Drop)]
pub struct Bank {
    // By number. Nothing is taken out, so the numbers go from 0 on without a gap.
    cells: IndexMap<TermCell, Measures>,
}

impl Model for Bank {
    ghost use Rattle.std.specs.Prelude.{List, []};
    ghost use Rattle.fol_core.specs.Tree.{Tree};
    ghost use Rattle.fol_core.specs.TreeCodes.{coded_trees};
    ghost use Rattle.term_bank.specs.Cells.{trees_built, AreCells};

    ghost Value = { List Tree };

    ghost coded = { coded_trees };

    ghost view = { λ a. trees_built [] a.cells.entries };

    ghost invariant = { λ a. AreCells [] a.cells.entries };
}

impl Bank {
    /// No terms.
    pub fn new(alloc: Global) -> Bank
        ensures { result ≡ [] }
    {
        Bank {
            cells: IndexMap::new(alloc),
        }
    }

    /// How many terms there are; no term has two numbers.
    pub fn len(&self) -> usize
        ensures len { result ≡ length self.now }
        ensures once { AreOnce self.now }
    {
        self.cells.len()
    }

    /// Whether two numbers are those of one term.
    pub fn same(&self, s: TermId, t: TermId) -> bool
        requires s { s.0 < length self.now }
        requires t { t.0 < length self.now }
        ensures { IsTrue result ↔ (tree_at self.now s.0 ≡ tree_at self.now t.0) }
    {
        let _ = &self.cells;
        s == t
    }

    /// The term's head and the numbers of its arguments, which are below its own.
    pub fn node(&self, id: TermId) -> Node<'_>
        requires { id.0 < length self.now }
        ensures tree { node_tree self.now result ≡ tree_at self.now id.0 }
        ensures below { NodeIsBelow id.0 result }
    {
        match self.cell(id).0 {
            TermCell::Variable(x) => Node::Var(*x),
            TermCell::Element(k) => Node::Elem(*k),
            TermCell::Application(f, arguments) => Node::App(Sym(*f), arguments.as_slice()),
        }
    }

    /// How many symbols and variables the term has, each as often as it stands there, up to the greatest number.
    pub fn size(&self, id: TermId) -> u64
        requires { id.0 < length self.now }
        ensures { result ≡ saturated (size_of (tree_at self.now id.0)) }
    {
        self.cell(id).1.size
    }

    /// How many levels the term has.
    pub fn depth(&self, id: TermId) -> u64
        requires { id.0 < length self.now }
        ensures { result ≡ depth_of (tree_at self.now id.0) }
    {
        self.cell(id).1.depth
    }

    /// The number of the term; the bank may have grown, whatever is answered.
    pub fn put(&mut self, term: &Term) -> Result<TermId, AllocError>
        ensures grows { Grows self.old self.new }
        ensures term { IfOk result (λ id. IsAt self.new id.0 (tree_of term.now)) }
    {
        match term {
            Term::Var(x) => self.enter(TermCell::Variable(*x)),
            Term::Elem(k) => self.enter(TermCell::Element(*k)),
            Term::App(f, terms) => {
                let mut arguments = SmallVec::new(*self.cells.allocator());
                for term in &terms.items {
                    arguments.push(self.put(term)?)?;
                }
                self.enter(TermCell::Application(f.0, arguments))
            }
        }
    }

    /// The number of the application of a symbol to terms of the bank.
    pub fn apply(&mut self, f: Sym, arguments: &[TermId]) -> Result<TermId, AllocError>
        requires { AreNumbersBelow (length self.old) (numbers arguments.now) }
        ensures grows { Grows self.old self.new }
        ensures term { IfOk result (λ id. IsAt self.new id.0
            (app f.0 (trees_of (map (λ k. tree_at self.old k.0) arguments.now)))) }
    {
        let arguments = SmallVec::from_slice(*self.cells.allocator(), arguments)?;
        self.enter(TermCell::Application(f.0, arguments))
    }

    /// The tree of the term.
    pub fn plain(&self, id: TermId) -> Result<Term, AllocError>
        requires { id.0 < length self.now }
        ensures { IfOk result (λ term. tree_of term ≡ tree_at self.now id.0) }
    {
        match self.node(id) {
            Node::Var(x) => Ok(Term::Var(x)),
            Node::Elem(k) => Ok(Term::Elem(k)),
            Node::App(f, arguments) => {
                let mut terms = Terms::new(*self.cells.allocator());
                for argument in arguments {
                    terms.push(self.plain(*argument)?)?;
                }
                Ok(Term::App(f, terms))
            }
        }
    }

    // The cell of a number.
    fn cell(&self, id: TermId) -> (&TermCell, &Measures)
        requires { id.0 < length self.now }
        ensures { IsStored self.now id.0 (result.0.now, result.1.now) }
    {
        self.cells.get_index(id.0 as usize).unwrap()
    }

    // How great the term of a cell is; want of memory where its levels can't be counted.
    fn measures(&self, cell: &TermCell) -> Result<Measures, AllocError>
        requires { ArgumentsAreIn (length self.now) cell.now }
        ensures { IfOk result (IsMeasured (tree_in self.now cell.now)) }
    {
        match cell {
            TermCell::Variable(_) => Ok(Measures { size: 1, depth: 1 }),
            TermCell::Element(_) => Ok(Measures { size: 1, depth: 1 }),
            TermCell::Application(f, arguments) => self.application(*f, arguments.as_slice()),
        }
    }

    // The same for a symbol with arguments.
    fn application(&self, f: u64, arguments: &[TermId]) -> Result<Measures, AllocError>
        requires { AreNumbersBelow (length self.now) (numbers arguments.now) }
        ensures { IfOk result (IsMeasured (app f
            (trees_of (map (λ k. tree_at self.now k.0) arguments.now)))) }
    {
        let mut size = 1u64;
        let mut depth = 0;
        for argument in arguments {
            size = size.saturating_add(self.size(*argument));
            depth = self.depth(*argument).max(depth);
        }
        match depth.checked_add(1) {
            Some(depth) => Ok(Measures { size, depth }),
            None => Err(AllocError),
        }
    }

    // The number of the term that a cell is.
    fn enter(&mut self, cell: TermCell) -> Result<TermId, AllocError>
        requires { ArgumentsAreIn (length self.old) cell }
        ensures grows { Grows self.old self.new }
        ensures term { IfOk result (λ id. IsAt self.new id.0 (tree_in self.old cell)) }
    {
        match self.cells.get_index_of(&cell) {
            Some(place) => Ok(TermId(place as u64)),
            None => self.append(cell),
        }
    }

    // The number of a new term.
    fn append(&mut self, cell: TermCell) -> Result<TermId, AllocError>
        requires arguments { ArgumentsAreIn (length self.old) cell }
        requires new { (n : ℕ) → n < length self.old → tree_at self.old n ≡ tree_in self.old cell
            → ⊥ }
        ensures grows { Grows self.old self.new }
        ensures term { IfOk result (λ id. IsAt self.new id.0 (tree_in self.old cell)) }
    {
        let place = self.cells.len();
        let measures = self.measures(&cell)?;
        self.cells.insert(cell, measures)?;
        Ok(TermId(place as u64))
    }
}
