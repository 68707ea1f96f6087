// Terms: variables, elements and applications.
ghost use Rattle.std.specs.Prelude.{◌≡◌, [], ◌∷◌, ◌++◌, length, IfOk, OnOk, OnErr};
ghost use Rattle.fol_core.specs.TermView.{tree_of, tree_list};

use crate::symbols::Sym;
use std::alloc::{AllocError, Global};
use std::marker::Model;

/// A term. `Var` holds the variable's number, `Elem` the element that a numeral names.
#[cycle(term)]
#[derive(Drop)]
pub enum Term {
    Var(u64),
    Elem(u32),
    App(Sym, Terms),
}

/// The arguments of an application; contracts see the list of their trees.
#[cycle(term)]
#[derive(Drop)]
pub struct Terms {
    pub items: Vec<Term>,
}

impl Model for Terms {
    ghost use Rattle.std.specs.Prelude.{List};
    ghost use Rattle.fol_core.specs.Tree.{Tree};
    ghost use Rattle.fol_core.specs.TreeCodes.{coded_trees};

    ghost Value = { List Tree };

    ghost coded = { coded_trees };

    ghost use Rattle.fol_core.specs.TermView.{tree_list};

    ghost view = { λ a. tree_list a.items.items };

    ghost use Rattle.fol_core.specs.Tree.{nodes_of_list};

    ghost size = { nodes_of_list };

    ghost use Rattle.fol_core.specs.TermFalls.{terms_fall};

    ghost size_decreases = { λ a h. terms_fall a.items.items };
}

impl Term {
    /// An equal term.
    pub fn copy(&self, alloc: Global) -> Result<Term, AllocError>
        ensures { IfOk result (λ copy. copy ≡ self.now) }
    {
        match self {
            Term::Var(x) => Ok(Term::Var(*x)),
            Term::Elem(k) => Ok(Term::Elem(*k)),
            Term::App(s, terms) => {
                let mut copies = Terms::with_capacity(alloc, terms.items.len())?;
                for term in &terms.items {
                    copies.push(term.copy(alloc)?)?;
                }
                Ok(Term::App(*s, copies))
            }
        }
    }
}

impl Terms {
    /// An equal list.
    pub fn copy(&self, alloc: Global) -> Result<Terms, AllocError>
        ensures { IfOk result (λ copy. copy ≡ self.now) }
    {
        let mut copies = Terms::with_capacity(alloc, self.items.len())?;
        for term in &self.items {
            copies.push(term.copy(alloc)?)?;
        }
        Ok(copies)
    }

    /// No arguments.
    pub fn new(alloc: Global) -> Terms
        ensures { result ≡ [] }
    {
        Terms {
            items: Vec::new(alloc),
        }
    }

    /// No arguments, in a place that has room for so many and no more.
    pub fn with_capacity(alloc: Global, capacity: usize) -> Result<Terms, AllocError>
        ensures { IfOk result (λ terms. terms ≡ []) }
    {
        Ok(Terms {
            items: Vec::with_capacity(alloc, capacity)?,
        })
    }

    /// One more argument, at the end.
    pub fn push(&mut self, term: Term) -> Result<(), AllocError>
        ensures ok { OnOk result (self.new ≡ self.old ++ tree_of term ∷ []) }
        ensures err { OnErr result (self.new ≡ self.old) }
    {
        self.items.push(term)?;
        Ok(())
    }

    /// The arguments.
    pub fn as_slice(&self) -> &[Term]
        ensures trees { tree_list result.now ≡ self.now }
        ensures len { length result.now ≡ length self.now }
    {
        self.items.as_slice()
    }

    /// How many there are.
    pub fn len(&self) -> usize
        ensures { result ≡ length self.now }
    {
        self.items.len()
    }

    /// The arguments by value.
    pub fn into_items(self) -> Vec<Term>
        ensures { tree_list result.items ≡ self }
    {
        let Terms { items } = self;
        items
    }
}
