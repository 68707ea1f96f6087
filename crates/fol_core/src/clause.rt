// Clauses, and what Skolem symbols are to pick.
ghost use Rattle.std.specs.Prelude.{◌≡◌, [], ◌∷◌, ◌++◌, length, map, IfOk, OnOk, OnErr};
ghost use Rattle.fol_core.specs.ClauseView.{literal_of};

use crate::formula::Shape;
use crate::symbols::Sym;
use crate::term::{Term, Terms};
use std::alloc::{AllocError, Global};
use std::marker::Model;

/// Equality, where it heads the atom of an equation: it stands in no table of symbols.
pub const EQ: Sym = Sym(18_446_744_073_709_551_615);

/// An atom, or its denial. An equation is `EQ` with its two sides.
#[derive(Drop)]
pub struct Literal {
    pub positive: bool,
    pub atom: Term,
}

/// The literals of a clause; contracts see the list.
#[derive(Drop)]
pub struct Clause {
    pub literals: Vec<Literal>,
}

impl Model for Clause {
    ghost use Rattle.std.specs.Prelude.{List, map};
    ghost use Rattle.fol_core.specs.Literals.{Lit};
    ghost use Rattle.fol_core.specs.LitCodes.{coded_clause};

    ghost Value = { List Lit };

    ghost coded = { coded_clause };

    ghost use Rattle.fol_core.specs.ClauseView.{literal_of};

    ghost view = { λ a. map literal_of a.literals.items };
}

/// A Skolem symbol: applied to `variables` it stands for `variable` in the body, which is `body` under an existential quantifier
/// for each of the variables of `bound`, the first outermost.
#[derive(Drop)]
pub struct Entry {
    pub symbol: Sym,
    pub variables: Vec<u64>,
    pub variable: u64,
    pub bound: Vec<u64>,
    pub body: Shape,
}

/// The clauses of a problem, each with the number of its formula, counted from 1; by their places, the terms of the answer
/// that each has, none where its goal asks for nothing; the Skolem symbols; the symbols of the formulas by number, and the
/// greatest numeral in them.
#[derive(Drop)]
pub struct Clauses {
    pub clauses: Vec<(u64, Clause)>,
    pub answers: Vec<Terms>,
    pub skolem: Vec<Entry>,
    pub symbols: Vec<Sym>,
    pub numeral: Option<u32>,
}

impl Literal {
    /// An equal literal.
    pub fn copy(&self, alloc: Global) -> Result<Literal, AllocError>
        ensures { IfOk result (λ copy. literal_of copy ≡ literal_of self.now) }
    {
        let atom = self.atom.copy(alloc)?;
        Ok(Literal {
            positive: self.positive,
            atom,
        })
    }
}

impl Clause {
    /// The clause without literals.
    pub fn new(alloc: Global) -> Clause
        ensures { result ≡ [] }
    {
        Clause {
            literals: Vec::new(alloc),
        }
    }

    /// One more literal, at the end.
    pub fn push(&mut self, literal: Literal) -> Result<(), AllocError>
        ensures ok { OnOk result (self.new ≡ self.old ++ literal_of literal ∷ []) }
        ensures err { OnErr result (self.new ≡ self.old) }
    {
        self.literals.push(literal)?;
        Ok(())
    }

    /// An equal clause.
    pub fn copy(&self, alloc: Global) -> Result<Clause, AllocError>
        ensures { IfOk result (λ copy. copy ≡ self.now) }
    {
        let mut copy = Clause::with_capacity(alloc, self.literals.len())?;
        copy.append(alloc, self)?;
        Ok(copy)
    }

    /// No literals, in a place that has room for so many and no more.
    pub fn with_capacity(alloc: Global, capacity: usize) -> Result<Clause, AllocError>
        ensures { IfOk result (λ clause. clause ≡ []) }
    {
        Ok(Clause {
            literals: Vec::with_capacity(alloc, capacity)?,
        })
    }

    /// The literals of another clause by value, at the end.
    pub fn extend(&mut self, other: Clause) -> Result<(), AllocError>
        ensures { OnOk result (self.new ≡ self.old ++ other) }
    {
        for literal in other.literals {
            self.push(literal)?;
        }
        Ok(())
    }

    /// Copies of the literals of another clause, at the end.
    pub fn append(&mut self, alloc: Global, other: &Clause) -> Result<(), AllocError>
        ensures { OnOk result (self.new ≡ self.old ++ other.now) }
    {
        for literal in &other.literals {
            self.push(literal.copy(alloc)?)?;
        }
        Ok(())
    }

    /// The literals.
    pub fn as_slice(&self) -> &[Literal]
        ensures literals { map literal_of result.now ≡ self.now }
        ensures len { length result.now ≡ length self.now }
    {
        self.literals.as_slice()
    }

    /// How many there are.
    pub fn len(&self) -> usize
        ensures { result ≡ length self.now }
    {
        self.literals.len()
    }
}
