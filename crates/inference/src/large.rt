// Conclusions that are too large for a search: the unifier beside what is left, and nothing of them built.
ghost use Rattle.std.specs.Prelude.{◌≡◌, true, IfOk, map};
ghost use Rattle.clause_limits.specs.Sizes.{is_too_large};
ghost use Rattle.inference.specs.Left.{change_tree, left_clause, left_tree};
ghost use Rattle.inference.specs.Measured.{clause_measured};
ghost use Rattle.inference.specs.Owned.{owned_change_tree, owned_tree};
ghost use Rattle.substitutions.specs.Bindings.{by_bindings};
ghost use Rattle.term_unifiers.specs.Renamed.{own_among};

use crate::left::{Change, Left};
use crate::measuring::measure_all;
use clause_limits::Measure;
use fol_core::{Literal, Term};
use std::alloc::{AllocError, Global};
use std::marker::Model;
use term_unifiers::Solution;

/// A conclusion that is too large to be built, of parents that are lent; contracts see the clause.
#[derive(Drop)]
pub struct LargeConclusion<'a> {
    pub(crate) unifier: Solution,
    pub(crate) many: u64,
    pub(crate) left: Vec<Left<'a>>,
}

impl<'a> Model for LargeConclusion<'a> {
    ghost use Rattle.std.specs.Prelude.{◌≡◌, true, map};
    ghost use Rattle.clause_limits.specs.Sizes.{is_too_large};
    ghost use Rattle.fol_core.specs.Literals.{ClauseTree};
    ghost use Rattle.fol_core.specs.LitCodes.{coded_clause};
    ghost use Rattle.inference.specs.Left.{left_clause, left_tree};
    ghost use Rattle.substitutions.specs.Bindings.{by_bindings};
    ghost use Rattle.term_unifiers.specs.Renamed.{own_among};

    ghost Value = { ClauseTree };

    ghost coded = { coded_clause };

    ghost view = { λ a. left_clause (own_among a.many (by_bindings a.unifier))
        (map left_tree a.left.items) };

    ghost invariant = { λ a. is_too_large (left_clause
        (own_among a.many (by_bindings a.unifier)) (map left_tree a.left.items)) ≡ true };
}

impl<'a> LargeConclusion<'a> {
    pub(crate) fn new(unifier: Solution, many: u64, left: Vec<Left<'a>>) -> LargeConclusion<'a>
        requires { is_too_large (left_clause (own_among many (by_bindings unifier))
            (map left_tree left.items)) ≡ true }
        ensures { result ≡ left_clause (own_among many (by_bindings unifier))
            (map left_tree left.entry.items) }
    {
        LargeConclusion {
            unifier,
            many,
            left,
        }
    }

    /// How large it is, each number up to the greatest one.
    pub fn measure(&self) -> Measure
        ensures { result ≡ clause_measured self.now }
    {
        measure_all(&self.unifier, self.many, self.left.as_slice())
    }

    /// The unifier, the number of parents, and what is left: for who builds the clause on shared terms.
    pub fn parts(&self) -> (&Solution, u64, &[Left<'a>])
        ensures { self.now ≡ left_clause
            (own_among result.1 (by_bindings result.0.now)) (map left_tree result.2.now) }
    {
        (&self.unifier, self.many, self.left.as_slice())
    }

    /// The same without its parents, as a search queues it.
    pub fn kept(self, alloc: Global) -> Result<LargeClause, AllocError>
        ensures { IfOk result (λ c. c ≡ self.entry) }
    {
        let owned = all_owned(alloc, self.left.as_slice())?;
        let LargeConclusion {
            unifier,
            many,
            left: _left,
        } = self;
        let unifier = Box::new(alloc, unifier)?;
        Ok(LargeClause {
            unifier,
            many,
            left: owned,
        })
    }
}

/// A path, and the parent and term of what is put there.
#[derive(Drop)]
pub struct OwnedChange {
    pub path: Vec<u64>,
    pub parent: u64,
    pub term: Term,
}

/// A literal that is left, and what is put into it.
#[derive(Drop)]
pub struct OwnedLeft {
    pub parent: u64,
    pub literal: Literal,
    pub change: Option<OwnedChange>,
}

// What is put into a literal, copied.
fn owned_change(alloc: Global, change: &Change) -> Result<OwnedChange, AllocError>
    ensures { IfOk result (λ o. owned_change_tree o ≡ change_tree change.now) }
{
    let path = Vec::from_slice(alloc, change.path)?;
    let term = change.term.copy(alloc)?;
    Ok(OwnedChange {
        path,
        parent: change.parent,
        term,
    })
}

// A literal that is left, copied.
fn owned_of(alloc: Global, left: &Left) -> Result<OwnedLeft, AllocError>
    ensures { IfOk result (λ o. owned_tree o ≡ left_tree left.now) }
{
    let literal = left.literal.copy(alloc)?;
    let change = match &left.change {
        None => None,
        Some(change) => Some(owned_change(alloc, change)?),
    };
    Ok(OwnedLeft {
        parent: left.parent,
        literal,
        change,
    })
}

// All that is left, copied.
fn all_owned(alloc: Global, left: &[Left]) -> Result<Vec<OwnedLeft>, AllocError>
    ensures { IfOk result (λ o. map owned_tree o.items ≡ map left_tree left.now) }
{
    let mut owned = Vec::with_capacity(alloc, left.len())?;
    for one in left {
        owned.push(owned_of(alloc, one)?)?;
    }
    Ok(owned)
}

/// A clause that is too large to be processed; contracts see the clause.
#[derive(Drop)]
pub struct LargeClause {
    // In a place of its own, so that what may be such a clause is small.
    unifier: Box<Solution>,
    many: u64,
    left: Vec<OwnedLeft>,
}

impl Model for LargeClause {
    ghost use Rattle.std.specs.Prelude.{◌≡◌, true, map};
    ghost use Rattle.clause_limits.specs.Sizes.{is_too_large};
    ghost use Rattle.fol_core.specs.Literals.{ClauseTree};
    ghost use Rattle.fol_core.specs.LitCodes.{coded_clause};
    ghost use Rattle.inference.specs.Left.{left_clause};
    ghost use Rattle.inference.specs.Owned.{owned_tree};
    ghost use Rattle.substitutions.specs.Bindings.{by_bindings};
    ghost use Rattle.term_unifiers.specs.Renamed.{own_among};

    ghost Value = { ClauseTree };

    ghost coded = { coded_clause };

    ghost view = { λ a. left_clause (own_among a.many (by_bindings a.unifier.value))
        (map owned_tree a.left.items) };

    ghost invariant = { λ a. is_too_large (left_clause
        (own_among a.many (by_bindings a.unifier.value)) (map owned_tree a.left.items)) ≡ true };
}

impl LargeClause {
    /// It is too large.
    pub fn exceeds_limits(&self)
        ensures { is_too_large self.now ≡ true }
    {
        let _ = &self.many;
    }
}
