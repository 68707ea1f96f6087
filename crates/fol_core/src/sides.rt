// The two sides of an equation.
ghost use Rattle.std.specs.Prelude.{◌≡◌, IfOk};
ghost use Rattle.fol_core.specs.TermView.{tree_of};

use crate::term::Term;
use std::alloc::{AllocError, Global};
use std::marker::Model;

/// The left and the right side of an equation; contracts see the pair of their trees. They stand in a place of their own, so
/// that formulas of other forms are no larger for them.
#[derive(Drop)]
pub struct Sides {
    pair: Box<(Term, Term)>,
}

impl Model for Sides {
    ghost use Rattle.fol_core.specs.Tree.{Tree};
    ghost use Rattle.std.specs.Coded.{coded×};
    ghost use Rattle.fol_core.specs.TreeCodes.{coded_tree};

    ghost Value = { Tree × Tree };

    ghost coded = { coded× coded_tree coded_tree };

    ghost use Rattle.fol_core.specs.TermView.{tree_of};

    ghost view = { λ a. (tree_of a.pair.value.0, tree_of a.pair.value.1) };
}

impl Sides {
    /// The sides of an equation.
    pub fn new(alloc: Global, left: Term, right: Term) -> Result<Sides, AllocError>
        ensures { IfOk result (λ sides. sides ≡ (tree_of left, tree_of right)) }
    {
        let pair = Box::new(alloc, (left, right))?;
        Ok(Sides { pair })
    }

    /// The left side.
    pub fn left(&self) -> &Term
        ensures { tree_of result.now ≡ self.now.0 }
    {
        &self.pair.0
    }

    /// The right side.
    pub fn right(&self) -> &Term
        ensures { tree_of result.now ≡ self.now.1 }
    {
        &self.pair.1
    }

    /// Both by value.
    pub fn into_terms(self) -> (Term, Term)
        ensures left { tree_of result.0 ≡ self.0 }
        ensures right { tree_of result.1 ≡ self.1 }
    {
        let Sides { pair } = self;
        Box::into_inner(pair)
    }

    /// Equal sides.
    pub fn copy(&self, alloc: Global) -> Result<Sides, AllocError>
        ensures { IfOk result (λ copy. copy ≡ self.now) }
    {
        let left = self.left().copy(alloc)?;
        let right = self.right().copy(alloc)?;
        Sides::new(alloc, left, right)
    }
}
