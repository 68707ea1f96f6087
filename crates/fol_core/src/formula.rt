// Formulas, with the printed names of their variables.
ghost use Rattle.std.specs.Prelude.{◌≡◌, IfOk};
ghost use Rattle.fol_core.specs.FormulaView.{fol_of};

use crate::name::Names;
use crate::sides::Sides;
use crate::symbols::Sym;
use crate::term::Terms;
use std::alloc::{AllocError, Global};
use std::marker::Model;

/// A formula's tree with the names of its variables: variable number n is printed as the name at place n.
#[derive(Drop)]
pub struct Formula {
    pub shape: Shape,
    pub names: Names,
}

/// The tree of a formula: `If` has its premise first, a quantifier the number of its variable.
#[cycle(shape)]
#[derive(Drop)]
pub enum Shape {
    True,
    False,
    Eq(Sides),
    Atom(Sym, Terms),
    Not(Sub),
    And(Sub, Sub),
    Or(Sub, Sub),
    If(Sub, Sub),
    Iff(Sub, Sub),
    All(u64, Sub),
    Exists(u64, Sub),
}

/// A part of a formula; contracts see its tree.
#[cycle(shape)]
#[derive(Drop)]
pub struct Sub {
    pub shape: Box<Shape>,
}

impl Model for Sub {
    ghost use Rattle.fol_core.specs.Fol.{Fol};
    ghost use Rattle.fol_core.specs.FolCodes.{coded_fol};

    ghost Value = { Fol };

    ghost coded = { coded_fol };

    ghost use Rattle.fol_core.specs.FormulaView.{fol_of};

    ghost view = { λ a. fol_of a.shape.value };

    ghost use Rattle.std.specs.Prelude.{◌+◌};
    ghost use Rattle.fol_core.specs.Fol.{folds};

    ghost size = { λ f. folds f };

    ghost use Rattle.fol_core.specs.FormulaFalls.{shape_falls};

    ghost size_decreases = { λ a h. shape_falls a.shape.value };
}

impl Formula {
    /// An equal formula.
    pub fn copy(&self, alloc: Global) -> Result<Formula, AllocError>
        ensures { IfOk result (λ copy. copy ≡ self.now) }
    {
        let shape = self.shape.copy(alloc)?;
        let names = self.names.copy(alloc)?;
        Ok(Formula { shape, names })
    }
}

impl Shape {
    /// An equal tree.
    #[cycle(shape_copy)]
    pub fn copy(&self, alloc: Global) -> Result<Shape, AllocError>
        ensures { IfOk result (λ copy. copy ≡ self.now) }
    {
        Ok(match self {
            Shape::True => Shape::True,
            Shape::False => Shape::False,
            Shape::Eq(sides) => Shape::Eq(sides.copy(alloc)?),
            Shape::Atom(r, terms) => Shape::Atom(*r, terms.copy(alloc)?),
            Shape::Not(f) => Shape::Not(f.copy(alloc)?),
            Shape::And(f, g) => Shape::And(f.copy(alloc)?, g.copy(alloc)?),
            Shape::Or(f, g) => Shape::Or(f.copy(alloc)?, g.copy(alloc)?),
            Shape::If(f, g) => Shape::If(f.copy(alloc)?, g.copy(alloc)?),
            Shape::Iff(f, g) => Shape::Iff(f.copy(alloc)?, g.copy(alloc)?),
            Shape::All(x, f) => Shape::All(*x, f.copy(alloc)?),
            Shape::Exists(x, f) => Shape::Exists(*x, f.copy(alloc)?),
        })
    }
}

impl Sub {
    /// An equal part.
    #[cycle(shape_copy)]
    pub fn copy(&self, alloc: Global) -> Result<Sub, AllocError>
        ensures { IfOk result (λ copy. copy ≡ self.now) }
    {
        let shape = self.shape.copy(alloc)?;
        Sub::new(alloc, shape)
    }

    /// The formula as a part of another.
    pub fn new(alloc: Global, shape: Shape) -> Result<Sub, AllocError>
        ensures { IfOk result (λ sub. sub ≡ fol_of shape) }
    {
        let shape = Box::new(alloc, shape)?;
        Ok(Sub { shape })
    }

    /// The formula.
    pub fn shape(&self) -> &Shape
        ensures { fol_of result.now ≡ self.now }
    {
        &self.shape
    }

    /// The formula by value.
    pub fn into_shape(self) -> Shape
        ensures { fol_of result ≡ self }
    {
        let Sub { shape } = self;
        Box::into_inner(shape)
    }
}
