// Negation normal forms.
ghost use Rattle.std.specs.Prelude.{◌≡◌, IfOk, map, true, false};
ghost use Rattle.fol_core.specs.Fol.{disjunction};
ghost use Rattle.fol_core.specs.FormulaView.{fol_of};
ghost use Rattle.fol_problem.specs.Stated.{said_of, all_said};
ghost use Rattle.clausify.specs.AskedForms.{asked_by, asked_in};
ghost use Rattle.clausify.specs.Forms.{nnf_of};
ghost use Rattle.clausify.specs.Fronts.{normal_of};
ghost use Rattle.clausify.specs.Input.{form, forms, is_taken};

use crate::asking::asked_variables;
use fol_core::{Shape, Sub, free_vars};
use fol_problem::{Input, Role};
use std::alloc::{AllocError, Global};

/// The negation normal form of a formula's closure, or of the closure's denial: whether it is the former, the free
/// variables, which are bound in front, and what stands behind them; and the variables that the formula asks for.
#[derive(Drop)]
pub struct Normal {
    pub plain: bool,
    pub variables: Vec<u64>,
    pub shape: Shape,
    pub asked: Vec<u64>,
}

/// The negation normal form of a formula where the sign is true, and of its denial where it is false.
#[cycle(normal)]
pub fn normal_form(alloc: Global, shape: &Shape, sign: bool) -> Result<Shape, AllocError>
    ensures { IfOk result (λ f. fol_of f ≡ nnf_of sign (fol_of shape.now)) }
{
    if sign {
        plain(alloc, shape)
    } else {
        denied(alloc, shape)
    }
}

// The negation normal form of a part.
#[cycle(normal)]
fn part(alloc: Global, sub: &Sub, sign: bool) -> Result<Sub, AllocError>
    ensures { IfOk result (λ f. f ≡ nnf_of sign sub.now) }
{
    let shape = normal_form(alloc, &sub.shape, sign)?;
    Sub::new(alloc, shape)
}

// "Or" as a part.
fn or(alloc: Global, f: Sub, g: Sub) -> Result<Sub, AllocError>
    ensures { IfOk result (λ e. e ≡ disjunction f g) }
{
    Sub::new(alloc, Shape::Or(f, g))
}

// The form of a formula as it stands.
#[cycle(normal)]
fn plain(alloc: Global, shape: &Shape) -> Result<Shape, AllocError>
    ensures { IfOk result (λ f. fol_of f ≡ nnf_of true (fol_of shape.now)) }
{
    Ok(match shape {
        Shape::True | Shape::False | Shape::Eq(_) | Shape::Atom(_, _) => shape.copy(alloc)?,
        Shape::Not(f) => normal_form(alloc, &f.shape, false)?,
        Shape::And(f, g) => Shape::And(part(alloc, f, true)?, part(alloc, g, true)?),
        Shape::Or(f, g) => Shape::Or(part(alloc, f, true)?, part(alloc, g, true)?),
        Shape::If(f, g) => Shape::Or(part(alloc, f, false)?, part(alloc, g, true)?),
        Shape::Iff(f, g) => Shape::And(
            or(alloc, part(alloc, f, false)?, part(alloc, g, true)?)?,
            or(alloc, part(alloc, g, false)?, part(alloc, f, true)?)?,
        ),
        Shape::All(x, f) => Shape::All(*x, part(alloc, f, true)?),
        Shape::Exists(x, f) => Shape::Exists(*x, part(alloc, f, true)?),
    })
}

// The form of a formula's denial.
#[cycle(normal)]
fn denied(alloc: Global, shape: &Shape) -> Result<Shape, AllocError>
    ensures { IfOk result (λ f. fol_of f ≡ nnf_of false (fol_of shape.now)) }
{
    Ok(match shape {
        Shape::True | Shape::False | Shape::Eq(_) | Shape::Atom(_, _) => {
            Shape::Not(Sub::new(alloc, shape.copy(alloc)?)?)
        }
        Shape::Not(f) => normal_form(alloc, &f.shape, true)?,
        Shape::And(f, g) => Shape::Or(part(alloc, f, false)?, part(alloc, g, false)?),
        Shape::Or(f, g) => Shape::And(part(alloc, f, false)?, part(alloc, g, false)?),
        Shape::If(f, g) => Shape::And(part(alloc, f, true)?, part(alloc, g, false)?),
        Shape::Iff(f, g) => Shape::And(
            or(alloc, part(alloc, f, true)?, part(alloc, g, true)?)?,
            or(alloc, part(alloc, f, false)?, part(alloc, g, false)?)?,
        ),
        Shape::All(x, f) => Shape::Exists(*x, part(alloc, f, false)?),
        Shape::Exists(x, f) => Shape::All(*x, part(alloc, f, false)?),
    })
}

// Whether a formula is taken as it stands; a goal's denial is taken.
fn is_taken(role: Role) -> bool
    ensures { result ≡ is_taken role }
{
    match role {
        Role::Assumption | Role::Usable | Role::Demodulator => true,
        Role::Goal => false,
    }
}

// That of a formula of a problem.
#[tactic(auto, using(crate::proofs::Closures::form_behind))]
fn normal_of(alloc: Global, input: &Input) -> Result<Normal, AllocError>
    ensures form { IfOk result (λ n. normal_of n ≡ form (said_of input.now)) }
    ensures asked { IfOk result (λ n. asked_by n ≡ asked_in input.now) }
{
    let plain = is_taken(input.role);
    let variables = free_vars(alloc, &input.formula)?;
    let shape = normal_form(alloc, &input.formula.shape, plain)?;
    let asked = asked_variables(alloc, &input.formula.shape, &input.answer)?;
    Ok(Normal {
        plain,
        variables,
        shape,
        asked,
    })
}

/// Those of the formulas of a problem.
#[tactic(auto, using(crate::proofs::Closures::normals_next, crate::proofs::Closures::normals_end, crate::proofs::Asks::asked_next, crate::proofs::Asks::asked_end))]
pub fn all_normal(alloc: Global, inputs: &[Input]) -> Result<Vec<Normal>, AllocError>
    ensures forms { IfOk result (λ ns. map normal_of ns.items ≡ forms (all_said inputs.now)) }
    ensures asked { IfOk result (λ ns. map asked_by ns.items ≡ map asked_in inputs.now) }
{
    let mut all = Vec::new(alloc);
    for input in inputs {
        all.push(normal_of(alloc, input)?)?;
    }
    Ok(all)
}
