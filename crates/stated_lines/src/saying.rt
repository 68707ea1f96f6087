// Formulas of the problem with what they ask for.
ghost use Rattle.std.specs.Prelude.{◌≡◌, ◌↔◌, IsTrue, ℕ};
ghost use Rattle.std.specs.Option.{option_map};
ghost use Rattle.answered_lines.specs.Lines.{IsSaidWith, IsSome, IsStatedWith, asked_at, counted, HasItems};
ghost use Rattle.derivation.specs.Lines.{is_goal};
ghost use Rattle.derivation.specs.View.{content_of};
ghost use Rattle.fol_core.specs.FormulaView.{fol_of};
ghost use Rattle.stated_lines.specs.Held.{AsksFor, asked_input, asked_inputs};

use crate::sameness::same_shape;
use derivation::{Content, Line};
use fol_core::Shape;
use fol_problem::{Input, Role};

fn is_goal(role: Role) -> bool
    ensures { result ≡ is_goal role }
{
    match role {
        Role::Assumption => false,
        Role::Usable => false,
        Role::Demodulator => false,
        Role::Goal => true,
    }
}

// Whether places are those that are asked for, one at least.
#[tactic(auto, using(crate::proofs::SaySteps::asked_none, crate::proofs::SaySteps::asked_places))]
fn are_asked(own: &[u64], asks: &[u64]) -> bool
    ensures { IsTrue result ↔ ((own.now ≡ asks.now) × HasItems asks.now) }
{
    if asks.is_empty() {
        return false;
    }
    own == asks
}

// Whether an input asks for what the attribute of a line does, if that counts.
fn asks_for(input: &Input, asks: Option<&[u64]>) -> bool
    ensures { IsTrue result ↔ AsksFor (option_map (λ s. s.now) asks.entry) input.now.answer.items }
{
    match asks {
        None => true,
        Some(places) => are_asked(&input.answer, places),
    }
}

/// What the attribute of a line asks for, if that counts.
pub fn counted(goal: bool, line: &Line) -> Option<&[u64]>
    ensures { option_map (λ s. s.now) result
        ≡ counted goal (option_map (λ places. places.items) line.now.notes.asks) }
{
    if !goal {
        return None;
    }
    match &line.notes.asks {
        None => None,
        Some(places) => Some(places.as_slice()),
    }
}

/// Whether an input is the formula, as a goal that asks for this or as another one.
#[tactic(auto, using(crate::proofs::SaySteps::said_same, crate::proofs::SaySteps::said_other, crate::proofs::SaySteps::said_differs, crate::proofs::SaySteps::said_asks))]
pub fn is_said(input: &Input, goal: bool, shape: &Shape, asks: Option<&[u64]>) -> bool
    ensures { IsTrue result ↔ IsSaidWith goal (fol_of shape.now) (option_map (λ s. s.now) asks.entry)
        (asked_input input.now) }
{
    if is_goal(input.role) != goal {
        return false;
    }
    if !asks_for(input, asks) {
        return false;
    }
    if !same_shape(&input.formula.shape, shape) {
        return false;
    }
    true
}

/// The input of a number, counted from 1.
#[tactic(auto, using(crate::proofs::SaySteps::input_there, crate::proofs::SaySteps::input_zero, crate::proofs::SaySteps::input_past))]
pub fn input_of(inputs: &[Input], number: u64) -> Option<&Input>
    ensures { option_map (λ i. asked_input i.now) result ≡ asked_at (asked_inputs inputs.now) number }
{
    if number == 0 {
        return None;
    }
    if number > inputs.len() as u64 {
        return None;
    }
    Some(&inputs[(number - 1) as usize])
}

// Whether the input of a number is.
fn is_at(inputs: &[Input], number: u64, goal: bool, shape: &Shape, asks: Option<&[u64]>) -> bool
    ensures { IsTrue result → IsSome (IsSaidWith goal (fol_of shape.now)
        (option_map (λ s. s.now) asks.entry)) (asked_inputs inputs.now) }
{
    match input_of(inputs, number) {
        Some(input) => is_said(input, goal, shape, asks),
        None => false,
    }
}

// Whether one of the inputs is.
#[tactic(auto, using(crate::proofs::SaySteps::among_here, crate::proofs::SaySteps::among_behind, crate::proofs::SaySteps::among_end, crate::proofs::SaySteps::among_start))]
fn is_among(inputs: &[Input], goal: bool, shape: &Shape, asks: Option<&[u64]>) -> bool
    ensures { IsTrue result ↔ IsSome (IsSaidWith goal (fol_of shape.now)
        (option_map (λ s. s.now) asks.entry)) (asked_inputs inputs.now) }
{
    for input in inputs {
        if is_said(input, goal, shape, asks) {
            return true;
        }
    }
    false
}

/// Whether a line's content is a formula of the problem, as a goal that asks for what the line says or as another one. The one
/// of the line's number is looked at first.
pub fn is_stated(inputs: &[Input], goal: bool, line: &Line) -> bool
    ensures { IsTrue result ↔ IsStatedWith goal (content_of line.now.content)
        (option_map (λ places. places.items) line.now.notes.asks) (asked_inputs inputs.now) }
{
    match &line.content {
        Content::Formula(formula, _) => {
            let asks = counted(goal, line);
            is_at(inputs, line.number, goal, &formula.shape, asks)
                || is_among(inputs, goal, &formula.shape, asks)
        }
        Content::Clause(_) => false,
    }
}
