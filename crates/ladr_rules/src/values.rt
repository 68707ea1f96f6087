// What patterns weigh: whole numbers, `+`, `*`, and `weight(x)` for a variable of the pattern.
ghost use Rattle.std.specs.Prelude.{◌≡◌, ◌||◌, ◌&&◌, codes, IfOk};
ghost use Rattle.std.specs.Str.{bytes_eq};
ghost use Rattle.fol_core.specs.RawView.{raw_of};
ghost use Rattle.fol_core.specs.WeightView.{weight_of};
ghost use Rattle.fol_core.specs.NamesOnce.{is_in};
ghost use Rattle.ladr_rules.specs.KeptNames.{names_of};
ghost use Rattle.ladr_rules.specs.Rules.{single_value, is_value, single_weight, combined, weight_of_value};

use crate::attributes::limited_number;
use crate::bounds::MOST_WEIGHT;
use fol_core::{Raw, Weight, WeightSub};
use indexmap::IndexSet;
use ladr_formulas::Variables;
use std::alloc::{AllocError, Global};

#[tactic(auto, using(crate::proofs::Arities::no_value))]
/// Whether a term is a value, with the names of a pattern's variables.
pub fn is_value(names: &IndexSet<Vec<u8>>, raw: &Raw) -> bool
    ensures { result ≡ is_value (names_of names.now.keys) (raw_of raw.now) }
{
    match raw {
        Raw::App(name, args) => match args.as_slice() {
            [] => limited_number(MOST_WEIGHT, raw).is_some(),
            [part] => is_single(names, name.bytes(), part),
            [left, right] => {
                is_operation(name.bytes()) && is_value(names, left) && is_value(names, right)
            }
            _ => false,
        },
        Raw::Quant(_, _, _) => false,
    }
}

fn is_operation(name: &[u8]) -> bool
    ensures { result ≡ (bytes_eq name.now (codes "+") || bytes_eq name.now (codes "*")) }
{
    name == b"+".as_slice() || name == b"*".as_slice()
}

#[tactic(auto, using(crate::proofs::Arities::single_by_length))]
// Whether it is `weight(x)` for a variable of the pattern.
fn is_single(names: &IndexSet<Vec<u8>>, name: &[u8], part: &Raw) -> bool
    ensures { result ≡ single_value (names_of names.now.keys) name.now (raw_of part.now) }
{
    match part {
        Raw::App(variable, args) => {
            args.len() == 0 && is_weight_of(names, name, variable.bytes())
        }
        Raw::Quant(_, _, _) => false,
    }
}

fn is_weight_of(names: &IndexSet<Vec<u8>>, name: &[u8], variable: &[u8]) -> bool
    ensures { result ≡ (bytes_eq name.now (codes "weight")
        && is_in variable.now (names_of names.now.keys)) }
{
    name == b"weight".as_slice() && has_name(names, variable)
}

fn has_name(names: &IndexSet<Vec<u8>>, name: &[u8]) -> bool
    ensures { result ≡ is_in name.now (names_of names.now.keys) }
{
    names.contains(name)
}

#[tactic(auto, using(crate::proofs::Arities::no_worth))]
/// The weight that a value is, with these variables.
pub fn value_of(alloc: Global, variables: &Variables, raw: &Raw) -> Result<Weight, AllocError>
    ensures { IfOk result (λ w. weight_of w ≡ weight_of_value variables.now (raw_of raw.now)) }
{
    match raw {
        Raw::App(name, args) => match args.as_slice() {
            [] => Ok(Weight::Number(limited_number(MOST_WEIGHT, raw).unwrap_or(0))),
            [part] => single(alloc, variables, part),
            [left, right] => {
                let left = value_of(alloc, variables, left)?;
                let right = value_of(alloc, variables, right)?;
                combined(alloc, name.bytes(), left, right)
            }
            _ => Ok(Weight::Number(0)),
        },
        Raw::Quant(_, _, _) => Ok(Weight::Number(0)),
    }
}

// The weight of the variable that `part` is.
fn single(alloc: Global, variables: &Variables, part: &Raw) -> Result<Weight, AllocError>
    ensures { IfOk result (λ w. weight_of w ≡ single_weight variables.now (raw_of part.now)) }
{
    match part {
        Raw::App(name, _) => {
            let number = variables.free_number(alloc, name.bytes())?;
            Ok(Weight::Variable(number.unwrap_or(0)))
        }
        Raw::Quant(_, _, _) => Ok(Weight::Number(0)),
    }
}

// A sum or a product.
fn combined(alloc: Global, name: &[u8], left: Weight, right: Weight) -> Result<Weight, AllocError>
    ensures { IfOk result (λ w. weight_of w ≡ combined name.now (weight_of left)
        (weight_of right)) }
{
    let left = WeightSub::new(alloc, left)?;
    let right = WeightSub::new(alloc, right)?;
    if name == b"+".as_slice() {
        Ok(Weight::Sum(left, right))
    } else {
        Ok(Weight::Product(left, right))
    }
}
