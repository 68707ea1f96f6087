// The symbols and numerals of formulas.
ghost use Rattle.std.specs.Prelude.{◌≡◌, [], ◌∷◌, ◌++◌, if◌then◌else◌, IfOk, OnOk, length, map};
ghost use Rattle.fol_core.specs.Occurs.{AreMarked, size_needed};
ghost use Rattle.fol_problem.specs.Stated.{all_said};
ghost use Rattle.clausify.specs.Input.{formulas, is_used, before, numeral_of, numbers_passing, used_symbols};
ghost use Rattle.clausify.specs.Seen.{is_marked};

use fol_core::{Sym, above_numerals, mark_symbols};
use fol_problem::{Input, Problem};
use std::alloc::{AllocError, Global};

// Marks the symbols of formulas, by their numbers.
fn mark_all(inputs: &[Input], marks: &mut [bool])
    ensures { AreMarked (is_used (all_said inputs.now)) marks.old marks.new }
{
    for input in inputs {
        mark_symbols(&input.formula, marks);
    }
}

// The least number above each element that formulas name.
#[tactic(auto, using(crate::proofs::Marks::needed_next, crate::proofs::Marks::needed_end))]
fn above_all(inputs: &[Input]) -> u64
    ensures { result ≡ size_needed (formulas (all_said inputs.now)) }
{
    let mut above = 0;
    for input in inputs {
        above = above_numerals(&input.formula).max(above);
    }
    above
}

// The number before, if there is one. Elements are small, so none before what lies above them is too great.
fn before(above: u64) -> Result<Option<u32>, AllocError>
    ensures { IfOk result (λ n. n ≡ before above) }
{
    match above.checked_sub(1) {
        None => Ok(None),
        Some(number) => match u32::try_from(number) {
            Ok(element) => Ok(Some(element)),
            Err(_) => Err(AllocError),
        },
    }
}

// Adds a symbol if it is marked.
fn add_marked(number: usize, mark: bool, found: &mut Vec<Sym>) -> Result<(), AllocError>
    ensures { OnOk result (map (λ s. s.0) found.new.items ≡ map (λ s. s.0) found.old.items
        ++ (if mark then number ∷ [] else [])) }
{
    if mark {
        found.push(Sym(number as u64))?;
    }
    Ok(())
}

// The symbols that are marked, by number.
#[tactic(auto, using(crate::proofs::Marks::passing_next, crate::proofs::Marks::passing_end))]
fn marked_symbols(alloc: Global, marks: &[bool]) -> Result<Vec<Sym>, AllocError>
    ensures { IfOk result (λ symbols. map (λ s. s.0) symbols.items
        ≡ numbers_passing (is_marked marks.now) 0 (length marks.now)) }
{
    let mut found = Vec::new(alloc);
    for (number, mark) in marks.iter().enumerate() {
        add_marked(number, *mark, &mut found)?;
    }
    Ok(found)
}

/// The symbols of a problem's formulas by number, and the greatest numeral in them.
pub fn symbols_and_numeral(
    alloc: Global,
    problem: &Problem,
) -> Result<(Vec<Sym>, Option<u32>), AllocError>
    ensures symbols { IfOk result (λ seen. map (λ s. s.0) seen.0.items
        ≡ used_symbols problem.now.symbols (all_said problem.now.inputs.items)) }
    ensures numeral { IfOk result (λ seen. seen.1
        ≡ numeral_of (all_said problem.now.inputs.items)) }
{
    let mut marks = vec![in alloc; false; problem.symbols.len()]?;
    mark_all(&problem.inputs, &mut marks);
    let symbols = marked_symbols(alloc, &marks)?;
    let numeral = before(above_all(&problem.inputs))?;
    Ok((symbols, numeral))
}
