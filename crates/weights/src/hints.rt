// The hints of a problem.
ghost use Rattle.std.specs.Prelude.{◌≡◌, ◌≤◌, ◌<◌, ◌++◌, IfOk, OnOk, map, length};
ghost use Rattle.fol_core.specs.FormulaView.{fol_of};
ghost use Rattle.subsume.specs.Variables.{standing};
ghost use Rattle.weights.specs.Hints.{hint_place, weight_at, atom_literals, hint_clause};
ghost use Rattle.weights.specs.HintIndex.{AreIndexed, first_among};
ghost use Rattle.weights.specs.HintRows.{hint_row, row_of_hint};

use crate::hint_index::{add_place, no_rows, rows_of, shortest_row};
use fol_core::{Clause, EQ, Literal, Shape, Term, Terms};
use fol_problem::Hint;
use std::alloc::{AllocError, Global};
use std::marker::Model;
use subsume::{Places, subsumes};
use unifiers::matches_are_found;

/// A clause that others are compared with, and the weight that it gives them.
#[derive(Drop)]
pub struct HintWeight {
    pub clause: Clause,
    pub weight: Option<u32>,
}

/// Hints, of which the first that a clause matches counts; contracts see the list of their clauses and weights.
#[derive(Drop)]
pub struct Hints {
    hints: Vec<HintWeight>,
    rows: Vec<Vec<usize>>,
}

impl Model for Hints {
    ghost use Rattle.std.specs.Prelude.{List, map};
    ghost use Rattle.weights.specs.HintCodes.{coded_hints};
    ghost use Rattle.weights.specs.Hints.{HintRow};

    ghost Value = { List HintRow };

    ghost coded = { coded_hints };

    ghost use Rattle.weights.specs.HintRows.{hint_row};

    ghost view = { λ a. map hint_row a.hints.items };

    ghost use Rattle.weights.specs.HintsIndexed.{IsIndexed};

    ghost invariant = { IsIndexed };
}

// Adds the literal of an atom, if the formula is one.
fn add_atom(
    alloc: Global,
    positive: bool,
    shape: &Shape,
    clause: &mut Clause,
) -> Result<(), AllocError>
    ensures { OnOk result (clause.new ≡ clause.old ++ atom_literals positive (fol_of shape.now)) }
{
    let atom = match shape {
        Shape::Eq(equation) => {
            let mut sides = Terms::new(alloc);
            sides.push(equation.left().copy(alloc)?)?;
            sides.push(equation.right().copy(alloc)?)?;
            Term::App(EQ, sides)
        }
        Shape::Atom(r, terms) => Term::App(*r, terms.copy(alloc)?),
        _ => return Ok(()),
    };
    clause.push(Literal { positive, atom })
}

// Adds the literals of a hint's formula.
fn add_literals(alloc: Global, shape: &Shape, clause: &mut Clause) -> Result<(), AllocError>
    ensures { OnOk result (clause.new ≡ clause.old ++ hint_clause (fol_of shape.now)) }
{
    match shape {
        Shape::Or(f, g) => {
            add_literals(alloc, f.shape(), clause)?;
            add_literals(alloc, g.shape(), clause)
        }
        Shape::Not(f) => add_atom(alloc, false, f.shape(), clause),
        _ => add_atom(alloc, true, shape, clause),
    }
}

// The clauses of some hints.
fn hints_of(alloc: Global, hints: &[Hint]) -> Result<Vec<HintWeight>, AllocError>
    ensures { IfOk result (λ hs. map hint_row hs.items ≡ map row_of_hint hints.now) }
{
    let mut all = Vec::new(alloc);
    for hint in hints {
        let mut clause = Clause::new(alloc);
        add_literals(alloc, &hint.formula.shape, &mut clause)?;
        let weight = hint.weight;
        all.push(HintWeight { clause, weight })?;
    }
    Ok(all)
}

// Puts the hints into rows.
#[tactic(auto, using(crate::proofs::Indexed::indexed_all))]
fn index_of(alloc: Global, hints: &[HintWeight]) -> Result<Vec<Vec<usize>>, AllocError>
    ensures some { IfOk result (λ rows. 0 < length rows.items) }
    ensures rows { IfOk result (λ rows. AreIndexed rows.items (map hint_row hints.now)) }
{
    let mut rows = no_rows(alloc, hints.len().saturating_mul(4).saturating_add(1))?;
    for (place, hint) in hints.iter().enumerate() {
        let named = rows_of(alloc, rows.len(), &hint.clause)?;
        add_place(&mut rows, named.as_slice(), place)?;
    }
    Ok(rows)
}

// The first of all hints that a clause matches.
#[tactic(auto, using(crate::proofs::Hinted::hint_here, crate::proofs::Hinted::hint_behind, crate::proofs::Hinted::no_hint, crate::proofs::Hinted::from_start))]
fn first_of<'a>(hints: &'a [HintWeight], places: &mut Places<'a>, clause: &Clause) -> Option<usize>
    requires literals { length clause.now ≤ places.old }
    requires variables { standing clause.now ≤ places.old }
    ensures place { result ≡ hint_place (map hint_row hints.now) clause.now }
    ensures room { places.new ≡ places.old }
{
    for (place, hint) in hints.iter().enumerate() {
        if subsumes(places, clause, &hint.clause) {
            return Some(place);
        }
    }
    None
}

// The first of the hints at some places that a clause matches.
#[tactic(auto, using(crate::proofs::Indexed::among_here, crate::proofs::Indexed::among_behind, crate::proofs::Indexed::among_past, crate::proofs::Indexed::among_none))]
fn first_among<'a>(
    hints: &'a [HintWeight],
    row: &[usize],
    places: &mut Places<'a>,
    clause: &Clause,
) -> Option<usize>
    requires literals { length clause.now ≤ places.old }
    requires variables { standing clause.now ≤ places.old }
    ensures place { result ≡ first_among (map hint_row hints.now) clause.now row.now }
    ensures room { places.new ≡ places.old }
{
    for place in row {
        if *place < hints.len() {
            if subsumes(places, clause, &hints[*place].clause) {
                return Some(*place);
            }
        }
    }
    None
}

impl Hints {
    /// The hints of a problem, made clauses.
    pub fn new(alloc: Global, hints: &[Hint]) -> Result<Hints, AllocError>
        ensures { IfOk result (λ hs. hs ≡ map row_of_hint hints.now) }
    {
        let hints = hints_of(alloc, hints)?;
        let rows = index_of(alloc, hints.as_slice())?;
        Ok(Hints { hints, rows })
    }

    /// The place, from 0, of the first hint that a clause matches.
    #[tactic(auto, using(crate::proofs::Indexed::first_in_row))]
    pub fn first<'a>(&'a self, places: &mut Places<'a>, clause: &Clause) -> Option<usize>
        requires literals { length clause.now ≤ places.old }
        requires variables { standing clause.now ≤ places.old }
        ensures place { result ≡ hint_place self.now clause.now }
        ensures room { places.new ≡ places.old }
    {
        matches_are_found();
        match shortest_row(self.rows.as_slice(), clause) {
            Some(row) => {
                let row = self.rows[row].as_slice();
                first_among(self.hints.as_slice(), row, places, clause)
            }
            None => first_of(self.hints.as_slice(), places, clause),
        }
    }

    /// The weight that the hint at a place gives, if there is one there and it gives one.
    #[tactic(auto, using(crate::proofs::Hinted::weight_here, crate::proofs::Hinted::weight_nowhere))]
    pub fn weight_at(&self, place: Option<usize>) -> Option<u32>
        ensures { result ≡ weight_at self.now place }
    {
        match place {
            Some(place) => {
                if place >= self.hints.len() {
                    return None;
                }
                self.hints[place].weight
            }
            None => None,
        }
    }
}
