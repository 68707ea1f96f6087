// In how many instances of clauses a cell counts.
ghost use Rattle.std.specs.Prelude.{ℕ, ◌≡◌, ◌+◌, ◌*◌, ◌^◌, ◌<◌, ◌≤◌, ◌&&◌, not, count_by, cond, IfSome, MatchOption, length, map, take};
ghost use Rattle.std.specs.List.{list_any, slice_index_or};
ghost use Rattle.cell_search.specs.Counted.{counts_seen, instances_of_clause, is_number, numbers_seen, side_seen, true_seen};
ghost use Rattle.cell_search.specs.Following.{AreWellLeft};
ghost use Rattle.cell_search.specs.Full.{HaveVariables};
ghost use Rattle.cell_search.specs.Losses.{IsBoard};
ghost use Rattle.cell_search.specs.Searchable.{HasAllCells};
ghost use Rattle.cell_search.specs.Telling.{term_number};
ghost use Rattle.cell_search.specs.Viewing.{left_in};
ghost use Rattle.fol_core.specs.ClauseView.{literal_of};
ghost use Rattle.fol_core.specs.TermView.{tree_of};
ghost use Rattle.fol_core.specs.Tree.{trees_of};
ghost use Rattle.mace_cells.specs.World.{cell_of, many_cells};
ghost use Rattle.mace_ground.specs.Instances.{assigned_by, variables_in};
ghost use Rattle.model_tables.specs.Size.{AllBelow};
ghost use Rattle.model_tables.specs.Tables.{place_from};
ghost use Rattle.model_tables.specs.declared.limits.TheConstants.{MOST_CELLS};
ghost use Rattle.plain_search.specs.Trying.{occurrences};

use crate::literals::truth;
use crate::seen::number;
use crate::setup::Setup;
use fol_core::{Clause, EQ, Kind, Literal, Term};
use mace_cells::Trail;
use mace_ground::{power, variables_in};

// The cell that a term is.
fn term_cell(setup: &Setup, trail: &Trail, term: &Term, env: &[u32]) -> Option<u32>
    requires { trail.now.many ≡ many_cells setup.now }
    ensures number { result ≡ term_number setup.now trail.now.entries (assigned_by env.now)
        (tree_of term.now) }
    ensures within { IfSome result (λ k. k < many_cells setup.now) }
{
    match term {
        Term::App(symbol, terms) => number(setup, trail, Kind::Function, *symbol, terms, env),
        Term::Var(_) | Term::Elem(_) => None,
    }
}

// The cells that are the sides of a literal.
fn sides(setup: &Setup, trail: &Trail, literal: &Literal, env: &[u32]) -> (Option<u32>, Option<u32>)
    requires { trail.now.many ≡ many_cells setup.now }
    ensures numbers { result ≡ numbers_seen setup.now trail.now.entries (assigned_by env.now)
        (literal_of literal.now).atom }
    ensures first { IfSome result.0 (λ k. k < many_cells setup.now) }
    ensures second { IfSome result.1 (λ k. k < many_cells setup.now) }
{
    let Term::App(symbol, terms) = &literal.atom else {
        return (None, None);
    };
    if symbol.0 != EQ.0 {
        let cell = number(setup, trail, Kind::Relation, *symbol, terms, env);
        return (cell, None);
    }
    let [left, right] = terms.as_slice() else {
        return (None, None);
    };
    let first = term_cell(setup, trail, left, env);
    let second = term_cell(setup, trail, right, env);
    (first, second)
}

// Whether a cell has this number.
fn is_number(cell: u32, number: Option<u32>) -> bool
    ensures { result ≡ is_number cell number }
{
    match number {
        None => false,
        Some(number) => cell == number,
    }
}

// Whether a cell is a side of a literal.
fn is_side_of(setup: &Setup, trail: &Trail, literal: &Literal, env: &[u32], cell: u32) -> bool
    requires { trail.now.many ≡ many_cells setup.now }
    ensures { result ≡ side_seen setup.now trail.now.entries (assigned_by env.now) cell
        (literal_of literal.now) }
{
    let (first, second) = sides(setup, trail, literal, env);
    is_number(cell, first) || is_number(cell, second)
}

// Whether it is one of one of the literals.
fn is_side(setup: &Setup, trail: &Trail, literals: &[Literal], env: &[u32], cell: u32) -> bool
    requires { trail.now.many ≡ many_cells setup.now }
    ensures { result ≡ list_any
        (side_seen setup.now trail.now.entries (assigned_by env.now) cell)
        (map literal_of literals.now) }
{
    for literal in literals {
        if is_side_of(setup, trail, literal, env, cell) {
            return true;
        }
    }
    false
}

// Counts a cell once more where it is no side of the literals before, and isn't this other one.
fn add(
    setup: &Setup,
    trail: &Trail,
    before: &[Literal],
    env: &[u32],
    cell: Option<u32>,
    other: Option<u32>,
    scores: &mut [u64],
)
    requires trail { trail.now.many ≡ many_cells setup.now }
    requires cell { IfSome cell (λ k. k < length scores.old) }
    requires few { (k : ℕ) → k < length scores.old → slice_index_or scores.old k 0 + 1 < 2 ^ 64 }
    ensures many { length scores.new ≡ length scores.old }
    ensures added { (k : ℕ) → k < length scores.old → slice_index_or scores.new k 0
        ≡ slice_index_or scores.old k 0 + cond (is_number k cell && (not (is_number k other)
        && not (list_any (side_seen setup.now trail.now.entries (assigned_by env.now) k)
        (map literal_of before.now)))) 1 0 }
{
    if let Some(cell) = cell {
        if !is_number(cell, other) && !is_side(setup, trail, before, env, cell) {
            scores[cell as usize] += 1;
        }
    }
}

// Counts the sides of the literal at a place that are none of the literals before.
fn add_sides(
    setup: &Setup,
    trail: &Trail,
    literals: &[Literal],
    at: usize,
    env: &[u32],
    scores: &mut [u64],
)
    requires trail { trail.now.many ≡ many_cells setup.now }
    requires at { at < length literals.now }
    requires many { length scores.old ≡ many_cells setup.now }
    requires few { (k : ℕ) → k < length scores.old → slice_index_or scores.old k 0 + 2 < 2 ^ 64 }
    ensures many { length scores.new ≡ length scores.old }
    ensures added { (k : ℕ) → k < length scores.old
        → slice_index_or scores.new k 0 + cond (list_any
        (side_seen setup.now trail.now.entries (assigned_by env.now) k)
        (map literal_of (take at literals.now))) 1 0
        ≡ slice_index_or scores.old k 0 + cond (list_any
        (side_seen setup.now trail.now.entries (assigned_by env.now) k)
        (map literal_of (take (at + 1) literals.now))) 1 0 }
{
    let (first, second) = sides(setup, trail, &literals[at], env);
    add(setup, trail, &literals[..at], env, first, None, scores);
    add(setup, trail, &literals[..at], env, second, first, scores);
}

// Whether a literal is known to be true.
fn is_true(setup: &Setup, trail: &Trail, literals: &[Literal], env: &[u32]) -> bool
    requires { trail.now.many ≡ many_cells setup.now }
    ensures { result ≡ list_any (true_seen setup.now trail.now.entries (assigned_by env.now))
        (map literal_of literals.now) }
{
    for literal in literals {
        if truth(setup, trail, literal, env).unwrap_or(false) {
            return true;
        }
    }
    false
}

// Counts the sides of an instance that isn't known to be true, each once.
fn count_instance(
    setup: &Setup,
    trail: &Trail,
    literals: &[Literal],
    env: &[u32],
    scores: &mut [u64],
)
    requires trail { trail.now.many ≡ many_cells setup.now }
    requires many { length scores.old ≡ many_cells setup.now }
    requires few { (k : ℕ) → k < length scores.old → slice_index_or scores.old k 0 + 3 < 2 ^ 64 }
    ensures many { length scores.new ≡ length scores.old }
    ensures added { (k : ℕ) → k < length scores.old → slice_index_or scores.new k 0
        ≡ slice_index_or scores.old k 0 + cond (counts_seen setup.now trail.now.entries
        (assigned_by env.now) (map literal_of literals.now) k) 1 0 }
{
    if is_true(setup, trail, literals, env) {
        return;
    }
    for at in 0..literals.len() {
        add_sides(setup, trail, literals, at, env, scores);
    }
}

// Gives the first variables the elements of a list by its number, the last running fastest.
fn put_elements(size: u32, number: u64, variables: usize, env: &mut [u32])
    requires some { 0 < size }
    requires variables { variables ≤ length env.old }
    requires number { number < size ^ variables }
    requires env { AllBelow size env.old }
    ensures many { length env.new ≡ length env.old }
    ensures below { AllBelow size env.new }
    ensures place { place_from size 0 (take variables env.new) ≡ number }
{
    let mut rest = number;
    for step in 0..variables {
        let at = variables - 1 - step;
        env[at] = (rest % u64::from(size)) as u32;
        rest /= u64::from(size);
    }
}

// Counts cells in all instances of a clause.
fn count_clause(setup: &Setup, trail: &Trail, clause: &Clause, env: &mut [u32], scores: &mut [u64])
    requires board { IsBoard setup.now trail.now }
    requires variables { variables_in clause.now ≤ length env.old }
    requires env { AllBelow setup.now.size env.old }
    requires many { length scores.old ≡ many_cells setup.now }
    requires bound { setup.now.size ^ variables_in clause.now ≤ MOST_CELLS }
    requires few { (k : ℕ) → k < length scores.old → slice_index_or scores.old k 0 ≤ MOST_CELLS }
    ensures env { AllBelow setup.now.size env.new }
    ensures variables { length env.new ≡ length env.old }
    ensures many { length scores.new ≡ length scores.old }
    ensures added { (k : ℕ) → k < length scores.old → slice_index_or scores.new k 0
        ≡ slice_index_or scores.old k 0 + count_by (λ g. counts_seen setup.now
        trail.now.entries (assigned_by g.elements) g.clause k)
        (instances_of_clause setup.now.size clause.now) }
{
    let literals = clause.as_slice();
    let variables = variables_in(clause) as usize;
    let many = power(setup.size(), variables as u128) as u64;
    for number in 0..many {
        put_elements(setup.size(), number, variables, env);
        count_instance(setup, trail, literals, &env[..variables], scores);
    }
}

/// Works out in how many instances of clauses each cell counts that aren't known to be true.
pub fn count(setup: &Setup, trail: &Trail, env: &mut [u32], scores: &mut [u64])
    requires board { IsBoard setup.now trail.now }
    requires cells { HasAllCells setup.now }
    requires well { AreWellLeft setup.now trail.now }
    requires variables { HaveVariables setup.now.clauses (length env.old) }
    requires env { AllBelow setup.now.size env.old }
    requires many { length scores.old ≡ many_cells setup.now }
    ensures env { AllBelow setup.now.size env.new }
    ensures variables { length env.new ≡ length env.old }
    ensures many { length scores.new ≡ length scores.old }
    ensures counts { (k : ℕ) → k < many_cells setup.now → slice_index_or scores.new k 0
        ≡ occurrences setup.now (left_in setup.now trail.now) (cell_of setup.now k) }
{
    setup.literals_are_few();
    scores.fill(0);
    for (_, clause) in setup.clauses() {
        count_clause(setup, trail, clause, env, scores);
    }
}
