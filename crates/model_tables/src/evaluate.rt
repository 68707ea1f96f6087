// Values of terms and truth of formulas in tables.
ghost use Rattle.std.specs.Prelude.{◌≡◌, ℕ, ◌+◌, ◌*◌, ◌<◌, ◌≤◌, List, length, slice_index, MatchBool};
ghost use Rattle.fol_core.specs.Fol.{forall, exists};
ghost use Rattle.fol_core.specs.Tree.{trees_of};
ghost use Rattle.fol_core.specs.TermView.{tree_of};
ghost use Rattle.fol_core.specs.FormulaView.{fol_of};
ghost use Rattle.fol_core.specs.Truth.{value_of, values_of, Holds, with_var};
ghost use Rattle.model_tables.specs.Tables.{place_from, listed_value, meaning_of};
ghost use Rattle.model_tables.specs.Variables.{assignment, room_of};

use crate::env::Env;
use crate::tables::Tables;
use fol_core::{Formula, Shape, Sym, Term, Terms};

// The place of the arguments passed so far and x behind them, or the row's length where that is past its end.
fn onward(row: &[u32], place: usize, size: usize, x: u32) -> usize
    requires { 0 < size }
    ensures { (xs : List ℕ) → slice_index row.now (place_from size result xs)
        ≡ slice_index row.now (place_from size (place * size + x) xs) }
{
    let end = row.len();
    match place.checked_mul(size) {
        None => end,
        Some(first) => match first.checked_add(x as usize) {
            None => end,
            Some(next) => next.min(end),
        },
    }
}

/// The value of a term.
pub fn value(tables: &Tables, term: &Term, env: &Env) -> u32
    ensures { result ≡ value_of (meaning_of tables.now) (assignment env.now) (tree_of term.now) }
{
    match term {
        Term::Var(variable) => env.element(*variable),
        Term::Elem(element) => *element,
        Term::App(function, terms) => {
            let row = tables.row(*function);
            let size = tables.size() as usize;
            let mut place = 0;
            for argument in terms.as_slice() {
                place = onward(row, place, size, value(tables, argument, env));
            }
            tables.element(at(row, place))
        }
    }
}

// What stands at a place of a row, 0 past its end.
fn at(row: &[u32], place: usize) -> u32
    ensures { result ≡ slice_index row.now place }
{
    row.get(place).copied().unwrap_or(0)
}

// What a relation's row has for the values of these terms.
fn atom(tables: &Tables, relation: Sym, terms: &Terms, env: &Env) -> u32
    ensures { result ≡ listed_value tables.now relation.0
        (values_of (meaning_of tables.now) (assignment env.now) (trees_of terms.now)) }
{
    let row = tables.row(relation);
    let size = tables.size() as usize;
    let mut place = 0;
    for argument in terms.as_slice() {
        place = onward(row, place, size, value(tables, argument, env));
    }
    at(row, place)
}

/// Whether a formula is true, where there is room for the variables of its quantifiers.
pub fn truth(tables: &Tables, formula: &Formula, env: &mut Env) -> bool
    requires { room_of (fol_of formula.now.shape) ≤ length env.old }
    ensures same { env.new ≡ env.old }
    ensures truth { MatchBool result (Holds (meaning_of tables.now) (assignment env.old)
        (fol_of formula.now.shape))
        (¬ Holds (meaning_of tables.now) (assignment env.old) (fol_of formula.now.shape)) }
{
    is_true(tables, &formula.shape, env)
}

// Whether a formula's tree is true.
#[cycle(is_true)]
pub(crate) fn is_true(tables: &Tables, shape: &Shape, env: &mut Env) -> bool
    requires { room_of (fol_of shape.now) ≤ length env.old }
    ensures same { env.new ≡ env.old }
    ensures truth { MatchBool result (Holds (meaning_of tables.now) (assignment env.old)
        (fol_of shape.now))
        (¬ Holds (meaning_of tables.now) (assignment env.old) (fol_of shape.now)) }
{
    match shape {
        Shape::True => true,
        Shape::False => false,
        Shape::Eq(sides) => value(tables, sides.left(), env) == value(tables, sides.right(), env),
        Shape::Atom(relation, terms) => atom(tables, *relation, terms, env) == 1,
        Shape::Not(part) => !is_true(tables, part.shape(), env),
        Shape::And(left, right) => is_true(tables, left.shape(), env)
            && is_true(tables, right.shape(), env),
        Shape::Or(left, right) => is_true(tables, left.shape(), env)
            || is_true(tables, right.shape(), env),
        Shape::If(left, right) => !is_true(tables, left.shape(), env)
            || is_true(tables, right.shape(), env),
        Shape::Iff(left, right) => is_true(tables, left.shape(), env)
            == is_true(tables, right.shape(), env),
        Shape::All(variable, part) => true_of_all(tables, *variable, part.shape(), env),
        Shape::Exists(variable, part) => true_of_some(tables, *variable, part.shape(), env),
    }
}

// Whether a formula is true with this element for the variable.
#[cycle(is_true)]
fn true_at(tables: &Tables, variable: u64, element: u32, shape: &Shape, env: &mut Env) -> bool
    requires room { room_of (fol_of shape.now) ≤ length env.old }
    requires slot { variable < length env.old }
    ensures same { env.new ≡ env.old }
    ensures truth { MatchBool result (Holds (meaning_of tables.now)
        (with_var (assignment env.old) variable element) (fol_of shape.now))
        (¬ Holds (meaning_of tables.now) (with_var (assignment env.old) variable element)
        (fol_of shape.now)) }
{
    let before = env.get(variable);
    env.put(variable, Some(element));
    let result = is_true(tables, shape, env);
    env.put(variable, before);
    result
}

// Whether a formula is true with each element for the variable.
#[cycle(is_true)]
fn true_of_all(tables: &Tables, variable: u64, shape: &Shape, env: &mut Env) -> bool
    requires room { room_of (fol_of shape.now) ≤ length env.old }
    requires slot { variable < length env.old }
    ensures same { env.new ≡ env.old }
    ensures truth { MatchBool result (Holds (meaning_of tables.now) (assignment env.old)
        (forall variable (fol_of shape.now)))
        (¬ Holds (meaning_of tables.now) (assignment env.old)
        (forall variable (fol_of shape.now))) }
{
    for element in 0..tables.size() {
        if !true_at(tables, variable, element, shape, env) {
            return false;
        }
    }
    true
}

// Whether a formula is true with some element for the variable.
#[cycle(is_true)]
fn true_of_some(tables: &Tables, variable: u64, shape: &Shape, env: &mut Env) -> bool
    requires room { room_of (fol_of shape.now) ≤ length env.old }
    requires slot { variable < length env.old }
    ensures same { env.new ≡ env.old }
    ensures truth { MatchBool result (Holds (meaning_of tables.now) (assignment env.old)
        (exists variable (fol_of shape.now)))
        (¬ Holds (meaning_of tables.now) (assignment env.old)
        (exists variable (fol_of shape.now))) }
{
    for element in 0..tables.size() {
        if true_at(tables, variable, element, shape, env) {
            return true;
        }
    }
    false
}
