// Which formulas a finite interpretation covers.
ghost use Rattle.std.specs.Prelude.{◌≡◌};
ghost use Rattle.fol_core.specs.FormulaView.{fol_of};
ghost use Rattle.fol_core.specs.TermView.{tree_of};
ghost use Rattle.fol_core.specs.Tree.{trees_of};
ghost use Rattle.ladr_interpretations.specs.Covers.{covers, covers_term, covers_terms};

use fol_core::{Formula, Shape, Term, Terms};
use model_tables::Tables;

/// Whether an interpretation has an entry for each symbol of a formula, and an element for each number in it.
pub fn covers(tables: &Tables, formula: &Formula) -> bool
    ensures { result ≡ covers tables.now (fol_of formula.now.shape) }
{
    covers_shape(tables, &formula.shape)
}

fn covers_shape(tables: &Tables, shape: &Shape) -> bool
    ensures { result ≡ covers tables.now (fol_of shape.now) }
{
    match shape {
        Shape::True | Shape::False => true,
        Shape::Eq(sides) => {
            covers_term(tables, sides.left()) && covers_term(tables, sides.right())
        }
        Shape::Atom(relation, terms) => tables.has(*relation) && covers_terms(tables, terms),
        Shape::Not(part) | Shape::All(_, part) | Shape::Exists(_, part) => {
            covers_shape(tables, part.shape())
        }
        Shape::And(left, right) => {
            covers_shape(tables, left.shape()) && covers_shape(tables, right.shape())
        }
        Shape::Or(left, right) => {
            covers_shape(tables, left.shape()) && covers_shape(tables, right.shape())
        }
        Shape::If(left, right) => {
            covers_shape(tables, left.shape()) && covers_shape(tables, right.shape())
        }
        Shape::Iff(left, right) => {
            covers_shape(tables, left.shape()) && covers_shape(tables, right.shape())
        }
    }
}

fn covers_term(tables: &Tables, term: &Term) -> bool
    ensures { result ≡ covers_term tables.now (tree_of term.now) }
{
    match term {
        Term::Var(_) => true,
        Term::Elem(element) => *element < tables.size(),
        Term::App(function, terms) => {
            if !tables.has(*function) {
                return false;
            }
            for term in &terms.items {
                if !covers_term(tables, term) {
                    return false;
                }
            }
            true
        }
    }
}

fn covers_terms(tables: &Tables, terms: &Terms) -> bool
    ensures { result ≡ covers_terms tables.now (trees_of terms.now) }
{
    for term in &terms.items {
        if !covers_term(tables, term) {
            return false;
        }
    }
    true
}
