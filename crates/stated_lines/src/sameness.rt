// Whether formulas are the same.
ghost use Rattle.std.specs.Prelude.{◌≡◌, ◌↔◌, IsTrue};
ghost use Rattle.fol_core.specs.Fol.{atom, equal};
ghost use Rattle.fol_core.specs.FormulaView.{fol_of};
ghost use Rattle.fol_core.specs.TermView.{tree_of};
ghost use Rattle.fol_core.specs.Tree.{trees_of};

use fol_core::{Shape, Sym, Term, Terms};
use substitutions::same;

// Whether arguments are the same.
#[tactic(auto, using(crate::proofs::SameSteps::terms_length, crate::proofs::SameSteps::terms_apart, crate::proofs::SameSteps::terms_next, crate::proofs::SameSteps::terms_end))]
fn same_terms(left: &Terms, right: &Terms) -> bool
    ensures { IsTrue result ↔ (trees_of left.now ≡ trees_of right.now) }
{
    let ls = left.as_slice();
    let rs = right.as_slice();
    if ls.len() != rs.len() {
        return false;
    }
    for (i, l) in ls.iter().enumerate() {
        if !same(l, &rs[i]) {
            return false;
        }
    }
    true
}

// Whether a formula is an equation of these terms.
#[tactic(auto, using(crate::proofs::SameSteps::equal_is))]
fn is_equation_of(left: &Term, right: &Term, shape: &Shape) -> bool
    ensures { IsTrue result ↔ (equal (tree_of left.now) (tree_of right.now) ≡ fol_of shape.now) }
{
    let Shape::Eq(sides) = shape else {
        return false;
    };
    same(left, sides.left()) && same(right, sides.right())
}

// Whether it is an atom of a relation and these terms.
#[tactic(auto, using(crate::proofs::SameSteps::atom_is))]
fn is_atom_of(relation: Sym, terms: &Terms, shape: &Shape) -> bool
    ensures { IsTrue result ↔ (atom relation.0 (trees_of terms.now) ≡ fol_of shape.now) }
{
    let Shape::Atom(other, others) = shape else {
        return false;
    };
    relation.0 == other.0 && same_terms(terms, others)
}

/// Whether formulas are the same, whatever the names of their variables.
#[tactic(auto, using(crate::proofs::SameSteps::negation_is, crate::proofs::SameSteps::conjunction_is, crate::proofs::SameSteps::disjunction_is, crate::proofs::SameSteps::implication_is, crate::proofs::SameSteps::equivalence_is, crate::proofs::SameSteps::forall_is, crate::proofs::SameSteps::exists_is, crate::proofs::SameSteps::verum_is, crate::proofs::SameSteps::falsum_is))]
pub fn same_shape(left: &Shape, right: &Shape) -> bool
    ensures { IsTrue result ↔ (fol_of left.now ≡ fol_of right.now) }
{
    match left {
        Shape::True => matches!(right, Shape::True),
        Shape::False => matches!(right, Shape::False),
        Shape::Eq(sides) => is_equation_of(sides.left(), sides.right(), right),
        Shape::Atom(relation, terms) => is_atom_of(*relation, terms, right),
        Shape::Not(f) => match right {
            Shape::Not(g) => same_shape(f.shape(), g.shape()),
            _ => false,
        },
        Shape::And(f, g) => match right {
            Shape::And(h, k) => same_shape(f.shape(), h.shape())
                && same_shape(g.shape(), k.shape()),
            _ => false,
        },
        Shape::Or(f, g) => match right {
            Shape::Or(h, k) => same_shape(f.shape(), h.shape()) && same_shape(g.shape(), k.shape()),
            _ => false,
        },
        Shape::If(f, g) => match right {
            Shape::If(h, k) => same_shape(f.shape(), h.shape()) && same_shape(g.shape(), k.shape()),
            _ => false,
        },
        Shape::Iff(f, g) => match right {
            Shape::Iff(h, k) => same_shape(f.shape(), h.shape())
                && same_shape(g.shape(), k.shape()),
            _ => false,
        },
        Shape::All(x, f) => match right {
            Shape::All(y, g) => x == y && same_shape(f.shape(), g.shape()),
            _ => false,
        },
        Shape::Exists(x, f) => match right {
            Shape::Exists(y, g) => x == y && same_shape(f.shape(), g.shape()),
            _ => false,
        },
    }
}
