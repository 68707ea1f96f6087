// How many clauses a formula gives, and its denial.
ghost use Rattle.std.specs.Prelude.{◌≡◌, ◌≤◌, ◌+◌, true, false};
ghost use Rattle.fol_core.specs.FormulaView.{fol_of};
ghost use Rattle.clausify.specs.Forms.{nnf_of, clause_count};
ghost use Rattle.clausify.specs.Capped.{count_capped, IsSum, IsProduct, IsSumOfProducts, AreCapped};
ghost use Rattle.clausify.specs.declared.limit.TheConstants.{MOST_CLAUSES};

use crate::limit::MOST_CLAUSES;
use fol_core::{Shape, Sub};

// One more than the most clauses that a formula may have: counts are kept up to this.
const CAP: u64 = MOST_CLAUSES + 1;

/// The clauses of a formula and of its denial, counted up to one more than the most. The two are found together, since each side of an
/// equivalence is needed with both signs.
#[derive(Clone, Copy)]
pub struct Counts {
    pub plain: u64,
    pub denied: u64,
}

fn capped(n: u64) -> u64
    ensures { result ≡ count_capped n }
{
    n.min(CAP)
}

fn sum(a: u64, b: u64) -> u64
    requires left { a ≤ MOST_CLAUSES + 1 }
    requires right { b ≤ MOST_CLAUSES + 1 }
    ensures sum { IsSum a b result }
    ensures most { result ≤ MOST_CLAUSES + 1 }
{
    capped(a + b)
}

fn product(a: u64, b: u64) -> u64
    requires left { a ≤ MOST_CLAUSES + 1 }
    requires right { b ≤ MOST_CLAUSES + 1 }
    ensures product { IsProduct a b result }
    ensures most { result ≤ MOST_CLAUSES + 1 }
{
    capped(a * b)
}

// The counts of the denial.
fn turned(f: Counts) -> Counts
    ensures plain { result.plain ≡ f.denied }
    ensures denied { result.denied ≡ f.plain }
{
    Counts {
        plain: f.denied,
        denied: f.plain,
    }
}

// Those of "and".
fn both(f: Counts, g: Counts) -> Counts
    requires fits { AreCapped f g }
    ensures plain { IsSum f.plain g.plain result.plain }
    ensures denied { IsProduct f.denied g.denied result.denied }
{
    Counts {
        plain: sum(f.plain, g.plain),
        denied: product(f.denied, g.denied),
    }
}

// Those of "if and only if".
fn equivalence(f: Counts, g: Counts) -> Counts
    requires fits { AreCapped f g }
    ensures plain { IsSumOfProducts f.denied g.plain g.denied f.plain result.plain }
    ensures denied { IsSumOfProducts f.plain g.plain f.denied g.denied result.denied }
{
    Counts {
        plain: sum(product(f.denied, g.plain), product(g.denied, f.plain)),
        denied: sum(product(f.plain, g.plain), product(f.denied, g.denied)),
    }
}

const ONE: Counts = Counts {
    plain: 1,
    denied: 1,
};

// The counts of a part.
#[cycle(counting)]
fn part(sub: &Sub) -> Counts
    ensures plain { result.plain ≡ count_capped (clause_count (nnf_of true sub.now)) }
    ensures denied { result.denied ≡ count_capped (clause_count (nnf_of false sub.now)) }
{
    counts_of(&sub.shape)
}

/// The counts of a formula.
#[cycle(counting)]
pub fn counts_of(shape: &Shape) -> Counts
    ensures plain { result.plain ≡ count_capped (clause_count (nnf_of true (fol_of shape.now))) }
    ensures denied { result.denied ≡ count_capped (clause_count (nnf_of false (fol_of shape.now))) }
{
    match shape {
        Shape::True | Shape::False | Shape::Eq(_) | Shape::Atom(_, _) => ONE,
        Shape::Not(f) => turned(part(f)),
        Shape::And(f, g) => both(part(f), part(g)),
        Shape::Or(f, g) => turned(both(turned(part(f)), turned(part(g)))),
        Shape::If(f, g) => turned(both(part(f), turned(part(g)))),
        Shape::Iff(f, g) => equivalence(part(f), part(g)),
        Shape::All(_, f) | Shape::Exists(_, f) => part(f),
    }
}
