// Whether terms, literals and clauses are the same.
ghost use Rattle.std.specs.Prelude.{◌≡◌, ◌↔◌, IsTrue};
ghost use Rattle.fol_core.specs.ClauseView.{literal_of};
ghost use Rattle.fol_core.specs.TermView.{tree_of};

use fol_core::{Clause, Literal, Term};

/// Whether two terms are the same.
pub fn same(left: &Term, right: &Term) -> bool
    ensures { IsTrue result ↔ (tree_of left.now ≡ tree_of right.now) }
{
    match (left, right) {
        (Term::Var(x), Term::Var(y)) => x == y,
        (Term::Elem(k), Term::Elem(n)) => k == n,
        (Term::App(f, ls), Term::App(g, rs)) => {
            if f.0 != g.0 {
                return false;
            }
            if ls.items.len() != rs.items.len() {
                return false;
            }
            for (i, l) in ls.items.iter().enumerate() {
                if !same(l, &rs.items[i]) {
                    return false;
                }
            }
            true
        }
        _ => false,
    }
}

/// Whether two literals are the same.
pub fn same_literal(left: &Literal, right: &Literal) -> bool
    ensures { IsTrue result ↔ (literal_of left.now ≡ literal_of right.now) }
{
    left.positive == right.positive && same(&left.atom, &right.atom)
}

/// Whether two clauses are the same.
pub fn same_clause(left: &Clause, right: &Clause) -> bool
    ensures { IsTrue result ↔ (left.now ≡ right.now) }
{
    if left.literals.len() != right.literals.len() {
        return false;
    }
    for (i, l) in left.literals.iter().enumerate() {
        if !same_literal(l, &right.literals[i]) {
            return false;
        }
    }
    true
}
