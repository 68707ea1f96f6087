// Clauses that are always true: one of their literals is, or both a literal and its denial are there.
ghost use Rattle.std.specs.Prelude.{◌≡◌, ◌&&◌, not};
ghost use Rattle.std.specs.List.{list_any};
ghost use Rattle.fol_core.specs.ClauseView.{literal_of};
ghost use Rattle.fol_core.specs.TermView.{tree_of};
ghost use Rattle.prover_steps.specs.Searching.{is_reflexive, is_denied_in, is_tautology};
ghost use Rattle.unifiers.specs.Matching.{same_tree};

use fol_core::{Clause, Literal};
use held_clauses::has_same_sides;
use substitutions::same;

// Whether a literal is an equation of one term with itself.
fn is_reflexive(literal: &Literal) -> bool
    ensures { result ≡ is_reflexive (literal_of literal.now) }
{
    literal.positive && has_same_sides(&literal.atom)
}

// Whether a literal is the denial of an atom.
fn denies(other: &Literal, literal: &Literal) -> bool
    ensures { result ≡ (not other.now.positive && same_tree (tree_of literal.now.atom)
        (tree_of other.now.atom)) }
{
    if other.positive {
        return false;
    }
    same(&literal.atom, &other.atom)
}

// Whether the literal is positive, and its denial is in the clause.
#[tactic(auto, using(held_clauses::proofs::LiteralTests::some_here, held_clauses::proofs::LiteralTests::some_behind, held_clauses::proofs::LiteralTests::some_end))]
fn is_denied_in(clause: &Clause, literal: &Literal) -> bool
    ensures { result ≡ is_denied_in clause.now (literal_of literal.now) }
{
    if !literal.positive {
        return false;
    }
    for other in &clause.literals {
        if denies(other, literal) {
            return true;
        }
    }
    false
}

// Whether one of its literals is an equation of one term with itself.
#[tactic(auto, using(held_clauses::proofs::LiteralTests::some_here, held_clauses::proofs::LiteralTests::some_behind, held_clauses::proofs::LiteralTests::some_end))]
fn has_reflexive(clause: &Clause) -> bool
    ensures { result ≡ list_any is_reflexive clause.now }
{
    for literal in &clause.literals {
        if is_reflexive(literal) {
            return true;
        }
    }
    false
}

// Whether one of its literals is denied in it.
#[tactic(auto, using(held_clauses::proofs::LiteralTests::some_here, held_clauses::proofs::LiteralTests::some_behind, held_clauses::proofs::LiteralTests::some_end))]
fn has_denied(clause: &Clause) -> bool
    ensures { result ≡ list_any (is_denied_in clause.now) clause.now }
{
    for literal in &clause.literals {
        if is_denied_in(clause, literal) {
            return true;
        }
    }
    false
}

/// Whether the clause is a tautology.
pub fn is_tautology(clause: &Clause) -> bool
    ensures { result ≡ is_tautology clause.now }
{
    has_reflexive(clause) || has_denied(clause)
}
