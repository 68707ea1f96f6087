// Terms that are sought in clauses.
ghost use Rattle.std.specs.Prelude.{◌≡◌, IfOk, filter};
ghost use Rattle.fol_core.specs.ClauseView.{literal_of};
ghost use Rattle.fol_core.specs.TermView.{tree_of};
ghost use Rattle.clause_index.specs.Finding.{has_term_such, has_such_below, has_side_such, has_such, has_part_such};
ghost use Rattle.discrim_tree.specs.Seeking.{passes};
ghost use Rattle.held_clauses.specs.Holding.{lent};

use derivation::sides;
use discrim_tree::Sought;
use fol_core::{Literal, Term};
use held_clauses::Held;
use std::alloc::{AllocError, Global};

/// Where in clauses a term is sought: among the atoms of literals of a sign, among the terms below atoms, variables left out,
/// or among the sides of positive equations.
#[derive(Drop)]
pub enum Part {
    Atoms(bool),
    Inside,
    Sides,
}

// Whether a term is sought, or one in it; variables aren't.
#[tactic(auto, using(crate::proofs::TermTests::term_here, crate::proofs::TermTests::term_behind, crate::proofs::TermTests::term_end))]
fn has_term(alloc: Global, sought: &Sought, t: &Term, term: &Term) -> Result<bool, AllocError>
    ensures { IfOk result (λ b. b ≡ has_term_such (passes sought.now (tree_of t.now))
        (tree_of term.now)) }
{
    match term {
        Term::Var(_) => Ok(false),
        Term::Elem(_) => sought.passes(alloc, t, term),
        Term::App(_, terms) => {
            if sought.passes(alloc, t, term)? {
                return Ok(true);
            }
            for term in &terms.items {
                if has_term(alloc, sought, t, term)? {
                    return Ok(true);
                }
            }
            Ok(false)
        }
    }
}

// Whether one below an atom is.
#[tactic(auto, using(crate::proofs::TermTests::term_here, crate::proofs::TermTests::term_behind, crate::proofs::TermTests::term_end))]
fn has_below(alloc: Global, sought: &Sought, t: &Term, atom: &Term) -> Result<bool, AllocError>
    ensures { IfOk result (λ b. b ≡ has_such_below (passes sought.now (tree_of t.now))
        (tree_of atom.now)) }
{
    match atom {
        Term::Var(_) => Ok(false),
        Term::Elem(_) => Ok(false),
        Term::App(_, terms) => {
            for term in &terms.items {
                if has_term(alloc, sought, t, term)? {
                    return Ok(true);
                }
            }
            Ok(false)
        }
    }
}

// Whether a side of a positive equation is.
fn has_side(alloc: Global, sought: &Sought, t: &Term, literal: &Literal) -> Result<bool, AllocError>
    ensures { IfOk result (λ b. b ≡ has_side_such (passes sought.now (tree_of t.now))
        (literal_of literal.now)) }
{
    if !literal.positive {
        return Ok(false);
    }
    let Some((left, right)) = sides(&literal.atom) else {
        return Ok(false);
    };
    if sought.passes(alloc, t, left)? {
        return Ok(true);
    }
    sought.passes(alloc, t, right)
}

// Whether a literal has a term there that is.
fn has_part(
    alloc: Global,
    part: &Part,
    sought: &Sought,
    t: &Term,
    literal: &Literal,
) -> Result<bool, AllocError>
    ensures { IfOk result (λ b. b ≡ has_such (passes sought.now (tree_of t.now)) part.now
        (literal_of literal.now)) }
{
    match part {
        Part::Atoms(sign) => {
            if *sign != literal.positive {
                return Ok(false);
            }
            sought.passes(alloc, t, &literal.atom)
        }
        Part::Inside => has_below(alloc, sought, t, &literal.atom),
        Part::Sides => has_side(alloc, sought, t, literal),
    }
}

// Whether a literal of a clause has such a term there.
#[tactic(auto, using(held_clauses::proofs::LiteralTests::some_here, held_clauses::proofs::LiteralTests::some_behind, held_clauses::proofs::LiteralTests::some_end))]
fn is_found(
    alloc: Global,
    part: &Part,
    sought: &Sought,
    t: &Term,
    held: &Held,
) -> Result<bool, AllocError>
    ensures { IfOk result (λ b. b ≡ has_part_such part.now (passes sought.now (tree_of t.now))
        held.now) }
{
    for literal in held.clause().as_slice() {
        if has_part(alloc, part, sought, t, literal)? {
            return Ok(true);
        }
    }
    Ok(false)
}

/// Those of the clauses that have such a literal.
pub fn all_found<'a>(
    alloc: Global,
    part: &Part,
    sought: &Sought,
    t: &Term,
    list: &[&'a Held],
) -> Result<Vec<&'a Held>, AllocError>
    ensures { IfOk result (λ hs. lent hs.items
        ≡ filter (has_part_such part.now (passes sought.now (tree_of t.now))) (lent list.now)) }
{
    let mut found = Vec::new(alloc);
    for held in list {
        if is_found(alloc, part, sought, t, held)? {
            found.push(*held)?;
        }
    }
    Ok(found)
}
