// The clauses of formulas.
ghost use Rattle.std.specs.Prelude.{◌≡◌, ◌++◌, [], ◌∷◌, IfOk, OnOk, if◌then◌else◌, true, false, slice_index};
ghost use Rattle.fol_core.specs.EntryView.{some_over};
ghost use Rattle.fol_core.specs.Fol.{forall, exists};
ghost use Rattle.fol_core.specs.FormulaView.{fol_of};
ghost use Rattle.fol_core.specs.Literals.{literal};
ghost use Rattle.fol_core.specs.TermView.{tree_of};
ghost use Rattle.clausify.specs.Clausal.{with_each, distributed, literal_clauses};
ghost use Rattle.clausify.specs.Made.{clauses_at, Works, BeginsWork};
ghost use Rattle.clausify.specs.Skolem.{skolem_term, substitute_in};
ghost use Rattle.clausify.specs.View.{substitution_kept};

use crate::substitution::{rows_of, substitute, substitute_all, substitute_in};
use fol_core::{Clause, EQ, Entry, Literal, Shape, Sub, Sym, Term, Terms};
use std::alloc::{AllocError, Global};

/// Where the making of clauses stands.
#[derive(Drop)]
pub struct Work {
    // The universal variables around, outermost first.
    pub scope: Vec<u64>,
    // The Skolem terms of the existential variables around.
    pub terms: Vec<(u64, Term)>,
    // The Skolem symbols that were put in so far.
    pub entries: Vec<Entry>,
}

// The clauses of one list, and then those of another.
fn joined(mut left: Vec<Clause>, mut right: Vec<Clause>) -> Result<Vec<Clause>, AllocError>
    ensures { IfOk result (λ all. all.items ≡ left.items ++ right.items) }
{
    left.append(&mut right)?;
    Ok(left)
}

// Adds the literals of a clause and of each of some others.
#[tactic(auto, using(crate::proofs::Crossing::each_next, crate::proofs::Crossing::each_end))]
fn add_each(
    alloc: Global,
    clause: &Clause,
    others: &[Clause],
    found: &mut Vec<Clause>,
) -> Result<(), AllocError>
    ensures { OnOk result (found.new.items ≡ found.old.items ++ with_each clause.now others.now) }
{
    for other in others {
        let mut both = clause.copy(alloc)?;
        both.append(alloc, other)?;
        found.push(both)?;
    }
    Ok(())
}

// For each clause of one list and each of another the literals of both.
#[tactic(auto, using(crate::proofs::Crossing::crossed_next, crate::proofs::Crossing::crossed_end))]
fn distributed(alloc: Global, left: &[Clause], right: &[Clause]) -> Result<Vec<Clause>, AllocError>
    ensures { IfOk result (λ all. all.items ≡ distributed left.now right.now) }
{
    let mut found = Vec::new(alloc);
    for clause in left {
        add_each(alloc, clause, right, &mut found)?;
    }
    Ok(found)
}

// No clause, or the empty one.
fn constant(alloc: Global, is_true: bool) -> Result<Vec<Clause>, AllocError>
    ensures { IfOk result (λ all. all.items ≡ (if is_true then [] else [] ∷ [])) }
{
    let mut clauses = Vec::new(alloc);
    if !is_true {
        clauses.push(Clause::new(alloc))?;
    }
    Ok(clauses)
}

// The clause with one literal.
fn unit(alloc: Global, positive: bool, atom: Term) -> Result<Vec<Clause>, AllocError>
    ensures { IfOk result (λ all. all.items ≡ (literal positive (tree_of atom) ∷ []) ∷ []) }
{
    let mut clause = Clause::new(alloc);
    clause.push(Literal { positive, atom })?;
    let mut clauses = Vec::new(alloc);
    clauses.push(clause)?;
    Ok(clauses)
}

// The clauses of an atom or its denial.
fn literal(
    alloc: Global,
    positive: bool,
    shape: &Shape,
    terms: &[(u64, Term)],
) -> Result<Vec<Clause>, AllocError>
    ensures { IfOk result (λ all. all.items ≡ literal_clauses (substitution_kept terms.now) positive
        (fol_of shape.now)) }
{
    match shape {
        Shape::True => constant(alloc, positive),
        Shape::False => constant(alloc, !positive),
        Shape::Eq(equation) => {
            let rows = rows_of(alloc, terms)?;
            let mut sides = Terms::new(alloc);
            sides.push(substitute(alloc, equation.left(), &rows)?)?;
            sides.push(substitute(alloc, equation.right(), &rows)?)?;
            unit(alloc, positive, Term::App(EQ, sides))
        }
        Shape::Atom(r, arguments) => {
            let rows = rows_of(alloc, terms)?;
            let arguments = substitute_all(alloc, arguments, &rows)?;
            unit(alloc, positive, Term::App(*r, arguments))
        }
        _ => Ok(Vec::new(alloc)),
    }
}

// The Skolem term of a symbol: it is applied to the variables in scope.
fn skolem_term(alloc: Global, symbol: Sym, scope: &[u64]) -> Result<Term, AllocError>
    ensures { IfOk result (λ t. tree_of t ≡ skolem_term symbol.0 scope.now) }
{
    let mut variables = Terms::new(alloc);
    for x in scope {
        variables.push(Term::Var(*x))?;
    }
    Ok(Term::App(symbol, variables))
}

// The Skolem symbol of the next existential variable.
fn symbol_at(symbols: &[u64], place: usize) -> Sym
    ensures { result.0 ≡ slice_index symbols.now place }
{
    match symbols.get(place) {
        Some(symbol) => Sym(*symbol),
        None => Sym(0),
    }
}

/// A formula with the Skolem terms put in for the existential variables around.
pub fn body_of(alloc: Global, shape: &Shape, work: &Work) -> Result<Shape, AllocError>
    ensures { IfOk result (λ f. fol_of f
        ≡ substitute_in (substitution_kept work.now.terms.items) (fol_of shape.now)) }
{
    let rows = rows_of(alloc, &work.terms)?;
    substitute_in(alloc, shape, &rows)
}

// Notes the Skolem symbol of an existential variable, in whose body further ones are bound around a formula, and puts its term
// in for it from now on.
pub fn begin(
    alloc: Global,
    symbols: &[u64],
    variable: u64,
    bound: Vec<u64>,
    body: Shape,
    work: &mut Work,
) -> Result<(), AllocError>
    ensures { OnOk result (BeginsWork symbols.now work.old work.new variable
        (some_over bound.items (fol_of body))) }
{
    let symbol = symbol_at(symbols, work.entries.len());
    let term = skolem_term(alloc, symbol, &work.scope)?;
    let variables = Vec::from_slice(alloc, &work.scope)?;
    let entry = Entry {
        symbol,
        variables,
        variable,
        bound,
        body,
    };
    work.entries.push(entry)?;
    work.terms.push((variable, term))?;
    Ok(())
}

/// The clauses of a negation normal form.
#[cycle(clausal)]
pub fn clauses(
    alloc: Global,
    symbols: &[u64],
    shape: &Shape,
    work: &mut Work,
) -> Result<Vec<Clause>, AllocError>
    ensures clauses { IfOk result (λ all. all.items
        ≡ clauses_at symbols.now work.old (fol_of shape.now)) }
    ensures works { OnOk result (Works symbols.now work.old work.new (fol_of shape.now)) }
{
    match shape {
        Shape::Not(f) => literal(alloc, false, &f.shape, &work.terms),
        Shape::And(f, g) => {
            let left = part(alloc, symbols, f, work)?;
            let right = part(alloc, symbols, g, work)?;
            joined(left, right)
        }
        Shape::Or(f, g) => {
            let left = part(alloc, symbols, f, work)?;
            let right = part(alloc, symbols, g, work)?;
            distributed(alloc, &left, &right)
        }
        Shape::All(x, f) => under_every(alloc, symbols, *x, f, work),
        Shape::Exists(x, f) => under_some(alloc, symbols, *x, f, work),
        _ => literal(alloc, true, shape, &work.terms),
    }
}

// Those of a part.
#[cycle(clausal)]
fn part(
    alloc: Global,
    symbols: &[u64],
    sub: &Sub,
    work: &mut Work,
) -> Result<Vec<Clause>, AllocError>
    ensures clauses { IfOk result (λ all. all.items ≡ clauses_at symbols.now work.old sub.now) }
    ensures works { OnOk result (Works symbols.now work.old work.new sub.now) }
{
    clauses(alloc, symbols, &sub.shape, work)
}

// Those of a part under a universal variable.
#[cycle(clausal)]
fn under_every(
    alloc: Global,
    symbols: &[u64],
    x: u64,
    sub: &Sub,
    work: &mut Work,
) -> Result<Vec<Clause>, AllocError>
    ensures clauses { IfOk result (λ all. all.items
        ≡ clauses_at symbols.now work.old (forall x sub.now)) }
    ensures works { OnOk result (Works symbols.now work.old work.new (forall x sub.now)) }
{
    work.scope.push(x)?;
    let found = part(alloc, symbols, sub, work)?;
    work.scope.pop();
    Ok(found)
}

// Those of a part under an existential variable.
#[cycle(clausal)]
fn under_some(
    alloc: Global,
    symbols: &[u64],
    x: u64,
    sub: &Sub,
    work: &mut Work,
) -> Result<Vec<Clause>, AllocError>
    ensures clauses { IfOk result (λ all. all.items
        ≡ clauses_at symbols.now work.old (exists x sub.now)) }
    ensures works { OnOk result (Works symbols.now work.old work.new (exists x sub.now)) }
{
    let body = body_of(alloc, &sub.shape, work)?;
    begin(alloc, symbols, x, Vec::new(alloc), body, work)?;
    let found = part(alloc, symbols, sub, work)?;
    work.terms.pop();
    Ok(found)
}
