// The clauses of all formulas of a problem.
ghost use Rattle.std.specs.Prelude.{◌≡◌, ◌+◌, [], ◌∷◌, ◌++◌, length, IfOk, OnOk, map};
ghost use Rattle.answers.specs.AnswerTrees as trees;
ghost use Rattle.answers.specs.AnswerView.{answers_of};
ghost use Rattle.fol_core.specs.EntryView.{skolem_axiom_of, some_over};
ghost use Rattle.fol_core.specs.FormulaView.{fol_of};
ghost use Rattle.fol_core.specs.Free.{closed_over};
ghost use Rattle.fol_core.specs.Renumbered.{renumbered};
ghost use Rattle.fol_core.specs.Tree.{var, trees_of};
ghost use Rattle.clausify.specs.AskedForms.{asked_by, terms_behind, terms_in};
ghost use Rattle.clausify.specs.Clausal.{clauses_in};
ghost use Rattle.clausify.specs.Fronts.{normal_of};
ghost use Rattle.clausify.specs.Input.{axioms_in, rows_in};
ghost use Rattle.clausify.specs.Made.{clauses_at, LeadsWork, Notes};
ghost use Rattle.clausify.specs.Skolem.{somes, skolem_axioms};

use crate::clausal::{Work, begin, body_of, clauses};
use crate::normal::Normal;
use answers::{Answer, numbered_with};
use fol_core::{Clause, Entry, Shape, Term, Terms, renumber};
use std::alloc::{AllocError, Global};

// Notes a Skolem constant for each variable that is bound around a form; those behind it are bound
// in its body.
fn begin_all(
    alloc: Global,
    symbols: &[u64],
    shape: &Shape,
    variables: &[u64],
    work: &mut Work,
) -> Result<(), AllocError>
    ensures { OnOk result (LeadsWork symbols.now work.old work.new
        (some_over variables.now (fol_of shape.now)) (fol_of shape.now)) }
{
    for place in 0..variables.len() {
        let bound = Vec::from_slice(alloc, &variables[place + 1..])?;
        let body = body_of(alloc, shape, work)?;
        begin(alloc, symbols, variables[place], bound, body, work)?;
    }
    Ok(())
}

// The clauses of a form in front of which universal quantifiers stand.
fn closed_clauses(
    alloc: Global,
    symbols: &[u64],
    shape: &Shape,
    variables: &[u64],
    work: &mut Work,
) -> Result<Vec<Clause>, AllocError>
    requires { work.old.scope.items ≡ [] }
    ensures clauses { IfOk result (λ all. all.items
        ≡ clauses_at symbols.now work.old (closed_over variables.now (fol_of shape.now))) }
    ensures notes { OnOk result (Notes symbols.now work.old work.new
        (closed_over variables.now (fol_of shape.now))) }
{
    let scope = Vec::from_slice(alloc, variables)?;
    work.scope = scope;
    let found = clauses(alloc, symbols, shape, work)?;
    Ok(found)
}

// The clauses of a form in front of which existential quantifiers stand.
fn clauses_under_some(
    alloc: Global,
    symbols: &[u64],
    shape: &Shape,
    variables: &[u64],
    work: &mut Work,
) -> Result<Vec<Clause>, AllocError>
    ensures clauses { IfOk result (λ all. all.items
        ≡ clauses_at symbols.now work.old (some_over variables.now (fol_of shape.now))) }
    ensures notes { OnOk result (Notes symbols.now work.old work.new
        (some_over variables.now (fol_of shape.now))) }
{
    begin_all(alloc, symbols, shape, variables, work)?;
    let found = clauses(alloc, symbols, shape, work)?;
    Ok(found)
}

// The clauses of a form with its quantifiers in front.
fn normal_clauses(
    alloc: Global,
    symbols: &[u64],
    normal: &Normal,
    work: &mut Work,
) -> Result<Vec<Clause>, AllocError>
    requires scope { work.old.scope.items ≡ [] }
    ensures clauses { IfOk result (λ all. all.items
        ≡ clauses_at symbols.now work.old (normal_of normal.now)) }
    ensures notes { OnOk result (Notes symbols.now work.old work.new (normal_of normal.now)) }
{
    let Normal {
        plain,
        variables,
        shape,
        ..
    } = normal;
    if *plain {
        closed_clauses(alloc, symbols, shape, variables, work)
    } else {
        clauses_under_some(alloc, symbols, shape, variables, work)
    }
}

// The variables that are asked for, as terms.
fn variable_terms(alloc: Global, asked: &[u64]) -> Result<Terms, AllocError>
    ensures { IfOk result (λ ts. ts ≡ map var asked.now) }
{
    let mut terms = Terms::with_capacity(alloc, asked.len())?;
    for x in asked {
        terms.push(Term::Var(*x))?;
    }
    Ok(terms)
}

// The answer that is asked for, alone.
fn asking(alloc: Global, asked: &[u64]) -> Result<Vec<Answer>, AllocError>
    ensures { IfOk result (λ us. answers_of us.items
        ≡ trees.answer 0 (trees_of (map var asked.now)) ∷ []) }
{
    let terms = variable_terms(alloc, asked)?;
    let mut answers = Vec::new(alloc);
    answers.push(Answer { goal: 0, terms })?;
    Ok(answers)
}

// The terms of a single answer.
#[tactic(auto, using(crate::proofs::Asks::only_last))]
fn terms_alone(alloc: Global, answers: Vec<Answer>) -> Terms
    ensures { (u : trees.Answer) → answers_of answers.items ≡ u ∷ [] → trees_of result ≡ u.terms }
{
    let mut answers = answers;
    match answers.pop() {
        Some(answer) => answer.terms,
        None => Terms::new(alloc),
    }
}

// A clause numbered anew with the terms of its answer behind it.
fn numbered_asking(
    alloc: Global,
    clause: &Clause,
    asked: &[u64],
) -> Result<(Clause, Terms), AllocError>
    ensures clause { IfOk result (λ r. r.0 ≡ renumbered clause.now) }
    ensures terms { IfOk result (λ r. trees_of r.1 ≡ terms_behind asked.now clause.now) }
{
    let answers = asking(alloc, asked)?;
    let (clause, behind) = numbered_with(alloc, clause.copy(alloc)?, answers)?;
    let terms = terms_alone(alloc, behind);
    Ok((clause, terms))
}

// A clause numbered anew, and the terms of its answer: none where nothing is asked for.
fn numbered(alloc: Global, clause: &Clause, asked: &[u64]) -> Result<(Clause, Terms), AllocError>
    ensures clause { IfOk result (λ r. r.0 ≡ renumbered clause.now) }
    ensures terms { IfOk result (λ r. trees_of r.1 ≡ terms_behind asked.now clause.now) }
{
    if asked.is_empty() {
        let clause = renumber(alloc, clause)?;
        return Ok((clause, Terms::new(alloc)));
    }
    numbered_asking(alloc, clause, asked)
}

// Adds renumbered clauses with the number of their formula, and the terms of their answers.
fn add_rows(
    alloc: Global,
    number: u64,
    clauses: &[Clause],
    asked: &[u64],
    rows: &mut Vec<(u64, Clause)>,
    answers: &mut Vec<Terms>,
) -> Result<(), AllocError>
    ensures rows { OnOk result (rows.new.items ≡ rows.old.items
        ++ map (λ c. (number, renumbered c)) clauses.now) }
    ensures answers { OnOk result (map trees_of answers.new.items
        ≡ map trees_of answers.old.items ++ map (terms_behind asked.now) clauses.now) }
{
    for clause in clauses {
        let (clause, terms) = numbered(alloc, clause, asked)?;
        rows.push((number, clause))?;
        answers.push(terms)?;
    }
    Ok(())
}

// Adds the clauses of a form with the terms of their answers, and its Skolem symbols.
fn add_normal(
    alloc: Global,
    symbols: &[u64],
    number: u64,
    normal: &Normal,
    rows: &mut Vec<(u64, Clause)>,
    answers: &mut Vec<Terms>,
    entries: Vec<Entry>,
) -> Result<Vec<Entry>, AllocError>
    ensures rows { OnOk result (rows.new.items ≡ rows.old.items
        ++ map (λ c. (number, renumbered c))
        (clauses_in symbols.now (length entries.items) [] var (normal_of normal.now))) }
    ensures answers { OnOk result (map trees_of answers.new.items ≡ map trees_of answers.old.items
        ++ map (terms_behind (asked_by normal.now))
        (clauses_in symbols.now (length entries.items) [] var (normal_of normal.now))) }
    ensures entries { IfOk result (λ all. map skolem_axiom_of all.items
        ≡ map skolem_axiom_of entries.items
        ++ skolem_axioms symbols.now (length entries.items) [] var (normal_of normal.now)) }
    ensures count { IfOk result (λ all. length all.items
        ≡ length entries.items + somes (normal_of normal.now)) }
{
    let mut work = Work {
        scope: Vec::new(alloc),
        terms: Vec::new(alloc),
        entries,
    };
    let found = normal_clauses(alloc, symbols, normal, &mut work)?;
    add_rows(alloc, number, &found, &normal.asked, rows, answers)?;
    let Work { entries, .. } = work;
    Ok(entries)
}

/// The clauses of forms, each with the number of its formula, the terms of the answer of each, and the Skolem symbols.
#[derive(Drop)]
pub struct Rows {
    pub clauses: Vec<(u64, Clause)>,
    pub answers: Vec<Terms>,
    pub skolem: Vec<Entry>,
}

/// The clauses of the formulas with these forms.
#[tactic(auto, using(crate::proofs::Rows::rows_next, crate::proofs::Rows::rows_end, crate::proofs::Rows::axioms_next, crate::proofs::Rows::axioms_end, crate::proofs::Asks::terms_next, crate::proofs::Asks::terms_end))]
pub fn all_clauses(alloc: Global, symbols: &[u64], normals: &[Normal]) -> Result<Rows, AllocError>
    ensures rows { IfOk result (λ all. all.clauses.items
        ≡ rows_in symbols.now 1 0 (map normal_of normals.now)) }
    ensures answers { IfOk result (λ all. map trees_of all.answers.items
        ≡ terms_in symbols.now 0 normals.now) }
    ensures witnesses { IfOk result (λ all. map skolem_axiom_of all.skolem.items
        ≡ axioms_in symbols.now 0 (map normal_of normals.now)) }
{
    let mut rows = Vec::new(alloc);
    let mut answers = Vec::new(alloc);
    let mut entries = Vec::new(alloc);
    for (place, normal) in normals.iter().enumerate() {
        let number = place as u64 + 1;
        entries = add_normal(
            alloc,
            symbols,
            number,
            normal,
            &mut rows,
            &mut answers,
            entries,
        )?;
    }
    Ok(Rows {
        clauses: rows,
        answers,
        skolem: entries,
    })
}
