// The lines of formulas and of their clauses, and lines that were made.
ghost use Rattle.std.specs.Prelude.{◌≡◌, IfOk};
ghost use Rattle.clause_store.specs.Lines.{plain_line, formula_line, stating_word, IsUnnoted};
ghost use Rattle.fol_problem.specs.Stated.{all_said};
ghost use Rattle.proof_words.specs.Written.{written_first};
ghost use Rattle.prover_proofs.specs.SearchLines.{role_at, clausal_word_at, clausal_line, numbered_line};

use clause_store::{copy_just, copy_label};
use derivation::{Content, First, Just, Line, LineNotes};
use fol_core::Clause;
use fol_problem::{Input, Role};
use held_clauses::MadeLine;
use std::alloc::{AllocError, Global};

/// The role of the formula of a number, counted from 1.
pub fn role_at(inputs: &[Input], number: u64) -> Role
    ensures { result ≡ role_at (all_said inputs.now) number }
{
    if number == 0 {
        return Role::Assumption;
    }
    match inputs.get((number - 1) as usize) {
        Some(input) => input.role,
        None => Role::Assumption,
    }
}

// The word of a clause of this formula.
fn clausal_word(inputs: &[Input], number: u64) -> First
    ensures { written_first result ≡ clausal_word_at (all_said inputs.now) number }
{
    match role_at(inputs, number) {
        Role::Goal => First::Deny(number),
        Role::Assumption | Role::Usable | Role::Demodulator => First::Clausify(number),
    }
}

// The word of a formula.
fn stating_word(role: Role) -> First
    ensures { written_first result ≡ stating_word role }
{
    match role {
        Role::Goal => First::Goal,
        Role::Assumption | Role::Usable | Role::Demodulator => First::Assumption,
    }
}

/// The line of a formula.
pub fn formula_line(alloc: Global, number: u64, input: &Input) -> Result<Line, AllocError>
    ensures line { IfOk result (λ l. plain_line l ≡ formula_line number input.now) }
    ensures notes { IfOk result (λ l. IsUnnoted l) }
{
    let first = stating_word(input.role);
    let formula = input.formula.copy(alloc)?;
    let label = copy_label(alloc, &input.label)?;
    Ok(Line {
        number,
        content: Content::Formula(formula, label),
        just: Just {
            first,
            steps: Vec::new(alloc),
        },
        notes: LineNotes::none(alloc),
    })
}

/// The line of a clause of a formula.
pub fn clausal_line(
    alloc: Global,
    inputs: &[Input],
    number: u64,
    row: &(u64, Clause),
) -> Result<Line, AllocError>
    ensures line { IfOk result (λ l. plain_line l ≡ clausal_line (all_said inputs.now) number row.now) }
    ensures notes { IfOk result (λ l. IsUnnoted l) }
{
    let first = clausal_word(inputs, row.0);
    let clause = row.1.copy(alloc)?;
    Ok(Line {
        number,
        content: Content::Clause(clause),
        just: Just {
            first,
            steps: Vec::new(alloc),
        },
        notes: LineNotes::none(alloc),
    })
}

/// A line that was made.
pub fn numbered_line(alloc: Global, number: u64, line: &MadeLine) -> Result<Line, AllocError>
    ensures line { IfOk result (λ l. plain_line l ≡ numbered_line number line.now) }
    ensures notes { IfOk result (λ l. IsUnnoted l) }
{
    let clause = line.clause.copy(alloc)?;
    let just = copy_just(alloc, &line.just)?;
    Ok(Line {
        number,
        content: Content::Clause(clause),
        just,
        notes: LineNotes::none(alloc),
    })
}
