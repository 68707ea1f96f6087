// The texts of clauses with answers.
ghost use Rattle.std.specs.Prelude.{◌≡◌, ◌++◌, IfOk, OnOk};
ghost use Rattle.answers.specs.AnswerTrees.{numbered_answers};
ghost use Rattle.answers.specs.AnswerView.{answer_of, answers_of};
ghost use Rattle.fol_core.specs.Renumbered.{renumbered};
ghost use Rattle.fol_core.specs.TermView.{tree_list};
ghost use Rattle.fol_core.specs.Tree.{trees_of};
ghost use Rattle.ladr_lex.specs.ClauseNames.{clause_variable};
ghost use Rattle.ladr_print.specs.ClauseText.{clause_in_front};
ghost use Rattle.ladr_print.specs.RawText.{further, printed_all};
ghost use Rattle.ladr_print.specs.TermText.{terms_raw};
ghost use Rattle.ladr_reader.specs.Table.{table_of};
ghost use Rattle.proof_print.specs.AnsweredTexts.{answer_bytes, answers_bytes, answered_bytes};

use answers::{Answer, copy_answers, numbered_with};
use fol_core::{Clause, Symbols, Term};
use ladr_lex::Ops;
use ladr_output::decimal;
use ladr_print::{clause_in_front, clause_text, term_text};
use std::alloc::{AllocError, Global};

// Adds terms, each behind a comma.
fn add_terms(
    alloc: Global,
    ops: &Ops,
    symbols: &Symbols,
    prolog: bool,
    terms: &[Term],
    out: &mut Vec<u8>,
) -> Result<(), AllocError>
    ensures { OnOk result (out.new.items ≡ out.old.items
        ++ further (printed_all (table_of ops.now)
        (terms_raw symbols.now (clause_variable prolog) (trees_of (tree_list terms.now))))) }
{
    for term in terms {
        let text = term_text(alloc, ops, symbols, term, prolog)?;
        out.push(b',')?;
        out.extend_from_slice(&text)?;
    }
    Ok(())
}

// Adds an answer.
fn add_answer(
    alloc: Global,
    ops: &Ops,
    symbols: &Symbols,
    prolog: bool,
    answer: &Answer,
    out: &mut Vec<u8>,
) -> Result<(), AllocError>
    ensures { OnOk result (out.new.items ≡ out.old.items
        ++ answer_bytes (table_of ops.now) symbols.now (clause_variable prolog)
        (answer_of answer.now)) }
{
    out.extend_from_slice(b"answer(")?;
    decimal(out, answer.goal)?;
    add_terms(alloc, ops, symbols, prolog, answer.terms.as_slice(), out)?;
    out.extend_from_slice(b")")
}

// Adds answers, each behind a `#`.
fn add_answers(
    alloc: Global,
    ops: &Ops,
    symbols: &Symbols,
    prolog: bool,
    answers: &[Answer],
    out: &mut Vec<u8>,
) -> Result<(), AllocError>
    ensures { OnOk result (out.new.items ≡ out.old.items
        ++ answers_bytes (table_of ops.now) symbols.now (clause_variable prolog)
        (answers_of answers.now)) }
{
    for answer in answers {
        out.extend_from_slice(b" # ")?;
        add_answer(alloc, ops, symbols, prolog, answer, out)?;
    }
    Ok(())
}

// The text of a clause with answers, one at least, which are numbered with it.
fn text_before(
    alloc: Global,
    ops: &Ops,
    symbols: &Symbols,
    prolog: bool,
    clause: &Clause,
    answers: &[Answer],
) -> Result<Vec<u8>, AllocError>
    ensures { IfOk result (λ text. text.items ≡ clause_in_front (table_of ops.now) symbols.now
        (clause_variable prolog) (renumbered clause.now)
        ++ answers_bytes (table_of ops.now) symbols.now (clause_variable prolog)
        (numbered_answers clause.now (answers_of answers.now))) }
{
    let copy = clause.copy(alloc)?;
    let copies = copy_answers(alloc, answers)?;
    let (_numbered, behind) = numbered_with(alloc, copy, copies)?;
    let mut out = clause_in_front(alloc, ops, symbols, clause, prolog)?;
    add_answers(alloc, ops, symbols, prolog, &behind, &mut out)?;
    Ok(out)
}

/// The text of a clause with its answers behind it; the variables of both are numbered, those of the clause first.
pub fn answered_text(
    alloc: Global,
    ops: &Ops,
    symbols: &Symbols,
    prolog: bool,
    clause: &Clause,
    answers: &[Answer],
) -> Result<Vec<u8>, AllocError>
    ensures { IfOk result (λ text. text.items
        ≡ answered_bytes (table_of ops.now) symbols.now (clause_variable prolog)
        (renumbered clause.now) (numbered_answers clause.now (answers_of answers.now))) }
{
    if answers.is_empty() {
        clause_text(alloc, ops, symbols, clause, prolog)
    } else {
        text_before(alloc, ops, symbols, prolog, clause, answers)
    }
}
