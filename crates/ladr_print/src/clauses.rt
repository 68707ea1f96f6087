// The texts of clauses.
ghost use Rattle.std.specs.Prelude.{◌≡◌, ◌<◌, ◌≤◌, ◌^◌, ◌++◌, ℕ, List, length, map, codes, IfOk, OnOk};
ghost use Rattle.fol_core.specs.ClauseView.{literal_of};
ghost use Rattle.fol_core.specs.RawView.{raw_of};
ghost use Rattle.fol_core.specs.Renumbered.{renumbered};
ghost use Rattle.ladr_print.specs.ClauseText.{literal_raw, clause_raw, bar, hash, clause_disjunction, clause_bytes, clause_in_front};
ghost use Rattle.ladr_print.specs.Precedences.{precedence};
ghost use Rattle.ladr_print.specs.RawText.{left_argument, right_argument, text_of, printed};
ghost use Rattle.ladr_print.specs.ReadsAs.{ReadsAs};
ghost use Rattle.ladr_print.specs.StatesAs.{KeepsFixed};
ghost use Rattle.ladr_print.specs.StatesClause.{StatesClause, FreesVariables};
ghost use Rattle.fol_core.specs.SymbolTable.{Symbol, KeepsNumbers};
ghost use Rattle.ladr_print.specs.ReadsAgain.{ReadsClause};
ghost use Rattle.ladr_formulas.specs.declared.styles.Style.{Style};
ghost use Rattle.ladr_print.specs.TermText.{clause_variable, naming_of};
ghost use Rattle.ladr_reader.specs.Table.{table_of};

use crate::formulas::denial;
use crate::precedences::{fits_left, fits_right};
use crate::raw::{argument, write};
use crate::terms::{Variables, term_raw};
use fol_core::{Clause, Literal, Raw, Symbols, renumber};
use ladr_lex::{Operator, OperatorKind, Ops};
use std::alloc::{AllocError, Global};

/// The text of a clause, its variables under the names of clauses by first occurrence. Where any text states the clause, the
/// printed one does too, behind the same table of symbols; the fixed symbols must be the operators that they are at the start,
/// and no name of a clause's variable an operator before its argument.
pub fn clause_text(
    alloc: Global,
    ops: &Ops,
    symbols: &Symbols,
    clause: &Clause,
    prolog: bool,
) -> Result<Vec<u8>, AllocError>
    ensures text { IfOk result (λ text. text.items
        ≡ clause_bytes (table_of ops.now) symbols.now (clause_variable prolog)
        (renumbered clause.now)) }
    ensures back { IfOk result (λ text. (other : List ℕ) (p : ℕ) → KeepsFixed ops.now →
        ReadsAs (table_of ops.now) other (clause_raw symbols.now (clause_variable prolog)
        (renumbered clause.now)) p →
        ReadsAs (table_of ops.now) text.items (clause_raw symbols.now (clause_variable prolog)
        (renumbered clause.now))
        (precedence (table_of ops.now) (clause_raw symbols.now (clause_variable prolog)
        (renumbered clause.now)))) }
    ensures states { IfOk result (λ text. (st : Style) (before : List Symbol) (other : List ℕ)
        → KeepsFixed ops.now → st.prolog ≡ prolog → FreesVariables prolog ops.now →
        (s : StatesClause (table_of ops.now) st before other clause.now symbols.now)
        → length s.names ≤ 2 ^ 64
        → StatesClause (table_of ops.now) st before text.items clause.now symbols.now) }
    // So it is whatever the size, behind the same table and behind this one, which may have more symbols at its end.
    ensures again { IfOk result (λ text. (st : Style) (before after : List Symbol) (other : List ℕ)
        (n : ℕ) →
        KeepsFixed ops.now → st.prolog ≡ prolog → FreesVariables prolog ops.now →
        ReadsClause (table_of ops.now) st before other clause.now after n →
        KeepsNumbers after symbols.now → length symbols.now < 2 ^ 64 → n ≤ 2 ^ 64 →
        ReadsClause (table_of ops.now) st before text.items clause.now after n
        × ReadsClause (table_of ops.now) st symbols.now text.items clause.now symbols.now n) }
{
    ops.rows_are_lawful();
    let clause = renumber(alloc, clause)?;
    let text = literals_text(alloc, ops, symbols, clause.as_slice(), prolog)?;
    Ok(text)
}

// The text of literals as a clause.
fn literals_text(
    alloc: Global,
    ops: &Ops,
    symbols: &Symbols,
    literals: &[Literal],
    prolog: bool,
) -> Result<Vec<u8>, AllocError>
    ensures { IfOk result (λ text. text.items
        ≡ clause_bytes (table_of ops.now) symbols.now (clause_variable prolog)
        (map literal_of literals.now)) }
{
    let mut out = Vec::new(alloc);
    let [first, rest @ ..] = literals else {
        out.extend_from_slice(b"$F")?;
        return Ok(out);
    };
    if rest.is_empty() {
        let raw = literal_raw(alloc, symbols, first, prolog)?;
        write(alloc, ops, &raw, &mut out)?;
        return Ok(out);
    }
    disjunction(alloc, ops, symbols, first, rest, prolog, &mut out)?;
    Ok(out)
}

/// The operator `|`.
fn bar() -> Operator
    ensures { result ≡ bar }
{
    Operator {
        precedence: 790,
        kind: OperatorKind::InfixRight,
    }
}

/// The operator `#`.
fn hash() -> Operator
    ensures { result ≡ hash }
{
    Operator {
        precedence: 810,
        kind: OperatorKind::InfixRight,
    }
}

/// The text of a clause as the left argument of `#`, its variables under the names of clauses by first occurrence.
pub fn clause_in_front(
    alloc: Global,
    ops: &Ops,
    symbols: &Symbols,
    clause: &Clause,
    prolog: bool,
) -> Result<Vec<u8>, AllocError>
    ensures { IfOk result (λ text. text.items
        ≡ clause_in_front (table_of ops.now) symbols.now (clause_variable prolog)
        (renumbered clause.now)) }
{
    let clause = renumber(alloc, clause)?;
    let text = literals_in_front(alloc, ops, symbols, clause.as_slice(), prolog)?;
    Ok(text)
}

// The text of literals as a clause there.
fn literals_in_front(
    alloc: Global,
    ops: &Ops,
    symbols: &Symbols,
    literals: &[Literal],
    prolog: bool,
) -> Result<Vec<u8>, AllocError>
    ensures { IfOk result (λ text. text.items
        ≡ clause_in_front (table_of ops.now) symbols.now (clause_variable prolog)
        (map literal_of literals.now)) }
{
    let mut out = Vec::new(alloc);
    let [first, rest @ ..] = literals else {
        out.extend_from_slice(b"$F")?;
        return Ok(out);
    };
    if rest.is_empty() {
        let raw = literal_raw(alloc, symbols, first, prolog)?;
        argument(alloc, ops, fits_left(ops, hash(), &raw), &raw, &mut out)?;
        return Ok(out);
    }
    disjunction(alloc, ops, symbols, first, rest, prolog, &mut out)?;
    Ok(out)
}

// A literal as a term as read.
fn literal_raw(
    alloc: Global,
    symbols: &Symbols,
    literal: &Literal,
    prolog: bool,
) -> Result<Raw, AllocError>
    ensures { IfOk result (λ raw. raw_of raw
        ≡ literal_raw symbols.now (clause_variable prolog) (literal_of literal.now)) }
{
    let atom = term_raw(alloc, symbols, Variables::Numbered(prolog), &literal.atom)?;
    if literal.positive {
        Ok(atom)
    } else {
        denial(alloc, atom)
    }
}

// Adds a literal with ` | ` behind it.
fn before_bar(
    alloc: Global,
    ops: &Ops,
    symbols: &Symbols,
    literal: &Literal,
    prolog: bool,
    out: &mut Vec<u8>,
) -> Result<(), AllocError>
    ensures { OnOk result (out.new.items ≡ out.old.items
        ++ (left_argument bar
        (printed (table_of ops.now)
        (literal_raw symbols.now (clause_variable prolog) (literal_of literal.now)))
        ++ codes " | ")) }
{
    let raw = literal_raw(alloc, symbols, literal, prolog)?;
    argument(alloc, ops, fits_left(ops, bar(), &raw), &raw, out)?;
    out.extend_from_slice(b" | ")
}

// Adds the last literal.
fn behind_bar(
    alloc: Global,
    ops: &Ops,
    symbols: &Symbols,
    literal: &Literal,
    prolog: bool,
    out: &mut Vec<u8>,
) -> Result<(), AllocError>
    ensures { OnOk result (out.new.items ≡ out.old.items
        ++ right_argument bar
        (printed (table_of ops.now)
        (literal_raw symbols.now (clause_variable prolog) (literal_of literal.now)))) }
{
    let raw = literal_raw(alloc, symbols, literal, prolog)?;
    argument(alloc, ops, fits_right(ops, bar(), &raw), &raw, out)
}

// Adds the text of a literal and more behind it.
fn disjunction(
    alloc: Global,
    ops: &Ops,
    symbols: &Symbols,
    first: &Literal,
    rest: &[Literal],
    prolog: bool,
    out: &mut Vec<u8>,
) -> Result<(), AllocError>
    ensures { OnOk result (out.new.items ≡ out.old.items
        ++ clause_disjunction (table_of ops.now) symbols.now (clause_variable prolog)
        (literal_of first.now) (map literal_of rest.now)) }
{
    let mut literal = first;
    for next in rest {
        before_bar(alloc, ops, symbols, literal, prolog, out)?;
        literal = next;
    }
    behind_bar(alloc, ops, symbols, literal, prolog, out)
}
