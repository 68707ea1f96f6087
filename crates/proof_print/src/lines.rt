// The text of a line.
ghost use Rattle.std.specs.Prelude.{◌≡◌, ◌++◌, IfOk, OnOk};
ghost use Rattle.proof_lines.specs.ContentTokens.{tables_of};
ghost use Rattle.proof_print.specs.LineTexts.{content_text, line_text, lines_text};

use derivation::{Content, Line};
use fol_core::{RawSub, Symbols};
use ladr_output::decimal;
use ladr_print::{clause_text, formula_text};
use proof_lines::LineOperators;
use std::alloc::{AllocError, Global};
use words_print::add_words;

// The text of a line's formula or clause.
fn content_text(
    alloc: Global,
    operators: &LineOperators,
    symbols: &Symbols,
    prolog: bool,
    content: &Content,
) -> Result<Vec<u8>, AllocError>
    ensures { IfOk result (λ text. text.items
        ≡ content_text (tables_of operators.now) symbols.now prolog content.now) }
{
    match content {
        Content::Formula(formula, label) => {
            let label = label.as_ref().map(RawSub::raw);
            formula_text(alloc, &operators.formulas, symbols, formula, label)
        }
        Content::Clause(clause) => {
            clause_text(alloc, &operators.clauses, symbols, clause, prolog)
        }
    }
}

// Adds a line: its number, its content and its words.
fn add_line(
    alloc: Global,
    operators: &LineOperators,
    symbols: &Symbols,
    prolog: bool,
    line: &Line,
    out: &mut Vec<u8>,
) -> Result<(), AllocError>
    ensures { OnOk result (out.new.items ≡ out.old.items
        ++ line_text (tables_of operators.now) symbols.now prolog line.now) }
{
    let content = content_text(alloc, operators, symbols, prolog, &line.content)?;
    decimal(out, line.number)?;
    out.extend_from_slice(b" ")?;
    out.extend_from_slice(&content)?;
    out.extend_from_slice(b".  ")?;
    add_words(out, &line.just)?;
    out.extend_from_slice(b"\n")
}

/// Adds lines, one behind the other.
pub fn add_lines(
    alloc: Global,
    operators: &LineOperators,
    symbols: &Symbols,
    prolog: bool,
    lines: &[Line],
    out: &mut Vec<u8>,
) -> Result<(), AllocError>
    ensures { OnOk result (out.new.items ≡ out.old.items
        ++ lines_text (tables_of operators.now) symbols.now prolog lines.now) }
{
    for next in lines {
        add_line(alloc, operators, symbols, prolog, next, out)?;
    }
    Ok(())
}
