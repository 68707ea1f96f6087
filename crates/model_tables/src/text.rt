// The text of an interpretation.
ghost use Rattle.std.specs.Prelude.{◌≡◌, ◌<◌, ◌==◌, ◌||◌, ◌++◌, not, length, OnOk, IfOk};
ghost use Rattle.fol_core.specs.SymbolTable.{name_at, arity_at};
ghost use Rattle.model_tables.specs.ModelText.{entry_line, lines_end, entries_of, entry_lines, model_text};

use crate::entries::{put_end, put_entry, text_beginning};
use crate::tables::{TableRow, Tables};
use fol_core::{Sym, Symbols};
use std::alloc::{AllocError, Global};

/// The text of tables for these symbols, as model number k: an entry for each symbol that has values.
pub fn interpretation_text(
    alloc: Global,
    tables: &Tables,
    symbols: &Symbols,
    k: u64,
) -> Result<Vec<u8>, AllocError>
    ensures { IfOk result (λ text. text.items ≡ model_text symbols.now k tables.now) }
{
    let mut out = text_beginning(alloc, tables.size(), k)?;
    let before = entries(&mut out, symbols, tables.rows())?;
    put_end(&mut out, before)?;
    Ok(out)
}

// The lines of the entries of the symbols that have values, without the end of the last, and whether there are any.
fn entries(out: &mut Vec<u8>, symbols: &Symbols, rows: &[TableRow]) -> Result<bool, AllocError>
    ensures { IfOk result (λ before. out.new.items ++ lines_end before
        ≡ out.old.items ++ entry_lines (entries_of symbols.now rows.now)) }
{
    let mut before = false;
    for number in 0..rows.len().min(symbols.len()) {
        before = line(out, symbols, Sym(number as u64), &rows[number], before)?;
    }
    Ok(before)
}

// A line for the entry of a symbol that has values, and whether there is an entry now.
fn line(
    out: &mut Vec<u8>,
    symbols: &Symbols,
    symbol: Sym,
    row: &TableRow,
    before: bool,
) -> Result<bool, AllocError>
    requires { symbol.0 < length symbols.now }
    ensures text { OnOk result (out.new.items ≡ out.old.items
        ++ entry_line before (name_at symbols.now symbol.0) (arity_at symbols.now symbol.0)
        row.now) }
    ensures now { IfOk result (λ now. now ≡ (before || not (length row.now.values == 0))) }
{
    if row.is_empty() {
        return Ok(before);
    }
    let arity = symbols.arity(symbol);
    put_entry(
        out,
        before,
        symbols.name(symbol),
        arity,
        row.kind,
        &row.values,
    )?;
    Ok(true)
}
