// How many cells and ground literals there are, before any of them is built.
ghost use Rattle.std.specs.Prelude.{◌≡◌, ◌^◌, ◌-◌, ◌<◌, min, length, map};
ghost use Rattle.std.specs.List.{AllByRecursion};
ghost use Rattle.fol_core.specs.SymbolTable.{arity_at};
ghost use Rattle.mace_ground.specs.Cells.{blocks_of, cells_in};
ghost use Rattle.mace_ground.specs.Count.{blocks_in, cell_symbols, clause_trees, ground_count};
ghost use Rattle.mace_ground.specs.Instances.{ground_literals};

use crate::variables::variables_in;
use fol_core::{Clause, Clauses, Entry, Sym, Symbols};

/// How many cells and ground literals the clauses of a problem have where there are `size` elements, or the greatest number if
/// there are more. `symbols` is the table that the clauses' symbols stand in.
pub fn count(clauses: &Clauses, symbols: &Symbols, size: u32) -> u128
    ensures { result ≡ min (ground_count size symbols.now clauses.now) (2 ^ 128 - 1) }
{
    let cells = formula_cells(&clauses.symbols, symbols, size);
    let skolem = skolem_cells(&clauses.skolem, symbols, size);
    cells
        .saturating_add(skolem)
        .saturating_add(literals(&clauses.clauses, size))
}

// The cells of the symbols of the formulas.
fn formula_cells(used: &[Sym], symbols: &Symbols, size: u32) -> u128
    ensures { result ≡ min (cells_in size (blocks_of symbols.now (map (λ s. s.0) used.now)))
        (2 ^ 128 - 1) }
{
    let mut all: u128 = 0;
    for symbol in used {
        all = all.saturating_add(cells(symbols, *symbol, size));
    }
    all
}

// The cells of the Skolem symbols.
fn skolem_cells(skolem: &[Entry], symbols: &Symbols, size: u32) -> u128
    ensures { result ≡ min (cells_in size (blocks_of symbols.now
        (map (λ e. e.symbol.0) skolem.now))) (2 ^ 128 - 1) }
{
    let mut all: u128 = 0;
    for entry in skolem {
        all = all.saturating_add(cells(symbols, entry.symbol, size));
    }
    all
}

// The ground literals.
fn literals(clauses: &[(u64, Clause)], size: u32) -> u128
    ensures { result ≡ min (ground_literals size (map (λ row. row.1) clauses.now)) (2 ^ 128 - 1) }
{
    let mut all: u128 = 0;
    for (_, clause) in clauses {
        let each = clause.len() as u128;
        let instances = power(size, variables_in(clause));
        all = all.saturating_add(each.saturating_mul(instances));
    }
    all
}

// The cells of a symbol.
fn cells(symbols: &Symbols, symbol: Sym, size: u32) -> u128
    ensures { result ≡ min (size ^ arity_at symbols.now symbol.0) (2 ^ 128 - 1) }
{
    power(size, u128::from(arity(symbols, symbol)))
}

/// How many arguments a symbol has, none where it isn't in the table.
pub fn arity(symbols: &Symbols, symbol: Sym) -> u64
    ensures { result ≡ arity_at symbols.now symbol.0 }
{
    if symbol.0 < symbols.len() as u64 {
        symbols.arity(symbol)
    } else {
        0
    }
}

/// A power, or the greatest number if it is more.
pub fn power(base: u32, exponent: u128) -> u128
    ensures { result ≡ min (base ^ exponent) (2 ^ 128 - 1) }
{
    if exponent == 0 {
        1
    } else if base < 2 {
        u128::from(base)
    } else if exponent < 128 {
        u128::from(base)
            .checked_pow(exponent as u32)
            .unwrap_or(u128::MAX)
    } else {
        u128::MAX
    }
}
