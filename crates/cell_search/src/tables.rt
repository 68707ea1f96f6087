// The tables of a model.
ghost use Rattle.std.specs.Prelude.{◌≡◌, ◌+◌, ◌≤◌, ◌<◌, IfOk, unwrap_or};
ghost use Rattle.cell_search.specs.Finites.{cell_values, values_of_symbol, finite_of, tables_over};
ghost use Rattle.mace_cells.specs.Trails.{value_in};
ghost use Rattle.mace_cells.specs.World.{many_cells};

use crate::setup::Setup;
use fol_core::{Sym, Symbols};
use mace_cells::Trail;
use mace_ground::power;
use model_tables::{TableRow, Tables};
use std::alloc::{AllocError, Global};

// The value of a cell, 0 where it has none.
fn cell_value(trail: &Trail, cell: u32) -> u32
    requires { cell < trail.now.many }
    ensures { result ≡ unwrap_or (value_in trail.now.entries cell) 0 }
{
    match trail.value(cell) {
        None => 0,
        Some(value) => u32::from(value),
    }
}

// The values of so many cells from one on, of no more than there are.
fn cell_values(
    alloc: Global,
    trail: &Trail,
    first: u32,
    many: u32,
    cells: u32,
) -> Result<Vec<u32>, AllocError>
    requires within { first + many ≤ cells }
    requires cells { trail.now.many ≡ cells }
    ensures { IfOk result (λ v. v.items ≡ cell_values trail.now.entries first many) }
{
    let _end = cells;
    let mut values = Vec::new(alloc);
    for place in 0..many {
        values.push(cell_value(trail, first + place))?;
    }
    Ok(values)
}

// The values of a symbol.
fn values(alloc: Global, setup: &Setup, trail: &Trail, symbol: Sym) -> Result<Vec<u32>, AllocError>
    requires { trail.now.many ≡ many_cells setup.now }
    ensures { IfOk result (λ v. v.items
        ≡ values_of_symbol setup.now trail.now.entries symbol.0) }
{
    let cells = setup.cells();
    match setup.find(symbol) {
        None => Ok(Vec::new(alloc)),
        Some(span) => {
            let many = power(setup.size(), u128::from(span.block.arity)) as u32;
            cell_values(alloc, trail, span.first, many, cells)
        }
    }
}

/// The tables that a partial table with a value in each cell is, for the symbols of a table.
pub fn finite(
    alloc: Global,
    setup: &Setup,
    trail: &Trail,
    symbols: &Symbols,
) -> Result<Tables, AllocError>
    requires { trail.now.many ≡ many_cells setup.now }
    ensures { IfOk result (λ t. t
        ≡ tables_over symbols.now (finite_of setup.now trail.now.entries)) }
{
    let mut rows = Vec::new(alloc);
    for number in 0..symbols.len() as u64 {
        let symbol = Sym(number);
        let values = values(alloc, setup, trail, symbol)?;
        rows.push(TableRow::new(symbols.kind(symbol), values))?;
    }
    Ok(Tables::new(setup.size(), rows))
}
