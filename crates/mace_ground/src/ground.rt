// The clauses of a problem at a size.
ghost use Rattle.std.specs.Prelude.{◌≡◌, ◌+◌, ◌^◌, ◌<◌, ◌≤◌, ◌++◌, IfOk, OnOk, map};
ghost use Rattle.fol_core.specs.SymbolTable.{arity_at, kind_at};
ghost use Rattle.mace_ground.specs.Cells.{blocks_of, cells_in};
ghost use Rattle.mace_ground.specs.Count.{blocks_in, clause_trees, ground_count};
ghost use Rattle.mace_ground.specs.Instances.{ground_literals};
ghost use Rattle.mace_ground.specs.Spans.{placed, block_of};
ghost use Rattle.model_tables.specs.declared.limits.TheConstants.{MOST_CELLS};

use crate::blocks::{Block, Blocks};
use crate::counting::arity;
use fol_core::{Clause, Clauses, Entry, Kind, Sym, Symbols};
use std::alloc::{AllocError, Global};
use std::marker::Model;

/// The ground instances of clauses where there are `size` elements: each clause with each list of elements for its variables,
/// none of them stored; and the cells of their symbols. Contracts see the size, the blocks of cells and the clauses.
#[derive(Drop)]
pub struct Ground<'a> {
    clauses: &'a [(u64, Clause)],
    blocks: Blocks,
}

impl<'a> Model for Ground<'a> {
    ghost use Rattle.std.specs.Prelude.{◌≤◌, map};
    ghost use Rattle.mace_ground.specs.Instances.{Instances, ground_literals};
    ghost use Rattle.mace_ground.specs.GroundCodes.{coded_instances};
    ghost use Rattle.model_tables.specs.declared.limits.TheConstants.{MOST_CELLS};

    ghost Value = { Instances };

    ghost coded = { coded_instances };

    ghost view = { λ a. record {
      size = a.blocks.size;
      blocks = a.blocks.blocks;
      clauses = map (λ row. row.1) a.clauses.now;
    } };

    ghost invariant = { λ a. ground_literals a.blocks.size
        (map (λ row. row.1) a.clauses.now) ≤ MOST_CELLS };
}

impl<'a> Ground<'a> {
    /// The ground instances of a problem's clauses, whose symbols stand in the table.
    pub fn build(
        alloc: Global,
        clauses: &'a Clauses,
        symbols: &Symbols,
        size: u32,
    ) -> Result<Ground<'a>, AllocError>
        requires { ground_count size symbols.now clauses.now ≤ MOST_CELLS }
        ensures { IfOk result (λ g. g ≡ record {
          size = size;
          blocks = blocks_in symbols.now
              clauses.now;
          clauses = clause_trees clauses.now;
        }) }
    {
        let mut blocks = Blocks::new(alloc, size);
        add_symbols(&mut blocks, &clauses.symbols, symbols)?;
        add_skolem(&mut blocks, &clauses.skolem, symbols)?;
        let clauses = clauses.clauses.as_slice();
        Ok(Ground { clauses, blocks })
    }

    /// How many elements there are.
    pub fn size(&self) -> u32
        ensures { result ≡ self.now.size }
    {
        self.blocks.size()
    }

    /// How many cells there are.
    pub fn cells(&self) -> u32
        ensures { result ≡ cells_in self.now.size self.now.blocks }
    {
        self.blocks.cells()
    }

    /// The blocks of cells.
    pub fn blocks(&self) -> &Blocks
        ensures { result.now ≡ placed self.now.size self.now.blocks }
    {
        &self.blocks
    }

    /// The clauses, each with the number of its formula.
    pub fn clauses(&self) -> &[(u64, Clause)]
        ensures { map (λ row. row.1) result.now ≡ self.now.clauses }
    {
        self.clauses
    }

    /// The ground instances have few literals together.
    pub fn literals_are_few(&self)
        ensures { ground_literals self.now.size self.now.clauses ≤ MOST_CELLS }
    {
        let _clauses = &self.clauses;
    }
}

// Puts in the cells of the symbols of the formulas.
fn add_symbols(blocks: &mut Blocks, used: &[Sym], symbols: &Symbols) -> Result<(), AllocError>
    requires { cells_in blocks.old.size blocks.old.blocks + cells_in blocks.old.size
        (blocks_of symbols.now (map (λ s. s.0) used.now)) < 2 ^ 32 }
    ensures { OnOk result (blocks.new ≡ placed blocks.old.size
        (blocks.old.blocks ++ blocks_of symbols.now (map (λ s. s.0) used.now))) }
{
    for symbol in used {
        blocks.push(block(symbols, *symbol))?;
    }
    Ok(())
}

// Puts in those of the Skolem symbols.
fn add_skolem(blocks: &mut Blocks, skolem: &[Entry], symbols: &Symbols) -> Result<(), AllocError>
    requires { cells_in blocks.old.size blocks.old.blocks + cells_in blocks.old.size
        (blocks_of symbols.now (map (λ e. e.symbol.0) skolem.now)) < 2 ^ 32 }
    ensures { OnOk result (blocks.new ≡ placed blocks.old.size
        (blocks.old.blocks ++ blocks_of symbols.now (map (λ e. e.symbol.0) skolem.now))) }
{
    for entry in skolem {
        blocks.push(block(symbols, entry.symbol))?;
    }
    Ok(())
}

// The block of a symbol.
fn block(symbols: &Symbols, symbol: Sym) -> Block
    ensures { block_of result ≡ record {
      kind = kind_at symbols.now symbol.0;
      symbol = symbol.0;
      arity = arity_at symbols.now symbol.0;
    } }
{
    Block {
        kind: kind(symbols, symbol),
        symbol,
        arity: arity(symbols, symbol),
    }
}

// What a symbol is, a function where it isn't in the table.
fn kind(symbols: &Symbols, symbol: Sym) -> Kind
    ensures { result ≡ kind_at symbols.now symbol.0 }
{
    if symbol.0 < symbols.len() as u64 {
        symbols.kind(symbol)
    } else {
        Kind::Function
    }
}
