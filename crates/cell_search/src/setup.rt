// What a search is about.
ghost use Rattle.std.specs.Prelude.{◌≡◌, ◌+◌, ◌^◌, ◌<◌, ◌≤◌, ◌++◌, IfOk, OnOk, max, length, map, replicate};
ghost use Rattle.std.specs.Option.{option_map};
ghost use Rattle.mace_cells.specs.World.{cell_of, many_cells};
ghost use Rattle.cell_search.specs.Bounds.{cell_bounds};
ghost use Rattle.model_tables.specs.Size.{bound_of};
ghost use Rattle.mace_ground.specs.Cells.{found};
ghost use Rattle.mace_ground.specs.Instances.{ground_literals};
ghost use Rattle.mace_ground.specs.Spans.{block_of, span_of};
ghost use Rattle.model_tables.specs.declared.limits.TheConstants.{MOST_CELLS};

use fol_core::{Clause, Sym};
use mace_cells::Way;
use mace_ground::{Block, Ground, Span, power};
use model_tables::bound;
use std::alloc::{AllocError, Global};
use std::marker::Model;

/// The ground instances of clauses, the number below which the elements keep their names, and how cells are chosen.
#[derive(Drop)]
pub struct Setup<'a> {
    ground: Ground<'a>,
    fixed: u64,
    way: Way,
    // What the values of each cell are below.
    bounds: Vec<u8>,
}

impl<'a> Model for Setup<'a> {
    ghost use Rattle.std.specs.Prelude.{◌≡◌, ◌<◌};
    ghost use Rattle.mace_cells.specs.World.{World};
    ghost use Rattle.cell_search.specs.Bounds.{cell_bounds};
    ghost use Rattle.cell_search.specs.SearchCodes.{coded_world};

    ghost Value = { World };

    ghost coded = { coded_world };

    ghost view = { λ a. record {
      size = a.ground.size;
      fixed = a.fixed;
      clauses = a.ground.clauses;
      blocks = a.ground.blocks;
      way = a.way;
    } };

    ghost invariant = { λ a. record {
      some : 0 < a.ground.size;
      bounds : a.bounds.items ≡ cell_bounds a.ground.size a.ground.blocks;
    } };
}

impl<'a> Setup<'a> {
    /// What a search is about, where there is an element, and no more of them than a byte can tell apart.
    pub fn new(
        alloc: Global,
        ground: Ground<'a>,
        fixed: u64,
        way: Way,
    ) -> Result<Setup<'a>, AllocError>
        requires some { 0 < ground.size }
        requires small { ground.size ≤ 255 }
        ensures { IfOk result (λ s. s ≡ record {
          size = ground.entry.size;
          fixed = fixed;
          clauses = ground.entry.clauses;
          blocks = ground.entry.blocks;
          way = way;
        }) }
    {
        let bounds = bounds(alloc, &ground)?;
        Ok(Setup {
            ground,
            fixed,
            way,
            bounds,
        })
    }

    /// How many elements there are.
    pub fn size(&self) -> u32
        ensures size { result ≡ self.now.size }
        ensures some { 0 < self.now.size }
    {
        self.ground.size()
    }

    /// The number below which the elements keep their names.
    pub fn fixed(&self) -> u64
        ensures { result ≡ self.now.fixed }
    {
        self.fixed
    }

    /// How cells are chosen.
    pub fn way(&self) -> Way
        ensures { result ≡ self.now.way }
    {
        self.way
    }

    /// How many cells there are.
    pub fn cells(&self) -> u32
        ensures { result ≡ many_cells self.now }
    {
        self.ground.cells()
    }

    /// Where the cells of a symbol begin, nothing where it has none.
    pub fn find(&self, symbol: Sym) -> Option<Span>
        ensures { option_map span_of result ≡ found self.now.size self.now.blocks symbol.0 }
    {
        self.ground.blocks().find(symbol)
    }

    /// What the values of a cell are below.
    pub fn bound(&self, cell: u32) -> u32
        requires { cell < many_cells self.now }
        ensures bound { result ≡ bound_of self.now.size (cell_of self.now cell).kind }
        ensures fits { result ≤ max self.now.size 2 }
        ensures byte { result < 2 ^ 8 }
        ensures some { 0 < result }
    {
        u32::from(self.bounds[cell as usize])
    }

    /// The blocks of cells in order.
    pub fn blocks(&self) -> &[Block]
        ensures { map block_of result.now ≡ self.now.blocks }
    {
        self.ground.blocks().list()
    }

    /// The ground instances have few literals together.
    pub fn literals_are_few(&self)
        ensures { ground_literals self.now.size self.now.clauses ≤ MOST_CELLS }
    {
        self.ground.literals_are_few();
    }

    /// The clauses, each with the number of its formula.
    pub fn clauses(&self) -> &[(u64, Clause)]
        ensures { map (λ row. row.1) result.now ≡ self.now.clauses }
    {
        self.ground.clauses()
    }
}

// What the values of each cell are below.
fn bounds(alloc: Global, ground: &Ground) -> Result<Vec<u8>, AllocError>
    requires { ground.now.size ≤ 255 }
    ensures { IfOk result (λ v. v.items ≡ cell_bounds ground.now.size ground.now.blocks) }
{
    let size = ground.size();
    let cells = ground.cells();
    let mut bounds = Vec::new(alloc);
    for block in ground.blocks().list() {
        add_bounds(&mut bounds, size, *block, cells)?;
    }
    Ok(bounds)
}

// Adds those of the cells of a block, which make no more than so many.
fn add_bounds(bounds: &mut Vec<u8>, size: u32, block: Block, cells: u32) -> Result<(), AllocError>
    requires room { length bounds.old.items + size ^ block.arity ≤ cells }
    requires small { size ≤ 255 }
    ensures { OnOk result (bounds.new.items ≡ bounds.old.items
        ++ replicate (size ^ block.arity) (bound_of size block.kind)) }
{
    let _end = cells;
    let many = power(size, u128::from(block.arity)) as usize;
    let bound = bound(size, block.kind) as u8;
    bounds.resize(bounds.len() + many, bound)?;
    Ok(())
}
