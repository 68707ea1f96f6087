// What the choice of a cell looks at.
ghost use Rattle.std.specs.Prelude.{◌≡◌, ◌+◌, ◌^◌, ◌<◌, ◌≤◌, ◌++◌, IfOk, OnOk, length, map};
ghost use Rattle.mace_cells.specs.Numbers.{above_each};
ghost use Rattle.cell_choice.specs.Shapes.{block_shapes, cell_shapes};
ghost use Rattle.mace_ground.specs.Cells.{digits};
ghost use Rattle.mace_ground.specs.Spans.{block_of};

use fol_core::Kind;
use mace_ground::{Block, Ground, power};
use std::alloc::{AllocError, Global};

/// The kind of a cell's symbol, and the least number above the cell's arguments.
#[derive(Clone, Copy)]
pub struct CellShape {
    pub kind: Kind,
    pub above: u8,
}

/// The shapes of all cells.
pub fn shapes(alloc: Global, ground: &Ground) -> Result<Vec<CellShape>, AllocError>
    requires some { 0 < ground.now.size }
    requires small { ground.now.size ≤ 255 }
    ensures { IfOk result (λ v. v.items ≡ cell_shapes ground.now.size ground.now.blocks) }
{
    let size = ground.size();
    let cells = ground.cells();
    let mut shapes = Vec::new(alloc);
    for block in ground.blocks().list() {
        add_shapes(&mut shapes, size, *block, cells)?;
    }
    Ok(shapes)
}

/// Their indices.
pub fn indices(alloc: Global, shapes: &[CellShape]) -> Result<Vec<u8>, AllocError>
    ensures { IfOk result (λ v. v.items ≡ map (λ s. s.above) shapes.now) }
{
    let mut indices = Vec::new(alloc);
    for shape in shapes {
        indices.push(shape.above)?;
    }
    Ok(indices)
}

// Adds those of the cells of a block, which make no more than so many.
fn add_shapes(
    shapes: &mut Vec<CellShape>,
    size: u32,
    block: Block,
    cells: u32,
) -> Result<(), AllocError>
    requires some { 0 < size }
    requires small { size ≤ 255 }
    requires room { length shapes.old.items + size ^ block.arity ≤ cells }
    ensures { OnOk result (shapes.new.items
        ≡ shapes.old.items ++ block_shapes size (block_of block)) }
{
    let _end = cells;
    let many = power(size, u128::from(block.arity)) as u32;
    let kind = block.kind;
    for place in 0..many {
        let above = above_digits(size, block.arity, many, place);
        shapes.push(CellShape { kind, above })?;
    }
    Ok(())
}

// The least number above the arguments of a symbol's cell.
fn above_digits(size: u32, arity: u64, many: u32, place: u32) -> u8
    requires some { 0 < size }
    requires small { size ≤ 255 }
    requires many { many ≡ size ^ arity }
    requires within { place < many }
    ensures { result ≡ above_each (digits size arity place) }
{
    let mut step = many;
    let mut rest = place;
    let mut above = 0;
    let mut left = arity;
    while left > 0 {
        left -= 1;
        step /= size;
        above = (rest / step + 1).max(above);
        rest %= step;
    }
    above as u8
}
