// Up to which value a cell is tried.
ghost use Rattle.std.specs.Prelude.{◌≡◌, ◌<◌, suc, max};
ghost use Rattle.mace_cells.specs.Numbers.{tried_to};
ghost use Rattle.model_tables.specs.Size.{bound_of};

use crate::shape::CellShape;
use fol_core::Kind;

/// The least number above the value of a decision, the arguments of its cell, and those in use before.
pub fn above_decision(used: u32, shape: CellShape, value: u8) -> u32
    ensures { result ≡ max (max (suc value) shape.above) used }
{
    (u32::from(value) + 1).max(u32::from(shape.above)).max(used)
}

/// Up to which value a cell is tried, of which all are below `bound`; there are `size` elements.
pub fn greatest_tried(
    least_numbers: bool,
    size: u32,
    bound: u32,
    used: u32,
    shape: CellShape,
) -> u32
    requires some { 0 < size }
    requires bound { bound ≡ bound_of size shape.kind }
    ensures tried { result ≡ tried_to least_numbers size shape.kind (max used shape.above) }
    ensures below { result < bound }
{
    let last = bound - 1;
    if least_numbers && shape.kind == Kind::Function {
        used.max(u32::from(shape.above)).min(last)
    } else {
        last
    }
}
