// The cells of symbols, block by block.
ghost use Rattle.std.specs.Prelude.{◌≡◌, ℕ, ◌+◌, ◌^◌, ◌<◌, [], ◌∷◌, ◌++◌, None, OnOk, OnErr, length, map};
ghost use Rattle.std.specs.List.{slice_index_or};
ghost use Rattle.std.specs.Option.{option_map};
ghost use Rattle.mace_ground.specs.Cells.{cells_in, found};
ghost use Rattle.mace_ground.specs.Spans.{placed, block_of, span_of, span_noted};

use crate::counting::power;
use fol_core::{Kind, Sym};
use std::alloc::{AllocError, Global};
use std::marker::Model;

/// A symbol that has cells.
#[derive(Clone, Copy)]
pub struct Block {
    pub kind: Kind,
    pub symbol: Sym,
    pub arity: u64,
}

/// Where the cells of a symbol begin, and the block of them.
#[derive(Clone, Copy)]
pub struct Span {
    pub first: u32,
    pub block: Block,
}

/// The cells of symbols where there are `size` elements, in the order in which the symbols were put in; contracts see the size
/// and the blocks.
#[derive(Drop)]
pub struct Blocks {
    size: u32,
    list: Vec<Block>,
    // By symbol number.
    spans: Vec<Option<Span>>,
    cells: u32,
}

impl Model for Blocks {
    ghost use Rattle.std.specs.Prelude.{◌≡◌, map};
    ghost use Rattle.mace_ground.specs.Cells.{cells_in};
    ghost use Rattle.mace_ground.specs.Spans.{Placed, block_of, ArePlaced};

    ghost Value = { Placed };

    ghost view = { λ a. record { size = a.size; blocks = map block_of a.list.items } };

    ghost invariant = { λ a. record {
      cells : a.cells ≡ cells_in a.size (map block_of a.list.items);
      spans : ArePlaced a.size (map block_of a.list.items) a.spans.items;
    } };
}

impl Blocks {
    /// No cells.
    pub fn new(alloc: Global, size: u32) -> Blocks
        ensures { result ≡ placed size [] }
    {
        Blocks {
            size,
            list: Vec::new(alloc),
            spans: Vec::new(alloc),
            cells: 0,
        }
    }

    /// How many elements there are.
    pub fn size(&self) -> u32
        ensures { result ≡ self.now.size }
    {
        self.size
    }

    /// How many cells there are.
    pub fn cells(&self) -> u32
        ensures { result ≡ cells_in self.now.size self.now.blocks }
    {
        self.cells
    }

    /// The blocks in order.
    pub fn list(&self) -> &[Block]
        ensures { map block_of result.now ≡ self.now.blocks }
    {
        self.list.as_slice()
    }

    /// Where the cells of a symbol begin, nothing where it has none.
    pub fn find(&self, symbol: Sym) -> Option<Span>
        ensures { option_map span_of result ≡ found self.now.size self.now.blocks symbol.0 }
    {
        self.spans.get(symbol.0 as usize).copied().flatten()
    }

    /// Puts in a block; a symbol's cells are those of its first block.
    pub fn push(&mut self, block: Block) -> Result<(), AllocError>
        requires { cells_in self.old.size self.old.blocks + self.old.size ^ block.arity < 2 ^ 32 }
        ensures ok { OnOk result (self.new ≡ placed self.old.size
            (self.old.blocks ++ block_of block ∷ [])) }
        ensures err { OnErr result (self.new ≡ self.old) }
    {
        let many = power(self.size, u128::from(block.arity)) as u32;
        let first = self.cells;
        make_room(&mut self.spans, block.symbol)?;
        self.list.push(block)?;
        place(&mut self.spans, Span { first, block });
        self.cells = first + many;
        Ok(())
    }
}

// Makes room for the span of a symbol.
fn make_room(spans: &mut Vec<Option<Span>>, symbol: Sym) -> Result<(), AllocError>
    ensures room { OnOk result (symbol.0 < length spans.new.items) }
    ensures same { (s : ℕ) → slice_index_or spans.new.items s None
        ≡ slice_index_or spans.old.items s None }
{
    while spans.len() as u64 <= symbol.0 {
        spans.push(None)?;
    }
    Ok(())
}

// Notes a span, unless the symbol has one.
fn place(spans: &mut Vec<Option<Span>>, span: Span)
    requires { span.block.symbol.0 < length spans.old.items }
    ensures { (s : ℕ) → slice_index_or spans.new.items s None
        ≡ span_noted span s (slice_index_or spans.old.items s None) }
{
    let at = span.block.symbol.0 as usize;
    if spans[at].is_none() {
        spans[at] = Some(span);
    }
}
