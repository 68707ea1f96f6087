// The order of symbols, and what they weigh.
ghost use Rattle.std.specs.Prelude.{◌≡◌, ◌<◌, IfOk, length, slice_get};
ghost use Rattle.std.specs.Option.{option_map};
ghost use Rattle.term_order.specs.Listed.{listed_place, symbol_row, symbol_rows};
ghost use Rattle.term_order.specs.Precedences.{row_at, stands_above, weight_at};

use fol_core::{KboWeights, NameOrder, Sym, Symbols};
use ladr_options::Order;
use std::alloc::{AllocError, Global};

/// How a symbol stands in the order of symbols: its name's place among those that the file lists, from 1 on, or 0; then its
/// arity. And what it weighs.
#[derive(Clone, Copy)]
pub struct SymbolRow {
    pub listed: u64,
    pub arity: u64,
    pub weight: u32,
}

/// The order of terms that is chosen, and the rows of the symbols by number.
#[derive(Drop)]
pub struct Precedence {
    pub order: Order,
    pub rows: Vec<SymbolRow>,
}

// The place of a name among those that are listed, from 1 on, or 0.
fn place_of(name: &[u8], listed: &NameOrder) -> u64
    ensures { result ≡ listed_place name.now listed.now }
{
    let _len = listed.len();
    match listed.position(name) {
        Some(place) => place as u64 + 1,
        None => 0,
    }
}

// The row of a symbol of the table.
fn row_of(symbols: &Symbols, f: Sym, listed: &NameOrder, weights: &KboWeights) -> SymbolRow
    requires { f.0 < length symbols.now }
    ensures { option_map (symbol_row listed.now weights.now) (slice_get symbols.now f.0)
        ≡ Some result }
{
    let name = symbols.name(f);
    SymbolRow {
        listed: place_of(name, listed),
        arity: symbols.arity(f),
        weight: weights.weight(name).unwrap_or(1),
    }
}

impl Precedence {
    /// The order of a table's symbols, with the names that are listed, from the lowest up, and the weights of names: a
    /// symbol whose name has none weighs 1.
    #[tactic(auto, using(crate::proofs::Listing::rows_next, crate::proofs::Listing::rows_all))]
    pub fn new(
        alloc: Global,
        order: Order,
        symbols: &Symbols,
        listed: &NameOrder,
        weights: &KboWeights,
    ) -> Result<Precedence, AllocError>
        ensures order { IfOk result (λ p. p.order ≡ order) }
        ensures rows { IfOk result (λ p. p.rows.items
            ≡ symbol_rows listed.now weights.now symbols.now) }
    {
        let mut rows = Vec::new(alloc);
        for number in 0..symbols.len() {
            rows.push(row_of(symbols, Sym(number as u64), listed, weights))?;
        }
        Ok(Precedence { order, rows })
    }

    // The symbol's row; one without a row is listed nowhere.
    fn row(&self, f: Sym) -> SymbolRow
        ensures { result ≡ row_at self.now.rows.items f.0 }
    {
        match self.rows.as_slice().get(f.0 as usize) {
            Some(row) => *row,
            None => SymbolRow {
                listed: 0,
                arity: 0,
                weight: 1,
            },
        }
    }

    /// What the symbol weighs.
    pub fn weight(&self, f: Sym) -> u32
        ensures { result ≡ weight_at self.now.rows.items f.0 }
    {
        self.row(f).weight
    }

    /// Whether the first symbol stands above the second.
    pub fn is_above(&self, f: Sym, g: Sym) -> bool
        ensures { result ≡ stands_above self.now.rows.items f.0 g.0 }
    {
        let high = self.row(f);
        let low = self.row(g);
        low.listed < high.listed
            || (low.listed == high.listed
                && (low.arity < high.arity || (low.arity == high.arity && g.0 < f.0)))
    }
}
