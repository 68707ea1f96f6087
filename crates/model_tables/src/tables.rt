// Finite interpretations given by tables.
ghost use Rattle.std.specs.Prelude.{◌≡◌, ◌+◌, ◌-◌, ◌<◌, ◌==◌, length, slice_index};
ghost use Rattle.model_tables.specs.Tables.{listing, row_of, has, element, meaning_of};

use fol_core::{Interpretation, Kind, Sym};
use std::marker::Model;

/// What a symbol is, and its values, the last argument running fastest.
#[derive(Drop)]
pub struct TableRow {
    pub(crate) kind: Kind,
    pub(crate) values: Vec<u32>,
}

impl Model for TableRow {
    ghost use Rattle.model_tables.specs.Tables.{Listing};

    ghost Value = { Listing };

    ghost view = { λ a. record { kind = a.kind; values = a.values.items } };
}

impl TableRow {
    pub fn new(kind: Kind, values: Vec<u32>) -> TableRow
        ensures { result ≡ listing kind values.items }
    {
        TableRow { kind, values }
    }

    pub fn values(&self) -> &[u32]
        ensures { result.now ≡ self.now.values }
    {
        self.values.as_slice()
    }

    pub fn is_empty(&self) -> bool
        ensures { result ≡ (length self.now.values == 0) }
    {
        self.values.is_empty()
    }
}

/// An interpretation with finitely many elements, from 0 on; contracts see the greatest element and the rows.
#[derive(Drop)]
pub struct Tables {
    size: u32,
    pub(crate) rows: Vec<TableRow>,
}

impl Model for Tables {
    ghost use Rattle.std.specs.Prelude.{◌-◌};
    ghost use Rattle.model_tables.specs.Tables.{Finite};

    ghost Value = { Finite };

    ghost view = { λ a. record { top = a.size - 1; rows = a.rows.items } };
}

impl Interpretation for Tables {
    ghost use Rattle.model_tables.specs.TablesLaws.{tables_lawful};

    ghost meaning = { meaning_of };

    ghost lawful = { tables_lawful };
}

impl Tables {
    /// So many elements, and one where none are wanted.
    pub fn new(size: u32, rows: Vec<TableRow>) -> Tables
        ensures { result ≡ record { top = size - 1; rows = rows.items } }
    {
        Tables { size, rows }
    }

    /// How many elements there are.
    pub fn size(&self) -> u32
        ensures { result ≡ self.now.top + 1 }
    {
        self.size.max(1)
    }

    // The rows by symbol number.
    pub(crate) fn rows(&self) -> &[TableRow]
        ensures { result.now ≡ self.now.rows }
    {
        self.rows.as_slice()
    }

    /// The values of a symbol, none where it has no entry.
    pub fn row(&self, symbol: Sym) -> &[u32]
        ensures { result.now ≡ row_of self.now symbol.0 }
    {
        match self.rows.get(symbol.0 as usize) {
            None => &[],
            Some(row) => row.values(),
        }
    }

    /// Whether a symbol has an entry.
    pub fn has(&self, symbol: Sym) -> bool
        ensures { result ≡ has self.now symbol.0 }
    {
        !self.row(symbol).is_empty()
    }

    /// The value at a place of a symbol's values.
    pub fn entry(&self, symbol: Sym, place: u64) -> u32
        requires { place < length (row_of self.now symbol.0) }
        ensures { result ≡ slice_index (row_of self.now symbol.0) place }
    {
        self.row(symbol)[place as usize]
    }

    /// The number as an element, 0 where it is none.
    pub fn element(&self, x: u32) -> u32
        ensures { result ≡ element self.now x }
    {
        if x < self.size { x } else { 0 }
    }
}
