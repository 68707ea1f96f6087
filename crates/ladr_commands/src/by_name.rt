// Interpretations by the names of their symbols.
ghost use Rattle.std.specs.Prelude.{◌≡◌};
ghost use Rattle.ladr_commands.specs.ByName.{table, by_name};

use fol_core::{Kind, Name};
use std::marker::Model;

/// The name, arity and kind of a symbol, and its values, the last argument running fastest.
#[derive(Drop)]
pub struct TableEntry {
    name: Name,
    arity: u64,
    kind: Kind,
    values: Vec<u32>,
}

impl Model for TableEntry {
    ghost use Rattle.ladr_commands.specs.ByName.{NamedTable, table, coded_table};

    ghost Value = { NamedTable };

    ghost coded = { coded_table };

    ghost view = { λ a. table a.kind a.name a.arity a.values.items };
}

impl TableEntry {
    /// The entry of a symbol with these values.
    pub fn new(kind: Kind, name: Name, arity: u64, values: Vec<u32>) -> TableEntry
        ensures { result ≡ table kind name arity values.items }
    {
        TableEntry {
            name,
            arity,
            kind,
            values,
        }
    }

    /// The name of its symbol.
    pub fn name(&self) -> &[u8]
        ensures { result.now ≡ self.now.head.name }
    {
        self.name.bytes()
    }

    /// How many arguments its symbol has.
    pub fn arity(&self) -> u64
        ensures { result ≡ self.now.head.arity }
    {
        self.arity
    }

    /// What its symbol is.
    pub fn kind(&self) -> Kind
        ensures { result ≡ self.now.head.kind }
    {
        self.kind
    }

    /// Its values.
    pub fn values(&self) -> &[u32]
        ensures { result.now ≡ self.now.values }
    {
        self.values.as_slice()
    }
}

/// How many elements there are, and the entries in the order read.
#[derive(Drop)]
pub struct ByName {
    size: u32,
    entries: Vec<TableEntry>,
}

impl Model for ByName {
    ghost use Rattle.ladr_commands.specs.ByName.{by_name, coded_by_name};
    ghost use Rattle.ladr_commands.specs.ByName as names;

    ghost Value = { names.ByName };

    ghost coded = { coded_by_name };

    ghost view = { λ a. by_name a.size a.entries.items };
}

impl ByName {
    /// The interpretation of these entries.
    pub fn new(size: u32, entries: Vec<TableEntry>) -> ByName
        ensures { result ≡ by_name size entries.items }
    {
        ByName { size, entries }
    }

    /// How many elements there are.
    pub fn size(&self) -> u32
        ensures { result ≡ self.now.size }
    {
        self.size
    }

    /// The entries.
    pub fn entries(&self) -> &[TableEntry]
        ensures { result.now ≡ self.now.entries }
    {
        self.entries.as_slice()
    }
}
