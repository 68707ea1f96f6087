// Interpretations by the names of their symbols.
ghost use Rattle.std.specs.Prelude.{◌≡◌, ◌^◌, ◌==◌, ◌≤◌, ◌∷◌, ◌++◌, nat_lt, not, is_some, [], None, false, Err, IfOk, OnOk, IsTrue};
ghost use Rattle.std.specs.List.{list_all};
ghost use Rattle.fol_core.specs.SymbolTable.{number_of, symbol, is_same_kind};
ghost use Rattle.ladr_interpretations.specs.Good.{is_filled, is_good, heads_of, are_new, values_for, tables_for};
ghost use Rattle.ladr_interpretations.specs.declared.named.NamedError.TheVariants.{Bad, Memory};

use fol_core::{Kind, Sym, Symbols};
use ladr_commands::{ByName, TableEntry};
use model_tables::{TableRow, Tables, bound};
use std::alloc::{AllocError, AllocFailed, Global};
use std::marker::Model;

/// An interpretation by names that is one: from 1 to 200 elements, each table filled, and no symbol twice.
#[derive(Drop)]
pub struct Named {
    read: ByName,
    // The symbols of the entries, in their order.
    heads: Symbols,
}

impl Model for Named {
    ghost use Rattle.std.specs.Prelude.{◌≡◌, IsTrue};
    ghost use Rattle.ladr_commands.specs.ByName as names;
    ghost use Rattle.ladr_commands.specs.ByName.{coded_by_name};
    ghost use Rattle.ladr_interpretations.specs.Good.{heads_of, is_good};

    ghost Value = { names.ByName };

    ghost coded = { coded_by_name };

    ghost view = { λ a. a.read };

    ghost invariant = { λ a. (a.heads ≡ heads_of a.read.entries) × IsTrue (is_good a.read) };
}

/// It is no interpretation, or memory is lacking.
#[derive(Clone, Copy)]
pub enum NamedError {
    Bad,
    Memory,
}

impl From<AllocError> for NamedError {
    ghost from_gives = { λ _ e. e ≡ Memory };

    fn from(_e: AllocError) -> NamedError {
        NamedError::Memory
    }
}

impl<T: Drop> From<AllocFailed<T>> for NamedError {
    ghost from_gives = { λ _ e. e ≡ Memory };

    fn from(_e: AllocFailed<T>) -> NamedError {
        NamedError::Memory
    }
}

impl Named {
    /// The interpretation that was read, if it is one.
    pub fn new(alloc: Global, read: ByName) -> Result<Named, NamedError>
        ensures ok { IfOk result (λ n. n ≡ read) }
        ensures good { IfOk result (λ n. IsTrue (is_good read)) }
        ensures bad { result ≡ Err Bad → is_good read ≡ false }
    {
        let size = read.size();
        if size < 1 || size > 200 || !are_filled(size, read.entries()) {
            return Err(NamedError::Bad);
        }
        let heads = heads(alloc, read.entries())?;
        Ok(Named { read, heads })
    }

    /// How many elements there are.
    pub fn size(&self) -> u32
        ensures { result ≡ self.now.size }
    {
        self.read.size()
    }

    /// The entries in the order read.
    pub fn entries(&self) -> &[TableEntry]
        ensures { result.now ≡ self.now.entries }
    {
        self.read.entries()
    }

    // The values of the entry for a symbol's name, arity and kind, none where there is no such entry.
    fn values_for(&self, name: &[u8], arity: u64, kind: Kind) -> &[u32]
        ensures { result.now ≡ values_for self.now.entries (symbol name.now arity kind) }
    {
        values_for(&self.heads, self.read.entries(), name, arity, kind)
    }
}

// Whether so many is the size to the power of the arity.
fn is_power(len: usize, size: u64, arity: u64) -> bool
    requires { 1 ≤ size }
    ensures { result ≡ (len == size ^ arity) }
{
    let mut product: u64 = 1;
    for _ in 0..arity {
        let Some(next) = product.checked_mul(size) else {
            return false;
        };
        if next > len as u64 {
            return false;
        }
        product = next;
    }
    product == len as u64
}

fn are_below(values: &[u32], bound: u32) -> bool
    ensures { result ≡ list_all (λ v. nat_lt v bound) values.now }
{
    values.iter().all(|value| *value < bound)
}

// Whether an entry has a value for each list of arguments, and none too great.
fn is_filled(size: u32, entry: &TableEntry) -> bool
    requires { 1 ≤ size }
    ensures { result ≡ is_filled size entry.now }
{
    let values = entry.values();
    is_power(values.len(), u64::from(size), entry.arity())
        && are_below(values, bound(size, entry.kind()))
}

fn are_filled(size: u32, entries: &[TableEntry]) -> bool
    requires { 1 ≤ size }
    ensures { result ≡ list_all (is_filled size) entries.now }
{
    for entry in entries {
        if !is_filled(size, entry) {
            return false;
        }
    }
    true
}

// Whether the entry's name and arity aren't in the table.
fn is_new(heads: &Symbols, entry: &TableEntry) -> bool
    ensures { result ≡ not (is_some (number_of heads.now entry.now.head.name
        entry.now.head.arity)) }
{
    heads.find(entry.name(), entry.arity()).is_none()
}

// The entry's symbol comes to the table, unless its name and arity are there.
fn enter_head(heads: &mut Symbols, entry: &TableEntry) -> Result<(), NamedError>
    ensures ok { OnOk result ((heads.new ≡ heads.old ++ entry.now.head ∷ [])
        × (number_of heads.old entry.now.head.name entry.now.head.arity ≡ None)) }
    ensures bad { result ≡ Err Bad → IsTrue (is_some (number_of heads.old
        entry.now.head.name entry.now.head.arity)) }
{
    if !is_new(heads, entry) {
        return Err(NamedError::Bad);
    }
    match heads.enter(entry.name(), entry.arity(), entry.kind()) {
        Ok(_) => Ok(()),
        Err(_) => Err(NamedError::Memory),
    }
}

// The table of the entries' symbols, unless one stands twice.
fn heads(alloc: Global, entries: &[TableEntry]) -> Result<Symbols, NamedError>
    ensures ok { IfOk result (λ t. (t ≡ heads_of entries.now)
        × IsTrue (are_new [] (heads_of entries.now))) }
    ensures bad { result ≡ Err Bad → are_new [] (heads_of entries.now) ≡ false }
{
    let mut heads = Symbols::new(alloc);
    for entry in entries {
        match enter_head(&mut heads, entry) {
            Ok(()) => (),
            Err(error) => return Err(error),
        }
    }
    Ok(heads)
}

fn is_same_kind(kind: Kind, other: Kind) -> bool
    ensures { result ≡ is_same_kind kind other }
{
    match (kind, other) {
        (Kind::Function, Kind::Function) => true,
        (Kind::Relation, Kind::Relation) => true,
        _ => false,
    }
}

// The values of the entry for a symbol's name, arity and kind, none where there is no such entry.
fn values_for<'a>(
    heads: &Symbols,
    entries: &'a [TableEntry],
    name: &[u8],
    arity: u64,
    kind: Kind,
) -> &'a [u32]
    requires { heads.now ≡ heads_of entries.now }
    ensures { result.now ≡ values_for entries.now (symbol name.now arity kind) }
{
    let Some(head) = heads.find(name, arity) else {
        return &[];
    };
    if !is_same_kind(heads.kind(head), kind) {
        return &[];
    }
    match entries.get(head.0 as usize) {
        None => &[],
        Some(entry) => entry.values(),
    }
}

/// The tables of the interpretation for these symbols: each has the values of the entry of its name, arity and kind.
pub fn bind(alloc: Global, named: &Named, symbols: &Symbols) -> Result<Tables, AllocError>
    ensures { IfOk result (λ t. t ≡ tables_for named.now symbols.now) }
{
    let mut rows = Vec::new(alloc);
    for number in 0..symbols.len() {
        let symbol = Sym(number as u64);
        let kind = symbols.kind(symbol);
        let values = named.values_for(symbols.name(symbol), symbols.arity(symbol), kind);
        rows.push(TableRow::new(kind, Vec::from_slice(alloc, values)?))?;
    }
    Ok(Tables::new(named.size(), rows))
}
