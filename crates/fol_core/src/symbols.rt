// The table of symbols: each name and arity is a function or a relation, under a number.
ghost use Rattle.std.specs.Prelude.{◌≡◌, ◌<◌, ◌↔◌, [], ◌∷◌, ◌++◌, IfOk, OnOk, OnErr, IfSome, IsTrue, length, slice_get, slice_index, take, None, ◌+◌, ◌-◌, ◌^◌, ◌≤◌, vec_len, vec_capacity, replicate, set};
ghost use Rattle.std.specs.Option.{option_map};
ghost use Rattle.fol_core.specs.SymbolTable.{symbol, is_called, number_of, entered, is_clash, name_at, arity_at, kind_at, KeepsNumbers, FindsEach};
ghost use Rattle.fol_core.specs.SymbolSlots.{slot_of, AreHeads, AreLinks, IsTable};

use crate::name::Name;
use std::alloc::{AllocError, Global};
use std::hash::{FoldHasher, Hasher};
use std::marker::Model;

/// The number of a symbol.
#[derive(Clone, Copy, PartialEq)]
pub struct Sym(pub u64);

/// What a symbol stands for.
#[derive(Clone, Copy)]
pub enum Kind {
    Function,
    Relation,
}

/// Why a symbol can't be entered: its name and arity stand in the table with the other kind, or memory is lacking.
#[derive(Clone, Copy)]
pub enum Clash {
    OtherKind,
    Memory,
}

// A symbol of the table; contracts see the symbol.
#[derive(Drop)]
struct Row {
    name: Name,
    arity: u64,
    kind: Kind,
}

impl Model for Row {
    ghost use Rattle.fol_core.specs.SymbolTable.{Symbol, symbol};

    ghost Value = { Symbol };

    ghost view = { λ a. symbol a.name a.arity a.kind };
}

impl Row {
    // Whether it has this name and arity.
    fn is_called(&self, name: &[u8], arity: u64) -> bool
        ensures { result ≡ is_called name.now arity self.now }
    {
        name == self.name.bytes() && arity == self.arity
    }

    // The slot it belongs into, of so many.
    fn slot(&self, count: usize) -> usize
        requires { 0 < count }
        ensures slot { result ≡ slot_of count self.now.name self.now.arity }
        ensures within { result < count }
    {
        slot_of(count, self.name.bytes(), self.arity)
    }
}

/// The symbols by number; contracts see the list.
#[derive(Drop)]
pub struct Symbols {
    rows: Vec<Row>,
    // For each slot one more than the number of its last symbol, 0 where it has none.
    heads: Vec<u32>,
    // By number: the same of the symbols before it, for the symbol's slot.
    links: Vec<u32>,
}

impl Model for Symbols {
    ghost use Rattle.std.specs.Prelude.{List};
    ghost use Rattle.fol_core.specs.SymbolTable.{Symbol};
    ghost use Rattle.fol_core.specs.SymbolSlots.{IsTable};

    ghost Value = { List Symbol };

    ghost view = { λ a. a.rows.items };

    ghost invariant = { λ a. IsTable a.heads.items a.links.items a.rows.items };
}

// The slot of a name and arity, of so many.
fn slot_of(count: usize, name: &[u8], arity: u64) -> usize
    requires { 0 < count }
    ensures slot { result ≡ slot_of count name.now arity }
    ensures within { result < count }
{
    let mut hasher = FoldHasher::default();
    hasher.write(name);
    hasher.finish().wrapping_add(arity) as usize & (count - 1)
}

// The number of a name and arity.
fn find_row(heads: &[u32], links: &[u32], rows: &[Row], name: &[u8], arity: u64) -> Option<u64>
    requires { IsTable heads.now links.now rows.now }
    ensures number { result ≡ number_of rows.now name.now arity }
    ensures within { IfSome result (λ n. n < length rows.now) }
{
    if heads.is_empty() {
        return None;
    }
    let mut at = heads[slot_of(heads.len(), name, arity)];
    while at > 0 {
        let number = at as usize - 1;
        if rows[number].is_called(name, arity) {
            return Some(number as u64);
        }
        at = links[number];
    }
    None
}

// Puts a symbol into its slot.
fn link(heads: &mut Vec<u32>, links: &mut Vec<u32>, number: usize, row: &Row)
    requires slots { 0 < length heads.old.items }
    requires number { number < length links.old.items }
    requires few { number + 1 < 2 ^ 32 }
    ensures heads { heads.new.items ≡ set heads.old.items (slot_of (length heads.old.items)
        row.now.name row.now.arity) (number + 1) }
    ensures links { links.new.items ≡ set links.old.items number (slice_index heads.old.items
        (slot_of (length heads.old.items) row.now.name row.now.arity)) }
{
    let slot = row.slot(heads.len());
    links[number] = heads[slot];
    heads[slot] = number as u32 + 1;
}

// Puts each symbol into its slot; none is in a slot yet.
fn link_all(heads: &mut Vec<u32>, links: &mut Vec<u32>, rows: &[Row])
    requires empty { heads.old.items ≡ replicate (length heads.old.items) 0 }
    requires linked { length links.old.items ≡ length rows.now }
    requires room { length rows.now ≤ length heads.old.items }
    requires few { length rows.now < 2 ^ 32 }
    ensures count { length heads.new.items ≡ length heads.old.items }
    ensures linked { length links.new.items ≡ length links.old.items }
    ensures heads { AreHeads heads.new.items rows.now }
    ensures links { AreLinks (length heads.new.items) links.new.items rows.now }
{
    for number in 0..rows.len() {
        link(heads, links, number, &rows[number]);
    }
}

// Twice as many slots, 16 at first.
fn grow(heads: &mut Vec<u32>, links: &mut Vec<u32>, rows: &[Row]) -> Result<(), AllocError>
    requires table { IsTable heads.old.items links.old.items rows.now }
    requires full { length rows.now ≡ length heads.old.items }
    ensures table { IsTable heads.new.items links.new.items rows.now }
    ensures room { OnOk result (length rows.now < length heads.new.items) }
{
    let count = heads.len() * 2;
    heads.resize(count.max(16), 0)?;
    heads.fill(0);
    link_all(heads, links, rows);
    Ok(())
}

// Room for one more symbol.
fn make_room(
    heads: &mut Vec<u32>,
    links: &mut Vec<u32>,
    rows: &mut Vec<Row>,
) -> Result<(), AllocError>
    requires { IsTable heads.old.items links.old.items rows.old.items }
    ensures table { IsTable heads.new.items links.new.items rows.new.items }
    ensures rows { rows.new.items ≡ rows.old.items }
    ensures slots { OnOk result (length rows.new.items < length heads.new.items) }
    ensures few { OnOk result (length rows.new.items + 1 < 2 ^ 32) }
    ensures link { OnOk result (vec_len links.new < vec_capacity links.new) }
    ensures row { OnOk result (vec_len rows.new < vec_capacity rows.new) }
{
    if rows.len() + 1 >= 1 << 32 {
        return Err(AllocError);
    }
    if rows.len() == heads.len() {
        grow(heads, links, rows.as_slice())?;
    }
    links.reserve(1)?;
    rows.reserve(1)
}

// One more symbol, for which there is room.
fn put(heads: &mut Vec<u32>, links: &mut Vec<u32>, rows: &mut Vec<Row>, row: Row)
    requires table { IsTable heads.old.items links.old.items rows.old.items }
    requires absent { number_of rows.old.items row.name row.arity ≡ None }
    requires slots { length rows.old.items < length heads.old.items }
    requires few { length rows.old.items + 1 < 2 ^ 32 }
    requires link { vec_len links.old < vec_capacity links.old }
    requires row { vec_len rows.old < vec_capacity rows.old }
    ensures table { IsTable heads.new.items links.new.items rows.new.items }
    ensures rows { rows.new.items ≡ rows.old.items ++ row ∷ [] }
{
    let number = rows.len();
    links.push_reserved(0);
    link(heads, links, number, &row);
    rows.push_reserved(row);
}

// One more symbol, whose name and arity aren't there.
fn append_row(
    heads: &mut Vec<u32>,
    links: &mut Vec<u32>,
    rows: &mut Vec<Row>,
    name: &[u8],
    arity: u64,
    kind: Kind,
) -> Result<(), AllocError>
    requires table { IsTable heads.old.items links.old.items rows.old.items }
    requires absent { number_of rows.old.items name.now arity ≡ None }
    ensures table { IsTable heads.new.items links.new.items rows.new.items }
    ensures ok { OnOk result (rows.new.items ≡ rows.old.items
        ++ symbol name.now arity kind ∷ []) }
    ensures err { OnErr result (rows.new.items ≡ rows.old.items) }
{
    make_room(heads, links, rows)?;
    let name = Name::from_slice(*rows.allocator(), name)?;
    put(heads, links, rows, Row { name, arity, kind });
    Ok(())
}

// Takes the last symbol out.
fn drop_last(heads: &mut Vec<u32>, links: &mut Vec<u32>, rows: &mut Vec<Row>)
    requires table { IsTable heads.old.items links.old.items rows.old.items }
    requires some { 0 < length rows.old.items }
    ensures table { IsTable heads.new.items links.new.items rows.new.items }
    ensures rows { rows.new.items ≡ take (length rows.old.items - 1) rows.old.items }
{
    let last = rows.len() - 1;
    let slot = rows[last].slot(heads.len());
    heads[slot] = links[last];
    links.truncate(last);
    rows.truncate(last);
}

impl Symbols {
    /// No symbols.
    pub fn new(alloc: Global) -> Symbols
        ensures { result ≡ [] }
    {
        Symbols {
            rows: Vec::new(alloc),
            heads: Vec::new(alloc),
            links: Vec::new(alloc),
        }
    }

    /// How many symbols there are; no name and arity stands twice.
    pub fn len(&self) -> usize
        ensures len { result ≡ length self.now }
        ensures once { FindsEach self.now }
    {
        self.rows.len()
    }

    /// The symbol of this name, arity and kind, a new last one where the name and arity aren't there. An error leaves the table
    /// as it was.
    #[tactic(auto, using(crate::proofs::SymbolLemmas::symbol_there, crate::proofs::SymbolLemmas::number_of_push, crate::proofs::Places::slice_get_last, crate::proofs::Places::slice_get_more))]
    pub fn enter(&mut self, name: &[u8], arity: u64, kind: Kind) -> Result<Sym, Clash>
        ensures table { OnOk result (self.new ≡ entered self.old (symbol name.now arity kind)) }
        ensures number { IfOk result (λ s. number_of self.new name.now arity ≡ Some s.0) }
        ensures symbol { IfOk result (λ s. slice_get self.new s.0
            ≡ Some (symbol name.now arity kind)) }

        ensures other_kind { (result ≡ Err Clash.OtherKind)
            ↔ IsTrue (is_clash self.old (symbol name.now arity kind)) }
        ensures memory { result ≡ Err Clash.Memory → number_of self.old name.now arity ≡ None }
        ensures err { OnErr result (self.new ≡ self.old) }

        ensures numbers { KeepsNumbers self.old self.new }
    {
        match self.find(name, arity) {
            Some(s) => {
                if self.kind(s) == kind {
                    Ok(s)
                } else {
                    Err(Clash::OtherKind)
                }
            }
            None => match self.append(name, arity, kind) {
                Ok(s) => Ok(s),
                Err(_) => Err(Clash::Memory),
            },
        }
    }

    /// The symbol of this name and arity.
    pub fn find(&self, name: &[u8], arity: u64) -> Option<Sym>
        ensures number { option_map (λ s. s.0) result ≡ number_of self.now name.now arity }
        ensures within { IfSome result (λ s. s.0 < length self.now) }
    {
        let number = find_row(
            self.heads.as_slice(),
            self.links.as_slice(),
            self.rows.as_slice(),
            name,
            arity,
        )?;
        Some(Sym(number))
    }

    /// The symbol's name.
    pub fn name(&self, s: Sym) -> &[u8]
        requires { s.0 < length self.now }
        ensures { result.now ≡ name_at self.now s.0 }
    {
        self.rows[s.0 as usize].name.bytes()
    }

    /// The symbol's arity.
    pub fn arity(&self, s: Sym) -> u64
        requires { s.0 < length self.now }
        ensures { result ≡ arity_at self.now s.0 }
    {
        self.rows[s.0 as usize].arity
    }

    /// What the symbol stands for.
    pub fn kind(&self, s: Sym) -> Kind
        requires { s.0 < length self.now }
        ensures { result ≡ kind_at self.now s.0 }
    {
        self.rows[s.0 as usize].kind
    }

    /// An equal table.
    #[tactic(auto, using(crate::proofs::SymbolLemmas::absent_before, crate::proofs::SymbolLemmas::symbols_more))]
    pub fn copy(&self, alloc: Global) -> Result<Symbols, AllocError>
        ensures { IfOk result (λ copy. copy ≡ self.now) }
    {
        let mut copy = Symbols::new(alloc);
        for number in 0..self.len() {
            let s = Sym(number as u64);
            copy.append(self.name(s), self.arity(s), self.kind(s))?;
        }
        Ok(copy)
    }

    /// Takes the symbols from a number on out again.
    pub fn truncate(&mut self, len: usize)
        ensures { self.new ≡ take len self.old }
    {
        while len < self.len() {
            self.pop();
        }
    }

    // Takes the last symbol out.
    fn pop(&mut self)
        requires { 0 < length self.old }
        ensures { self.new ≡ take (length self.old - 1) self.old }
    {
        drop_last(&mut self.heads, &mut self.links, &mut self.rows);
    }

    // A new last symbol, whose name and arity aren't there.
    pub(crate) fn append(&mut self, name: &[u8], arity: u64, kind: Kind) -> Result<Sym, AllocError>
        requires { number_of self.old name.now arity ≡ None }
        ensures number { IfOk result (λ s. s.0 ≡ length self.old) }
        ensures table { OnOk result (self.new ≡ self.old ++ symbol name.now arity kind ∷ []) }
        ensures err { OnErr result (self.new ≡ self.old) }
    {
        let number = self.rows.len() as u64;
        append_row(
            &mut self.heads,
            &mut self.links,
            &mut self.rows,
            name,
            arity,
            kind,
        )?;
        Ok(Sym(number))
    }
}
