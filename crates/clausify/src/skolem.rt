// The Skolem symbols of a problem.
ghost use Rattle.std.specs.Prelude.{◌≡◌, IfOk, OnOk, OnErr, Some, false};
ghost use Rattle.fol_core.specs.SymbolTable.{symbol, number_of, entered, is_clash, KeepsNumbers};
ghost use Rattle.fol_core.specs.declared.symbols.Kind.TheVariants.{Function};
ghost use Rattle.clausify.specs.Names.{next_name, next_constant, next_function, skolem_symbols, all_entered, entered_numbers, HasNoSkolemRelation, HasNames, IsNewName};

use crate::names::{names_of, next_free, numbered};
use fol_core::{Clash, Kind, Symbols};
use indexmap::IndexSet;
use std::alloc::{AllocError, Global};

// The last numbers in the names of constants and of functions.
#[derive(Drop)]
struct Last {
    constants: u64,
    functions: u64,
}

impl Last {
    // The name of the next symbol with so many arguments.
    fn next(
        &mut self,
        alloc: Global,
        input: &Symbols,
        names: &IndexSet<Vec<u8>>,
        arity: u64,
    ) -> Result<Vec<u8>, AllocError>
        requires taken { HasNames input.now names.now.keys }
        ensures name { IfOk result (λ name. name.items
            ≡ next_name input.now self.old.constants self.old.functions arity) }
        ensures constants { OnOk result (self.new.constants
            ≡ next_constant input.now self.old.constants arity) }
        ensures functions { OnOk result (self.new.functions
            ≡ next_function input.now self.old.functions arity) }
        ensures new { OnOk result (IsNewName input.now
            (next_name input.now self.old.constants self.old.functions arity)) }
    {
        if arity == 0 {
            self.constants = next_free(alloc, input, names, b'c', self.constants)?;
            numbered(alloc, b'c', self.constants)
        } else {
            self.functions = next_free(alloc, input, names, b'f', self.functions)?;
            numbered(alloc, b'f', self.functions)
        }
    }
}

// The number of a function, entered where the table doesn't have it.
fn enter(name: &[u8], arity: u64, symbols: &mut Symbols) -> Result<u64, AllocError>
    requires { is_clash symbols.old (symbol name.now arity Function) ≡ false }
    ensures table { OnOk result (symbols.new
        ≡ entered symbols.old (symbol name.now arity Function)) }
    ensures number { IfOk result (λ n. number_of symbols.new name.now arity ≡ Some n) }
    ensures kept { KeepsNumbers symbols.old symbols.new }
{
    match symbols.enter(name, arity, Kind::Function) {
        Ok(s) => Ok(s.0),
        Err(Clash::OtherKind) => unreachable!(),
        Err(Clash::Memory) => Err(AllocError),
    }
}

// The number of the next Skolem symbol, which is entered.
#[tactic(auto, using(crate::proofs::SkolemLemmas::no_clash, crate::proofs::SkolemLemmas::still_none))]
fn enter_next(
    alloc: Global,
    input: &Symbols,
    names: &IndexSet<Vec<u8>>,
    arity: u64,
    last: &mut Last,
    symbols: &mut Symbols,
) -> Result<u64, AllocError>
    requires taken { HasNames input.now names.now.keys }
    requires none { HasNoSkolemRelation input.now symbols.old }
    ensures table { OnOk result (symbols.new
        ≡ entered symbols.old
        (symbol (next_name input.now last.old.constants last.old.functions arity) arity Function)) }
    ensures number { IfOk result (λ n. number_of symbols.new
        (next_name input.now last.old.constants last.old.functions arity) arity ≡ Some n) }
    ensures constants { OnOk result (last.new.constants
        ≡ next_constant input.now last.old.constants arity) }
    ensures functions { OnOk result (last.new.functions
        ≡ next_function input.now last.old.functions arity) }
    ensures none { OnOk result (HasNoSkolemRelation input.now symbols.new) }
    ensures kept { KeepsNumbers symbols.old symbols.new }
{
    let name = last.next(alloc, input, names, arity)?;
    enter(&name, arity, symbols)
}

/// Enters the Skolem symbols with these numbers of arguments, and tells their numbers.
#[tactic(auto, using(crate::proofs::SkolemLemmas::table_next, crate::proofs::SkolemLemmas::numbers_next, crate::proofs::SkolemLemmas::kept_through))]
pub fn enter_all(
    alloc: Global,
    input: &Symbols,
    arities: &[u64],
    symbols: &mut Symbols,
) -> Result<Vec<u64>, AllocError>
    requires { HasNoSkolemRelation input.now symbols.old }
    ensures table { OnOk result (symbols.new
        ≡ all_entered symbols.old (skolem_symbols input.now 0 0 arities.now)) }
    ensures numbers { IfOk result (λ made. made.items
        ≡ entered_numbers symbols.old (skolem_symbols input.now 0 0 arities.now)) }
    ensures kept { KeepsNumbers symbols.old symbols.new }
{
    let names = names_of(alloc, input)?;
    let mut last = Last {
        constants: 0,
        functions: 0,
    };
    let mut made = Vec::new(alloc);
    for arity in arities {
        made.push(enter_next(alloc, input, &names, *arity, &mut last, symbols)?)?;
    }
    Ok(made)
}
