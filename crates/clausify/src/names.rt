// The names of Skolem symbols.
ghost use Rattle.std.specs.Prelude.{◌≡◌, ◌+◌, IfOk, false, not};
ghost use Rattle.std.specs.List.{list_any};
ghost use Rattle.std.specs.Str.{bytes_eq};
ghost use Rattle.clausify.specs.Names.{letter_numbered, is_named, next_free, HasNames};

use fol_core::{Sym, Symbols};
use indexmap::IndexSet;
use std::alloc::{AllocError, Global};

/// The names of a table's symbols, each once.
#[tactic(auto, using(crate::proofs::NameLemmas::names_whole))]
pub fn names_of(alloc: Global, symbols: &Symbols) -> Result<IndexSet<Vec<u8>>, AllocError>
    ensures { IfOk result (λ names. HasNames symbols.now names.keys) }
{
    let mut names = IndexSet::new(alloc);
    for number in 0..symbols.len() {
        let name = symbols.name(Sym(number as u64));
        names.insert(Vec::from_slice(alloc, name)?)?;
    }
    Ok(names)
}

// The next number; there is no memory for as many names as there are numbers.
fn after(number: u64) -> Result<u64, AllocError>
    ensures { IfOk result (λ next. next ≡ number + 1) }
{
    number.checked_add(1).ok_or(AllocError)
}

/// A letter with a number behind it.
pub fn numbered(alloc: Global, letter: u8, number: u64) -> Result<Vec<u8>, AllocError>
    ensures { IfOk result (λ name. name.items ≡ letter_numbered letter number) }
{
    let digits = format!(in alloc; "{number}")?;
    let mut name = Vec::new(alloc);
    name.push(letter)?;
    name.extend_from_slice(digits.as_bytes())?;
    Ok(name)
}

/// The first number behind `last` whose name isn't taken. Among one more than there are symbols one is free.
#[tactic(auto, using(crate::proofs::NameLemmas::passes, crate::proofs::NameLemmas::stops, crate::proofs::NameLemmas::ends))]
pub fn next_free(
    alloc: Global,
    symbols: &Symbols,
    names: &IndexSet<Vec<u8>>,
    letter: u8,
    last: u64,
) -> Result<u64, AllocError>
    requires { HasNames symbols.now names.now.keys }
    ensures number { IfOk result (λ n. n ≡ next_free symbols.now letter last) }
    ensures free { IfOk result (λ n. is_named symbols.now (letter_numbered letter n) ≡ false) }
{
    let mut number = after(last)?;
    for passed in 0..symbols.len() {
        if is_free(alloc, names, letter, number)? {
            return Ok(number);
        }
        number = after(number)?;
    }
    Ok(number)
}

// Whether a letter with a number is none of the names.
fn is_free(
    alloc: Global,
    names: &IndexSet<Vec<u8>>,
    letter: u8,
    number: u64,
) -> Result<bool, AllocError>
    ensures { IfOk result (λ free. not free ≡ list_any
        (λ v. bytes_eq (letter_numbered letter number) v.items) names.now.keys) }
{
    let name = numbered(alloc, letter, number)?;
    Ok(!names.contains(name.as_slice()))
}
