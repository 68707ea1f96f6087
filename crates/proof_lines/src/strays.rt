// Relations that are named like Skolem symbols, where the problem has no such name.
ghost use Rattle.std.specs.Prelude.{◌≡◌, ◌<◌, IfOk, length};
ghost use Rattle.fol_core.specs.SymbolTable.{symbol, name_at, arity_at, kind_at};
ghost use Rattle.proof_lines.specs.Strays.{is_skolem_name, is_kept, AreNamesOf, is_stray, strays_behind};

use fol_core::{Kind, Sym, Symbols};
use indexmap::IndexSet;
use ladr_lex::is_numeral;
use std::alloc::{AllocError, Global};

/// The names of a problem's symbols, each once, to be looked up.
#[derive(Drop)]
pub struct ProblemNames {
    names: IndexSet<Vec<u8>>,
}

impl ProblemNames {
    /// Those of a table.
    #[tactic(auto, using(crate::proofs::KeptNames::names_whole))]
    pub fn of(alloc: Global, symbols: &Symbols) -> Result<ProblemNames, AllocError>
        ensures { IfOk result (AreNamesOf symbols.now) }
    {
        let mut names = ProblemNames {
            names: IndexSet::new(alloc),
        };
        for number in 0..symbols.len() {
            let name = Vec::from_slice(alloc, symbols.name(Sym(number as u64)))?;
            names.names.insert(name)?;
        }
        Ok(names)
    }

    // Whether one of them is this.
    fn has(&self, name: &[u8]) -> bool
        ensures { result ≡ is_kept self.now name.now }
    {
        self.names.contains(name)
    }
}

// Whether a name is `c` or `f` with a number.
fn is_skolem_name(name: &[u8]) -> bool
    ensures { result ≡ is_skolem_name name.now }
{
    match name {
        [] => false,
        [first, number @ ..] => (*first == b'c' || *first == b'f') && is_numeral(number),
    }
}

/// Whether a symbol behind the first so many is a relation named like a Skolem symbol, and the problem has no such name.
#[tactic(auto, using(crate::proofs::Steps::stray_step))]
pub fn brings_stray(names: &ProblemNames, before: usize, symbols: &Symbols) -> bool
    ensures { result ≡ strays_behind (is_kept names.now) before symbols.now }
{
    for n in before..symbols.len() {
        if is_stray(names, symbols, Sym(n as u64)) {
            return true;
        }
    }
    false
}

// Whether the symbol is one.
fn is_stray(names: &ProblemNames, symbols: &Symbols, s: Sym) -> bool
    requires { s.0 < length symbols.now }
    ensures { result ≡ is_stray (is_kept names.now) (symbol (name_at symbols.now s.0)
        (arity_at symbols.now s.0) (kind_at symbols.now s.0)) }
{
    let name = symbols.name(s);
    symbols.kind(s) == Kind::Relation && is_skolem_name(name) && !names.has(name)
}
