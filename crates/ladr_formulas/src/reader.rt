// What the reader of formulas has read so far.
ghost use Rattle.std.specs.Prelude.{◌≡◌, ℕ, [], ◌∷◌, IfOk, OnOk, length, unwrap_or, false};
ghost use Rattle.fol_core.specs.SymbolTable.{symbol, number_of, entered, is_clash, KeepsNumbers};
ghost use Rattle.ladr_formulas.specs.Formulas.{unread, meets, with_symbol, symbol_number, is_free_name, named_variable, with_variable, names_of_variables};
ghost use Rattle.ladr_formulas.specs.ScopeView.{outer};

use crate::numbering::Variables;
use crate::scopes::Scope;
use crate::styles::Style;
use fol_core::{Clash, Kind, Name, Names, Sym, Symbols};
use ladr_lex::{MOST_ARGUMENTS, Misuse};
use std::alloc::{AllocError, Global};
use std::marker::Model;
use std::mem;

/// The symbols and variables so far, the quantifiers around the place where the reader is, the least row of misuse that was
/// met, and whether an arity was too large.
#[derive(Drop)]
pub struct Reader {
    symbols: Symbols,
    variables: Variables,
    scope: Scope,
    least: Option<Misuse>,
    large: bool,
}

impl Model for Reader {
    ghost use Rattle.ladr_formulas.specs.ReaderView.{Progress, progress};

    ghost Value = { Progress };

    ghost view = { λ a. progress a.symbols a.variables a.scope a.least a.large };
}

/// The symbol of a name, an arity and a kind, and whether the name and arity have the other kind.
#[inline(always)]
pub fn enter(
    symbols: &mut Symbols,
    name: &[u8],
    arity: u64,
    kind: Kind,
) -> Result<(Sym, bool), AllocError>
    ensures table { OnOk result (symbols.new ≡ entered symbols.old (symbol name.now arity kind)) }
    ensures number { IfOk result (λ r. r.0.0 ≡ unwrap_or (number_of symbols.new name.now arity) 0) }
    ensures clash { IfOk result (λ r. r.1 ≡ is_clash symbols.old (symbol name.now arity kind)) }
    ensures kept { KeepsNumbers symbols.old symbols.new }
{
    match symbols.enter(name, arity, kind) {
        Ok(s) => Ok((s, false)),
        Err(Clash::OtherKind) => Ok((symbols.find(name, arity).unwrap_or(Sym(0)), true)),
        Err(Clash::Memory) => Err(AllocError),
    }
}

/// Whether a name that isn't bound is a variable, by its first byte.
pub fn is_free_name(style: Style, name: &[u8]) -> bool
    ensures { result ≡ is_free_name style name.now }
{
    match name {
        [] => false,
        [first, ..] => {
            if style.prolog {
                first.is_ascii_uppercase() || *first == b'_'
            } else {
                matches!(*first, b'u'..=b'z')
            }
        }
    }
}

impl Reader {
    /// Behind these symbols nothing is read.
    #[inline(always)]
    pub fn new(alloc: Global, symbols: Symbols) -> Reader
        ensures { result ≡ record { reading = unread symbols; scope = [] } }
    {
        Reader {
            symbols,
            variables: Variables::new(alloc),
            scope: Scope::new(alloc),
            least: None,
            large: false,
        }
    }

    /// A misuse is met, if the test says so.
    pub fn meet(&mut self, test: bool, misuse: Misuse)
        ensures { self.new ≡ record self.old { reading = meets test misuse self.old.reading } }
    {
        if test {
            self.least = Some(misuse.earlier(self.least));
        }
    }

    /// The symbol of a name, an arity and a kind.
    #[inline(always)]
    pub fn enter(&mut self, name: &[u8], arity: usize, kind: Kind) -> Result<Sym, AllocError>
        ensures read { OnOk result (self.new ≡ record self.old
            { reading = with_symbol name.now arity kind self.old.reading }) }
        ensures number { IfOk result (λ s. s.0 ≡ symbol_number name.now arity self.new.reading) }
        ensures kept { KeepsNumbers self.old.reading.symbols self.new.reading.symbols }
    {
        let (s, clashes) = enter(&mut self.symbols, name, arity as u64, kind)?;
        self.meet(clashes, Misuse::TwoKinds);
        self.meet(name == b"#".as_slice(), Misuse::UnfitAttribute);
        self.large = self.large || arity > MOST_ARGUMENTS;
        Ok(s)
    }

    #[tactic(auto, unfolding(crate::specs::Formulas::named_variable))]
    /// The number of the variable that a name without arguments is, if it is one.
    #[inline(always)]
    pub fn variable(
        &mut self,
        alloc: Global,
        style: Style,
        name: &[u8],
    ) -> Result<Option<u64>, AllocError>
        ensures read { IfOk result (λ n. named_variable style self.old.scope name.now
            self.old.reading ≡ record { tree = n; reading = self.new.reading }) }
        ensures scope { OnOk result (self.new.scope ≡ self.old.scope) }
        ensures symbols { self.new.reading.symbols ≡ self.old.reading.symbols }
    {
        if let Some(number) = self.scope.number(name) {
            return Ok(Some(number));
        }
        if !is_free_name(style, name) {
            return Ok(None);
        }
        match self.variables.free_number(alloc, name)? {
            Some(number) => Ok(Some(number)),
            None => {
                let number = self.variables.len() as u64;
                self.variables.push_free(alloc, name)?;
                Ok(Some(number))
            }
        }
    }

    /// A quantifier brings a variable; its number is answered, and its name stands for it from now on.
    pub fn bind(&mut self, alloc: Global, name: &[u8]) -> Result<u64, AllocError>
        ensures number { IfOk result (λ n. n ≡ length self.old.reading.variables) }
        ensures read { OnOk result (self.new.reading
            ≡ with_variable name.now false self.old.reading) }
        ensures scope { OnOk result (self.new.scope
            ≡ record { name = name.now; number = length self.old.reading.variables } ∷
            self.old.scope) }
        ensures symbols { self.new.reading.symbols ≡ self.old.reading.symbols }
    {
        let number = self.variables.len() as u64;
        let bound = Name::from_slice(alloc, name)?;
        self.variables.push_bound(bound)?;
        let bound = Name::from_slice(alloc, name)?;
        self.scope.push(bound, number)?;
        Ok(number)
    }

    /// The body of the innermost quantifier is read.
    pub fn unbind(&mut self)
        ensures { self.new ≡ record self.old { scope = outer self.old.scope } }
    {
        self.scope.pop();
    }

    /// The least row of misuse that was met.
    pub fn least(&self) -> Option<Misuse>
        ensures { result ≡ self.now.reading.least }
    {
        self.least
    }

    /// Whether an arity was too large.
    pub fn is_large(&self) -> bool
        ensures { result ≡ self.now.reading.large }
    {
        self.large
    }

    /// The names of the variables, which are forgotten. Most formulas of long inputs have none.
    #[inline(always)]
    pub fn take_names(&mut self, alloc: Global) -> Result<Names, AllocError>
        ensures names { IfOk result (λ names. names
            ≡ names_of_variables self.old.reading.variables) }
        ensures symbols { self.new.reading.symbols ≡ self.old.reading.symbols }
    {
        if self.variables.len() == 0 {
            return Ok(Names::new(alloc));
        }
        let variables = mem::replace(&mut self.variables, Variables::new(alloc));
        variables.into_names(alloc)
    }

    /// The symbols, the variables, the least row that was met, and whether an arity was too large.
    pub fn into_read(self) -> (Symbols, Variables, Option<Misuse>, bool)
        ensures { self.reading ≡ record {
          symbols = result.0;
          variables = result.1;
          least =
              result.2;
          large = result.3;
        } }
    {
        let Reader {
            symbols,
            variables,
            least,
            large,
            ..
        } = self;
        (symbols, variables, least, large)
    }

    /// The symbols.
    #[inline(always)]
    pub fn into_symbols(self) -> Symbols
        ensures { result ≡ self.reading.symbols }
    {
        let Reader { symbols, .. } = self;
        symbols
    }
}
