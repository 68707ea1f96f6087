// Names in an order, each once.
ghost use Rattle.std.specs.Prelude.{◌≡◌, ◌<◌, [], Some, not, length, slice_get, IfOk, OnOk, OnErr};
ghost use Rattle.fol_core.specs.NamesOnce.{is_in, with_name, place_in};

use crate::symbols::{Kind, Sym, Symbols};
use std::alloc::{AllocError, Global};
use std::marker::Model;

/// Names in an order, none twice; contracts see the list.
#[derive(Drop)]
pub struct NameOrder {
    // Each name as a constant.
    names: Symbols,
}

impl Model for NameOrder {
    ghost use Rattle.std.specs.Prelude.{ℕ, List};
    ghost use Rattle.fol_core.specs.NamesOnce.{constant_names, AreConstants};

    ghost Value = { List (List ℕ) };

    ghost view = { λ a. constant_names a.names };

    ghost invariant = { λ a. AreConstants a.names };
}

impl NameOrder {
    /// No names.
    pub fn new(alloc: Global) -> NameOrder
        ensures { result ≡ [] }
    {
        NameOrder {
            names: Symbols::new(alloc),
        }
    }

    /// How many names there are.
    pub fn len(&self) -> usize
        ensures { result ≡ length self.now }
    {
        self.names.len()
    }

    /// The name at a place.
    pub fn name(&self, place: usize) -> &[u8]
        requires { place < length self.now }
        ensures { slice_get self.now place ≡ Some result.now }
    {
        self.names.name(Sym(place as u64))
    }

    /// The place of a name among them, counted from 0.
    pub fn position(&self, name: &[u8]) -> Option<usize>
        ensures { result ≡ place_in name.now self.now }
    {
        match self.names.find(name, 0) {
            Some(constant) => Some(constant.0 as usize),
            None => None,
        }
    }

    /// Puts a name behind the others, unless it is one of them; whether it was not.
    pub fn push(&mut self, name: &[u8]) -> Result<bool, AllocError>
        ensures is_new { IfOk result (λ is_new. is_new ≡ not (is_in name.now self.old)) }
        ensures ok { OnOk result (self.new ≡ with_name name.now self.old) }
        ensures err { OnErr result (self.new ≡ self.old) }
    {
        if self.names.find(name, 0).is_some() {
            return Ok(false);
        }
        self.names.append(name, 0, Kind::Function)?;
        Ok(true)
    }
}
