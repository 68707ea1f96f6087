// Interpretations in the order read.
ghost use Rattle.std.specs.Prelude.{◌≡◌, ◌<◌, ◌∷◌, ◌++◌, [], Some, length, slice_get, OnOk, OnErr};

use crate::named::Named;
use std::alloc::{AllocError, Global};
use std::marker::Model;

/// Interpretations in their order; contracts see the list of what was read.
#[derive(Drop)]
pub struct Interpretations {
    items: Vec<Named>,
}

impl Model for Interpretations {
    ghost use Rattle.std.specs.Prelude.{List};
    ghost use Rattle.std.specs.Coded.{coded_list};
    ghost use Rattle.ladr_commands.specs.ByName as names;
    ghost use Rattle.ladr_commands.specs.ByName.{coded_by_name};

    ghost Value = { List names.ByName };

    ghost coded = { coded_list coded_by_name };

    ghost view = { λ a. a.items.items };
}

impl Interpretations {
    /// None.
    pub fn new(alloc: Global) -> Interpretations
        ensures { result ≡ [] }
    {
        Interpretations {
            items: Vec::new(alloc),
        }
    }

    /// How many there are.
    pub fn len(&self) -> usize
        ensures { result ≡ length self.now }
    {
        self.items.len()
    }

    /// The one at a place.
    pub fn at(&self, place: usize) -> &Named
        requires { place < length self.now }
        ensures { slice_get self.now place ≡ Some result.now }
    {
        &self.items[place]
    }

    /// One more, behind the others.
    pub fn push(&mut self, named: Named) -> Result<(), AllocError>
        ensures ok { OnOk result (self.new ≡ self.old ++ named ∷ []) }
        ensures err { OnErr result (self.new ≡ self.old) }
    {
        self.items.push(named)?;
        Ok(())
    }
}
