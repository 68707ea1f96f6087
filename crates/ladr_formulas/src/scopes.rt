// The variables that the quantifiers around a place bind.
ghost use Rattle.std.specs.Prelude.{◌≡◌, [], ◌∷◌, OnOk};
ghost use Rattle.ladr_formulas.specs.Formulas.{bound_number};
ghost use Rattle.ladr_formulas.specs.ScopeView.{outer};

use fol_core::Name;
use std::alloc::{AllocError, Global};
use std::marker::Model;

/// A name with the number of the variable that it stands for.
#[derive(Drop)]
pub struct ScopeBinding {
    pub name: Name,
    pub number: u64,
}

/// The bindings of the quantifiers around a place; contracts see them from the innermost on. There are never more than a term
/// has levels.
#[derive(Drop)]
pub struct Scope {
    bindings: Vec<ScopeBinding>,
}

impl Model for Scope {
    ghost use Rattle.std.specs.Prelude.{List, []};
    ghost use Rattle.ladr_formulas.specs.Formulas.{Bound};

    ghost Value = { List Bound };

    ghost use Rattle.ladr_formulas.specs.ScopeView.{bounds_onto};

    ghost view = { λ a. bounds_onto [] a.bindings.items };
}

impl Scope {
    /// No quantifier.
    pub fn new(alloc: Global) -> Scope
        ensures { result ≡ [] }
    {
        Scope {
            bindings: Vec::new(alloc),
        }
    }

    /// The number that a name is bound to.
    pub fn number(&self, name: &[u8]) -> Option<u64>
        ensures { result ≡ bound_number self.now name.now }
    {
        let mut number = None;
        for binding in &self.bindings {
            if binding.name.bytes() == name {
                number = Some(binding.number);
            }
        }
        number
    }

    #[tactic(auto, using(crate::proofs::ScopeLemmas::bounds_onto_last))]
    /// One more binding, inside the others.
    pub fn push(&mut self, name: Name, number: u64) -> Result<(), AllocError>
        ensures { OnOk result (self.new ≡ record { name = name; number = number } ∷ self.old) }
    {
        self.bindings.push(ScopeBinding { name, number })?;
        Ok(())
    }

    #[tactic(auto, using(crate::proofs::ScopeLemmas::bounds_onto_last))]
    /// Without the innermost binding.
    pub fn pop(&mut self)
        ensures { self.new ≡ outer self.old }
    {
        let _ = self.bindings.pop();
    }
}
