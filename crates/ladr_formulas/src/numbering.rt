// The variables of a formula that is read, by number.
ghost use Rattle.std.specs.Prelude.{◌≡◌, [], ◌∷◌, ◌++◌, OnOk, IfOk, length, None, true, false};
ghost use Rattle.ladr_formulas.specs.Formulas.{free_number, names_of_variables};

use fol_core::{Name, Names};
use indexmap::IndexMap;
use smallvec::SmallVec;
use std::alloc::{AllocError, Global};
use std::marker::Model;

/// The variables by number; contracts see the list. A formula may have millions of them, so each name stands in one place.
#[derive(Drop)]
pub struct Variables {
    // Whether each is free, by number.
    are_free: Vec<bool>,
    // The names of the free ones in their order, with their numbers.
    free: IndexMap<SmallVec<u8, 16>, u64>,
    // The names of the others, which quantifiers brought, in their order.
    bound: Vec<Name>,
}

impl Model for Variables {
    ghost use Rattle.std.specs.Prelude.{List};
    ghost use Rattle.std.specs.Map.{keys_of};
    ghost use Rattle.ladr_formulas.specs.Formulas.{Variable};

    ghost Value = { List Variable };

    ghost use Rattle.ladr_formulas.specs.Numbering.{woven, AreNumbered};

    ghost view = { λ a. woven a.are_free.items (keys_of a.free.entries) a.bound.items };

    ghost invariant = { λ a. AreNumbered a.are_free.items a.free.entries a.bound.items };
}

impl Variables {
    /// No variable.
    #[inline(always)]
    pub fn new(alloc: Global) -> Variables
        ensures { result ≡ [] }
    {
        Variables {
            are_free: Vec::new(alloc),
            free: IndexMap::new(alloc),
            bound: Vec::new(alloc),
        }
    }

    #[tactic(auto, using(crate::proofs::NumberingLemmas::length_woven))]
    /// How many there are.
    pub fn len(&self) -> usize
        ensures { result ≡ length self.now }
    {
        self.are_free.len()
    }

    /// The number of the free variable of this name.
    #[inline(never)]
    pub fn free_number(&self, alloc: Global, name: &[u8]) -> Result<Option<u64>, AllocError>
        ensures { IfOk result (λ n. n ≡ free_number 0 self.now name.now) }
    {
        let key = SmallVec::from_slice(alloc, name)?;
        Ok(self.free.get(&key).copied())
    }

    /// One more variable, which a quantifier brings.
    pub fn push_bound(&mut self, name: Name) -> Result<(), AllocError>
        ensures { OnOk result (self.new ≡ self.old ++ record { name = name; free = false } ∷ []) }
    {
        self.are_free.push(false)?;
        if self.bound.push(name).is_err() {
            let _ = self.are_free.pop();
            return Err(AllocError);
        }
        Ok(())
    }

    /// One more variable, which is free.
    #[inline(never)]
    pub fn push_free(&mut self, alloc: Global, name: &[u8]) -> Result<(), AllocError>
        requires { free_number 0 self.old name.now ≡ None }
        ensures { OnOk result (self.new ≡ self.old
            ++ record { name = name.now; free = true } ∷ []) }
    {
        let number = self.are_free.len() as u64;
        let key = SmallVec::from_slice(alloc, name)?;
        self.are_free.push(true)?;
        if self.free.insert(key, number).is_err() {
            let _ = self.are_free.pop();
            return Err(AllocError);
        }
        Ok(())
    }

    /// The names by number.
    #[inline(never)]
    pub fn into_names(self, alloc: Global) -> Result<Names, AllocError>
        ensures { IfOk result (λ names. names ≡ names_of_variables self) }
    {
        let Variables {
            are_free,
            free,
            bound,
        } = self;
        let mut free_names = free.into_keys();
        let mut bound_names = bound.into_iter();
        let mut names = Names::new(alloc);
        for is_free in &are_free {
            if *is_free {
                if let Some(name) = free_names.next() {
                    names.push(Name::from_slice(alloc, name.as_slice())?)?;
                }
            } else if let Some(name) = bound_names.next() {
                names.push(name)?;
            }
        }
        Ok(names)
    }
}
