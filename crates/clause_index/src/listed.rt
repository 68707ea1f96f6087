// Clauses by rising number; those of one literal are found by it.
ghost use Rattle.std.specs.Prelude.{◌≡◌, ◌+◌, ◌≤◌, ◌==◌, false, not, [], IfOk, OnOk, OnErr, filter, length, slice_get};
ghost use Rattle.std.specs.List.{list_any};
ghost use Rattle.std.specs.List.Sorted.{IsStrictlyIncreasing};
ghost use Rattle.clause_index.specs.Entries.{is_short_above, is_short_unifiable, entered, short_atoms};
ghost use Rattle.clause_index.specs.Filing.{HasAllShort};
ghost use Rattle.discrim_tree.specs.Entries.{has_number, numbers_found};
ghost use Rattle.discrim_tree.specs.Seeking.{passes};
ghost use Rattle.discrim_tree.specs.Terms.{has_instance};
ghost use Rattle.discrim_tree.specs.Tries.{count_linear, count_up_to, HasRisen};
ghost use Rattle.discrim_tree.specs.declared.sought.Sought.TheVariants.{Generalizations, Unifiable};
ghost use Rattle.fol_core.specs.TermView.{tree_of};
ghost use Rattle.held_clauses.specs.Holding.{lent};
ghost use Rattle.prover_steps.specs.HeldOrder.{numbers_of, IsNoneOf, IsRising};
ghost use Rattle.prover_steps.specs.Searching.{put_in};

use crate::lists::{all_with, leave_out_one, put_in};
use crate::short::is_short_of;
use derivation::atom_at;
use discrim_tree::{Index, Sought, Tries};
use fol_core::Term;
use held_clauses::Held;
use std::alloc::{AllocError, Global};
use std::marker::Model;

/// Clauses by rising number, with an index for each sign of the atoms of those that have one literal; a clause without literals
/// stands in both, under a variable. Contracts see the list of clauses.
#[derive(Drop)]
pub struct Listed {
    clauses: Vec<Held>,
    positives: Index,
    negatives: Index,
}

impl Model for Listed {
    ghost use Rattle.std.specs.Prelude.{List};
    ghost use Rattle.std.specs.Coded.{coded_list};
    ghost use Rattle.held_clauses.specs.Holding.{HeldClause, coded_held};

    ghost Value = { List HeldClause };

    ghost coded = { coded_list coded_held };

    ghost use Rattle.clause_index.specs.Entries.{AreIndexedBySign};

    ghost view = { λ a. a.clauses.items };

    ghost invariant = { λ a. AreIndexedBySign a.clauses.items a.positives a.negatives };
}

// Puts the clause in the index of one sign, if it belongs there.
#[tactic(auto, using(derivation::proofs::SideSteps::or_tree, derivation::proofs::SideSteps::or_variable))]
fn enter(sign: bool, held: &Held, index: &mut Index) -> Result<(), AllocError>
    requires { has_number held.now.number index.old ≡ false }
    ensures ok { OnOk result (index.new ≡ entered sign held.now index.old) }
    ensures err { OnErr result (index.new ≡ index.old) }
{
    if !is_short_of(sign, held) {
        return Ok(());
    }
    let variable = Term::Var(0);
    index.insert(
        held.number(),
        atom_at(held.clause(), 0).unwrap_or(&variable),
    )
}

impl Listed {
    /// No clauses.
    pub fn new(alloc: Global) -> Listed
        ensures { result ≡ [] }
    {
        Listed {
            clauses: Vec::new(alloc),
            positives: Index::new(alloc),
            negatives: Index::new(alloc),
        }
    }

    /// What allocates.
    pub fn allocator(&self) -> Global {
        *self.clauses.allocator()
    }

    /// How many clauses there are.
    pub fn len(&self) -> usize
        ensures { result ≡ length self.now }
    {
        self.clauses.len()
    }

    /// Whether there is none.
    pub fn is_empty(&self) -> bool
        ensures { result ≡ (length self.now == 0) }
    {
        self.clauses.is_empty()
    }

    /// The clauses; their numbers rise.
    pub fn as_slice(&self) -> &[Held]
        ensures clauses { result.now ≡ self.now }
        ensures rising { IsRising (numbers_of self.now) }
    {
        self.clauses.as_slice()
    }

    // The index of a sign.
    fn index(&self, sign: bool) -> &Index
        ensures { result.now ≡ short_atoms sign self.now }
    {
        if sign {
            &self.positives
        } else {
            &self.negatives
        }
    }

    /// The clauses of one literal that has this sign and the atom as an instance of its own, and those without literals.
    pub fn short_above(
        &self,
        sign: bool,
        atom: &Term,
        tries: &mut Tries,
    ) -> Result<Vec<&Held>, AllocError>
        ensures found { IfOk result (λ hs. lent hs.items
            ≡ filter (is_short_above sign (tree_of atom.now)) self.now) }
        ensures rising { IsRising (numbers_of self.now) }
        ensures on { tries.old ≤ tries.new }
        ensures within { tries.new ≤ tries.old
            + count_linear Generalizations (tree_of atom.now) (short_atoms sign self.now) }
        ensures tested { OnOk result (HasRisen (count_linear Generalizations (tree_of atom.now) (short_atoms sign self.now))
            tries.old tries.new) }
    {
        let alloc = *self.clauses.allocator();
        let numbers = self.index(sign).generalizations(atom, tries)?;
        all_with(alloc, numbers.as_slice(), self.clauses.as_slice())
    }

    /// Whether there is a clause of one literal that has this sign and the atom as an instance of its own, or one without
    /// literals; those up to the first of them are tested, and no more.
    pub fn has_short_above(
        &self,
        sign: bool,
        atom: &Term,
        tries: &mut Tries,
    ) -> Result<bool, AllocError>
        ensures found { IfOk result (λ b. b ≡ list_any (is_short_above sign (tree_of atom.now)) self.now) }
        ensures on { tries.old ≤ tries.new }
        ensures within { tries.new ≤ tries.old
            + count_linear Generalizations (tree_of atom.now) (short_atoms sign self.now) }
        ensures no_more { OnOk result (tries.new ≤ tries.old
            + count_up_to Generalizations (tree_of atom.now) (short_atoms sign self.now)
            (slice_get (numbers_found (λ s. has_instance s (tree_of atom.now)) (short_atoms sign self.now)) 0)) }
        ensures tested { OnOk result (HasRisen (count_up_to Generalizations (tree_of atom.now) (short_atoms sign self.now)
            (slice_get (numbers_found (λ s. has_instance s (tree_of atom.now)) (short_atoms sign self.now)) 0))
            tries.old tries.new) }
    {
        let first = self.index(sign).first_generalization(atom, tries)?;
        Ok(first.is_some())
    }

    /// The clauses of one literal that has this sign and an atom that unifies with this one, variables apart, and those without
    /// literals.
    pub fn short_unifiable(
        &self,
        sign: bool,
        atom: &Term,
        tries: &mut Tries,
    ) -> Result<Vec<&Held>, AllocError>
        ensures found { IfOk result (λ hs. lent hs.items
            ≡ filter (is_short_unifiable sign (tree_of atom.now)) self.now) }
        ensures rising { IsRising (numbers_of self.now) }
        ensures on { tries.old ≤ tries.new }
        ensures within { tries.new ≤ tries.old
            + count_linear Unifiable (tree_of atom.now) (short_atoms sign self.now) }
        ensures tested { OnOk result (HasRisen (count_linear Unifiable (tree_of atom.now) (short_atoms sign self.now))
            tries.old tries.new) }
    {
        let alloc = *self.clauses.allocator();
        let numbers = self.index(sign).unifiable(atom, tries)?;
        all_with(alloc, numbers.as_slice(), self.clauses.as_slice())
    }

    /// The numbers of the clauses of one literal that has this sign and an atom that is sought, and maybe of others, rising.
    pub fn near(&self, sign: bool, sought: &Sought, atom: &Term) -> Result<Vec<u64>, AllocError>
        ensures rise { IfOk result (λ ns. IsStrictlyIncreasing ns.items) }
        ensures found { IfOk result (λ ns. HasAllShort sign (passes sought.now (tree_of atom.now)) self.now ns.items) }
    {
        let numbers = self.index(sign).near(sought, atom)?;
        Ok(numbers)
    }

    /// Puts in a clause under a number that no other one has.
    pub fn put_in(&mut self, held: Held) -> Result<(), AllocError>
        requires { IsNoneOf held.number (numbers_of self.old) }
        ensures ok { OnOk result (self.new ≡ put_in held self.old) }
        ensures err { OnErr result (self.new ≡ self.old) }
    {
        let number = held.number();
        enter(true, &held, &mut self.positives)?;
        if let Err(error) = enter(false, &held, &mut self.negatives) {
            self.positives.remove(number);
            return Err(error);
        }
        match put_in(held, &mut self.clauses) {
            Ok(()) => Ok(()),
            Err(error) => {
                self.positives.remove(number);
                self.negatives.remove(number);
                Err(error)
            }
        }
    }

    /// Takes out the clause with a number, if there is one.
    pub fn leave_out_one(&mut self, number: u64)
        ensures { self.new ≡ filter (λ h. not (h.number == number)) self.old }
    {
        self.positives.remove(number);
        self.negatives.remove(number);
        leave_out_one(number, &mut self.clauses);
    }
}
