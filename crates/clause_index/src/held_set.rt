// Clauses that are held, found by their literals, by the terms in them and by their marks.
ghost use Rattle.std.specs.Prelude.{IsTrue, ◌≡◌, ◌+◌, ◌≤◌, ◌==◌, false, not, [], IfOk, OnOk, OnErr, filter, length, slice_get};
ghost use Rattle.std.specs.List.{list_any};
ghost use Rattle.std.specs.List.Sorted.{IsStrictlyIncreasing};
ghost use Rattle.clause_index.specs.Entries.{is_short, is_short_above, is_short_unifiable, short_atoms};
ghost use Rattle.clause_index.specs.Filing.{AllOthersStay, HasAllSuch, is_sought};
ghost use Rattle.clause_index.specs.Finding.{has_atom_such, has_equation_such, has_inside_such, has_part_such};
ghost use Rattle.clause_index.specs.Numbered.{AddsAll};
ghost use Rattle.clause_index.specs.Subsumers.{BeginsWith, is_below, is_long_above, HasAllBelow};
ghost use Rattle.clause_index.specs.declared.parts.Part.TheVariants.{Atoms};
ghost use Rattle.discrim_tree.specs.Entries.{numbers_found};
ghost use Rattle.discrim_tree.specs.Seeking.{passes};
ghost use Rattle.discrim_tree.specs.Terms.{can_unify, has_instance};
ghost use Rattle.discrim_tree.specs.Tries.{count_linear, count_up_to, HasRisen};
ghost use Rattle.discrim_tree.specs.declared.sought.Sought.TheVariants.{Generalizations, Unifiable};
ghost use Rattle.fol_core.specs.ClauseView.{literal_of};
ghost use Rattle.fol_core.specs.TermView.{tree_of};
ghost use Rattle.held_clauses.specs.Holding.{lent};
ghost use Rattle.prover_steps.specs.Clashing.{Held as HeldClause};
ghost use Rattle.prover_steps.specs.HeldOrder.{numbers_of, IsNoneOf, IsRising};
ghost use Rattle.prover_steps.specs.Searching.{put_in, held_without};

use crate::finder::Finder;
use crate::listed::Listed;
use crate::lists::{all_numbers, all_of, all_with, with_number};
use crate::parts::{Part, all_found};
use discrim_tree::{Sought, Tries, put_in_order};
use fol_core::{Clause, Literal, Term};
use held_clauses::Held;
use std::alloc::{AllocError, Global};
use std::marker::Model;

/// Clauses by rising number, with an index of those that have one literal, and sieves of their terms and marks. Contracts
/// see the list of clauses.
#[derive(Drop)]
pub struct HeldSet {
    listed: Listed,
    // Each clause's number stands under its terms and marks, a unit's not under its atom; others may stand there too.
    finder: Finder,
}

impl Model for HeldSet {
    ghost use Rattle.std.specs.Prelude.{List};
    ghost use Rattle.std.specs.Coded.{coded_list};
    ghost use Rattle.held_clauses.specs.Holding.{HeldClause, coded_held};

    ghost Value = { List HeldClause };

    ghost coded = { coded_list coded_held };

    ghost use Rattle.clause_index.specs.Filing.{AreFiled};

    ghost view = { λ a. a.listed };

    ghost invariant = { λ a. AreFiled a.finder a.listed };
}

// The clause with a number is not to be found any more.
#[tactic(auto, using(crate::proofs::Filed::number_there))]
fn leave(alloc: Global, number: u64, list: &[Held], finder: &mut Finder)
    requires { IsRising (numbers_of list.now) }
    ensures { AllOthersStay number finder.old finder.new }
{
    if let Some(held) = with_number(number, list) {
        finder.leave(alloc, held);
    }
}

impl HeldSet {
    /// No clauses. Where terms inside atoms are not kept, all clauses are looked at for those that have one.
    pub fn new(alloc: Global, keeps_inside: bool) -> HeldSet
        ensures { result ≡ [] }
    {
        HeldSet {
            listed: Listed::new(alloc),
            finder: Finder::new(alloc, keeps_inside),
        }
    }

    /// How many clauses there are.
    pub fn len(&self) -> usize
        ensures { result ≡ length self.now }
    {
        self.listed.len()
    }

    /// Whether there is none.
    pub fn is_empty(&self) -> bool
        ensures { result ≡ (length self.now == 0) }
    {
        self.listed.is_empty()
    }

    /// The clauses; their numbers rise.
    pub fn as_slice(&self) -> &[Held]
        ensures clauses { result.now ≡ self.now }
        ensures rising { IsRising (numbers_of self.now) }
    {
        self.listed.as_slice()
    }

    /// The clauses of one literal that has this sign and the atom as an instance of its own, and those without literals.
    pub fn short_above(
        &self,
        sign: bool,
        atom: &Term,
        tries: &mut Tries,
    ) -> Result<Vec<&Held>, AllocError>
        ensures found { IfOk result (λ hs. lent hs.items
            ≡ filter (is_short_above sign (tree_of atom.now)) self.now) }
        ensures rising { IsRising (numbers_of self.now) }
        ensures on { tries.old ≤ tries.new }
        ensures within { tries.new ≤ tries.old
            + count_linear Generalizations (tree_of atom.now) (short_atoms sign self.now) }
        ensures tested { OnOk result (HasRisen (count_linear Generalizations (tree_of atom.now) (short_atoms sign self.now))
            tries.old tries.new) }
    {
        self.listed.short_above(sign, atom, tries)
    }

    /// Whether there is a clause of one literal that has this sign and the atom as an instance of its own, or one without
    /// literals; those up to the first of them are tested, and no more.
    pub fn has_short_above(
        &self,
        sign: bool,
        atom: &Term,
        tries: &mut Tries,
    ) -> Result<bool, AllocError>
        ensures found { IfOk result (λ b. b ≡ list_any (is_short_above sign (tree_of atom.now)) self.now) }
        ensures on { tries.old ≤ tries.new }
        ensures within { tries.new ≤ tries.old
            + count_linear Generalizations (tree_of atom.now) (short_atoms sign self.now) }
        ensures no_more { OnOk result (tries.new ≤ tries.old
            + count_up_to Generalizations (tree_of atom.now) (short_atoms sign self.now)
            (slice_get (numbers_found (λ s. has_instance s (tree_of atom.now)) (short_atoms sign self.now)) 0)) }
        ensures tested { OnOk result (HasRisen (count_up_to Generalizations (tree_of atom.now) (short_atoms sign self.now)
            (slice_get (numbers_found (λ s. has_instance s (tree_of atom.now)) (short_atoms sign self.now)) 0))
            tries.old tries.new) }
    {
        self.listed.has_short_above(sign, atom, tries)
    }

    /// The clauses of one literal that has this sign and an atom that unifies with this one, variables apart, and those without
    /// literals.
    pub fn short_unifiable(
        &self,
        sign: bool,
        atom: &Term,
        tries: &mut Tries,
    ) -> Result<Vec<&Held>, AllocError>
        ensures found { IfOk result (λ hs. lent hs.items
            ≡ filter (is_short_unifiable sign (tree_of atom.now)) self.now) }
        ensures rising { IsRising (numbers_of self.now) }
        ensures on { tries.old ≤ tries.new }
        ensures within { tries.new ≤ tries.old
            + count_linear Unifiable (tree_of atom.now) (short_atoms sign self.now) }
        ensures tested { OnOk result (HasRisen (count_linear Unifiable (tree_of atom.now) (short_atoms sign self.now))
            tries.old tries.new) }
    {
        self.listed.short_unifiable(sign, atom, tries)
    }

    /// Clauses among which are all of two literals or more that subsume this one.
    pub fn long_above(&self, clause: &Clause) -> Result<Vec<&Held>, AllocError>
        ensures found { IfOk result (λ hs. filter (is_long_above clause.now) (lent hs.items)
            ≡ filter (is_long_above clause.now) self.now) }
        ensures rising { IsRising (numbers_of self.now) }
    {
        let alloc = self.listed.allocator();
        let list = self.listed.as_slice();
        let numbers = self.finder.above(alloc, clause)?;
        all_with(alloc, numbers.as_slice(), list)
    }

    // The numbers of the clauses with a literal of this sign whose atom is sought, and maybe of others, rising: those of one
    // literal by the index, the others by the sieve.
    fn near_atoms(&self, sign: bool, sought: &Sought, t: &Term) -> Result<Vec<u64>, AllocError>
        ensures rise { IfOk result (λ ns. IsStrictlyIncreasing ns.items) }
        ensures found { IfOk result (λ ns. HasAllSuch (Atoms sign) (passes sought.now (tree_of t.now))
            self.now ns.items) }
    {
        let alloc = self.listed.allocator();
        let long = self.finder.numbers(alloc, &Part::Atoms(sign), sought, t)?;
        let mut numbers = self.listed.near(sign, sought, t)?;
        numbers.extend_from_slice(long.as_slice())?;
        put_in_order(&mut numbers);
        Ok(numbers)
    }

    // The same for terms below atoms or for sides of equations: where no numbers are kept there, those of all clauses.
    fn near_terms(&self, part: &Part, sought: &Sought, t: &Term) -> Result<Vec<u64>, AllocError>
        requires { (h : HeldClause) → IsTrue (is_sought part.now h) }
        ensures rise { IfOk result (λ ns. IsStrictlyIncreasing ns.items) }
        ensures found { IfOk result (λ ns. HasAllSuch part.now (passes sought.now (tree_of t.now))
            self.now ns.items) }
    {
        let alloc = self.listed.allocator();
        if self.finder.keeps(part) {
            return self.finder.numbers(alloc, part, sought, t);
        }
        let numbers = all_numbers(alloc, self.listed.as_slice())?;
        Ok(numbers)
    }

    // The numbers of the clauses that have a term that is sought, and maybe of others, rising.
    fn near(&self, part: &Part, sought: &Sought, t: &Term) -> Result<Vec<u64>, AllocError>
        ensures rise { IfOk result (λ ns. IsStrictlyIncreasing ns.items) }
        ensures found { IfOk result (λ ns. HasAllSuch part.now (passes sought.now (tree_of t.now))
            self.now ns.items) }
    {
        match part {
            Part::Atoms(sign) => self.near_atoms(*sign, sought, t),
            Part::Inside => self.near_terms(&Part::Inside, sought, t),
            Part::Sides => self.near_terms(&Part::Sides, sought, t),
        }
    }

    // The clauses that have a term that is sought.
    fn found(&self, part: &Part, sought: &Sought, t: &Term) -> Result<Vec<&Held>, AllocError>
        ensures found { IfOk result (λ hs. lent hs.items
            ≡ filter (has_part_such part.now (passes sought.now (tree_of t.now))) self.now) }
        ensures rising { IsRising (numbers_of self.now) }
    {
        let alloc = self.listed.allocator();
        let list = self.listed.as_slice();
        let numbers = self.near(part, sought, t)?;
        let held = all_with(alloc, numbers.as_slice(), list)?;
        all_found(alloc, part, sought, t, held.as_slice())
    }

    /// The clauses some literal of which has this sign and an instance of the atom.
    pub fn with_instance(&self, sign: bool, atom: &Term) -> Result<Vec<&Held>, AllocError>
        ensures found { IfOk result (λ hs. lent hs.items
            ≡ filter (has_atom_such (λ s. has_instance (tree_of atom.now) s) sign) self.now) }
        ensures rising { IsRising (numbers_of self.now) }
    {
        self.found(&Part::Atoms(sign), &Sought::Instances, atom)
    }

    // The numbers of clauses among which are all that one of two literals or more subsumes: by its marks, or where that takes
    // long, by an instance of its first literal.
    fn numbers_below(&self, clause: &Clause, first: &Literal) -> Result<Vec<u64>, AllocError>
        requires long { is_short clause.now ≡ false }
        requires first { BeginsWith clause.now (literal_of first.now) }
        ensures rise { IfOk result (λ ns. IsStrictlyIncreasing ns.items) }
        ensures found { IfOk result (λ ns. HasAllBelow clause.now self.now ns.items) }
    {
        let alloc = self.listed.allocator();
        if let Some(numbers) = self.finder.below(alloc, clause)? {
            return Ok(numbers);
        }
        let part = Part::Atoms(first.positive);
        let numbers = self.near(&part, &Sought::Instances, &first.atom)?;
        Ok(numbers)
    }

    /// Clauses among which are all that this one subsumes.
    pub fn near_below(&self, clause: &Clause) -> Result<Vec<&Held>, AllocError>
        ensures found { IfOk result (λ hs. filter (is_below clause.now) (lent hs.items)
            ≡ filter (is_below clause.now) self.now) }
        ensures rising { IsRising (numbers_of self.now) }
    {
        let alloc = self.listed.allocator();
        let list = self.listed.as_slice();
        match clause.as_slice() {
            [] => all_of(alloc, list),
            [one] => self.with_instance(one.positive, &one.atom),
            [first, ..] => {
                let numbers = self.numbers_below(clause, first)?;
                all_with(alloc, numbers.as_slice(), list)
            }
        }
    }

    /// The clauses some literal of which has this sign and an atom that unifies with this one, variables apart.
    pub fn with_unifiable(&self, sign: bool, atom: &Term) -> Result<Vec<&Held>, AllocError>
        ensures found { IfOk result (λ hs. lent hs.items
            ≡ filter (has_atom_such (λ s. can_unify (tree_of atom.now) s) sign) self.now) }
        ensures rising { IsRising (numbers_of self.now) }
    {
        self.found(&Part::Atoms(sign), &Sought::Unifiable, atom)
    }

    /// The clauses with an instance of the term below an atom; variables there don't count.
    pub fn with_instance_inside(&self, term: &Term) -> Result<Vec<&Held>, AllocError>
        ensures found { IfOk result (λ hs. lent hs.items
            ≡ filter (has_inside_such (λ s. has_instance (tree_of term.now) s)) self.now) }
        ensures rising { IsRising (numbers_of self.now) }
    {
        self.found(&Part::Inside, &Sought::Instances, term)
    }

    // Adds the numbers of the clauses that may have a term that is sought.
    fn add_near(
        &self,
        part: &Part,
        sought: &Sought,
        t: &Term,
        numbers: &mut Vec<u64>,
    ) -> Result<(), AllocError>
        ensures { OnOk result (AddsAll numbers.old.items (numbers_of (filter (has_part_such part.now
            (passes sought.now (tree_of t.now))) self.now)) numbers.new.items) }
    {
        let found = self.near(part, sought, t)?;
        numbers.extend_from_slice(found.as_slice())?;
        Ok(())
    }

    /// Adds the numbers of the clauses with a term below an atom that unifies with this one, and maybe of others, without a look
    /// at the clauses.
    pub fn add_near_inside(&self, term: &Term, numbers: &mut Vec<u64>) -> Result<(), AllocError>
        ensures { OnOk result (AddsAll numbers.old.items (numbers_of (filter
            (has_inside_such (λ s. can_unify (tree_of term.now) s)) self.now)) numbers.new.items) }
    {
        self.add_near(&Part::Inside, &Sought::Unifiable, term, numbers)
    }

    /// Those of the clauses with a positive equation a side of which unifies with the term, and maybe of others.
    pub fn add_near_side(&self, term: &Term, numbers: &mut Vec<u64>) -> Result<(), AllocError>
        ensures { OnOk result (AddsAll numbers.old.items (numbers_of (filter
            (has_equation_such (λ s. can_unify s (tree_of term.now))) self.now)) numbers.new.items) }
    {
        self.add_near(&Part::Sides, &Sought::Unifiable, term, numbers)
    }

    /// Puts in a clause under a number that no other one has.
    pub fn put_in(&mut self, held: Held) -> Result<(), AllocError>
        requires { IsNoneOf held.number (numbers_of self.old) }
        ensures ok { OnOk result (self.new ≡ put_in held self.old) }
        ensures err { OnErr result (self.new ≡ self.old) }
    {
        let alloc = self.listed.allocator();
        if let Err(error) = self.finder.enter(alloc, &held) {
            self.finder.leave(alloc, &held);
            return Err(error);
        }
        self.listed.put_in(held)
    }

    /// Takes out the clause with a number, if there is one.
    pub fn leave_out_one(&mut self, number: u64)
        ensures { self.new ≡ filter (λ h. not (h.number == number)) self.old }
    {
        let alloc = self.listed.allocator();
        leave(alloc, number, self.listed.as_slice(), &mut self.finder);
        self.listed.leave_out_one(number);
    }

    /// Takes out clauses by their numbers.
    #[tactic(auto, using(crate::proofs::Removals::none_gone))]
    pub fn leave_out(&mut self, gone: &[Held])
        ensures { self.new ≡ held_without gone.now self.old }
    {
        for held in gone {
            self.leave_out_one(held.number());
        }
    }
}

/// The clauses that wait and those in use.
#[derive(Clone, Copy)]
pub struct HeldSets<'a> {
    pub waiting: &'a HeldSet,
    pub usable: &'a HeldSet,
}
