// Clauses found by their terms and marks.
ghost use Rattle.std.specs.Prelude.{◌≡◌, ◌&&◌, true, IfOk, IfSome, OnOk};
ghost use Rattle.std.specs.List.Sorted.{IsStrictlyIncreasing};
ghost use Rattle.clause_index.specs.Filing.{Shows, AddsGeneral, AllStay, AllOthersStay, IsFiledLiteral, IsFiled, IsUnderMarks, LeavesOutNoClause, LeavesOutNoSubsumer, LeavesOutNoSubsumed, is_kept, sieve_of};
ghost use Rattle.clause_index.specs.Finding.{has_term_such, has_such_below, has_side_such};
ghost use Rattle.derivation.specs.Places.{same_sign};
ghost use Rattle.discrim_tree.specs.Seeking.{passes};
ghost use Rattle.discrim_tree.specs.Marks.{StayMarked, OthersStayMarked};
ghost use Rattle.discrim_tree.specs.Sieves.{StayUnder, OthersStay};
ghost use Rattle.fol_core.specs.ClauseView.{literal_of};
ghost use Rattle.fol_core.specs.TermView.{tree_of};

use crate::marks::marks_of;
use crate::parts::Part;
use crate::short::is_short;
use derivation::sides;
use discrim_tree::{MarkSieve, Sieve, Sought, put_in_order};
use fol_core::{Clause, Literal, Term};
use held_clauses::Held;
use std::alloc::{AllocError, Global};

// So many nodes are gone through at most to find clauses by their marks, times the marks and some more.
const WORK: usize = 65_536;

// So many marks are reckoned with besides the clause's.
const FEW: usize = 32;

/// Numbers of clauses under their terms, by where these stand: the terms below atoms, and the sides of positive equations; and
/// of clauses of two literals or more under the atoms of their literals, by the signs, and under their marks.
#[derive(Drop)]
pub struct Finder {
    positives: Sieve,
    negatives: Sieve,
    // Whether numbers are kept under terms below atoms; there is none there else.
    keeps_inside: bool,
    inside: Sieve,
    sides: Sieve,
    long: MarkSieve,
}

// A number under a term and those in it, variables left out.
fn put_terms(alloc: Global, sieve: &mut Sieve, term: &Term, number: u64) -> Result<(), AllocError>
    ensures others { StayUnder sieve.old sieve.new }
    ensures put { OnOk result (Shows sieve.new number (λ test. has_term_such test
        (tree_of term.now))) }
{
    match term {
        Term::Var(_) => Ok(()),
        Term::Elem(_) => sieve.put(alloc, term, number),
        Term::App(_, terms) => {
            sieve.put(alloc, term, number)?;
            for term in &terms.items {
                put_terms(alloc, sieve, term, number)?;
            }
            Ok(())
        }
    }
}

// A number under the terms below an atom.
fn put_below(alloc: Global, sieve: &mut Sieve, atom: &Term, number: u64) -> Result<(), AllocError>
    ensures others { StayUnder sieve.old sieve.new }
    ensures put { OnOk result (Shows sieve.new number (λ test. has_such_below test
        (tree_of atom.now))) }
{
    match atom {
        Term::Var(_) => Ok(()),
        Term::Elem(_) => Ok(()),
        Term::App(_, terms) => {
            for term in &terms.items {
                put_terms(alloc, sieve, term, number)?;
            }
            Ok(())
        }
    }
}

// The same where those are kept.
fn put_inside(
    alloc: Global,
    keeps: bool,
    sieve: &mut Sieve,
    atom: &Term,
    number: u64,
) -> Result<(), AllocError>
    ensures others { StayUnder sieve.old sieve.new }
    ensures put { OnOk result (keeps ≡ true → Shows sieve.new number (λ test. has_such_below test
        (tree_of atom.now))) }
{
    if !keeps {
        return Ok(());
    }
    put_below(alloc, sieve, atom, number)?;
    Ok(())
}

// A number under the sides of a positive equation.
fn put_sides(
    alloc: Global,
    sieve: &mut Sieve,
    literal: &Literal,
    number: u64,
) -> Result<(), AllocError>
    ensures others { StayUnder sieve.old sieve.new }
    ensures put { OnOk result (Shows sieve.new number (λ test. has_side_such test
        (literal_of literal.now))) }
{
    if !literal.positive {
        return Ok(());
    }
    let Some((left, right)) = sides(&literal.atom) else {
        return Ok(());
    };
    sieve.put(alloc, left, number)?;
    sieve.put(alloc, right, number)
}

// A number is taken from under a term and those in it.
fn take_terms(sieve: &mut Sieve, term: &Term, number: u64)
    ensures { OthersStay number sieve.old sieve.new }
{
    match term {
        Term::Var(_) => {}
        Term::Elem(_) => sieve.take(term, number),
        Term::App(_, terms) => {
            sieve.take(term, number);
            for term in &terms.items {
                take_terms(sieve, term, number);
            }
        }
    }
}

// A number is taken from under the terms below an atom.
fn take_below(sieve: &mut Sieve, atom: &Term, number: u64)
    ensures { OthersStay number sieve.old sieve.new }
{
    match atom {
        Term::Var(_) => {}
        Term::Elem(_) => {}
        Term::App(_, terms) => {
            for term in &terms.items {
                take_terms(sieve, term, number);
            }
        }
    }
}

// The same where those are kept.
fn take_inside(keeps: bool, sieve: &mut Sieve, atom: &Term, number: u64)
    ensures { OthersStay number sieve.old sieve.new }
{
    if keeps {
        take_below(sieve, atom, number);
    }
}

// A number is taken from under the sides of a positive equation.
fn take_sides(sieve: &mut Sieve, literal: &Literal, number: u64)
    ensures { OthersStay number sieve.old sieve.new }
{
    if !literal.positive {
        return;
    }
    if let Some((left, right)) = sides(&literal.atom) {
        sieve.take(left, number);
        sieve.take(right, number);
    }
}

// A number under the atom of a literal, if that has the sign.
fn put_atom(
    alloc: Global,
    sieve: &mut Sieve,
    sign: bool,
    literal: &Literal,
    number: u64,
) -> Result<(), AllocError>
    ensures others { StayUnder sieve.old sieve.new }
    ensures put { OnOk result (Shows sieve.new number (λ test. same_sign sign literal.now.positive
        && test (tree_of literal.now.atom))) }
{
    if literal.positive != sign {
        return Ok(());
    }
    sieve.put(alloc, &literal.atom, number)
}

// The same where the clause has two literals or more.
fn put_long(
    alloc: Global,
    long: bool,
    sieve: &mut Sieve,
    sign: bool,
    literal: &Literal,
    number: u64,
) -> Result<(), AllocError>
    ensures others { StayUnder sieve.old sieve.new }
    ensures put { OnOk result (long ≡ true → Shows sieve.new number (λ test.
        same_sign sign literal.now.positive && test (tree_of literal.now.atom))) }
{
    if !long {
        return Ok(());
    }
    put_atom(alloc, sieve, sign, literal, number)?;
    Ok(())
}

// It is taken from there.
fn take_long(long: bool, sieve: &mut Sieve, sign: bool, literal: &Literal, number: u64)
    ensures { OthersStay number sieve.old sieve.new }
{
    if long && literal.positive == sign {
        sieve.take(&literal.atom, number);
    }
}

// A clause's number under its marks, if it has two literals or more.
fn put_marks(alloc: Global, sieve: &mut MarkSieve, held: &Held) -> Result<(), AllocError>
    ensures others { StayMarked sieve.old sieve.new }
    ensures put { OnOk result (IsUnderMarks sieve.new held.now) }
{
    if is_short(held.clause()) {
        return Ok(());
    }
    let marks = marks_of(alloc, held.clause())?;
    sieve.put(alloc, &marks, held.number())
}

// It is taken from there; for want of memory it may stay.
fn take_marks(alloc: Global, sieve: &mut MarkSieve, held: &Held)
    ensures { OthersStayMarked held.now.number sieve.old sieve.new }
{
    if is_short(held.clause()) {
        return;
    }
    if let Ok(marks) = marks_of(alloc, held.clause()) {
        sieve.take(&marks, held.number());
    }
}

impl Finder {
    /// No clauses; whether numbers are to be kept under terms below atoms.
    pub fn new(alloc: Global, keeps_inside: bool) -> Finder {
        Finder {
            positives: Sieve::new(alloc),
            negatives: Sieve::new(alloc),
            keeps_inside,
            inside: Sieve::new(alloc),
            sides: Sieve::new(alloc),
            long: MarkSieve::new(alloc),
        }
    }

    /// Whether numbers are kept under the terms of a place in clauses.
    pub fn keeps(&self, part: &Part) -> bool
        ensures { result ≡ is_kept part.now self.now }
    {
        match part {
            Part::Atoms(_) => true,
            Part::Inside => self.keeps_inside,
            Part::Sides => true,
        }
    }

    // The sieve of a place in clauses.
    fn sieve(&self, part: &Part) -> &Sieve
        ensures { result.now ≡ sieve_of part.now self.now }
    {
        match part {
            Part::Atoms(true) => &self.positives,
            Part::Atoms(false) => &self.negatives,
            Part::Inside => &self.inside,
            Part::Sides => &self.sides,
        }
    }

    // A number under the terms of a literal, with its atom if the clause has two literals or more.
    fn put_literal(
        &mut self,
        alloc: Global,
        long: bool,
        literal: &Literal,
        number: u64,
    ) -> Result<(), AllocError>
        ensures others { AllStay self.old self.new }
        ensures put { OnOk result (IsFiledLiteral long self.new number (literal_of literal.now)) }
    {
        put_long(alloc, long, &mut self.positives, true, literal, number)?;
        put_long(alloc, long, &mut self.negatives, false, literal, number)?;
        put_inside(
            alloc,
            self.keeps_inside,
            &mut self.inside,
            &literal.atom,
            number,
        )?;
        put_sides(alloc, &mut self.sides, literal, number)
    }

    // A number under the terms of a clause.
    fn put_literals(&mut self, alloc: Global, held: &Held) -> Result<(), AllocError>
        ensures others { AllStay self.old self.new }
        ensures filed { OnOk result (IsUnderMarks self.old.long held.now
            → IsFiled self.new held.now) }
    {
        let number = held.number();
        let long = !is_short(held.clause());
        for literal in held.clause().as_slice() {
            self.put_literal(alloc, long, literal, number)?;
        }
        Ok(())
    }

    /// A clause that is to be found.
    pub fn enter(&mut self, alloc: Global, held: &Held) -> Result<(), AllocError>
        ensures others { AllStay self.old self.new }
        ensures filed { OnOk result (IsFiled self.new held.now) }
    {
        put_marks(alloc, &mut self.long, held)?;
        self.put_literals(alloc, held)
    }

    // A number is taken from under the terms of a literal.
    fn take_literal(&mut self, long: bool, literal: &Literal, number: u64)
        ensures { AllOthersStay number self.old self.new }
    {
        take_long(long, &mut self.positives, true, literal, number);
        take_long(long, &mut self.negatives, false, literal, number);
        take_inside(self.keeps_inside, &mut self.inside, &literal.atom, number);
        take_sides(&mut self.sides, literal, number);
    }

    /// A clause that is not to be found any more; others still are.
    pub fn leave(&mut self, alloc: Global, held: &Held)
        ensures { AllOthersStay held.now.number self.old self.new }
    {
        let number = held.number();
        let long = !is_short(held.clause());
        take_marks(alloc, &mut self.long, held);
        for literal in held.clause().as_slice() {
            self.take_literal(long, literal, number);
        }
    }

    /// The numbers of the clauses that have a term there that is sought with this one, and others, rising; those of one literal
    /// are not found by its atom.
    pub fn numbers(
        &self,
        alloc: Global,
        part: &Part,
        sought: &Sought,
        t: &Term,
    ) -> Result<Vec<u64>, AllocError>
        requires { is_kept part.now self.now ≡ true }
        ensures rise { IfOk result (λ ns. IsStrictlyIncreasing ns.items) }
        ensures found { IfOk result (λ ns. LeavesOutNoClause self.now part.now
            (passes sought.now (tree_of t.now)) ns.items) }
    {
        let numbers = self.sieve(part).found(alloc, sought, t)?;
        Ok(numbers)
    }

    // The numbers of the clauses of two literals or more with one of which this one is an instance come to others, and maybe
    // those of others.
    fn add_general(
        &self,
        alloc: Global,
        literal: &Literal,
        numbers: &mut Vec<u64>,
    ) -> Result<(), AllocError>
        ensures { OnOk result (AddsGeneral self.now (literal_of literal.now) numbers.old.items
            numbers.new.items) }
    {
        let part = Part::Atoms(literal.positive);
        let found = self.numbers(alloc, &part, &Sought::Generalizations, &literal.atom)?;
        numbers.extend_from_slice(&found)?;
        Ok(())
    }

    // The numbers of the clauses of two literals or more with one of which one of the clause is an instance, and maybe of
    // others, rising.
    fn general(&self, alloc: Global, clause: &Clause) -> Result<Vec<u64>, AllocError>
        ensures rise { IfOk result (λ ns. IsStrictlyIncreasing ns.items) }
        ensures found { IfOk result (λ ns. LeavesOutNoSubsumer self.now clause.now ns.items) }
    {
        let mut numbers = Vec::new(alloc);
        for literal in clause.as_slice() {
            self.add_general(alloc, literal, &mut numbers)?;
        }
        put_in_order(&mut numbers);
        Ok(numbers)
    }

    /// The numbers of the clauses of two literals or more that subsume a clause, and maybe of others, rising: by their marks, or
    /// where too many have no others than the clause, by their literals.
    pub fn above(&self, alloc: Global, clause: &Clause) -> Result<Vec<u64>, AllocError>
        ensures rise { IfOk result (λ ns. IsStrictlyIncreasing ns.items) }
        ensures found { IfOk result (λ ns. LeavesOutNoSubsumer self.now clause.now ns.items) }
    {
        let marks = marks_of(alloc, clause)?;
        let most = WORK / marks.len().saturating_add(FEW);
        match self.long.within(alloc, &marks, most)? {
            Some(numbers) => Ok(numbers),
            None => self.general(alloc, clause),
        }
    }

    /// The numbers of the clauses that one of two literals or more subsumes, and maybe of others, rising; none where it takes
    /// long to find those that have its marks.
    pub fn below(&self, alloc: Global, clause: &Clause) -> Result<Option<Vec<u64>>, AllocError>
        ensures rise { IfOk result (λ o. IfSome o (λ ns. IsStrictlyIncreasing ns.items)) }
        ensures found { IfOk result (λ o. IfSome o (λ ns. LeavesOutNoSubsumed self.now clause.now
            ns.items)) }
    {
        let marks = marks_of(alloc, clause)?;
        let most = WORK / marks.len().saturating_add(FEW);
        let numbers = self.long.over(alloc, &marks, most)?;
        Ok(numbers)
    }
}
