// Terms that are known to be in normal form.
ghost use Rattle.std.specs.Prelude.{◌≡◌, [], List, None, true};
ghost use Rattle.clause_index.specs.Normal.{HaveNoStep};
ghost use Rattle.fol_core.specs.TermView.{tree_of};
ghost use Rattle.prover_steps.specs.Clashing.{Held};
ghost use Rattle.prover_steps.specs.Rewriting.{first_step};

use fol_core::Term;
use std::alloc::Global;
use std::marker::Model;
use substitutions::same;

// How many terms are noted at most, and how many symbols and variables one of them has at most.
const SLOTS: u64 = 512;

const LARGEST: u64 = 12;

// An odd number with ones and zeros all over.
const SPREAD: u64 = 11400714819323198485;

/// Terms, each in the slot of its mark: none at first, and variables in the slots that hold no other. Contracts see their trees.
#[derive(Drop)]
pub struct NormalTerms {
    slots: Vec<Term>,
}

impl Model for NormalTerms {
    ghost use Rattle.std.specs.Prelude.{List};
    ghost use Rattle.fol_core.specs.Tree.{Tree};
    ghost use Rattle.fol_core.specs.TreeCodes.{coded_trees};

    ghost Value = { List Tree };

    ghost coded = { coded_trees };

    ghost use Rattle.fol_core.specs.TermView.{tree_list};

    ghost view = { λ a. tree_list a.slots.items };
}

// A mark with one more number.
fn with_number(mark: u64, number: u64) -> u64 {
    (mark ^ number).wrapping_mul(SPREAD) >> 32
}

// A mark with a term, and how many symbols and variables may be left; where none are, the rest of the term is left out.
fn with_term(term: &Term, left: &mut u64, mark: u64) -> u64 {
    if *left == 0 {
        return mark;
    }
    *left -= 1;
    match term {
        Term::Var(x) => with_number(mark, *x),
        Term::Elem(k) => with_number(mark, *k as u64),
        Term::App(f, terms) => {
            let mut mark = with_number(mark, f.0.wrapping_add(SLOTS));
            for term in &terms.items {
                mark = with_term(term, left, mark);
            }
            mark
        }
    }
}

// The slot of a term, if that isn't too large.
fn slot_of(term: &Term) -> Option<usize> {
    let mut left = LARGEST + 1;
    let mark = with_term(term, &mut left, 0);
    if left == 0 {
        None
    } else {
        Some((mark % SLOTS) as usize)
    }
}

impl NormalTerms {
    /// No terms.
    pub fn new(alloc: Global) -> NormalTerms
        ensures { result ≡ [] }
    {
        NormalTerms {
            slots: Vec::new(alloc),
        }
    }

    /// Whether a term is known to be one of them; where it isn't, it may be one all the same.
    pub fn has(&self, term: &Term) -> bool
        ensures { (rules : List Held) → HaveNoStep rules self.now → result ≡ true
            → first_step rules (tree_of term.now) ≡ None }
    {
        match slot_of(term) {
            None => false,
            Some(slot) => match self.slots.get(slot) {
                None => false,
                Some(noted) => same(noted, term),
            },
        }
    }

    /// One more, unless it is too large or memory is lacking; it takes the place of another one.
    pub fn note(&mut self, alloc: Global, term: &Term)
        ensures { (rules : List Held) → HaveNoStep rules self.old
            → first_step rules (tree_of term.now) ≡ None → HaveNoStep rules self.new }
    {
        let Some(slot) = slot_of(term) else {
            return;
        };
        let Ok(copy) = term.copy(alloc) else {
            return;
        };
        self.take_slots();
        if slot < self.slots.len() {
            self.slots[slot] = copy;
        }
    }

    // The slots, where there are none yet; fewer where memory is lacking.
    fn take_slots(&mut self)
        ensures { (rules : List Held) → HaveNoStep rules self.old → HaveNoStep rules self.new }
    {
        if !self.slots.is_empty() {
            return;
        }
        for _slot in 0..SLOTS {
            match self.slots.push(Term::Var(0)) {
                Ok(()) => {}
                Err(_) => return,
            }
        }
    }

    /// None any more.
    pub fn forget(&mut self)
        ensures { (rules : List Held) → HaveNoStep rules self.new }
    {
        self.slots.clear();
    }
}
