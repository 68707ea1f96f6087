// Bindings that make of terms others, found from the left.
ghost use Rattle.std.specs.Prelude.{◌≡◌, ◌+◌, ◌<◌, ◌≤◌, [], IfOk, List, OnOk, Option, is_some, length, take};
ghost use Rattle.std.specs.Option.{option_map};
ghost use Rattle.clause_limits.specs.Sizes.{measured};
ghost use Rattle.fol_core.specs.Substitutions.{substitute};
ghost use Rattle.fol_core.specs.Sizes.{sizes_of};
ghost use Rattle.fol_core.specs.TermView.{tree_of};
ghost use Rattle.fol_core.specs.Tree.{trees_of};
ghost use Rattle.substitutions.specs.Bindings.{Binding, by_bindings};
ghost use Rattle.term_matches.specs.Matched.{MatchesOnto};
ghost use Rattle.term_matches.specs.Occurrences.{met, met_all, occurrences};
ghost use Rattle.term_matches.specs.Trying.{IsTried};
ghost use Rattle.term_matches.specs.declared.matches.Tried.TheVariants.{Full};
ghost use Rattle.unifiers.specs.Matching.{bound_term, bound_to, matched, matched_all};

use crate::variables::occurrences;
use clause_limits::Measure;
use fol_core::{Term, Terms};
use smallvec::SmallVec;
use std::alloc::{AllocError, Global};
use std::marker::Model;
use substitutions::same;

/// Terms for variables, each of them a part of a term that is lent; contracts see the list of bindings, and for how many there
/// is room. Up to eight take no allocation: the places of these that are free have no term.
#[derive(Drop)]
pub struct Matches<'a> {
    terms: SmallVec<(u64, Option<&'a Term>), 8>,
}

impl<'a> Model for Matches<'a> {
    ghost use Rattle.std.specs.Prelude.{map};
    ghost use Rattle.term_matches.specs.Room.{Matching, coded_matching};

    ghost Value = { Matching };

    ghost coded = { coded_matching };

    ghost use Rattle.term_matches.specs.Matched.{lent_binding, HaveTerms};

    ghost view = { λ a. record { bindings = map lent_binding a.terms.items; room = a.terms.capacity } };

    ghost invariant = { λ a. HaveTerms a.terms.items };
}

/// What comes of matching terms: bindings, or that there are none, or that there was no room for them.
#[derive(Clone, Copy)]
pub enum Tried {
    Found,
    Missed,
    Full,
}

// That there are bindings, or none.
fn found_if(found: bool) -> Tried
    ensures tried { (o : Option (List Binding)) (old new : List Binding)
        → MatchesOnto found o old new → IsTried result o old new }
    ensures room { result ≡ Full → ⊥ }
{
    if found {
        return Tried::Found;
    }
    Tried::Missed
}

impl<'a> Matches<'a> {
    /// No bindings.
    pub fn new(alloc: Global) -> Matches<'a>
        ensures { result.bindings ≡ [] }
    {
        Matches {
            terms: SmallVec::new(alloc),
        }
    }

    /// How many bindings there are.
    pub fn mark(&self) -> usize
        ensures { result ≡ length self.now.bindings }
    {
        self.terms.len()
    }

    /// The first bindings alone, as there were at a mark.
    pub fn undo(&mut self, mark: usize)
        ensures bindings { self.new.bindings ≡ take mark self.old.bindings }
        ensures room { self.new.room ≡ self.old.room }
    {
        self.terms.truncate(mark);
    }

    /// Makes room for so many bindings more.
    pub fn reserve_more(&mut self, most: usize) -> Result<(), AllocError>
        ensures bindings { self.new.bindings ≡ self.old.bindings }
        ensures room { OnOk result (length self.new.bindings + most ≤ self.new.room) }
        ensures kept { self.old.room ≤ self.new.room }
    {
        self.terms.reserve(most)
    }

    /// Makes room for the variables of a term.
    pub fn reserve(&mut self, general: &Term) -> Result<(), AllocError>
        ensures bindings { self.new.bindings ≡ self.old.bindings }
        ensures room { OnOk result (length self.new.bindings + occurrences (tree_of general.now)
            ≤ self.new.room) }
    {
        let most = occurrences(general)?;
        self.terms.reserve(most)
    }

    /// The term that is given for a variable.
    pub fn given(&self, x: u64) -> Option<&'a Term>
        ensures { option_map (λ t. tree_of t.now) result ≡ bound_term self.now.bindings x }
    {
        for (y, term) in self.terms.as_slice() {
            if x == *y {
                return *term;
            }
        }
        None
    }

    // What stands for a variable.
    fn value_of(&self, alloc: Global, x: u64) -> Result<Term, AllocError>
        ensures { IfOk result (λ t. tree_of t ≡ by_bindings self.now.bindings x) }
    {
        match self.given(x) {
            Some(term) => term.copy(alloc),
            None => Ok(Term::Var(x)),
        }
    }

    // A variable with a term.
    #[inline(always)]
    fn bind(&mut self, x: u64, term: &'a Term) -> Tried
        ensures tried { IsTried result
            (bound_to (bound_term self.old.bindings x) x (tree_of term.now) self.old.bindings)
            self.old.bindings self.new.bindings }
        ensures few { length self.new.bindings ≤ length self.old.bindings + 1 }
        ensures full { result ≡ Full → self.old.room < length self.old.bindings + 1 }
        ensures room { self.new.room ≡ self.old.room }
    {
        match self.given(x) {
            Some(old) => found_if(same(old, term)),
            None => {
                if self.terms.len() < self.terms.capacity() {
                    self.terms.push_reserved((x, Some(term)));
                    return Tried::Found;
                }
                Tried::Full
            }
        }
    }

    // Whether the bindings, with more of them, make of the first term the second one, as far as there is room. Some may have
    // been added where nothing does.
    #[cycle(onto)]
    fn try_onto(&mut self, general: &Term, special: &'a Term) -> Tried
        ensures tried { IsTried result
            (matched (tree_of general.now) (tree_of special.now) self.old.bindings)
            self.old.bindings self.new.bindings }
        ensures few { length self.new.bindings
            ≤ length self.old.bindings + met (tree_of general.now) (tree_of special.now) }
        ensures full { result ≡ Full → self.old.room
            < length self.old.bindings + met (tree_of general.now) (tree_of special.now) }
        ensures room { self.new.room ≡ self.old.room }
    {
        match (general, special) {
            (Term::Var(x), _) => self.bind(*x, special),
            (Term::Elem(k), Term::Elem(n)) => found_if(k == n),
            (Term::Elem(_), Term::Var(_)) => Tried::Missed,
            (Term::Elem(_), Term::App(_, _)) => Tried::Missed,
            (Term::App(_, _), Term::Var(_)) => Tried::Missed,
            (Term::App(_, _), Term::Elem(_)) => Tried::Missed,
            (Term::App(f, generals), Term::App(g, specials)) => {
                if f.0 != g.0 {
                    return Tried::Missed;
                }
                self.try_all(generals, specials)
            }
        }
    }

    // The same of arguments, one by one.
    #[cycle(onto)]
    #[tactic(auto, using(crate::proofs::MatchSteps::match_step, crate::proofs::MatchSteps::match_fails, crate::proofs::MatchSteps::match_long, crate::proofs::MatchSteps::match_short, crate::proofs::MatchSteps::match_end, crate::proofs::Fronts::front_more))]
    fn try_all(&mut self, generals: &Terms, specials: &'a Terms) -> Tried
        ensures tried { IsTried result
            (matched_all (trees_of generals.now) (trees_of specials.now) self.old.bindings)
            self.old.bindings self.new.bindings }
        ensures few { length self.new.bindings
            ≤ length self.old.bindings + met_all (trees_of generals.now) (trees_of specials.now) }
        ensures full { result ≡ Full → self.old.room
            < length self.old.bindings + met_all (trees_of generals.now) (trees_of specials.now) }
        ensures room { self.new.room ≡ self.old.room }
    {
        for (i, general) in generals.items.iter().enumerate() {
            if i >= specials.items.len() {
                return Tried::Missed;
            }
            match self.try_part(general, &specials.items[i]) {
                Tried::Found => {}
                Tried::Missed => return Tried::Missed,
                Tried::Full => return Tried::Full,
            }
        }
        if generals.items.len() < specials.items.len() {
            return Tried::Missed;
        }
        Tried::Found
    }

    // The same of an argument: a variable takes no further call.
    #[cycle(onto)]
    #[inline(always)]
    fn try_part(&mut self, general: &Term, special: &'a Term) -> Tried
        ensures tried { IsTried result
            (matched (tree_of general.now) (tree_of special.now) self.old.bindings)
            self.old.bindings self.new.bindings }
        ensures few { length self.new.bindings
            ≤ length self.old.bindings + met (tree_of general.now) (tree_of special.now) }
        ensures full { result ≡ Full → self.old.room
            < length self.old.bindings + met (tree_of general.now) (tree_of special.now) }
        ensures room { self.new.room ≡ self.old.room }
    {
        if let Term::Var(x) = general {
            return self.bind(*x, special);
        }
        self.try_onto(general, special)
    }

    /// Whether the bindings, with more of them, make of the first term the second one. Some may have been added where nothing
    /// does.
    #[tactic(auto, using(crate::proofs::Counting::met_few))]
    pub fn match_onto(&mut self, general: &Term, special: &'a Term) -> bool
        requires { length self.old.bindings + occurrences (tree_of general.now) ≤ self.old.room }
        ensures matches { MatchesOnto result
            (matched (tree_of general.now) (tree_of special.now) self.old.bindings)
            self.old.bindings self.new.bindings }
        ensures few { length self.new.bindings
            ≤ length self.old.bindings + occurrences (tree_of general.now) }
        ensures room { self.new.room ≡ self.old.room }
    {
        match self.try_onto(general, special) {
            Tried::Found => true,
            Tried::Missed => false,
            Tried::Full => false,
        }
    }

    /// Whether they make of terms others, one by one: no more bindings are added than the others have symbols and variables.
    #[tactic(auto, using(crate::proofs::Counting::all_met_small))]
    pub fn match_all_onto(&mut self, generals: &Terms, specials: &'a Terms) -> bool
        requires { length self.old.bindings + sizes_of (trees_of specials.now) ≤ self.old.room }
        ensures matches { MatchesOnto result
            (matched_all (trees_of generals.now) (trees_of specials.now) self.old.bindings)
            self.old.bindings self.new.bindings }
        ensures few { length self.new.bindings
            ≤ length self.old.bindings + sizes_of (trees_of specials.now) }
        ensures room { self.new.room ≡ self.old.room }
    {
        match self.try_all(generals, specials) {
            Tried::Found => true,
            Tried::Missed => false,
            Tried::Full => false,
        }
    }

    // How large what stands for a variable is.
    fn measure_value(&self, x: u64) -> Measure
        ensures { result ≡ measured (by_bindings self.now.bindings x) }
    {
        match self.given(x) {
            Some(term) => Measure::of(term),
            None => Measure::one(),
        }
    }

    /// How large a term is with the bindings' terms put in for its variables: nothing is built.
    pub fn measure(&self, term: &Term) -> Measure
        ensures { result ≡ measured (substitute (by_bindings self.now.bindings)
            (tree_of term.now)) }
    {
        match term {
            Term::Var(x) => self.measure_value(*x),
            Term::Elem(_) => Measure::one(),
            Term::App(_, terms) => {
                let mut measure = Measure::none();
                for term in &terms.items {
                    measure = measure.beside(self.measure(term));
                }
                measure.under_symbol()
            }
        }
    }

    /// The term with the bindings' terms put in for its variables.
    pub fn apply(&self, alloc: Global, term: &Term) -> Result<Term, AllocError>
        ensures { IfOk result (λ t. tree_of t
            ≡ substitute (by_bindings self.now.bindings) (tree_of term.now)) }
    {
        match term {
            Term::Var(x) => self.value_of(alloc, *x),
            Term::Elem(k) => Ok(Term::Elem(*k)),
            Term::App(f, terms) => {
                let mut made = Terms::with_capacity(alloc, terms.items.len())?;
                for term in &terms.items {
                    made.push(self.apply(alloc, term)?)?;
                }
                Ok(Term::App(*f, made))
            }
        }
    }
}

// The same with room for all its variables.
fn is_instance_by(alloc: Global, general: &Term, special: &Term) -> Result<bool, AllocError>
    ensures { IfOk result (λ b. b
        ≡ is_some (matched (tree_of general.now) (tree_of special.now) [])) }
{
    let mut found = Matches::new(alloc);
    found.reserve(general)?;
    Ok(found.match_onto(general, special))
}

/// Whether the second term is an instance of the first: with the bindings for which there is room in place, and else with room
/// that is made for all.
pub fn is_instance(alloc: Global, general: &Term, special: &Term) -> Result<bool, AllocError>
    ensures { IfOk result (λ b. b
        ≡ is_some (matched (tree_of general.now) (tree_of special.now) [])) }
{
    let mut found = Matches::new(alloc);
    match found.try_onto(general, special) {
        Tried::Found => Ok(true),
        Tried::Missed => Ok(false),
        Tried::Full => is_instance_by(alloc, general, special),
    }
}
