// How large terms are, one beside the other and under a symbol.
ghost use Rattle.std.specs.Prelude.{◌≡◌};
ghost use Rattle.fol_core.specs.TermView.{tree_of};
ghost use Rattle.fol_core.specs.Tree.{none, var};
ghost use Rattle.clause_limits.specs.Sizes.{beside, measured, measured_all, under_symbol};

use fol_core::Term;

/// How many symbols and variables there are, and how many levels, each up to the greatest number.
#[derive(Clone, Copy)]
pub struct Measure {
    pub size: u64,
    pub depth: u64,
}

impl Measure {
    /// That of no terms.
    pub fn none() -> Measure
        ensures { result ≡ measured_all none }
    {
        Measure { size: 0, depth: 0 }
    }

    /// That of a term.
    pub fn of(term: &Term) -> Measure
        ensures { result ≡ measured (tree_of term.now) }
    {
        match term {
            Term::Var(_) => Measure::one(),
            Term::Elem(_) => Measure::one(),
            Term::App(_, terms) => {
                let mut measure = Measure::none();
                for term in &terms.items {
                    measure = measure.beside(Measure::of(term));
                }
                measure.under_symbol()
            }
        }
    }

    /// That of a variable or an element.
    pub fn one() -> Measure
        ensures { result ≡ measured (var 0) }
    {
        Measure { size: 1, depth: 1 }
    }

    /// That of terms with another beside them.
    pub fn beside(self, other: Measure) -> Measure
        ensures { result ≡ beside self other }
    {
        Measure {
            size: self.size.saturating_add(other.size),
            depth: self.depth.max(other.depth),
        }
    }

    /// That of a symbol over terms.
    pub fn under_symbol(self) -> Measure
        ensures { result ≡ under_symbol self }
    {
        Measure {
            size: self.size.saturating_add(1),
            depth: self.depth.saturating_add(1),
        }
    }
}
