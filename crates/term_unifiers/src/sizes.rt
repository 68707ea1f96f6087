// How great terms of several clauses are under what is found, before any of them is built.
ghost use Rattle.std.specs.Prelude.{◌≡◌};
ghost use Rattle.clause_limits.specs.Sizes.{measured};
ghost use Rattle.fol_core.specs.Substitutions.{substitute};
ghost use Rattle.fol_core.specs.TermView.{tree_of};
ghost use Rattle.substitutions.specs.Bindings.{by_bindings};
ghost use Rattle.term_unifiers.specs.Renamed.{own_among};
ghost use Rattle.term_unifiers.specs.Solutions.{IsFound, bindings_of};

use crate::apart::number_apart;
use crate::found::Found;
use crate::instances::class_of;
use clause_limits::Measure;
use fol_core::Term;

// That of a variable.
fn measure_variable(found: &Found, x: u128) -> Measure
    requires { IsFound found.now }
    ensures { result ≡ measured (by_bindings (bindings_of found.now) x) }
{
    match class_of(found, x) {
        Some(root) => found.measures[root],
        None => Measure::one(),
    }
}

/// That of a term of one of so many clauses.
pub fn measure_among(found: &Found, term: &Term, many: u64, parent: u64) -> Measure
    requires { IsFound found.now }
    ensures { result ≡ measured (substitute
        (own_among many (by_bindings (bindings_of found.now)) parent) (tree_of term.now)) }
{
    match term {
        Term::Var(x) => measure_variable(found, number_apart(*x, many, parent)),
        Term::Elem(_) => Measure::one(),
        Term::App(_, terms) => {
            let mut measure = Measure::none();
            for term in &terms.items {
                measure = measure.beside(measure_among(found, term, many, parent));
            }
            measure.under_symbol()
        }
    }
}
