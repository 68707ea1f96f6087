// Whether two terms with variables of their own each have a unifier.
ghost use Rattle.std.specs.Prelude.{◌≡◌, ◌+◌, ◌*◌, ◌↔◌, [], ◌∷◌, IfOk, IsTrue};
ghost use Rattle.fol_core.specs.Substitutions.{Substitution, substitute};
ghost use Rattle.fol_core.specs.TermView.{tree_of};
ghost use Rattle.fol_core.specs.Tree.{trees_of};
ghost use Rattle.substitutions.specs.Apart.{interleaved};
ghost use Rattle.term_unifiers.specs.Arenas.{IsArena, AreNodes};
ghost use Rattle.term_unifiers.specs.Entered.{IsEntered, left_terms, right_terms};
ghost use Rattle.unifiers.specs.Unifier.{Unifies};

use crate::arena::{apply, enter_element, enter_variable, roomy_arena};
use crate::entered::Entered;
use crate::node::Arena;
use crate::room::enter;
use crate::unifying::have_unifier;
use fol_core::Term;
use std::alloc::{AllocError, Global};
use std::marker::Model;

// How many nodes there is room for at first.
const FEW: usize = 32;

/// The number of a variable of a term by its place among so many.
pub fn number_apart(x: u64, many: u64, place: u64) -> u128
    ensures { result ≡ x * many + place }
{
    let product = x as u128 * many as u128;
    product + place as u128
}

/// Puts a term into an arena with its variables renamed, by its place among so many.
pub fn put_apart(
    arena: &mut Arena,
    term: &Term,
    many: u64,
    place: u64,
    numbers: &mut Vec<usize>,
) -> Result<(), AllocError>
    requires { IsArena arena.old }
    ensures { IfOk result (λ r. AreNodes arena.old arena.new numbers.old.items numbers.new.items
        (substitute (interleaved many place) (tree_of term.now) ∷ [])) }
{
    match term {
        Term::Var(x) => {
            let own = number_apart(*x, many, place);
            let n = enter_variable(arena, own)?;
            numbers.push(n)?;
            Ok(())
        }
        Term::Elem(k) => {
            let n = enter_element(arena, *k)?;
            numbers.push(n)?;
            Ok(())
        }
        Term::App(f, terms) => {
            let first = numbers.len();
            for term in &terms.items {
                put_apart(arena, term, many, place, numbers)?;
            }
            apply(arena, f.0, first, numbers)?;
            Ok(())
        }
    }
}

/// Two terms with variables of their own each, renamed apart, in an arena with room.
pub fn entered_apart(alloc: Global, s: &Term, t: &Term) -> Result<Entered, AllocError>
    ensures entered { IfOk result IsEntered }
    ensures left { IfOk result (λ e. left_terms e ≡ substitute (interleaved 2 0) (tree_of s.now) ∷ []) }
    ensures right { IfOk result (λ e. right_terms e ≡ substitute (interleaved 2 1) (tree_of t.now) ∷ []) }
{
    let mut arena = roomy_arena(alloc, FEW)?;
    let mut left_nodes = Vec::with_capacity(alloc, FEW)?;
    put_apart(&mut arena, s, 2, 0, &mut left_nodes)?;
    let mut right_nodes = Vec::with_capacity(alloc, FEW)?;
    put_apart(&mut arena, t, 2, 1, &mut right_nodes)?;
    enter(alloc, arena, left_nodes, right_nodes)
}

/// Two terms with variables of their own each, renamed apart, with the room that it takes to find out whether they unify;
/// contracts see a list of each alone.
#[derive(Drop)]
pub struct TermPair {
    nodes: Entered,
}

impl Model for TermPair {
    ghost use Rattle.std.specs.Prelude.{List};
    ghost use Rattle.std.specs.Coded.{coded×};
    ghost use Rattle.fol_core.specs.Tree.{Tree};
    ghost use Rattle.fol_core.specs.TreeCodes.{coded_trees};
    ghost use Rattle.term_unifiers.specs.Entered.{IsEntered, left_terms, right_terms};

    ghost Value = { List Tree × List Tree };

    ghost coded = { coded× coded_trees coded_trees };

    ghost view = { λ a. (left_terms a.nodes, right_terms a.nodes) };

    ghost invariant = { λ a. IsEntered a.nodes };
}

impl TermPair {
    /// Two terms, with room.
    pub fn new(alloc: Global, s: &Term, t: &Term) -> Result<TermPair, AllocError>
        ensures { IfOk result (λ p. p ≡ (
          substitute (interleaved 2 0) (tree_of s.now) ∷ [],
          substitute (interleaved 2 1) (tree_of t.now) ∷ [],
        )) }
    {
        let nodes = entered_apart(alloc, s, t)?;
        Ok(TermPair { nodes })
    }

    /// Whether they have a unifier: none is built, and nothing is measured.
    pub fn can_unify(self) -> bool
        ensures { IsTrue result
            ↔ ((u : Substitution) × Unifies u (trees_of self.0) (trees_of self.1)) }
    {
        let TermPair { nodes } = self;
        have_unifier(nodes)
    }
}
