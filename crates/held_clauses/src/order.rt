// Terms compared by the order that is chosen.
ghost use Rattle.std.specs.Prelude.{◌≡◌, ◌≤◌, IfOk, false};
ghost use Rattle.fol_core.specs.Sizes.{size_of};
ghost use Rattle.fol_core.specs.TermView.{tree_of};
ghost use Rattle.held_clauses.specs.Order.{greater_of};
ghost use Rattle.held_clauses.specs.Variables.{has_each_of};
ghost use Rattle.held_clauses.specs.declared.weight_order.TheConstants.{MOST_WEIGHED_SYMBOLS};
ghost use Rattle.term_order.specs.Kbo.{kbo_greater};
ghost use Rattle.term_order.specs.Precedences.{stands_above, weight_at};

use crate::path_order::is_path_greater;
use crate::weight_order::{MOST_WEIGHED_SYMBOLS, outweighs};
use clause_limits::left_behind;
use fol_core::Term;
use ladr_options::Order;
use std::alloc::AllocError;
use substitutions::{has_variable, same};
use term_order::{Precedence, lpo_is_order, symbols_are_ordered};

// Whether a term has each variable of another one.
#[tactic(auto, using(crate::proofs::Variables::has_not, crate::proofs::Variables::has_next, crate::proofs::Variables::has_end))]
fn has_each_of(s: &Term, t: &Term) -> bool
    ensures { result ≡ has_each_of (tree_of s.now) (tree_of t.now) }
{
    match t {
        Term::Var(x) => has_variable(s, *x),
        Term::Elem(_) => true,
        Term::App(_, terms) => {
            for term in &terms.items {
                if !has_each_of(s, term) {
                    return false;
                }
            }
            true
        }
    }
}

// Whether a term has so many symbols and variables that 64 bits may not hold its weight.
fn is_large(term: &Term) -> bool
    ensures { result ≡ false → size_of (tree_of term.now) ≤ MOST_WEIGHED_SYMBOLS }
{
    left_behind(term, MOST_WEIGHED_SYMBOLS).is_none()
}

// Whether the first term is greater by weight.
fn is_heavier(precedence: &Precedence, s: &Term, t: &Term) -> Result<bool, AllocError>
    ensures { IfOk result (λ b. b ≡ kbo_greater (stands_above precedence.now.rows.items)
        (weight_at precedence.now.rows.items) (tree_of s.now) (tree_of t.now)) }
{
    if is_large(s) || is_large(t) {
        return Err(AllocError);
    }
    Ok(outweighs(precedence, s, t))
}

// Whether the first term is greater by the order that is chosen.
fn is_greater_told(precedence: &Precedence, s: &Term, t: &Term) -> Result<bool, AllocError>
    ensures { IfOk result (λ b. b ≡ greater_of precedence.now (tree_of s.now) (tree_of t.now)) }
{
    match precedence.order {
        Order::Lpo => Ok(is_path_greater(precedence, s, t)),
        Order::Kbo => is_heavier(precedence, s, t),
    }
}

/// Whether the first term is greater: it takes no memory. Where terms are compared by weight, one of 2^32 symbols counts as one
/// that memory doesn't hold, since 64 bits may not hold what it weighs.
pub fn is_greater(precedence: &Precedence, s: &Term, t: &Term) -> Result<bool, AllocError>
    ensures { IfOk result (λ b. b ≡ greater_of precedence.now (tree_of s.now) (tree_of t.now)) }
{
    symbols_are_ordered();
    lpo_is_order();
    if same(s, t) {
        return Ok(false);
    }
    match (s, t) {
        (Term::Var(_), _) => Ok(false),
        (Term::Elem(_), _) => Ok(false),
        (Term::App(_, _), Term::Var(y)) => Ok(has_variable(s, *y)),
        (Term::App(_, _), _) => {
            if !has_each_of(s, t) {
                return Ok(false);
            }
            is_greater_told(precedence, s, t)
        }
    }
}
