// What makes a term of a bank of a general one that was read.
ghost use Rattle.std.specs.Prelude.{◌≡◌, ◌<◌, ℕ, List, IfOk, IfSome, length};
ghost use Rattle.std.specs.Option.{option_map};
ghost use Rattle.fol_core.specs.TermView.{tree_of};
ghost use Rattle.fol_core.specs.Tree.{Tree, elem};
ghost use Rattle.shared_clauses.specs.Bound.{AreBoundBelow, IsMatched, bound_in};
ghost use Rattle.term_bank.specs.Bank.{tree_at};
ghost use Rattle.unifiers.specs.Matching.{bound_term, bound_to, matched, same_tree};

use crate::nodes::arguments_of;
use fol_core::Term;
use std::alloc::AllocError;
use term_bank::{Bank, Node, TermId};

/// The term that is given for a variable.
pub fn given(bindings: &[(u64, TermId)], x: u64) -> Option<TermId>
    ensures term { (bank : List Tree) → option_map (λ id. tree_at bank id.0) result
        ≡ bound_term (bound_in bank bindings.now) x }
    ensures within { (n : ℕ) → AreBoundBelow n bindings.now → IfSome result (λ id. id.0 < n) }
{
    for binding in bindings {
        if x == binding.0 {
            return Some(binding.1);
        }
    }
    None
}

// A variable with a term.
fn bind(
    bank: &Bank,
    x: u64,
    id: TermId,
    bindings: &mut Vec<(u64, TermId)>,
) -> Result<bool, AllocError>
    requires id { id.0 < length bank.now }
    requires bindings { AreBoundBelow (length bank.now) bindings.old.items }
    ensures { IfOk result (λ b. IsMatched (bound_to (bound_term (bound_in bank.now bindings.old.items) x)
        x (tree_at bank.now id.0) (bound_in bank.now bindings.old.items)) bank.now
        bindings.new.items b) }
{
    match given(bindings.as_slice(), x) {
        Some(old) => Ok(bank.same(old, id)),
        None => {
            bindings.push((x, id))?;
            Ok(true)
        }
    }
}

// Whether a term is this element.
fn is_element(bank: &Bank, id: TermId, k: u32) -> bool
    requires { id.0 < length bank.now }
    ensures { result ≡ same_tree (elem k) (tree_at bank.now id.0) }
{
    match bank.node(id) {
        Node::Var(_) => false,
        Node::Elem(n) => k == n,
        Node::App(_, _) => false,
    }
}

/// Whether bindings, with more of them, make the term of the general one.
pub fn match_onto(
    bank: &Bank,
    general: &Term,
    id: TermId,
    bindings: &mut Vec<(u64, TermId)>,
) -> Result<bool, AllocError>
    requires id { id.0 < length bank.now }
    requires bindings { AreBoundBelow (length bank.now) bindings.old.items }
    ensures { IfOk result (IsMatched (matched (tree_of general.now) (tree_at bank.now id.0)
        (bound_in bank.now bindings.old.items)) bank.now bindings.new.items) }
{
    match general {
        Term::Var(x) => bind(bank, *x, id, bindings),
        Term::Elem(k) => Ok(is_element(bank, id, *k)),
        Term::App(f, terms) => {
            let Some(arguments) = arguments_of(bank, id, f.0) else {
                return Ok(false);
            };
            if terms.items.len() != arguments.len() {
                return Ok(false);
            }
            for (i, term) in terms.items.iter().enumerate() {
                if !match_onto(bank, term, arguments[i], bindings)? {
                    return Ok(false);
                }
            }
            Ok(true)
        }
    }
}
