// Terms of a bank put in for the variables of a term that was read.
ghost use Rattle.std.specs.Prelude.{◌≡◌, IfOk, length};
ghost use Rattle.fol_core.specs.Substitutions.{substitute};
ghost use Rattle.fol_core.specs.TermView.{tree_of};
ghost use Rattle.shared_clauses.specs.Bound.{AreBoundBelow, bound_in};
ghost use Rattle.substitutions.specs.Bindings.{by_bindings};
ghost use Rattle.term_bank.specs.Bank.{Grows, IsAt};

use crate::matching::given;
use fol_core::Term;
use std::alloc::{AllocError, Global};
use term_bank::{Bank, TermId};

/// What stands for a variable.
pub fn put_variable(
    bank: &mut Bank,
    x: u64,
    bindings: &[(u64, TermId)],
) -> Result<TermId, AllocError>
    requires { AreBoundBelow (length bank.old) bindings.now }
    ensures grows { Grows bank.old bank.new }
    ensures term { IfOk result (λ id. IsAt bank.new id.0
        (by_bindings (bound_in bank.old bindings.now) x)) }
{
    match given(bindings, x) {
        Some(id) => Ok(id),
        None => bank.put(&Term::Var(x)),
    }
}

/// The term with these put in.
pub fn put_with(
    alloc: Global,
    bank: &mut Bank,
    term: &Term,
    bindings: &[(u64, TermId)],
) -> Result<TermId, AllocError>
    requires { AreBoundBelow (length bank.old) bindings.now }
    ensures grows { Grows bank.old bank.new }
    ensures term { IfOk result (λ id. IsAt bank.new id.0
        (substitute (by_bindings (bound_in bank.old bindings.now)) (tree_of term.now))) }
{
    match term {
        Term::Var(x) => put_variable(bank, *x, bindings),
        Term::Elem(k) => bank.put(&Term::Elem(*k)),
        Term::App(f, terms) => {
            let mut made = Vec::with_capacity(alloc, terms.items.len())?;
            for term in &terms.items {
                made.push(put_with(alloc, bank, term, bindings)?)?;
            }
            bank.apply(*f, made.as_slice())
        }
    }
}
