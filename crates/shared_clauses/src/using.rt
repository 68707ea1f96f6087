// Literals behind those of a clause, as a match of a term onto one of its terms makes them of others. Variables that the match
// doesn't give become new ones.
ghost use Rattle.std.specs.Prelude.{◌≡◌, ◌<◌, IfOk, OnOk, Some, length};
ghost use Rattle.fol_core.specs.Substitutions.{substitute};
ghost use Rattle.fol_core.specs.TermView.{tree_of};
ghost use Rattle.fol_core.specs.Tree.{Tree};
ghost use Rattle.shared_clauses.specs.Bound.{AreBoundBelow, bound_in};
ghost use Rattle.shared_clauses.specs.Shared.{AreLiteralsIn, AreMade, clause_in};
ghost use Rattle.shared_clauses.specs.Used.{AreUsed, IsUsedOn, used_by};
ghost use Rattle.substitutions.specs.Bindings.{by_bindings};
ghost use Rattle.substitutions.specs.Instances.{substitute_clause};
ghost use Rattle.substitutions.specs.Paths.{subterm_at};
ghost use Rattle.term_bank.specs.Bank.{Grows, IsAt, tree_at};

use crate::matching::match_onto;
use crate::paths::way_along;
use crate::putting::put_variable;
use crate::shared::{SharedClause, SharedLiteral};
use fol_core::{Clause, Term};
use std::alloc::{AllocError, Global};
use substitutions::has_variable;
use term_bank::{Bank, TermId};

// What stands for a variable of what is used.
fn used_variable(
    bank: &mut Bank,
    x: u64,
    general: &Term,
    bindings: &[(u64, TermId)],
    fresh: u64,
) -> Result<TermId, AllocError>
    requires { AreBoundBelow (length bank.old) bindings.now }
    ensures grows { Grows bank.old bank.new }
    ensures term { IfOk result (λ id. IsAt bank.new id.0 (used_by (tree_of general.now)
        (by_bindings (bound_in bank.old bindings.now)) fresh x)) }
{
    if has_variable(general, x) {
        return put_variable(bank, x, bindings);
    }
    match x.checked_add(fresh) {
        None => Err(AllocError),
        Some(new) => bank.put(&Term::Var(new)),
    }
}

// A term of what is used.
fn used_term(
    alloc: Global,
    bank: &mut Bank,
    term: &Term,
    general: &Term,
    bindings: &[(u64, TermId)],
    fresh: u64,
) -> Result<TermId, AllocError>
    requires { AreBoundBelow (length bank.old) bindings.now }
    ensures grows { Grows bank.old bank.new }
    ensures term { IfOk result (λ id. IsAt bank.new id.0 (substitute (used_by (tree_of general.now)
        (by_bindings (bound_in bank.old bindings.now)) fresh) (tree_of term.now))) }
{
    match term {
        Term::Var(x) => used_variable(bank, *x, general, bindings, fresh),
        Term::Elem(k) => bank.put(&Term::Elem(*k)),
        Term::App(f, terms) => {
            let mut made = Vec::with_capacity(alloc, terms.items.len())?;
            for term in &terms.items {
                made.push(used_term(alloc, bank, term, general, bindings, fresh)?)?;
            }
            bank.apply(*f, made.as_slice())
        }
    }
}

// Its literals.
fn used_literals(
    alloc: Global,
    bank: &mut Bank,
    used: &Clause,
    general: &Term,
    bindings: &[(u64, TermId)],
    fresh: u64,
) -> Result<Vec<SharedLiteral>, AllocError>
    requires { AreBoundBelow (length bank.old) bindings.now }
    ensures grows { Grows bank.old bank.new }
    ensures made { IfOk result (λ ls. AreMade bank.new (substitute_clause
        (used_by (tree_of general.now) (by_bindings (bound_in bank.old bindings.now)) fresh)
        used.now) ls.items) }
{
    let mut made = Vec::with_capacity(alloc, used.len())?;
    for literal in &used.literals {
        made.push(SharedLiteral {
            positive: literal.positive,
            atom: used_term(alloc, bank, &literal.atom, general, bindings, fresh)?,
        })?;
    }
    Ok(made)
}

// By the match of a term onto one of the bank; none, where nothing makes that of it.
fn matched_literals(
    alloc: Global,
    bank: &mut Bank,
    id: TermId,
    general: &Term,
    used: &Clause,
    fresh: u64,
) -> Result<Vec<SharedLiteral>, AllocError>
    requires { id.0 < length bank.old }
    ensures grows { Grows bank.old bank.new }
    ensures within { IfOk result (λ ls. AreLiteralsIn bank.new ls.items) }
    ensures made { IfOk result (λ ls. AreUsed (tree_of general.now) (tree_at bank.old id.0)
        used.now fresh (clause_in bank.new ls.items)) }
{
    let mut bindings = Vec::new(alloc);
    if !match_onto(bank, general, id, &mut bindings)? {
        return Ok(Vec::new(alloc));
    }
    used_literals(alloc, bank, used, general, bindings.as_slice(), fresh)
}

// By the match of a term onto the one at a path of a term of the bank, if that is there.
fn literals_along(
    alloc: Global,
    bank: &mut Bank,
    id: TermId,
    path: &[u64],
    general: &Term,
    used: &Clause,
    fresh: u64,
) -> Result<Vec<SharedLiteral>, AllocError>
    requires { id.0 < length bank.old }
    ensures grows { Grows bank.old bank.new }
    ensures within { IfOk result (λ ls. AreLiteralsIn bank.new ls.items) }
    ensures made { IfOk result (λ ls. (special : Tree)
        → subterm_at (tree_at bank.old id.0) path.now ≡ Some special
        → AreUsed (tree_of general.now) special used.now fresh (clause_in bank.new ls.items)) }
{
    match way_along(alloc, bank, id, path)? {
        None => Ok(Vec::new(alloc)),
        Some(way) => matched_literals(alloc, bank, way[path.len()], general, used, fresh),
    }
}

// Behind others whose atoms stand in the bank.
fn push_literals(
    alloc: Global,
    bank: &mut Bank,
    literals: &mut Vec<SharedLiteral>,
    place: usize,
    path: &[u64],
    general: &Term,
    used: &Clause,
    fresh: u64,
) -> Result<(), AllocError>
    requires literals { AreLiteralsIn bank.old literals.old.items }
    requires place { place < length literals.old.items }
    ensures within { AreLiteralsIn bank.new literals.new.items }
    ensures used { OnOk result (IsUsedOn (clause_in bank.old literals.old.items) place path.now
        (tree_of general.now) used.now fresh (clause_in bank.new literals.new.items)) }
{
    let made = literals_along(
        alloc,
        bank,
        literals[place].atom,
        path,
        general,
        used,
        fresh,
    )?;
    literals.extend_from_slice(made.as_slice())
}

impl SharedClause {
    /// Behind the literals what the match of a term onto the one at a path of a literal makes of others. Variables that the match
    /// doesn't give become those that have a number more by so many; where 64 bits don't hold one, it counts as want of memory.
    pub fn push_used(
        &mut self,
        alloc: Global,
        place: usize,
        path: &[u64],
        general: &Term,
        used: &Clause,
        fresh: u64,
    ) -> Result<(), AllocError>
        requires { place < length self.old }
        ensures { OnOk result (IsUsedOn self.old place path.now (tree_of general.now) used.now fresh
            self.new) }
    {
        push_literals(
            alloc,
            &mut self.bank,
            &mut self.literals,
            place,
            path,
            general,
            used,
            fresh,
        )
    }
}
