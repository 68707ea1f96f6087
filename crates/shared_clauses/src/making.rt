// The terms of clauses put into a bank: of a plain one, of an instance, and of a conclusion that isn't built.
ghost use Rattle.std.specs.Prelude.{◌≡◌, ◌<◌, ℕ, List, IfOk, length, map};
ghost use Rattle.fol_core.specs.Substitutions.{Substitution, substitute};
ghost use Rattle.fol_core.specs.TermView.{tree_of};
ghost use Rattle.inference.specs.Left.{all_left, changed, left_clause, left_literal, left_tree};
ghost use Rattle.shared_clauses.specs.Bound.{AreBoundTo};
ghost use Rattle.shared_clauses.specs.Lefts.{part_atom, whole_atom};
ghost use Rattle.shared_clauses.specs.Shared.{AreLiteralsIn, AreMade, clause_in};
ghost use Rattle.substitutions.specs.Apart.{Own};
ghost use Rattle.substitutions.specs.Bindings.{Binding, by_bindings};
ghost use Rattle.substitutions.specs.Instances.{AreVariants, substitute_clause};
ghost use Rattle.term_bank.specs.Bank.{Grows, IsAt, tree_at};
ghost use Rattle.term_unifiers.specs.Renamed.{own_among};
ghost use Rattle.term_unifiers.specs.Shared.{of_parent};

use crate::paths::{put_along, way_along};
use crate::putting::put_with;
use crate::shared::SharedLiteral;
use fol_core::{Clause, Term};
use inference::Left;
use std::alloc::{AllocError, Global};
use substitutions::{Subst, subterm_at};
use term_bank::{Bank, TermId};
use term_unifiers::{OfParent, Shared, Solution};

/// A plain clause's.
pub fn clause_literals(
    alloc: Global,
    bank: &mut Bank,
    clause: &Clause,
) -> Result<Vec<SharedLiteral>, AllocError>
    ensures { IfOk result (λ ls. AreMade bank.new clause.now ls.items) }
{
    let mut made = Vec::with_capacity(alloc, clause.len())?;
    for literal in &clause.literals {
        made.push(SharedLiteral {
            positive: literal.positive,
            atom: bank.put(&literal.atom)?,
        })?;
    }
    Ok(made)
}

// The terms that stand for variables.
fn put_values(
    alloc: Global,
    bank: &mut Bank,
    values: &Subst,
) -> Result<Vec<(u64, TermId)>, AllocError>
    ensures { IfOk result (λ bs. AreBoundTo bank.new values.now bs.items) }
{
    let mut bindings = Vec::with_capacity(alloc, values.terms.len())?;
    for (x, term) in &values.terms {
        let id = bank.put(term)?;
        bindings.push((*x, id))?;
    }
    Ok(bindings)
}

/// An instance's.
pub fn instance_literals(
    alloc: Global,
    bank: &mut Bank,
    values: &Subst,
    parent: &Clause,
) -> Result<Vec<SharedLiteral>, AllocError>
    ensures { IfOk result (λ ls. AreMade bank.new
        (substitute_clause (by_bindings values.now) parent.now) ls.items) }
{
    let bindings = put_values(alloc, bank, values)?;
    let mut made = Vec::with_capacity(alloc, parent.len())?;
    for literal in &parent.literals {
        made.push(SharedLiteral {
            positive: literal.positive,
            atom: put_with(alloc, bank, &literal.atom, bindings.as_slice())?,
        })?;
    }
    Ok(made)
}

// The atoms of what is left.
fn left_atoms<'a>(alloc: Global, left: &[Left<'a>]) -> Result<Vec<OfParent<'a>>, AllocError>
    ensures { IfOk result (λ ps. (many : ℕ) (bs : List Binding) → map (of_parent many bs) ps.items
        ≡ map (whole_atom (own_among many (by_bindings bs))) left.now) }
{
    let mut atoms = Vec::with_capacity(alloc, left.len())?;
    for one in left {
        atoms.push(OfParent {
            parent: one.parent,
            term: &one.literal.atom,
        })?;
    }
    Ok(atoms)
}

// What is put into a literal; where nothing is, its atom once more.
fn part_of<'a>(one: &Left<'a>) -> OfParent<'a>
    ensures { (many : ℕ) (bs : List Binding) → of_parent many bs result
        ≡ part_atom (own_among many (by_bindings bs)) one.now }
{
    match one.change {
        None => OfParent {
            parent: one.parent,
            term: &one.literal.atom,
        },
        Some(change) => OfParent {
            parent: change.parent,
            term: change.term,
        },
    }
}

// The same of all that is left.
fn left_parts<'a>(alloc: Global, left: &[Left<'a>]) -> Result<Vec<OfParent<'a>>, AllocError>
    ensures { IfOk result (λ ps. (many : ℕ) (bs : List Binding) → map (of_parent many bs) ps.items
        ≡ map (part_atom (own_among many (by_bindings bs))) left.now) }
{
    let mut parts = Vec::with_capacity(alloc, left.len())?;
    for one in left {
        parts.push(part_of(one))?;
    }
    Ok(parts)
}

// The term with another one at a path, where that is a path of the term that it is an instance of.
fn change_at(
    alloc: Global,
    bank: &mut Bank,
    general: &Term,
    id: TermId,
    path: &[u64],
    new: TermId,
) -> Result<TermId, AllocError>
    requires id { id.0 < length bank.old }
    requires new { new.0 < length bank.old }
    ensures grows { Grows bank.old bank.new }
    ensures term { IfOk result (λ k. (s : Substitution)
        → tree_at bank.old id.0 ≡ substitute s (tree_of general.now)
        → IsAt bank.new k.0 (changed s (tree_of general.now) path.now (tree_at bank.old new.0))) }
{
    match subterm_at(general, path) {
        None => return Ok(id),
        Some(_) => {}
    }
    match way_along(alloc, bank, id, path)? {
        None => Ok(id),
        Some(way) => put_along(alloc, bank, way.as_slice(), path, new),
    }
}

// The atom of a literal that is left, by the terms of the parent's atom and of what is put into it.
fn left_atom(
    alloc: Global,
    bank: &mut Bank,
    one: &Left,
    atom: TermId,
    part: TermId,
) -> Result<TermId, AllocError>
    requires atom { atom.0 < length bank.old }
    requires part { part.0 < length bank.old }
    ensures grows { Grows bank.old bank.new }
    ensures made { IfOk result (λ k. (s : Substitution) (own : Own)
        → tree_at bank.old atom.0 ≡ substitute s (whole_atom own one.now)
        → tree_at bank.old part.0 ≡ substitute s (part_atom own one.now)
        → IsAt bank.new k.0 (substitute s (left_literal own (left_tree one.now)).atom)) }
{
    match one.change {
        None => Ok(atom),
        Some(change) => change_at(alloc, bank, &one.literal.atom, atom, change.path, part),
    }
}

/// A conclusion's.
pub fn conclusion_literals(
    alloc: Global,
    unifier: &Solution,
    many: u64,
    left: &[Left],
) -> Result<(Bank, Vec<SharedLiteral>), AllocError>
    ensures { IfOk result (λ r. (AreLiteralsIn r.0 r.1.items)
        × AreVariants (clause_in r.0 r.1.items)
        (left_clause (own_among many (by_bindings unifier.now)) (all_left left.now))) }
{
    let atoms = left_atoms(alloc, left)?;
    let parts = left_parts(alloc, left)?;
    let shared = unifier.share(alloc, many, atoms.as_slice(), parts.as_slice())?;
    let Shared {
        mut bank,
        terms,
        others,
    } = shared;
    let mut made = Vec::with_capacity(alloc, left.len())?;
    for (i, one) in left.iter().enumerate() {
        let atom = left_atom(alloc, &mut bank, one, terms[i], others[i])?;
        made.push(SharedLiteral {
            positive: one.literal.positive,
            atom,
        })?;
    }
    Ok((bank, made))
}
