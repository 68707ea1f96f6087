// Terms of a bank along a path, and another term at its end: however long the path is, nothing recurses.
ghost use Rattle.std.specs.Prelude.{◌≡◌, ◌<◌, None, IfOk, MatchOption, length};
ghost use Rattle.shared_clauses.specs.Ways.{IsChanged, IsPart, IsWay, first_tree};
ghost use Rattle.substitutions.specs.Paths.{part_at, replaced, subterm_at, with_part};
ghost use Rattle.term_bank.specs.Bank.{Grows, IsAt, tree_at};

use fol_core::Sym;
use std::alloc::{AllocError, Global};
use term_bank::{Bank, Node, TermId};

// The argument of a number.
fn part(bank: &Bank, id: TermId, number: u64) -> Option<TermId>
    requires { id.0 < length bank.now }
    ensures { MatchOption result (part_at (tree_at bank.now id.0) number ≡ None)
        (λ k. IsPart bank.now id.0 number k.0) }
{
    match bank.node(id) {
        Node::Var(_) => None,
        Node::Elem(_) => None,
        Node::App(_, arguments) => {
            if number == 0 {
                return None;
            }
            if number > arguments.len() as u64 {
                return None;
            }
            Some(arguments[(number - 1) as usize])
        }
    }
}

/// The terms along a path, from the first one to the one at its end, if that is there.
pub fn way_along(
    alloc: Global,
    bank: &Bank,
    id: TermId,
    path: &[u64],
) -> Result<Option<Vec<TermId>>, AllocError>
    requires { id.0 < length bank.now }
    ensures { IfOk result (λ o. MatchOption o
        (subterm_at (tree_at bank.now id.0) path.now ≡ None)
        (λ way. IsWay bank.now (tree_at bank.now id.0) path.now way.items)) }
{
    let mut way = Vec::new(alloc);
    way.push(id)?;
    let mut here = id;
    for number in path {
        let Some(next) = part(bank, here, *number) else {
            return Ok(None);
        };
        here = next;
        way.push(here)?;
    }
    Ok(Some(way))
}

// A term's symbol and arguments, another one in place of that of a number.
fn changed(
    alloc: Global,
    bank: &Bank,
    id: TermId,
    number: u64,
    new: TermId,
) -> Result<Option<(Sym, Vec<TermId>)>, AllocError>
    requires id { id.0 < length bank.now }
    requires new { new.0 < length bank.now }
    ensures { IfOk result (λ o. MatchOption o
        (tree_at bank.now id.0 ≡ with_part (λ u. tree_at bank.now new.0) (tree_at bank.now id.0) number)
        (λ p. IsChanged bank.now
        (with_part (λ u. tree_at bank.now new.0) (tree_at bank.now id.0) number) p.0.0 p.1.items)) }
{
    match bank.node(id) {
        Node::Var(_) => Ok(None),
        Node::Elem(_) => Ok(None),
        Node::App(f, arguments) => {
            let mut all = Vec::from_slice(alloc, arguments)?;
            if number == 0 {
                return Ok(None);
            }
            if number > all.len() as u64 {
                return Ok(None);
            }
            all[(number - 1) as usize] = new;
            Ok(Some((f, all)))
        }
    }
}

// A term with another one in place of the argument of a number.
fn with_part(
    alloc: Global,
    bank: &mut Bank,
    id: TermId,
    number: u64,
    new: TermId,
) -> Result<TermId, AllocError>
    requires id { id.0 < length bank.old }
    requires new { new.0 < length bank.old }
    ensures grows { Grows bank.old bank.new }
    ensures term { IfOk result (λ k. IsAt bank.new k.0
        (with_part (λ u. tree_at bank.old new.0) (tree_at bank.old id.0) number)) }
{
    match changed(alloc, bank, id, number, new)? {
        None => Ok(id),
        Some((f, all)) => bank.apply(f, all.as_slice()),
    }
}

/// The first of the terms along a path, with another one at the path's end.
pub fn put_along(
    alloc: Global,
    bank: &mut Bank,
    way: &[TermId],
    path: &[u64],
    new: TermId,
) -> Result<TermId, AllocError>
    requires way { IsWay bank.old (first_tree bank.old way.now) path.now way.now }
    requires new { new.0 < length bank.old }
    ensures grows { Grows bank.old bank.new }
    ensures term { IfOk result (λ k. IsAt bank.new k.0
        (replaced (first_tree bank.old way.now) path.now (tree_at bank.old new.0))) }
{
    let mut here = new;
    let mut left = path.len();
    'up: while left > 0 {
        left -= 1;
        here = with_part(alloc, bank, way[left], path[left], here)?;
    }
    Ok(here)
}
