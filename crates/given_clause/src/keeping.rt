// Lines, proofs, and clauses that are kept.
ghost use Rattle.std.specs.Prelude.{◌≡◌, ◌≤◌, ◌+◌, ◌++◌, ◌∷◌, [], suc, false, IfOk, OnOk, map};
ghost use Rattle.std.specs.List.{AllByRecursion};
ghost use Rattle.derivation.specs.View.{later_of};
ghost use Rattle.given_clause.specs.Guides.{setting_of};
ghost use Rattle.given_clause.specs.Noted.{AreNoted};
ghost use Rattle.given_clause.specs.States.{queued_of, state_of};
ghost use Rattle.proof_words.specs.Written.{written_first};
ghost use Rattle.prover_steps.specs.HeldOrder.{numbers_of, input_numbers, IsInOrder, IsNoneOf, IsUnusedIn};
ghost use Rattle.prover_steps.specs.Searching.{counted_on, is_unchanged, number_for, with_line, with_proof, held_for, keeps, is_too_large};

use crate::guide::Guide;
use crate::state::{FoundProof, Queued, Search};
use clause_limits::clause_size;
use derivation::{First, Just, Later};
use fol_core::Clause;
use held_clauses::{Held, MadeLine};
use prover_steps::steps_keep_order;
use std::alloc::{AllocError, Global};
use std::rc::Rc;

/// A number and so many more.
pub fn counted(n: u64, more: u64) -> Result<u64, AllocError>
    ensures { IfOk result (λ sum. sum ≡ n + more) }
{
    n.checked_add(more).ok_or(AllocError)
}

/// The same of a counter that stops at its end.
pub fn counted_on(n: u64, more: u64) -> u64
    ensures { result ≡ counted_on n more }
{
    n.saturating_add(more)
}

// A line under the next number.
fn add_line(
    alloc: Global,
    search: &mut Search,
    clause: Rc<Clause>,
    first: First,
    later: Vec<Later>,
) -> Result<(), AllocError>
    ensures waiting { OnOk result (search.new.waiting ≡ search.old.waiting) }
    ensures state { OnOk result (state_of search.new ≡ record (state_of search.old) {
      lines = (state_of search.old).lines ++ record {
        number = search.old.next;
        clause = clause.value;
        first = written_first first;
        later = map later_of later.items;
      } ∷ [];
      next = suc search.old.next;
    }) }
    ensures on { search.old.tries ≤ search.new.tries }
{
    let number = search.next;
    search.next = counted(number, 1)?;
    let just = Just {
        first,
        steps: later,
    };
    search.lines.push(MadeLine {
        number,
        clause,
        just: Box::new(alloc, just)?,
    })?;
    Ok(())
}

// Whether an input clause was left as it was.
fn is_unchanged(queued: &Queued) -> bool
    ensures { result ≡ is_unchanged (queued_of queued.now) }
{
    queued.input.is_some() && queued.later.is_empty()
}

// The number of a clause that was processed.
fn number_for(search: &Search, queued: &Queued) -> u64
    ensures { result ≡ number_for (state_of search.now) (queued_of queued.now) }
{
    match queued.input {
        Some(number) if queued.later.is_empty() => number,
        _ => search.next,
    }
}

/// A clause that was processed, under its number; its line is made, unless it has one.
pub fn keep_line(alloc: Global, search: &mut Search, queued: Queued) -> Result<Held, AllocError>
    ensures held { IfOk result (λ h. h ≡ held_for (state_of search.old) (queued_of queued)) }
    ensures waiting { OnOk result (search.new.waiting ≡ search.old.waiting) }
    ensures state { OnOk result (state_of search.new ≡ with_line (state_of search.old)
        (queued_of queued)) }
    ensures on { search.old.tries ≤ search.new.tries }
{
    let number = number_for(search, &queued);
    let unchanged = is_unchanged(&queued);
    let Queued {
        clause,
        first,
        later,
        ..
    } = queued;
    let held = Held::new(alloc, number, clause)?;
    if unchanged {
        return Ok(held);
    }
    add_line(alloc, search, held.shared()?, first, later)?;
    Ok(held)
}

/// A proof whose last line has this number.
pub fn add_proof(search: &mut Search, line: u64) -> Result<(), AllocError>
    ensures waiting { OnOk result (search.new.waiting ≡ search.old.waiting) }
    ensures state { OnOk result (state_of search.new ≡ with_proof line (state_of search.old)) }
    ensures on { search.old.tries ≤ search.new.tries }
{
    let given = search.given;
    search.proofs.push(FoundProof { line, given })?;
    Ok(())
}

/// A clause is kept: it waits, or is in use at once.
pub fn keep(
    alloc: Global,
    guide: &Guide<'_>,
    search: &mut Search,
    held: Held,
    usable: bool,
) -> Result<(), AllocError>
    requires small { is_too_large held.clause ≡ false }
    requires not_waiting { IsNoneOf held.number (numbers_of search.old.waiting.held) }
    requires not_usable { IsNoneOf held.number (numbers_of search.old.usable) }
    requires noted { AreNoted (setting_of guide.now) search.old.waiting }
    ensures noted { OnOk result (AreNoted (setting_of guide.now) search.new.waiting) }
    ensures state { OnOk result (state_of search.new ≡ keeps (state_of search.old) held usable) }
    ensures on { search.old.tries ≤ search.new.tries }
{
    search.kept = counted(search.kept, 1)?;
    search.symbols = counted(search.symbols, clause_size(held.clause()))?;
    if usable {
        search.usable.put_in(held)
    } else {
        search.waiting.put_in(alloc, guide, held)
    }
}

/// A clause that was processed is kept under its number, with its line.
pub fn keep_queued(
    alloc: Global,
    guide: &Guide<'_>,
    search: &mut Search,
    queued: Queued,
) -> Result<Held, AllocError>
    requires small { is_too_large queued.clause ≡ false }
    requires ordered { IsInOrder (state_of search.old) }
    requires unused { AllByRecursion (IsUnusedIn (state_of search.old))
        (input_numbers (queued_of queued ∷ [])) }
    requires noted { AreNoted (setting_of guide.now) search.old.waiting }
    ensures noted { OnOk result (AreNoted (setting_of guide.now) search.new.waiting) }
    ensures held { IfOk result (λ h. h ≡ held_for (state_of search.old) (queued_of queued)) }
    ensures kept { OnOk result (state_of search.new ≡ keeps (with_line (state_of search.old)
        (queued_of queued)) (held_for (state_of search.old) (queued_of queued)) queued.usable) }
    ensures on { search.old.tries ≤ search.new.tries }
{
    steps_keep_order();
    let usable = queued.usable;
    let held = keep_line(alloc, search, queued)?;
    keep(alloc, guide, search, held.copy()?, usable)?;
    Ok(held)
}
