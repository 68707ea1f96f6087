// The clauses that are queued are processed.
ghost use Rattle.std.specs.Prelude.{◌≡◌, ◌≤◌, IfOk, OnOk, None};
ghost use Rattle.given_clause.specs.Guides.{setting_of};
ghost use Rattle.given_clause.specs.Noted.{AreNoted};
ghost use Rattle.given_clause.specs.States.{state_of};
ghost use Rattle.prover.specs.Answers.{HasQueue, FindsAtOnce, SettlesTo, DrainsTo};
ghost use Rattle.prover_steps.specs.Ending.{given_left};
ghost use Rattle.prover_steps.specs.HeldOrder.{IsInOrder};
ghost use Rattle.prover_steps.specs.Searching.{next_state};

use given_clause::{Guide, Search, step};
use prover_steps::{searches_end, searches_stay_in_order};
use std::alloc::{AllocError, Global};

// A clause of the queue is processed; answers the last line of a proof that it gives.
fn advance(alloc: Global, guide: &Guide<'_>, search: &mut Search) -> Result<Option<u64>, AllocError>
    requires ordered { IsInOrder (state_of search.old) }
    requires noted { AreNoted (setting_of guide.now) search.old.waiting }
    requires going { (state_of search.old).ended ≡ None }
    requires queued { HasQueue (state_of search.old) }
    ensures noted { OnOk result (AreNoted (setting_of guide.now) search.new.waiting) }
    ensures next { OnOk result (state_of search.new ≡ next_state (setting_of guide.now)
        (state_of search.old)) }
    ensures found { IfOk result (λ o. FindsAtOnce (state_of search.old) (state_of search.new) o) }
    ensures on { search.old.tries ≤ search.new.tries }
{
    let before = search.proofs.len();
    step(alloc, guide, search)?;
    if search.proofs.len() <= before {
        return Ok(None);
    }
    Ok(Some(search.proofs[before].line))
}

/// Processes queued clauses up to the first that gives a proof, and answers the proof's last line; or else until no clause is left or
/// the search has ended.
pub fn drain(
    alloc: Global,
    guide: &Guide<'_>,
    search: &mut Search,
) -> Result<Option<u64>, AllocError>
    requires ordered { IsInOrder (state_of search.old) }
    requires noted { AreNoted (setting_of guide.now) search.old.waiting }
    ensures noted { OnOk result (AreNoted (setting_of guide.now) search.new.waiting) }
    ensures left { OnOk result (given_left (setting_of guide.now) (state_of search.new)
        ≤ given_left (setting_of guide.now) (state_of search.old)) }
    ensures drains { DrainsTo (setting_of guide.now) (state_of search.old) (state_of search.new)
        result }
    ensures on { search.old.tries ≤ search.new.tries }
{
    searches_end();
    searches_stay_in_order();
    while search.ended.is_none() && !search.queue.is_empty() {
        match advance(alloc, guide, search) {
            Ok(None) => {}
            Ok(Some(line)) => return Ok(Some(line)),
            Err(error) => return Err(error),
        }
    }
    Ok(None)
}

/// Processes queued clauses until none is left or the search has ended, whatever proofs they give.
pub fn settle(alloc: Global, guide: &Guide<'_>, search: &mut Search) -> Result<(), AllocError>
    requires ordered { IsInOrder (state_of search.old) }
    requires noted { AreNoted (setting_of guide.now) search.old.waiting }
    ensures noted { OnOk result (AreNoted (setting_of guide.now) search.new.waiting) }
    ensures settles { OnOk result (SettlesTo (setting_of guide.now) (state_of search.old)
        (state_of search.new)) }
    ensures on { search.old.tries ≤ search.new.tries }
{
    searches_end();
    searches_stay_in_order();
    while search.ended.is_none() && !search.queue.is_empty() {
        match step(alloc, guide, search) {
            Ok(()) => {}
            Err(error) => return Err(error),
        }
    }
    Ok(())
}
