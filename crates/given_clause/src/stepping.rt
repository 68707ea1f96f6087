// One step of a search.
ghost use Rattle.std.specs.Prelude.{◌≡◌, ◌≤◌, [], OnOk};
ghost use Rattle.std.specs.List.{AllByRecursion};
ghost use Rattle.given_clause.specs.Guides.{setting_of};
ghost use Rattle.given_clause.specs.Noted.{AreNoted};
ghost use Rattle.given_clause.specs.States.{state_of, IsQueuedWithin};
ghost use Rattle.prover_steps.specs.HeldOrder.{IsInOrder};
ghost use Rattle.prover_steps.specs.Searching.{next_state};

use crate::giving::give_next;
use crate::guide::Guide;
use crate::processing::process_under_limits;
use crate::state::Search;
use prover_steps::steps_keep_order;
use std::alloc::{AllocError, Global};

/// A clause that is queued is processed, and the limits are tested; where none is, one is given. A search that has ended stays
/// as it is. The notes of the clauses that wait are the guide's, and stay so. Of the conclusions that are queued those are built
/// that aren't too large.
pub fn step(alloc: Global, guide: &Guide<'_>, search: &mut Search) -> Result<(), AllocError>
    requires ordered { IsInOrder (state_of search.old) }
    requires noted { AreNoted (setting_of guide.now) search.old.waiting }
    ensures noted { OnOk result (AreNoted (setting_of guide.now) search.new.waiting) }
    ensures within { search.old.queue.items ≡ []
        → OnOk result (AllByRecursion IsQueuedWithin search.new.queue.items) }
    ensures state { OnOk result (state_of search.new ≡ next_state (setting_of guide.now)
        (state_of search.old)) }
    ensures on { search.old.tries ≤ search.new.tries }
{
    steps_keep_order();
    if search.ended.is_some() {
        return Ok(());
    }
    match search.queue.pop_front() {
        Some(queued) => process_under_limits(alloc, guide, search, queued),
        None => give_next(alloc, guide, search),
    }
}
