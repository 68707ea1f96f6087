// A clause is given.
ghost use Rattle.std.specs.Prelude.{◌≡◌, ◌≤◌, ◌++◌, [], IfOk, OnOk, map, filter, not};
ghost use Rattle.std.specs.List.{AllByRecursion};
ghost use Rattle.given_clause.specs.Guides.{setting_of};
ghost use Rattle.given_clause.specs.Noted.{AreNoted, StayNoted};
ghost use Rattle.given_clause.specs.States.{entry_of, state_of, IsQueuedWithin};
ghost use Rattle.prover_steps.specs.HeldOrder.{numbers_of, IsInOrder, IsNoneOf};
ghost use Rattle.prover_steps.specs.Searching.{Setting, queued_for, gives, given_next};
ghost use Rattle.resolution.specs.View.{conclusion_of};

use crate::guide::Guide;
use crate::keeping::{counted, counted_on};
use crate::picking::picked;
use crate::state::{QueueEntry, Queued, Reason, Search};
use conclusions::conclusions_of;
use held_clauses::Held;
use prover_steps::steps_keep_order;
use resolution::{Concluded, Conclusion};
use std::alloc::{AllocError, Global};
use std::collections::VecDeque;

// A conclusion as it is queued.
fn queued(alloc: Global, conclusion: Conclusion) -> QueueEntry
    ensures entry { entry_of result ≡ queued_for (conclusion_of conclusion) }
    ensures within { IsQueuedWithin result }
{
    let Conclusion { clause, first } = conclusion;
    match clause {
        Concluded::Numbered(clause) => {
            clause.keeps_to_limits();
            QueueEntry::Built(Queued {
                clause: clause.into_clause(),
                first,
                later: Vec::new(alloc),
                input: None,
                usable: false,
            })
        }
        Concluded::Large(clause) => {
            clause.exceeds_limits();
            QueueEntry::Large(clause, first)
        }
    }
}

// Conclusions, queued in their order.
fn queued_all(alloc: Global, mut new: Vec<Conclusion>) -> Result<VecDeque<QueueEntry>, AllocError>
    ensures entries { IfOk result (λ qs. map entry_of qs.items
        ≡ map queued_for (map conclusion_of new.items)) }
    ensures within { IfOk result (λ qs. AllByRecursion IsQueuedWithin qs.items) }
{
    let mut queue = VecDeque::with_capacity(alloc, new.len())?;
    while let Some(conclusion) = new.pop() {
        queue.push_front(queued(alloc, conclusion))?;
    }
    Ok(queue)
}

// A clause is in use, and its conclusions are queued.
fn give(
    alloc: Global,
    guide: &Guide<'_>,
    search: &mut Search,
    given: Held,
) -> Result<(), AllocError>
    requires { IsNoneOf given.number (numbers_of search.old.usable) }
    ensures noted { OnOk result
        ((st : Setting) → StayNoted st search.old.waiting search.new.waiting) }
    ensures within { OnOk result (AllByRecursion IsQueuedWithin search.new.queue.items) }
    ensures state { OnOk result (state_of search.new ≡ gives (setting_of guide.now)
        (state_of search.old) given) }
    ensures on { search.old.tries ≤ search.new.tries }
{
    let number = given.number();
    search.usable.put_in(given.copy()?)?;
    let usable = &search.usable;
    let new = conclusions_of(alloc, &guide.rules, &guide.precedence, usable, &given)?;
    search.waiting.leave_out_one(number);
    search.given = counted(search.given, 1)?;
    search.generated = counted_on(search.generated, new.len() as u64);
    search.queue = queued_all(alloc, new)?;
    Ok(())
}

/// Where the queue is empty: none waits, or as many as are allowed were given, or one is picked.
pub fn give_next(alloc: Global, guide: &Guide<'_>, search: &mut Search) -> Result<(), AllocError>
    requires ordered { IsInOrder (state_of search.old) }
    requires noted { AreNoted (setting_of guide.now) search.old.waiting }
    ensures noted { OnOk result (AreNoted (setting_of guide.now) search.new.waiting) }
    ensures within { search.old.queue.items ≡ []
        → OnOk result (AllByRecursion IsQueuedWithin search.new.queue.items) }
    ensures state { OnOk result (state_of search.new ≡ given_next (setting_of guide.now)
        (state_of search.old)) }
    ensures on { search.old.tries ≤ search.new.tries }
{
    steps_keep_order();
    let Some(pick) = picked(guide, &search.waiting, search.turn) else {
        search.ended = Some(Reason::Spent);
        return Ok(());
    };
    if u64::from(guide.options.max_given) <= search.given {
        search.ended = Some(Reason::GaveAll);
        return Ok(());
    }
    let turn = pick.turn;
    let given = pick.held.copy()?;
    give(alloc, guide, search, given)?;
    search.turn = turn;
    Ok(())
}
