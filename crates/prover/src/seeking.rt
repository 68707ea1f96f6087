// The search for the next answer.
ghost use Rattle.std.specs.Prelude.{◌≡◌, ◌≤◌, ◌+◌, ℕ, [], None, Ok, OnOk, IsTrue, ◌↔◌, MatchOption};
ghost use Rattle.given_clause.specs.Guides.{setting_of};
ghost use Rattle.given_clause.specs.Noted.{AreNoted};
ghost use Rattle.given_clause.specs.States.{state_of};
ghost use Rattle.prover.specs.Answers.{IsAtGiving, IsOver, Rings, RunsTo, readings_first};
ghost use Rattle.prover_steps.specs.HeldOrder.{IsInOrder};
ghost use Rattle.search_clock.specs.Watching.{HasBegun, HasRead, IsWatched};

use crate::answer::{ProverAnswer, answer_for};
use crate::processing::drain;
use given_clause::{Guide, Search, step};
use ladr_io::Clock;
use prover_steps::{ends_have_reasons, searches_end, searches_stay_in_order};
use search_clock::Watch;
use std::alloc::{AllocError, Global};

/// A clock that was not read yet is read, where a time is set.
pub fn begin<C: Clock>(watch: &mut Watch, clock: &mut C)
    requires watched { IsWatched watch.old (C.times clock.old) }
    ensures seconds { watch.new.seconds ≡ watch.old.seconds }
    ensures watched { IsWatched watch.new (C.times clock.new) }
    ensures begun { HasBegun watch.new (C.times clock.new) }
    ensures reads { (n : ℕ) → HasRead watch.old.seconds n (C.times clock.old)
        → HasRead watch.old.seconds (n + readings_first watch.old) (C.times clock.new) }
{
    if watch.first.is_none() {
        let _first = watch.look(clock);
    }
}

/// Whether a clause is to be given next.
pub fn is_at_giving(guide: &Guide<'_>, search: &Search) -> bool
    ensures { IsTrue result ↔ IsAtGiving (setting_of guide.now) (state_of search.now) }
{
    search.ended.is_none()
        && search.queue.is_empty()
        && !search.waiting.is_empty()
        && search.given < u64::from(guide.options.max_given)
}

// Reads the clock where a clause is to be given next, and answers that the time is over where it is.
fn ring<C: Clock>(
    guide: &Guide<'_>,
    search: &Search,
    watch: &mut Watch,
    clock: &mut C,
) -> Option<ProverAnswer>
    requires watched { IsWatched watch.old (C.times clock.old) }
    requires begun { HasBegun watch.old (C.times clock.old) }
    ensures seconds { watch.new.seconds ≡ watch.old.seconds }
    ensures begun { HasBegun watch.new (C.times clock.new) }
    ensures rings { Rings (setting_of guide.now) watch.old.seconds (state_of search.now)
        (C.times clock.old) (C.times clock.new) }
    ensures late { MatchOption result (IsWatched watch.new (C.times clock.new))
        (IsOver (setting_of guide.now) watch.old.seconds (state_of search.now)
        (C.times clock.new)) }
{
    if !is_at_giving(guide, search) {
        return None;
    }
    let last = watch.look(clock)?;
    let first = watch.first.unwrap_or(0);
    Some(ProverAnswer::MaxSeconds { first, last })
}

/// Goes on to the next proof or to the end.
pub fn seek<C: Clock>(
    alloc: Global,
    guide: &Guide<'_>,
    search: &mut Search,
    watch: &mut Watch,
    clock: &mut C,
) -> Result<ProverAnswer, AllocError>
    requires ordered { IsInOrder (state_of search.old) }
    requires noted { AreNoted (setting_of guide.now) search.old.waiting }
    requires watched { IsWatched watch.old (C.times clock.old) }
    requires begun { HasBegun watch.old (C.times clock.old) }
    ensures seconds { watch.new.seconds ≡ watch.old.seconds }
    ensures noted { OnOk result (AreNoted (setting_of guide.now) search.new.waiting) }
    ensures begun { HasBegun watch.new (C.times clock.new) }
    ensures watched { (n : ℕ) → result ≡ Ok (ProverAnswer.Proof n)
        → IsWatched watch.new (C.times clock.new) }
    ensures runs { RunsTo (setting_of guide.now) watch.old.seconds 0 (state_of search.old)
        (state_of search.new) (C.times clock.old) (C.times clock.new) result }
    ensures on { search.old.tries ≤ search.new.tries }
{
    searches_end();
    searches_stay_in_order();
    ends_have_reasons();
    loop {
        match drain(alloc, guide, search) {
            Ok(None) => {}
            Ok(Some(line)) => return Ok(ProverAnswer::Proof(line)),
            Err(error) => return Err(error),
        }
        if let Some(reason) = search.ended {
            return Ok(answer_for(reason));
        }
        if let Some(over) = ring(guide, search, watch, clock) {
            return Ok(over);
        }
        match step(alloc, guide, search) {
            Ok(()) => {}
            Err(error) => return Err(error),
        }
    }
}
