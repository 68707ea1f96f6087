// A size begins.
ghost use Rattle.std.specs.Prelude.{◌≡◌, ◌<◌, ℕ, false, IfErr, IfOk, OnOk, MatchOption};
ghost use Rattle.ladr_cells.specs.Worlds.{ground_size};
ghost use Rattle.ladr_mace4.specs.Lines.{size_line};
ghost use Rattle.ladr_mace4.specs.Rooms.{HasRoomForGround, IsCrowded};
ghost use Rattle.ladr_mace4.specs.Story.{Stops, opened};
ghost use Rattle.search_clock.specs.Watching.{IsWatched, IsLookedAt, HasBegun};
ghost use Rattle.ladr_output.specs.Telling.{IsPiece};

use crate::asked::Asked;
use crate::ends::SearchEnd;
use crate::plan::Plan;
use crate::printing::{SearchItem, print_item};
use ladr_io::{Clock, Sink};
use ladr_output::Cut;
use model_tables::MOST_CELLS;
use search_clock::Watch;
use std::alloc::Global;

// As many cells and ground literals as a meg has.
const CELLS_OF_A_MEG: u128 = 65_536;

/// Begins a size: its line, a look at the clock, and whether there is room for its cells and ground literals; answers how the search ends, if it does.
pub fn begin<K: Sink, C: Clock>(
    alloc: Global,
    asked: &Asked,
    plan: Plan,
    n: u32,
    watch: &mut Watch,
    sink: &mut K,
    clock: &mut C,
) -> Result<Option<SearchEnd>, Cut>
    requires seconds { watch.old.seconds ≡ plan.seconds }
    requires watched { IsWatched watch.old (C.times clock.old) }
    requires sink { (K.outflow sink.old).over ≡ false }
    ensures line { IsPiece (size_line n) (K.outflow sink.old) (K.outflow sink.new) result }
    ensures seconds { watch.new.seconds ≡ watch.old.seconds }
    ensures unread { IfErr result (λ _. C.times clock.new ≡ C.times clock.old) }
    ensures looks { OnOk result (IsLookedAt plan.seconds (C.times clock.old) (C.times clock.new)) }
    ensures looked { OnOk result (HasBegun watch.new (C.times clock.new)) }
    ensures room { IfOk result (λ o. MatchOption o (IsWatched watch.new (C.times clock.new)
        × HasRoomForGround plan (ground_size n asked.now)) (λ end. (j : ℕ) → j < plan.wanted
        → Stops asked.now plan (C.times clock.new) n j opened end)) }
{
    print_item(alloc, asked, SearchItem::Begins(n), sink)?;
    if let Some(last) = watch.look(clock) {
        let first = watch.first.unwrap_or(0);
        return Ok(Some(SearchEnd::MaxSeconds { first, last }));
    }
    Ok(crowded(plan, n, asked.ground_count(n)))
}

// Whether the search ends since there are too many cells and ground literals.
fn crowded(plan: Plan, n: u32, many: u128) -> Option<SearchEnd>
    ensures { MatchOption result (HasRoomForGround plan many) (IsCrowded plan n many) }
{
    if many > u128::from(MOST_CELLS) {
        let size = u64::from(n);
        return Some(SearchEnd::GroundLimit { size });
    }
    if many >= u128::from(plan.megs) * CELLS_OF_A_MEG {
        return Some(SearchEnd::MaxMegs);
    }
    None
}
