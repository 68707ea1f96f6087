// The search for models through the sizes.
ghost use Rattle.std.specs.Prelude.{◌≡◌, ◌≤◌, ℕ, false, IfOk};
ghost use Rattle.ladr_mace4.specs.Story.{SearchGoes, SearchComes, AllIsSearched};
ghost use Rattle.ladr_options.specs.Ranges.{IsSize};
ghost use Rattle.ladr_output.specs.Telling.{Tells};

use crate::asked::Asked;
use crate::ends::{SearchEnd, SearchOver, Step};
use crate::one_size::one_size;
use crate::plan::Plan;
use ladr_io::{Clock, Sink};
use ladr_output::Cut;
use model_tables::size_needed;
use search_clock::Watch;
use std::alloc::Global;

/// Searches the sizes from the first to the last, step by step, for models, and prints how each one
/// goes, till as many as are wanted are found; answers how the search ends.
pub fn search_sizes<K: Sink, C: Clock>(
    alloc: Global,
    asked: &Asked,
    plan: Plan,
    sink: &mut K,
    clock: &mut C,
) -> Result<SearchOver, Cut>
    requires start { 1 ≤ plan.start }
    requires end { plan.end ≤ 200 }
    requires step { IsSize plan.step }
    requires wanted { 1 ≤ plan.wanted }
    requires unread { (C.times clock.old).count ≡ 0 }
    requires sink { (K.outflow sink.old).over ≡ false }
    ensures { Tells (SearchGoes asked.now plan (C.times clock.new))
        (λ over text. SearchComes asked.now plan (C.times clock.new) over.end over.printed text)
        (K.outflow sink.old) (K.outflow sink.new) result }
{
    let needed = size_needed(asked.problem);
    let mut watch = Watch {
        seconds: plan.seconds,
        first: None,
    };
    let mut printed = 0;
    let mut n = plan.start;
    while n <= plan.end {
        let step = one_size(
            alloc, asked, plan, needed, n, printed, &mut watch, sink, clock,
        )?;
        match step {
            Step::Over(now) => printed = now,
            Step::Ends(end, printed) => return Ok(SearchOver { end, printed }),
        }
        n += plan.step;
    }
    Ok(SearchOver {
        end: all_searched(printed),
        printed,
    })
}

// How a search ends that all sizes are behind.
fn all_searched(printed: u64) -> SearchEnd
    ensures { AllIsSearched printed result }
{
    if printed == 0 {
        SearchEnd::Exhausted
    } else {
        SearchEnd::AllModels
    }
}
