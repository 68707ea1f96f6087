// The models of one size, printed as they are found.
ghost use Rattle.std.specs.Prelude.{◌≡◌, ◌<◌, ◌≤◌, ℕ, ◌++◌, ◌+◌, false, Ok, IfOk};
ghost use Rattle.cell_search.specs.Finites.{tables_over};
ghost use Rattle.ladr_cells.specs.Worlds.{ground_size};
ghost use Rattle.ladr_mace4.specs.Lines.{size_line, exhausted_line};
ghost use Rattle.ladr_mace4.specs.Rooms.{HasRoomForGround, IsBegun};
ghost use Rattle.ladr_mace4.specs.ItemTexts.{IsPrinted};
ghost use Rattle.ladr_mace4.specs.Skolems.{all_symbols};
ghost use Rattle.ladr_mace4.specs.Story.{SizeGoes, SizeEnds};
ghost use Rattle.search_clock.specs.Watching.{IsWatched, HasBegun, HasRead};
ghost use Rattle.ladr_output.specs.Telling.{IsPiece, Tells};
ghost use Rattle.model_tables.specs.ModelText.{model_text};

use crate::asked::Asked;
use crate::ends::{SearchEnd, Step};
use crate::laws::leaves_are_models;
use crate::plan::Plan;
use crate::printing::{SearchItem, print_item};
use cell_search::CellSearch;
use ladr_io::{Clock, Sink};
use ladr_output::Cut;
use mace_search::SearchAnswer;
use search_clock::Watch;
use std::alloc::Global;

/// Prints the models of a size, behind its line and k models before them, in the order in which they
/// are found, and that it is exhausted, unless the search ends by then.
pub fn models<K: Sink, C: Clock>(
    alloc: Global,
    asked: &Asked,
    plan: Plan,
    n: u32,
    k: u64,
    watch: Watch,
    sink: &mut K,
    clock: &mut C,
) -> Result<Step, Cut>
    requires size { 1 ≤ n }
    requires most { n ≤ 200 }
    requires begun { IsBegun asked.now plan n }
    requires room { HasRoomForGround plan (ground_size n asked.now) }
    requires fewer { k < plan.wanted }
    requires seconds { watch.seconds ≡ plan.seconds }
    requires watched { IsWatched watch (C.times clock.old) }
    requires looked { HasBegun watch (C.times clock.old) }
    requires sink { (K.outflow sink.old).over ≡ false }
    ensures tells { (r : ℕ) → HasRead plan.seconds (r + 1) (C.times clock.old)
        → Tells (λ text. SizeGoes asked.now plan (C.times clock.new) n k r (size_line n
        ++ text)) (λ end text. SizeEnds asked.now plan (C.times clock.new) n k r end (size_line n
        ++ text)) (K.outflow sink.old) (K.outflow sink.new) result }
    ensures watched { (j : ℕ) → result ≡ Ok (Step.Over j) → IsWatched watch (C.times clock.new) }
{
    asked.is_proper();
    leaves_are_models();
    let mut search = asked.search(alloc, n, plan.way, watch.stop())?;
    let mut printed = k;
    while printed < plan.wanted {
        match search.next_model(clock) {
            SearchAnswer::Exhausted => return exhausted(alloc, asked, n, printed, sink),
            SearchAnswer::MaxSeconds(last) => {
                let first = watch.first.unwrap_or(0);
                return Ok(Step::Ends(SearchEnd::MaxSeconds { first, last }, printed));
            }
            SearchAnswer::Model => {}
        }
        printed += 1;
        show(alloc, asked, &search, printed, sink)?;
    }
    Ok(Step::Ends(SearchEnd::MaxModels, printed))
}

// Prints the model that a search found, by its number.
fn show<K: Sink>(
    alloc: Global,
    asked: &Asked,
    search: &CellSearch,
    number: u64,
    sink: &mut K,
) -> Result<(), Cut>
    requires { (K.outflow sink.old).over ≡ false }
    ensures { IsPrinted (λ text. text ≡ model_text (all_symbols asked.now) number
        (tables_over (all_symbols asked.now) search.now.tables)) (K.outflow sink.old)
        (K.outflow sink.new) result }
{
    let tables = asked.tables(alloc, search)?;
    print_item(alloc, asked, SearchItem::Shows(&tables, number), sink)
}

// Prints that a size is exhausted, so many models being printed by then.
fn exhausted<K: Sink>(
    alloc: Global,
    asked: &Asked,
    n: u32,
    printed: u64,
    sink: &mut K,
) -> Result<Step, Cut>
    requires { (K.outflow sink.old).over ≡ false }
    ensures piece { IsPiece (exhausted_line n) (K.outflow sink.old) (K.outflow sink.new) result }
    ensures step { IfOk result (λ step. step ≡ Step.Over printed) }
{
    print_item(alloc, asked, SearchItem::Exhausts(n), sink)?;
    Ok(Step::Over(printed))
}
