// One size.
ghost use Rattle.std.specs.Prelude.{◌≡◌, ◌<◌, ◌≤◌, ℕ, false, IfOk, Ok};
ghost use Rattle.fol_core.specs.Occurs.{size_needed};
ghost use Rattle.ladr_mace4.specs.Lines.{skipped_line};
ghost use Rattle.ladr_mace4.specs.Story.{SizeGoes, SizeEnds};
ghost use Rattle.search_clock.specs.Watching.{IsWatched, HasRead};
ghost use Rattle.ladr_output.specs.Telling.{IsPiece, Tells};
ghost use Rattle.model_tables.specs.Size.{formulas_of};

use crate::asked::Asked;
use crate::begin::begin;
use crate::ends::Step;
use crate::models::models;
use crate::plan::Plan;
use crate::printing::{SearchItem, print_item};
use ladr_io::{Clock, Sink};
use ladr_output::Cut;
use search_clock::Watch;
use std::alloc::Global;

/// Skips a size that lacks an element which the formulas name, or prints its models behind k
/// others.
pub fn one_size<K: Sink, C: Clock>(
    alloc: Global,
    asked: &Asked,
    plan: Plan,
    needed: u64,
    n: u32,
    k: u64,
    watch: &mut Watch,
    sink: &mut K,
    clock: &mut C,
) -> Result<Step, Cut>
    requires size { 1 ≤ n }
    requires end { n ≤ plan.end }
    requires most { n ≤ 200 }
    requires needed { needed ≡ size_needed (formulas_of asked.now) }
    requires fewer { k < plan.wanted }
    requires seconds { watch.old.seconds ≡ plan.seconds }
    requires watched { IsWatched watch.old (C.times clock.old) }
    requires sink { (K.outflow sink.old).over ≡ false }
    ensures tells { (r : ℕ) → HasRead plan.seconds r (C.times clock.old)
        → Tells (SizeGoes asked.now plan (C.times clock.new) n k r)
        (SizeEnds asked.now plan (C.times clock.new) n k r) (K.outflow sink.old)
        (K.outflow sink.new) result }
    ensures seconds { watch.new.seconds ≡ watch.old.seconds }
    ensures watched { (j : ℕ) → result ≡ Ok (Step.Over j)
        → IsWatched watch.new (C.times clock.new) }
{
    if u64::from(n) < needed {
        return skipped(alloc, asked, n, k, sink);
    }
    match begin(alloc, asked, plan, n, watch, sink, clock)? {
        None => models(alloc, asked, plan, n, k, *watch, sink, clock),
        Some(end) => Ok(Step::Ends(end, k)),
    }
}

// Prints that a size is skipped, so many models being printed by then.
fn skipped<K: Sink>(
    alloc: Global,
    asked: &Asked,
    n: u32,
    printed: u64,
    sink: &mut K,
) -> Result<Step, Cut>
    requires { (K.outflow sink.old).over ≡ false }
    ensures piece { IsPiece (skipped_line n) (K.outflow sink.old) (K.outflow sink.new) result }
    ensures step { IfOk result (λ step. step ≡ Step.Over printed) }
{
    print_item(alloc, asked, SearchItem::Skips(n), sink)?;
    Ok(Step::Over(printed))
}
