// The models of what an input states.
ghost use Rattle.std.specs.Prelude.{◌≡◌, ◌≤◌, false};
ghost use Rattle.fol_problem.specs.Stated.{stated_of, IsWellFormed};
ghost use Rattle.ladr_cells.specs.Fitting.{FitsTable};
ghost use Rattle.ladr_formulas.specs.declared.styles.Mode.TheVariants.{Mace};
ghost use Rattle.ladr_intake.specs.Posed.{poses};
ghost use Rattle.ladr_intake.specs.Refusals.{refuses};
ghost use Rattle.ladr_mace4.specs.Finding.{Comes, Sought, Seeks, Searches};
ghost use Rattle.ladr_mace4.specs.Plans.{plan_of};
ghost use Rattle.ladr_options.specs.Ranges.{AreInRange, IsSize};
ghost use Rattle.ladr_output.specs.Telling.{Tells};
ghost use Rattle.ladr_words.specs.Tasks.{HasRanges};

use crate::asked::Asked;
use crate::ends::{SearchEnd, SearchOver};
use crate::plan::{Plan, search_plan};
use crate::printing::print_end;
use crate::sizes::search_sizes;
use clausify::ClauseError;
use fol_problem::Problem;
use ladr_cells::problems_fit;
use ladr_formulas::Mode;
use ladr_intake::{Stop, or_refused, take_bytes};
use ladr_io::{Clock, Sink, Source};
use ladr_output::Cut;
use ladr_problem::{problems_grow, read_problem};
use ladr_words::{ModelOptions, Task};
use std::alloc::Global;

// Searches for models of a problem, and answers how that ends.
fn seek<K: Sink, C: Clock>(
    alloc: Global,
    problem: &Problem,
    plan: Plan,
    sink: &mut K,
    clock: &mut C,
) -> Result<SearchOver, Cut>
    requires well_formed { IsWellFormed (stated_of problem.now) }
    requires fits { FitsTable (stated_of problem.now) }
    requires start { 1 ≤ plan.start }
    requires end { plan.end ≤ 200 }
    requires step { IsSize plan.step }
    requires wanted { 1 ≤ plan.wanted }
    requires unread { (C.times clock.old).count ≡ 0 }
    requires sink { (K.outflow sink.old).over ≡ false }
    ensures { Tells (Seeks (stated_of problem.now) plan (C.times clock.new))
        (λ over text. Comes (stated_of problem.now) plan (C.times clock.new) over.end over.printed
        text)
        (K.outflow sink.old) (K.outflow sink.new) result }
{
    match Asked::new(alloc, problem) {
        Ok(asked) => search_sizes(alloc, &asked, plan, sink, clock),
        Err(ClauseError::ClauseLimit { formula }) => Ok(SearchOver {
            end: SearchEnd::ClauseLimit { formula },
            printed: 0,
        }),
        Err(ClauseError::Memory) => Err(Cut::Memory),
    }
}

// Searches for models of a problem, to the last line.
fn find<K: Sink, C: Clock>(
    alloc: Global,
    problem: &Problem,
    words: ModelOptions,
    sink: &mut K,
    clock: &mut C,
) -> Result<SearchEnd, Cut>
    requires well_formed { IsWellFormed (stated_of problem.now) }
    requires fits { FitsTable (stated_of problem.now) }
    requires ranged { AreInRange problem.now.options }
    requires words { HasRanges (Task.Mace4 words) }
    requires unread { (C.times clock.old).count ≡ 0 }
    requires sink { (K.outflow sink.old).over ≡ false }
    ensures { Tells (Seeks (stated_of problem.now) (plan_of words problem.now.options)
        (C.times clock.new)) (Sought (stated_of problem.now) (plan_of words problem.now.options)
        (C.times clock.new)) (K.outflow sink.old) (K.outflow sink.new) result }
{
    let plan = search_plan(words, &problem.options);
    let over = seek(alloc, problem, plan, sink, clock)?;
    print_end(alloc, over, sink)
}

/// Reads the input and searches for its models, as the words and its options ask.
pub fn mace4<S: Source, K: Sink, C: Clock>(
    alloc: Global,
    words: ModelOptions,
    source: &mut S,
    sink: &mut K,
    clock: &mut C,
) -> Result<SearchEnd, Stop>
    requires words { HasRanges (Task.Mace4 words) }
    requires unread { (C.times clock.old).count ≡ 0 }
    requires source { (S.inflow source.old).over ≡ false }
    requires sink { (K.outflow sink.old).over ≡ false }
    ensures { Searches (poses Mace) (refuses Mace) words (S.inflow source.old) (S.inflow source.new)
        (K.outflow sink.old) (K.outflow sink.new) (C.times clock.new) result }
{
    problems_grow();
    problems_fit();
    let bytes = take_bytes(alloc, source, sink)?;
    let read = or_refused(alloc, read_problem(alloc, Mode::Mace, &bytes), sink)?;
    Ok(find(alloc, &read.problem, words, sink, clock)?)
}
