// The command as a whole.
ghost use Rattle.std.specs.Prelude.{◌≡◌, [], false};
ghost use Rattle.ladr_clausetester.specs.Filtering.{Filters, IsFiltered};
ghost use Rattle.ladr_clausetester.specs.Testing.{Tests, IsTested};
ghost use Rattle.ladr_formulas.specs.declared.styles.Mode.TheVariants.{Tester};
ghost use Rattle.ladr_intake.specs.Posed.{interprets, interpreted_by};
ghost use Rattle.ladr_intake.specs.Refusals.{refuses};
ghost use Rattle.ladr_output.specs.Telling.{Tells};

use crate::filter::filter_report;
use crate::report::report;
use ladr_formulas::Mode;
use ladr_intake::{Stop, or_refused, take_bytes};
use ladr_io::{Sink, Source};
use ladr_output::{Cut, ending};
use ladr_problem::{FileRead, read_problem};
use std::alloc::Global;

/// The ends of its own that the command has: each formula is tested in each interpretation, or the interpretations are filtered.
#[derive(Clone, Copy)]
pub enum Tested {
    All,
    Filtered,
}

/// Reads the input and prints the truth of each formula in each interpretation, or why the input states no problem.
pub fn clausetester<S: Source, K: Sink>(
    alloc: Global,
    source: &mut S,
    sink: &mut K,
) -> Result<Tested, Stop>
    requires source { (S.inflow source.old).over ≡ false }
    requires sink { (K.outflow sink.old).over ≡ false }
    ensures { Tests interprets (refuses Tester) (S.inflow source.old) (S.inflow source.new)
        (K.outflow sink.old) (K.outflow sink.new) result }
{
    let bytes = take_bytes(alloc, source, sink)?;
    let read = or_refused(alloc, read_problem(alloc, Mode::Tester, &bytes), sink)?;
    Ok(test(alloc, &read, sink)?)
}

/// Reads the input and prints the interpretations that make each formula true, or why the input states no problem.
pub fn filter_interpretations<S: Source, K: Sink>(
    alloc: Global,
    source: &mut S,
    sink: &mut K,
) -> Result<Tested, Stop>
    requires source { (S.inflow source.old).over ≡ false }
    requires sink { (K.outflow sink.old).over ≡ false }
    ensures { Filters interprets (refuses Tester) (S.inflow source.old) (S.inflow source.new)
        (K.outflow sink.old) (K.outflow sink.new) result }
{
    let bytes = take_bytes(alloc, source, sink)?;
    let read = or_refused(alloc, read_problem(alloc, Mode::Tester, &bytes), sink)?;
    Ok(keep(alloc, &read, sink)?)
}

// Prints the truth of each formula.
fn test<K: Sink>(alloc: Global, read: &FileRead, sink: &mut K) -> Result<Tested, Cut>
    requires { (K.outflow sink.old).over ≡ false }
    ensures { Tells (λ text. text ≡ []) (IsTested (interpreted_by read.now)) (K.outflow sink.old)
        (K.outflow sink.new) result }
{
    let text = report(alloc, &read.problem, &read.interpretations)?;
    ending(Ok(text), Tested::All, sink)
}

// Prints the interpretations that make each formula true.
fn keep<K: Sink>(alloc: Global, read: &FileRead, sink: &mut K) -> Result<Tested, Cut>
    requires { (K.outflow sink.old).over ≡ false }
    ensures { Tells (λ text. text ≡ []) (IsFiltered (interpreted_by read.now)) (K.outflow sink.old)
        (K.outflow sink.new) result }
{
    let text = filter_report(alloc, &read.problem, &read.interpretations)?;
    ending(Ok(text), Tested::Filtered, sink)
}
