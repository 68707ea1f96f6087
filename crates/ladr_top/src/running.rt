// The one call of the program.
ghost use Rattle.std.specs.Prelude.{◌≡◌, ◌≢◌, ℕ, Option, true, false, None, Some, map};
ghost use Rattle.std.specs.String.{string_bytes};
ghost use Rattle.ladr_check.specs.Shown.{ShowsProofs};
ghost use Rattle.ladr_top.specs.Assumed.{NamesAreAssumed};
ghost use Rattle.ladr_top.specs.Causes.{status_of};
ghost use Rattle.ladr_top.specs.Ended.{RunsTask, TestsOrFilters, cause_in};
ghost use Rattle.ladr_top.specs.Limits.{AreLimits};
ghost use Rattle.ladr_top.specs.Runs.{ReadNothing, RefusesWords, RunsCheck, RunsClausetester, RunsFilter, RunsMace4, RunsMade, RunsProver9, ShowsMace4, ShowsProver9, ChecksProver9, ChecksSoFar};
ghost use Rattle.ladr_words.specs.Tasks.{HasRanges, task_of};
ghost use Rattle.ladr_words.specs.declared.task.ModelOptions.{ModelOptions};
ghost use Rattle.ladr_words.specs.declared.task.Task.TheVariants.{Check, Clausetester, Mace4, Made, Prover9};

use crate::cause::{Cause, Exit, status};
use crate::limits::limits_are_told;
use crate::lines::no_command;
use crate::names::names_are_assumed;
use accepted_output::outputs_are_accepted;
use fol_core::Interpretation;
use ladr_check::{check_text, checks_show};
use ladr_clausetester::{Tested, clausetester, filter_interpretations, filters_read_back};
use ladr_intake::Stop;
use ladr_io::{Clock, Sink, Source};
use ladr_mace4::{mace4, searches_show};
use ladr_made::made;
use ladr_output::piece;
use ladr_prover9::{proofs_show, prover9};
use ladr_words::{Task, WordsError, task_of};
use std::alloc::Global;

/// All that the program does: reads the source, if the words are a command, and prints to the sink. `any` is any
/// interpretation: no clause speaks of it alone, since they speak of every lawful one. The streams are open, and nothing read the clock before.
pub fn run<I: Interpretation, S: Source, K: Sink, C: Clock>(
    alloc: Global,
    words: &[String],
    any: &I,
    source: &mut S,
    sink: &mut K,
    clock: &mut C,
) -> Exit
    requires unread { (C.times clock.old).count ≡ 0 }
    requires source { (S.inflow source.old).over ≡ false }
    requires sink { (K.outflow sink.old).over ≡ false }
    ensures status { result.status ≡ status_of result.cause }

    // The limits that the other clauses name, by their numbers.
    ensures limits { AreLimits }

    // An item of names that is taken adds an assumption that holds exactly where the values of the names differ pairwise.
    ensures distinct { NamesAreAssumed }

    // Words that are no command are refused, and nothing is read; nor is it for a generated problem.
    ensures words { task_of (map string_bytes words.now) ≡ None
        → RefusesWords (K.outflow sink.old) (K.outflow sink.new) result.cause }
    ensures untouched { ReadNothing (task_of (map string_bytes words.now))
        → source.new ≡ source.old }

    // The proofs of the input are checked.
    ensures check { task_of (map string_bytes words.now) ≡ Some Check
        → RunsCheck (S.inflow source.old) (S.inflow source.new) (K.outflow sink.old)
        (K.outflow sink.new) result.cause }

    // Where the line of an accepted proof stands in what was written, that proof of the input is a refutation of its problem, and no
    // interpretation, finite or infinite, whose Skolem symbols pick witnesses makes each assumption true and each goal false; where the
    // line stands that all are accepted, there is one at least, and each is a refutation. So it is whatever became of the run.
    ensures proofs { task_of (map string_bytes words.now) ≡ Some Check
        → ShowsProofs (S.inflow source.old) (S.inflow source.new) (K.outflow sink.old)
        (K.outflow sink.new) }

    // The formulas of the input are tested in each of its interpretations.
    ensures clausetester { task_of (map string_bytes words.now) ≡ Some (Clausetester false)
        → RunsClausetester (S.inflow source.old) (S.inflow source.new) (K.outflow sink.old)
        (K.outflow sink.new) result.cause }

    // Just those interpretations of the input are written, in their order and as they were read, in which the closure of each formula is
    // true.
    ensures filter { task_of (map string_bytes words.now) ≡ Some (Clausetester true)
        → RunsFilter (S.inflow source.old) (S.inflow source.new) (K.outflow sink.old)
        (K.outflow sink.new) result.cause }

    // Models of what the input states are searched for: of each size that is searched the leaves of the plain search are printed, in their
    // order, till as many as are wanted stand there. So where no time is set, bytes and words tell the whole output.
    ensures mace4 { (o : ModelOptions) → task_of (map string_bytes words.now) ≡ Some (Mace4 o)
        → RunsMace4 o (S.inflow source.old) (S.inflow source.new) (K.outflow sink.old)
        (K.outflow sink.new) (C.times clock.new) result.cause }

    // Where the text of a model stands in what was written, it makes each assumption of the input true and each goal false, and reads
    // back as it is; where the line of an exhausted size stands, each model of it stands before, its elements renamed. So it is whatever
    // became of the run; and where the input was read whole, what was written is a front of a whole output.
    ensures models { (o : ModelOptions) → task_of (map string_bytes words.now) ≡ Some (Mace4 o)
        → ShowsMace4 o (S.inflow source.old) (S.inflow source.new) (K.outflow sink.old)
        (K.outflow sink.new) }

    // A problem is generated, with so many steps. Its summary tells what became of a search for its proofs, each of which a check
    // accepts, and of a search for a model of it without its goal.
    ensures made { (n : ℕ) → task_of (map string_bytes words.now) ≡ Some (Made n)
        → RunsMade n (K.outflow sink.old) (K.outflow sink.new) result.cause }

    // Proofs of what the input states are searched for.
    ensures prover9 { (t : Option ℕ) → task_of (map string_bytes words.now) ≡ Some (Prover9 t)
        → RunsProver9 t (S.inflow source.old) (S.inflow source.new) (K.outflow sink.old)
        (K.outflow sink.new) (C.times clock.new) result.cause }

    // Where the banner of a proof stands in what was written, the text of a refutation of the input's problem stands there, cut off only
    // where the output is, and no interpretation, finite or infinite, whose Skolem symbols pick witnesses makes each assumption true and
    // each goal false; where the line stands that it is proved, such a text stands before it. So it is whatever became of the run.
    ensures refutations { (t : Option ℕ) → task_of (map string_bytes words.now) ≡ Some (Prover9 t)
        → ShowsProver9 (S.inflow source.old) (S.inflow source.new) (K.outflow sink.old)
        (K.outflow sink.new) }

    // Where the run came to an end of its own and this line stands, all that was written is a text of proofs as `check` reads them: it is
    // read as the input's problem with these proofs and as nothing else, and a check of it accepts each.
    ensures accepted { (t : Option ℕ) → task_of (map string_bytes words.now) ≡ Some (Prover9 t)
        → ChecksProver9 (S.inflow source.old) (S.inflow source.new) (K.outflow sink.old)
        (K.outflow sink.new) result.cause }

    // So it is of what was written where memory was lacking, if a proof stands in it.
    ensures accepted_so_far { (t : Option ℕ) → task_of (map string_bytes words.now) ≡ Some (Prover9 t)
        → ChecksSoFar (S.inflow source.old) (S.inflow source.new) (K.outflow sink.old)
        (K.outflow sink.new) result.cause }

    // The clock isn't asked but for a search.
    ensures clock { ((o : ModelOptions) → task_of (map string_bytes words.now) ≢ Some (Mace4 o))
        → ((t : Option ℕ) → task_of (map string_bytes words.now) ≢ Some (Prover9 t))
        → C.times clock.new ≡ C.times clock.old }
{
    checks_show();
    searches_show();
    proofs_show();
    outputs_are_accepted();
    filters_read_back();
    limits_are_told();
    names_are_assumed();
    match task_of(alloc, words) {
        Ok(task) => exit(ended(alloc, task, source, sink, clock)),
        Err(WordsError::NoCommand) => exit(refuse(alloc, sink)),
        Err(WordsError::Memory) => exit(Err(Stop::Memory)),
    }
}

// How a task ends, or why it comes to no end of its own.
fn ended<S: Source, K: Sink, C: Clock>(
    alloc: Global,
    task: Task,
    source: &mut S,
    sink: &mut K,
    clock: &mut C,
) -> Result<Cause, Stop>
    requires ranges { HasRanges task }
    requires unread { (C.times clock.old).count ≡ 0 }
    requires source { (S.inflow source.old).over ≡ false }
    requires sink { (K.outflow sink.old).over ≡ false }
    ensures runs { RunsTask task (S.inflow source.old) (S.inflow source.new) (K.outflow sink.old)
        (K.outflow sink.new) (C.times clock.new) (cause_in result) }
    ensures untouched { (n : ℕ) → task ≡ Made n → source.new ≡ source.old }
    ensures clock { ((o : ModelOptions) → task ≢ Mace4 o)
        → ((t : Option ℕ) → task ≢ Prover9 t) → C.times clock.new ≡ C.times clock.old }
{
    match task {
        Task::Check => Ok(Cause::Check(check_text(alloc, source, sink)?)),
        Task::Clausetester { filter } => {
            Ok(Cause::Clausetester(test(alloc, filter, source, sink)?))
        }
        Task::Mace4 { options } => Ok(Cause::Mace4(mace4(alloc, options, source, sink, clock)?)),
        Task::Made { size } => {
            made(alloc, size, sink)?;
            Ok(Cause::Made)
        }
        Task::Prover9 { max_seconds } => {
            let end = prover9(alloc, max_seconds, source, sink, clock)?;
            Ok(Cause::Prover9(end))
        }
    }
}

// Tests the formulas of the input, or filters its interpretations.
fn test<S: Source, K: Sink>(
    alloc: Global,
    filter: bool,
    source: &mut S,
    sink: &mut K,
) -> Result<Tested, Stop>
    requires source { (S.inflow source.old).over ≡ false }
    requires sink { (K.outflow sink.old).over ≡ false }
    ensures { TestsOrFilters filter (S.inflow source.old) (S.inflow source.new)
        (K.outflow sink.old) (K.outflow sink.new) result }
{
    if filter {
        filter_interpretations(alloc, source, sink)
    } else {
        clausetester(alloc, source, sink)
    }
}

// Prints the line for words that are no command.
fn refuse<K: Sink>(alloc: Global, sink: &mut K) -> Result<Cause, Stop>
    requires { (K.outflow sink.old).over ≡ false }
    ensures { RefusesWords (K.outflow sink.old) (K.outflow sink.new) (cause_in result) }
{
    piece(no_command(alloc), sink)?;
    Ok(Cause::Words)
}

fn cause_in(ended: Result<Cause, Stop>) -> Cause
    ensures { result ≡ cause_in ended }
{
    match ended {
        Ok(cause) => cause,
        Err(stop) => Cause::from(stop),
    }
}

// The exit of a run that ended so.
fn exit(ended: Result<Cause, Stop>) -> Exit
    ensures status { result.status ≡ status_of result.cause }
    ensures cause { result.cause ≡ cause_in ended }
{
    let cause = cause_in(ended);
    Exit {
        status: status(&cause),
        cause,
    }
}
