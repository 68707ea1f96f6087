// The command as a whole.
ghost use Rattle.std.specs.Prelude.{◌≡◌, ◌⊎◌, ◌<◌, ◌^◌, ℕ, [], Some, Err, IfOk, false, length};
ghost use Rattle.clausify.specs.Input.{first_over};
ghost use Rattle.fol_problem.specs.Stated.{stated_of, IsWellFormed};
ghost use Rattle.ladr_intake.specs.Refusals.{clause_limit_line};
ghost use Rattle.ladr_output.specs.Telling.{Tells, IsEnd};
ghost use Rattle.ladr_prover9.specs.Askings.{quest_of, IsAskedFor, IsSoundQuest};
ghost use Rattle.ladr_prover9.specs.Counting.{uncounted, ProvesCounted, RefutesCounted};
ghost use Rattle.ladr_prover9.specs.Finding.{KeepsLimits, Proving, Refutes};
ghost use Rattle.ladr_prover9.specs.Nothing.{HasNothing};
ghost use Rattle.ladr_prover9.specs.Quests.{IsHad, quest_in, quest_with, quest_seconds};
ghost use Rattle.prover.specs.Provers.{IsNew};

use crate::asking::Asking;
use crate::counting::counted;
use crate::ends::{ProverEnd, ProverOver};
use crate::laws::quests_are_sound;
use crate::lines::closing_lines;
use crate::printing::Extent;
use crate::searching::search_proofs;
use clausify::{ClauseError, clauses_of, own_table};
use fol_core::{Clauses, Entry};
use fol_problem::Problem;
use ladr_formulas::Mode;
use ladr_intake::{Stop, clause_limit, or_refused, take_bytes};
use ladr_io::{Clock, Sink, Source};
use ladr_lex::Ops;
use ladr_output::{Cut, ending, piece};
use ladr_problem::{FileRead, read_problem};
use proof_lines::LineOperators;
use proof_print::frame_text;
use prover::Prover;
use search_clock::seconds_of;
use std::alloc::{AllocError, Global};

// What is asked of a search, with the clauses of the problem.
fn asking_of<'a>(
    alloc: Global,
    input: &'a [u8],
    problem: &'a Problem,
    operators: Ops,
) -> Result<Asking<'a>, ClauseError>
    requires { IsWellFormed (stated_of problem.now) }
    ensures quest { IfOk result (λ a. quest_of a ≡ quest_with input.now problem.now operators) }
    ensures asked { IfOk result IsAskedFor }
    ensures limit { (n : ℕ) → result ≡ Err (ClauseError.ClauseLimit n)
        → first_over 1 (stated_of problem.now).formulas ≡ Some n }
    ensures within { IfOk result (λ a. KeepsLimits (quest_of a)) }
{
    own_table();
    let mut symbols = problem.symbols.copy(alloc)?;
    let Clauses {
        clauses,
        skolem,
        ..
    } = clauses_of(alloc, problem, &mut symbols)?;
    few_entries(&skolem);
    let prolog = problem.options.prolog_style_variables;
    let operators = LineOperators::of(alloc, operators, prolog)?;
    Ok(Asking {
        input,
        problem,
        operators,
        symbols,
        clauses,
    })
}

// There are fewer Skolem symbols than a list can have.
fn few_entries(entries: &[Entry])
    ensures { length entries.now < 2 ^ 63 }
{
    let _many = entries.len();
}

// The prover for what is asked.
fn prover_of<'a>(
    alloc: Global,
    asking: &Asking<'a>,
    seconds: Option<u64>,
) -> Result<Prover<'a>, AllocError>
    requires asked { IsAskedFor asking.now }
    ensures { IfOk result (IsNew (quest_of asking.now).search seconds) }
{
    let problem = asking.problem;
    Prover::new(alloc, problem, &asking.symbols, &asking.clauses, seconds)
}

// Searches for proofs behind the input in its frame, to the last line, with a prover that hasn't searched yet.
fn prove_with<'a, K: Sink, C: Clock>(
    alloc: Global,
    asking: &Asking<'a>,
    seconds: Option<u64>,
    prover: &mut Prover<'a>,
    sink: &mut K,
    clock: &mut C,
) -> Result<ProverOver, Cut>
    requires asked { IsAskedFor asking.now }
    requires sound { IsSoundQuest (quest_of asking.now) }
    requires within { KeepsLimits (quest_of asking.now) }
    requires new { IsNew (quest_of asking.now).search seconds prover.old }
    requires unread { (C.times clock.old).count ≡ 0 }
    requires sink { (K.outflow sink.old).over ≡ false }
    ensures { Tells (Proving (quest_of asking.now) seconds (C.times clock.new))
        (ProvesCounted (quest_of asking.now) seconds (C.times clock.new))
        (K.outflow sink.old) (K.outflow sink.new) result }
{
    piece(frame_text(alloc, asking.input), sink)?;
    let mut first = Extent {
        length: 0,
        level: 0,
    };
    let end = search_proofs(alloc, asking, prover, &mut first, sink, clock)?;
    ending(
        closing_lines(alloc, prover, end),
        counted(prover, first, end),
        sink,
    )
}

// Searches for proofs of what is asked.
fn prove_asked<K: Sink, C: Clock>(
    alloc: Global,
    asking: &Asking<'_>,
    seconds: Option<u64>,
    sink: &mut K,
    clock: &mut C,
) -> Result<ProverOver, Cut>
    requires asked { IsAskedFor asking.now }
    requires sound { IsSoundQuest (quest_of asking.now) }
    requires within { KeepsLimits (quest_of asking.now) }
    requires unread { (C.times clock.old).count ≡ 0 }
    requires sink { (K.outflow sink.old).over ≡ false }
    ensures { Tells (Proving (quest_of asking.now) seconds (C.times clock.new))
        (ProvesCounted (quest_of asking.now) seconds (C.times clock.new))
        (K.outflow sink.old) (K.outflow sink.new) result }
{
    let mut prover = prover_of(alloc, asking, seconds)?;
    let over = prove_with(alloc, asking, seconds, &mut prover, sink, clock);
    prover.close();
    over
}

// A formula has too many clauses.
fn over_limit<K: Sink>(alloc: Global, formula: u64, sink: &mut K) -> Result<ProverOver, Cut>
    requires { (K.outflow sink.old).over ≡ false }
    ensures { Tells (λ u. u ≡ []) (IsEnd (uncounted (ProverEnd.ClauseLimit formula))
        (clause_limit_line formula)) (K.outflow sink.old) (K.outflow sink.new) result }
{
    let over = ProverOver {
        end: ProverEnd::ClauseLimit { formula },
        given: 0,
        kept: 0,
        proofs: 0,
        length: 0,
        level: 0,
    };
    ending(clause_limit(alloc, formula), over, sink)
}

// Searches for proofs of a problem, of which these are the bytes and the operators.
fn prove_problem<K: Sink, C: Clock>(
    alloc: Global,
    input: &[u8],
    problem: &Problem,
    operators: Ops,
    seconds: Option<u64>,
    sink: &mut K,
    clock: &mut C,
) -> Result<ProverOver, Cut>
    requires well_formed { IsWellFormed (stated_of problem.now) }
    requires sound { IsSoundQuest (quest_with input.now problem.now operators) }
    requires unread { (C.times clock.old).count ≡ 0 }
    requires sink { (K.outflow sink.old).over ≡ false }
    ensures { let q = quest_with input.now problem.now operators in
        Tells (Proving q seconds (C.times clock.new)) (ProvesCounted q seconds (C.times clock.new))
        (K.outflow sink.old) (K.outflow sink.new) result }
{
    match asking_of(alloc, input, problem, operators) {
        Ok(asking) => prove_asked(alloc, &asking, seconds, sink, clock),
        Err(ClauseError::ClauseLimit { formula }) => over_limit(alloc, formula, sink),
        Err(ClauseError::Memory) => Err(Cut::Memory),
    }
}

// Searches for proofs of what was read of these bytes.
fn prove<K: Sink, C: Clock>(
    alloc: Global,
    input: &[u8],
    read: FileRead,
    max_seconds: Option<u64>,
    sink: &mut K,
    clock: &mut C,
) -> Result<ProverOver, Cut>
    requires well_formed { IsWellFormed (stated_of read.problem) }
    requires sound { IsSoundQuest (quest_in input.now read) }
    requires unread { (C.times clock.old).count ≡ 0 }
    requires sink { (K.outflow sink.old).over ≡ false }
    ensures { let q = quest_in input.now read in
        Tells (Proving q (quest_seconds max_seconds q) (C.times clock.new))
        (ProvesCounted q (quest_seconds max_seconds q) (C.times clock.new))
        (K.outflow sink.old) (K.outflow sink.new) result }
{
    let FileRead {
        problem,
        operators,
        ..
    } = read;
    let seconds = max_seconds.or(seconds_of(&problem.options));
    prove_problem(alloc, input, &problem, operators, seconds, sink, clock)
}

// There are fewer proofs wanted than the option has values.
fn few_wanted(read: &FileRead)
    ensures { read.now.problem.options.max_proofs < 2 ^ 32 }
{
    let _wanted = read.problem.options.max_proofs;
}

/// Reads the input and searches for proofs of its problem, as the word and its options ask; answers how that ends, with what was
/// counted.
pub fn prove_counted<S: Source, K: Sink, C: Clock>(
    alloc: Global,
    max_seconds: Option<u64>,
    source: &mut S,
    sink: &mut K,
    clock: &mut C,
) -> Result<ProverOver, Stop>
    requires unread { (C.times clock.old).count ≡ 0 }
    requires source { (S.inflow source.old).over ≡ false }
    requires sink { (K.outflow sink.old).over ≡ false }
    ensures { (run : RefutesCounted max_seconds (S.inflow source.old) (S.inflow source.new)
        (K.outflow sink.old) (K.outflow sink.new) (C.times clock.new) result)
        × (IsHad run.bytes ⊎ HasNothing (K.outflow sink.old) (K.outflow sink.new) result) }
{
    quests_are_sound();
    let bytes = take_bytes(alloc, source, sink)?;
    let input = bytes.as_slice();
    let read = or_refused(alloc, read_problem(alloc, Mode::Prover, input), sink)?;
    few_wanted(&read);
    Ok(prove(alloc, input, read, max_seconds, sink, clock)?)
}

/// Reads the input and searches for proofs of its problem, as the word and its options ask.
pub fn prover9<S: Source, K: Sink, C: Clock>(
    alloc: Global,
    max_seconds: Option<u64>,
    source: &mut S,
    sink: &mut K,
    clock: &mut C,
) -> Result<ProverEnd, Stop>
    requires unread { (C.times clock.old).count ≡ 0 }
    requires source { (S.inflow source.old).over ≡ false }
    requires sink { (K.outflow sink.old).over ≡ false }
    ensures { (run : Refutes max_seconds (S.inflow source.old) (S.inflow source.new)
        (K.outflow sink.old) (K.outflow sink.new) (C.times clock.new) result)
        × (IsHad run.bytes ⊎ HasNothing (K.outflow sink.old) (K.outflow sink.new) result) }
{
    let over = prove_counted(alloc, max_seconds, source, sink, clock)?;
    Ok(over.end)
}
