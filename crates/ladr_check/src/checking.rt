// The command as a whole.
ghost use Rattle.std.specs.Prelude.{◌≡◌, [], IfErr, IfOk, false};
ghost use Rattle.clausify.specs.Names.{HasNoSkolemRelation};
ghost use Rattle.fol_problem.specs.Stated.{stated_of, IsWellFormed};
ghost use Rattle.fol_core.specs.SymbolTable.{KeepsNumbers};
ghost use Rattle.ladr_check.specs.Checking.{Checks, IsChecked, IsJudged};
ghost use Rattle.ladr_check.specs.Offered.{offers, offered_by, refuses_proofs};
ghost use Rattle.ladr_output.specs.Telling.{Tells};
ghost use Rattle.proof_text.specs.Refused.{IsProofError};

use crate::checked::Checked;
use crate::ends::CheckEnd;
use crate::judging::judge_proofs;
use crate::report::report;
use clausify::own_table;
use ladr_intake::{Stop, or_refused, take_bytes};
use ladr_io::{Sink, Source};
use ladr_output::{Cut, ending};
use ladr_problem::{ReadError, problems_are_proper, problems_grow};
use proof_text::{ProofRead, read_proof};
use std::alloc::Global;

/// Reads the input and tells whether its proofs are accepted, or why it offers none that can be read.
pub fn check_text<S: Source, K: Sink>(
    alloc: Global,
    source: &mut S,
    sink: &mut K,
) -> Result<CheckEnd, Stop>
    requires source { (S.inflow source.old).over ≡ false }
    requires sink { (K.outflow sink.old).over ≡ false }
    ensures { Checks offers refuses_proofs (S.inflow source.old) (S.inflow source.new)
        (K.outflow sink.old) (K.outflow sink.new) result }
{
    problems_grow();
    problems_are_proper();
    own_table();
    let bytes = take_bytes(alloc, source, sink)?;
    let read = or_refused(alloc, read_proof(alloc, &bytes), sink)?;
    Ok(tell(alloc, read, sink)?)
}

/// Checks the proofs of a text that is held in memory, however long it is: how that ends, or why it offers none.
pub fn check_bytes(alloc: Global, bytes: &[u8]) -> Result<Checked, ReadError>
    ensures end { IfOk result (λ checked. IsJudged bytes.now checked.end) }
    ensures refused { IfErr result (IsProofError bytes.now) }
{
    problems_grow();
    problems_are_proper();
    own_table();
    let read = read_proof(alloc, bytes)?;
    match judge_proofs(alloc, read) {
        Ok(over) => Ok(Checked { end: over.end }),
        Err(_) => Err(ReadError::Memory),
    }
}

// Checks what was read, and tells how that ends.
fn tell<K: Sink>(alloc: Global, read: ProofRead, sink: &mut K) -> Result<CheckEnd, Cut>
    requires well_formed { IsWellFormed (stated_of read.problem) }
    requires table { KeepsNumbers read.problem.symbols read.symbols }
    requires no_relation { HasNoSkolemRelation read.problem.symbols read.symbols }
    requires sink { (K.outflow sink.old).over ≡ false }
    ensures { Tells (λ text. text ≡ []) (IsChecked (offered_by read)) (K.outflow sink.old)
        (K.outflow sink.new) result }
{
    let over = judge_proofs(alloc, read)?;
    ending(report(alloc, over), over.end, sink)
}
