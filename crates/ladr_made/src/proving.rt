// The search for proofs of a problem, and the check of its output, in memory.
ghost use Rattle.std.specs.Prelude.{◌≡◌, ◌<◌, IfOk};
ghost use Rattle.ladr_made.specs.Proving.{proved_by, unproved, IsAcceptable, IsAcceptedAs, IsToldOf, IsProved};

use crate::parts::Proved;
use accepted_output::outputs_are_accepted;
use ladr_check::{Checked, check_bytes, one_end};
use ladr_intake::Stop;
use ladr_io::{MemClock, MemSink, MemSource};
use ladr_problem::ReadError;
use ladr_prover9::{ProverOver, prove_counted};
use std::alloc::{AllocError, Global};

// What is told of bytes that are refused.
fn unproved() -> Proved
    ensures { result ≡ unproved }
{
    Proved {
        status: 1,
        given: 0,
        kept: 0,
        length: 0,
        level: 0,
        checked: None,
    }
}

// What is told of a search, with what a check answered.
fn proved_by(over: ProverOver, checked: Option<Checked>) -> Proved
    ensures { result ≡ proved_by over checked }
{
    Proved {
        status: over.end.status(),
        given: over.given,
        kept: over.kept,
        length: over.length,
        level: over.level,
        checked,
    }
}

// What a check answers of an output: by the law it isn't refused, and each of its proofs is accepted.
fn answer_of(alloc: Global, text: &[u8]) -> Result<Option<Checked>, AllocError>
    requires { IsAcceptable text.now }
    ensures { IfOk result (IsAcceptedAs text.now) }
{
    one_end();
    match check_bytes(alloc, text) {
        Ok(checked) => Ok(Some(checked)),
        Err(ReadError::Unreadable(_place)) => Ok(None),
        Err(ReadError::Misuse(_place, _why)) => Ok(None),
        Err(
            ReadError::TooLarge {
                byte: _byte,
                what: _what,
            },
        ) => Ok(None),
        Err(ReadError::Memory) => Err(AllocError),
    }
}

// What is told of a search with this output, whose proofs are checked.
fn checked(alloc: Global, over: ProverOver, text: &[u8]) -> Result<Proved, AllocError>
    requires { 0 < over.proofs → IsAcceptable text.now }
    ensures { IfOk result (IsToldOf over text.now) }
{
    if over.proofs == 0 {
        return Ok(proved_by(over, None));
    }
    let answer = answer_of(alloc, text)?;
    Ok(proved_by(over, answer))
}

/// Searches for proofs of what the bytes ask for, and checks those that are found.
pub fn prove(alloc: Global, bytes: Vec<u8>) -> Result<Proved, AllocError>
    ensures { IfOk result (IsProved bytes.items) }
{
    outputs_are_accepted();
    one_end();
    let mut source = MemSource::new(bytes, Vec::new(alloc));
    let mut sink = MemSink::new(alloc, Vec::new(alloc));
    let mut clock = MemClock::new(Vec::new(alloc));
    match prove_counted(alloc, None, &mut source, &mut sink, &mut clock) {
        Ok(over) => checked(alloc, over, sink.bytes()),
        Err(Stop::Refused(_why)) => Ok(unproved()),
        Err(Stop::ReadFault | Stop::WriteFault | Stop::Memory) => Err(AllocError),
    }
}
