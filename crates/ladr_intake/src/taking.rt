// An input as a whole.
ghost use Rattle.std.specs.Prelude.{◌≡◌, IfErr, IfOk, OnOk, false};
ghost use Rattle.ladr_intake.specs.Input.{IsAllRead};
ghost use Rattle.ladr_intake.specs.Refusals.{IsNoneTaken, refuses_none};

use crate::lines::read_fault;
use crate::refusing::refuse;
use crate::stops::{Refused, Stop};
use ladr_io::{ReadAll, Sink, Source, read_all};
use ladr_lex::MOST_BYTES;
use ladr_output::piece;
use ladr_problem::Limit;
use std::alloc::Global;

/// Reads all of the input, or prints why it can't be had whole.
pub fn take_bytes<S: Source, K: Sink>(
    alloc: Global,
    source: &mut S,
    sink: &mut K,
) -> Result<Vec<u8>, Stop>
    requires source { (S.inflow source.old).over ≡ false }
    requires sink { (K.outflow sink.old).over ≡ false }
    ensures read { IfOk result (λ v.
        IsAllRead (S.inflow source.old) (S.inflow source.new) v.items) }
    ensures kept { OnOk result (K.outflow sink.new ≡ K.outflow sink.old) }
    ensures none { IfErr result (IsNoneTaken refuses_none (S.inflow source.old)
        (S.inflow source.new) (K.outflow sink.old) (K.outflow sink.new)) }
{
    match read_all(alloc, source, MOST_BYTES) {
        Ok(bytes) => Ok(bytes),
        Err(ReadAll::TooLarge) => {
            let refused = Refused::TooLarge {
                byte: MOST_BYTES,
                what: Limit::Input,
            };
            Err(refuse(alloc, refused, sink))
        }
        Err(ReadAll::Failed) => {
            piece(read_fault(alloc), sink)?;
            Err(Stop::ReadFault)
        }
        Err(ReadAll::Memory) => Err(Stop::Memory),
    }
}
