// Inputs that are refused.
ghost use Rattle.std.specs.Prelude.{◌≡◌, IfErr, IfOk, IsErrAnd, OnOk, Ok, false};
ghost use Rattle.ladr_intake.specs.Refusals.{IsToldBy, refusal_text, stop_of_cut, stop_of_error};
ghost use Rattle.ladr_output.specs.Telling.{PieceTells};

use crate::lines::refusal;
use crate::stops::{Refused, Stop};
use ladr_io::Sink;
use ladr_output::piece;
use ladr_problem::ReadError;
use std::alloc::Global;

/// Prints why an input is refused; what cuts the line off stands for it.
pub fn refuse<K: Sink>(alloc: Global, refused: Refused, sink: &mut K) -> Stop
    requires { (K.outflow sink.old).over ≡ false }
    ensures { PieceTells (Stop.Refused refused) stop_of_cut (refusal_text refused)
        (K.outflow sink.old) (K.outflow sink.new) result }
{
    match piece(refusal(alloc, &refused), sink) {
        Ok(()) => Stop::Refused(refused),
        Err(cut) => Stop::from(cut),
    }
}

/// What was read of an input, or the line of why it is refused is printed.
pub fn or_refused<T: Drop, K: Sink>(
    alloc: Global,
    read: Result<T, ReadError>,
    sink: &mut K,
) -> Result<T, Stop>
    requires { (K.outflow sink.old).over ≡ false }
    ensures read { IfOk result (λ x. read ≡ Ok x) }
    ensures kept { OnOk result (K.outflow sink.new ≡ K.outflow sink.old) }
    ensures refused { IfErr result (λ stop. IsErrAnd read (λ error. IsToldBy (stop_of_error error)
        (K.outflow sink.old) (K.outflow sink.new) stop)) }
{
    match read {
        Ok(read) => Ok(read),
        Err(ReadError::Unreadable(place)) => {
            Err(refuse(alloc, Refused::Unreadable(place), sink))
        }
        Err(ReadError::Misuse(place, why)) => {
            Err(refuse(alloc, Refused::Misuse(place, why), sink))
        }
        Err(ReadError::TooLarge { byte, what }) => {
            Err(refuse(alloc, Refused::TooLarge { byte, what }, sink))
        }
        Err(ReadError::Memory) => Err(Stop::Memory),
    }
}
