// Why a run ended.
ghost use Rattle.std.specs.Prelude.{◌≡◌};
ghost use Rattle.ladr_top.specs.Causes.{cause_of, status_of};

pub use ladr_check::CheckEnd;
pub use ladr_clausetester::Tested;
use ladr_intake::Stop;
pub use ladr_intake::{Limit, Place, Refused};
pub use ladr_mace4::SearchEnd;
pub use ladr_prover9::ProverEnd;

/// Why a run ended: the words are no command, the input is refused, a read or a write failed, memory was lacking, or a command came to an
/// end of its own.
#[derive(Drop)]
pub enum Cause {
    Words,
    Refused(Refused),
    ReadFault,
    WriteFault,
    Memory,
    Check(CheckEnd),
    Clausetester(Tested),
    Mace4(SearchEnd),
    Made,
    Prover9(ProverEnd),
}

/// The exit status of a run, and why it ended.
#[derive(Drop)]
pub struct Exit {
    pub status: u8,
    pub cause: Cause,
}

impl From<Stop> for Cause {
    ghost from_gives = { λ stop cause. cause ≡ cause_of stop };

    fn from(stop: Stop) -> Cause {
        match stop {
            Stop::Refused(refused) => Cause::Refused(refused),
            Stop::ReadFault => Cause::ReadFault,
            Stop::WriteFault => Cause::WriteFault,
            Stop::Memory => Cause::Memory,
        }
    }
}

/// The exit status of a cause.
pub fn status(cause: &Cause) -> u8
    ensures { result ≡ status_of cause.now }
{
    match cause {
        Cause::Words => 9,
        Cause::Refused(_) => 1,
        Cause::ReadFault => 10,
        Cause::WriteFault => 11,
        Cause::Memory => 12,
        Cause::Check(end) => end.status(),
        Cause::Clausetester(_) => 0,
        Cause::Mace4(end) => end.status(),
        Cause::Made => 0,
        Cause::Prover9(end) => end.status(),
    }
}
