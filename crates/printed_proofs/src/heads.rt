// The head of a printed proof.
ghost use Rattle.printed_proofs.specs.Printed.{IsShortHead};

use crate::words::number_is_short;
use proof_print::Heads;

/// The five numbers of a head are below 2 ^ 64.
pub fn heads_are_short(heads: Heads)
    ensures { IsShortHead heads }
{
    number_is_short(heads.proof);
    number_is_short(heads.length);
    number_is_short(heads.level);
    number_is_short(heads.weight);
    number_is_short(heads.given);
}
