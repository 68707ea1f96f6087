// Clauses of one literal at most.
ghost use Rattle.std.specs.Prelude.{◌≡◌};
ghost use Rattle.clause_index.specs.Entries.{is_short, is_short_of};

use fol_core::Clause;
use held_clauses::Held;

/// Whether a clause has one literal at most.
pub fn is_short(clause: &Clause) -> bool
    ensures { result ≡ is_short clause.now }
{
    clause.len() <= 1
}

/// Whether a clause has no literal, or one with this sign and no other.
pub fn is_short_of(sign: bool, held: &Held) -> bool
    ensures { result ≡ is_short_of sign held.now }
{
    match held.clause().as_slice() {
        [] => true,
        [one] => one.positive == sign,
        _ => false,
    }
}
