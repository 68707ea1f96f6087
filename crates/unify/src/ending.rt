// Terms made the same, or nothing done.
ghost use Rattle.unify.specs.Endings.{CanBegin, EndsAs};

use crate::spot::{Spot, Workspace};
use crate::uniting::unite;
use term_bank::Bank;

/// Makes two terms the same where that goes, and leaves the bindings as they were where not.
pub fn unite_or_undo(bank: &Bank, work: &mut Workspace, s: Spot, t: Spot) -> bool
    requires { CanBegin bank.now work.old s t }
    ensures { EndsAs bank.now work.old work.new s t result }
{
    work.links.clear();
    let mark = work.bound.len();
    if unite(bank, work, s, t) {
        return true;
    }
    work.bound.truncate(mark);
    false
}
