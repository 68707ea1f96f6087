// What a search for proofs has counted where it ends.
ghost use Rattle.std.specs.Prelude.{◌≡◌};
ghost use Rattle.ladr_prover9.specs.Counting.{Counts, IsFirstProof};
ghost use Rattle.ladr_prover9.specs.Quests.{Quest, quest_lines};
ghost use Rattle.prover.specs.Provers.{state_at};

use crate::ends::{ProverEnd, ProverOver};
use crate::printing::Extent;
use prover::Prover;

/// What a search has counted that came to this end, if its first proof has this extent.
pub fn counted(prover: &Prover<'_>, first: Extent, end: ProverEnd) -> ProverOver
    ensures end { result.end ≡ end }
    ensures counts { (q : Quest) → IsFirstProof (quest_lines q (state_at prover.now))
        (state_at prover.now).proofs first.length first.level
        → Counts q (state_at prover.now) result }
{
    let counters = prover.counters();
    ProverOver {
        end,
        given: counters.given,
        kept: counters.kept,
        proofs: counters.proofs,
        length: first.length,
        level: first.level,
    }
}
