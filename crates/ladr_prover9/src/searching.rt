// The proofs of a search, one after the other.
ghost use Rattle.std.specs.Prelude.{◌≡◌, ◌++◌, ◌∷◌, [], ◌+◌, ◌<◌, ◌^◌, suc, false, length, List, ℕ, IfOk, OnOk};
ghost use Rattle.ladr_output.specs.Telling.{Tells};
ghost use Rattle.ladr_prover9.specs.Askings.{quest_of, end_for, HasProof, IsAskedFor, IsSoundQuest};
ghost use Rattle.ladr_prover9.specs.Counting.{IsFirstProof};
ghost use Rattle.ladr_prover9.specs.ProofTexts.{IsProofText, IsStateText};
ghost use Rattle.ladr_prover9.specs.Quests.{quest_lines};
ghost use Rattle.ladr_prover9.specs.Story.{ProofsGo, ProofsCome};
ghost use Rattle.prover.specs.Provers.{state_at, watch_of, IsNew};
ghost use Rattle.prover_setup.specs.SearchInputs.{start_in};
ghost use Rattle.prover_steps.specs.LineNumbers.{CountsLinesFrom};
ghost use Rattle.prover_steps.specs.Searching.{FoundProof};

use crate::asking::Asking;
use crate::ends::ProverEnd;
use crate::printing::{Extent, printed_proof};
use clause_store::ancestors_are_one;
use ladr_io::{Clock, Sink};
use ladr_output::{Cut, piece};
use prover::{Prover, ProverAnswer};
use prover_steps::{ends_have_reasons, lines_are_counted, searches_are_sound, searches_start_well};
use std::alloc::{AllocError, Global};

// How a search ends by this answer; behind a proof it goes on.
fn end_for(answer: ProverAnswer) -> Option<ProverEnd>
    ensures { result ≡ end_for answer }
{
    match answer {
        ProverAnswer::Proof(_) => None,
        ProverAnswer::Proofs => Some(ProverEnd::MaxProofs),
        ProverAnswer::SosEmpty => Some(ProverEnd::SosEmpty),
        ProverAnswer::MaxGiven => Some(ProverEnd::MaxGiven),
        ProverAnswer::MaxKept => Some(ProverEnd::MaxKept),
        ProverAnswer::MaxMegs => Some(ProverEnd::MaxMegs),
        ProverAnswer::MaxSeconds { first, last } => Some(ProverEnd::MaxSeconds { first, last }),
    }
}

// The extent of a proof by its number is noted where it is the first one.
fn note_first(first: &mut Extent, number: usize, extent: Extent)
    ensures one { number ≡ 1 → first.new ≡ extent }
    ensures more { 1 < number → first.new ≡ first.old }
{
    if number == 1 {
        *first = extent;
    }
}

// The text of the proof that was found last; where it is the first one, its extent is noted.
fn last_proof(
    alloc: Global,
    asking: &Asking<'_>,
    prover: &Prover<'_>,
    first: &mut Extent,
) -> Result<Vec<u8>, AllocError>
    requires asked { IsAskedFor asking.now }
    requires counted { CountsLinesFrom (suc (length asking.now.problem.now.inputs.items
        + length asking.now.clauses.items)) (state_at prover.now) }
    requires found { HasProof (state_at prover.now) }
    ensures text { (ps : List FoundProof) (p : FoundProof) → (state_at prover.now).proofs
        ≡ ps ++ p ∷ [] → IfOk result (λ v. IsProofText (quest_of asking.now)
        (quest_lines (quest_of asking.now) (state_at prover.now)) (suc (length ps)) p v.items) }
    ensures first { (ps : List FoundProof) (p : FoundProof) → (state_at prover.now).proofs
        ≡ ps ++ p ∷ [] → IsFirstProof (quest_lines (quest_of asking.now) (state_at prover.now)) ps
        first.old.length first.old.level → OnOk result (IsFirstProof
        (quest_lines (quest_of asking.now) (state_at prover.now)) (ps ++ p ∷ [])
        first.new.length first.new.level) }
{
    let proofs = prover.proofs();
    let number = proofs.len();
    let printed = printed_proof(alloc, asking, prover, number as u64, proofs[number - 1])?;
    note_first(first, number, printed.extent);
    Ok(printed.text)
}

// There are fewer proofs than a list can have.
fn few_proofs(proofs: &[given_clause::FoundProof])
    ensures { length proofs.now < 2 ^ 63 }
{
    let _many = proofs.len();
}

// So it is of those that a prover has found.
fn proofs_are_counted(prover: &Prover<'_>)
    ensures { length (state_at prover.now).proofs < 2 ^ 63 }
{
    let proofs = prover.proofs();
    few_proofs(proofs);
}

/// Searches for proofs from the beginning, prints them as they are found, notes the extent of the first one, and answers how that
/// ends.
pub fn search_proofs<K: Sink, C: Clock>(
    alloc: Global,
    asking: &Asking<'_>,
    prover: &mut Prover<'_>,
    first: &mut Extent,
    sink: &mut K,
    clock: &mut C,
) -> Result<ProverEnd, Cut>
    requires asked { IsAskedFor asking.now }
    requires sound { IsSoundQuest (quest_of asking.now) }
    requires begun { IsNew (quest_of asking.now).search (watch_of prover.old).seconds prover.old }
    requires unread { (C.times clock.old).count ≡ 0 }
    requires sink { (K.outflow sink.old).over ≡ false }
    requires none { (first.old.length ≡ 0) × (first.old.level ≡ 0) }
    ensures first { OnOk result (IsFirstProof
        (quest_lines (quest_of asking.now) (state_at prover.new)) (state_at prover.new).proofs
        first.new.length first.new.level) }
    ensures tells { (text : List ℕ)
        → IsStateText (quest_of asking.now) (start_in (quest_of asking.now).search) text
        → Tells (λ more. ProofsGo (quest_of asking.now) (watch_of prover.old).seconds
        (C.times clock.new) (text ++ more)) (λ end more. ProofsCome (quest_of asking.now)
        (watch_of prover.old).seconds (C.times clock.new) end (state_at prover.new) (text ++ more))
        (K.outflow sink.old) (K.outflow sink.new) result }
{
    ancestors_are_one();
    searches_start_well();
    searches_are_sound();
    ends_have_reasons();
    lines_are_counted();
    loop {
        let answer = prover.run(alloc, clock)?;
        proofs_are_counted(prover);
        if let Some(end) = end_for(answer) {
            return Ok(end);
        }
        piece(last_proof(alloc, asking, prover, first), sink)?;
    }
}
