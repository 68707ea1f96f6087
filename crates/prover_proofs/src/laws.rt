// What the lines of a search say, and what its proofs are: the functions do nothing, and their contracts are the laws.
ghost use Rattle.prover_proofs.specs.ProofLaws.{FormulaLinesSay, StateLinesSay, SoundProofsRefute, FoundProofsRefute};
ghost use Rattle.prover_proofs.specs.Worked.{WorkedProof};

use clause_store::ancestors_derive;
use prover_steps::{searches_are_sound, searches_start_well};

/// The lines of formulas say what the formulas say, and all lines of a state what they say in its derivation.
pub fn state_lines_say()
    ensures formulas { FormulaLinesSay }
    ensures all { StateLinesSay }
{}

/// The lines that the last line of a proof rests on are a refutation of the problem, for each proof that a search finds.
pub fn proofs_refute()
    ensures sound { SoundProofsRefute }
    ensures found { FoundProofsRefute }
{
    ancestors_derive();
    searches_start_well();
    searches_are_sound();
}

/// The levels of a proof's lines, and the size of its greatest clause.
pub fn worked()
    ensures { WorkedProof }
{}
