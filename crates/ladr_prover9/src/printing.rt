// The texts of proofs.
ghost use Rattle.std.specs.Prelude.{◌≡◌, ◌+◌, suc, IfOk, length, map};
ghost use Rattle.clause_store.specs.Ancestors.{AreAncestors};
ghost use Rattle.clause_store.specs.Lines.{plain_line, plain_trees, AreUnnoted};
ghost use Rattle.given_clause.specs.States.{found_of};
ghost use Rattle.ladr_prover9.specs.Askings.{quest_of, IsAskedFor};
ghost use Rattle.ladr_prover9.specs.Counting.{HasExtent};
ghost use Rattle.ladr_prover9.specs.ProofTexts.{IsProofText};
ghost use Rattle.ladr_prover9.specs.Quests.{quest_lines};
ghost use Rattle.prover.specs.Provers.{state_at};
ghost use Rattle.prover_proofs.specs.Levels.{level_in, greatest_size};
ghost use Rattle.prover_steps.specs.LineNumbers.{CountsLinesFrom};

use crate::asking::Asking;
use given_clause::FoundProof;
use printed_proofs::{heads_are_short, lines_are_bounded, lines_are_counted};
use proof_print::{Heads, proof_bytes};
use prover::Prover;
use prover_proofs::{Proof, SearchLines};
use std::alloc::{AllocError, Global};

/// How many lines and levels a proof has.
#[derive(Clone, Copy)]
pub struct Extent {
    pub length: u64,
    pub level: u64,
}

/// The text of a proof, and how far it extends.
#[derive(Drop)]
pub struct PrintedProof {
    pub text: Vec<u8>,
    pub extent: Extent,
}

// The proof whose last line has this number, with its level and its greatest size.
fn proof_behind(
    alloc: Global,
    asking: &Asking<'_>,
    prover: &Prover<'_>,
    line: u64,
) -> Result<Proof, AllocError>
    requires asked { IsAskedFor asking.now }
    requires counted { CountsLinesFrom (suc (length asking.now.problem.now.inputs.items
        + length asking.now.clauses.items)) (state_at prover.now) }
    ensures lines { IfOk result (λ p. AreAncestors
        (quest_lines (quest_of asking.now) (state_at prover.now)) line
        (map plain_line p.lines.items)) }
    ensures notes { IfOk result (λ p. AreUnnoted p.lines.items) }
    ensures level { IfOk result (λ p. p.level
        ≡ level_in (plain_trees (map plain_line p.lines.items)) line) }
    ensures size { IfOk result (λ p. p.size ≡ greatest_size (map plain_line p.lines.items)) }
{
    let all = SearchLines {
        inputs: asking.problem.inputs.as_slice(),
        clauses: asking.clauses.as_slice(),
        made: prover.lines(),
    };
    let proof = all.proof(alloc, line)?;
    Ok(proof)
}

/// A proof by its number, printed.
pub fn printed_proof(
    alloc: Global,
    asking: &Asking<'_>,
    prover: &Prover<'_>,
    number: u64,
    found: FoundProof,
) -> Result<PrintedProof, AllocError>
    requires asked { IsAskedFor asking.now }
    requires counted { CountsLinesFrom (suc (length asking.now.problem.now.inputs.items
        + length asking.now.clauses.items)) (state_at prover.now) }
    ensures text { IfOk result (λ r. IsProofText (quest_of asking.now)
        (quest_lines (quest_of asking.now) (state_at prover.now)) number (found_of found)
        r.text.items) }
    ensures extent { IfOk result (λ r. HasExtent
        (quest_lines (quest_of asking.now) (state_at prover.now)) found.line
        r.extent.length r.extent.level) }
{
    let proof = proof_behind(alloc, asking, prover, found.line)?;
    let lines = proof.lines.as_slice();
    let extent = Extent {
        length: lines.len() as u64,
        level: proof.level,
    };
    let heads = Heads {
        proof: number,
        length: extent.length,
        level: extent.level,
        weight: proof.size,
        given: found.given,
    };
    let prolog = asking.problem.options.prolog_style_variables;
    let operators = &asking.operators;
    let symbols = &asking.symbols;
    lines_are_bounded(lines);
    lines_are_counted(lines);
    heads_are_short(heads);
    let text = proof_bytes(alloc, operators, symbols, lines, heads, prolog)?;
    Ok(PrintedProof { text, extent })
}
