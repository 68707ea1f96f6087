// The proofs of a text.
ghost use Rattle.std.specs.Prelude.{◌≡◌, List, IfOk, OnOk, IfErr};
ghost use Rattle.std.specs.List.{list_all};
ghost use Rattle.proof_text.specs.Blocks.{TextBlock};
ghost use Rattle.ladr_problem.specs.declared.read.FileRead.{FileRead};
ghost use Rattle.proof_text.specs.Begun.{IsWithoutProofs};
ghost use Rattle.proof_text.specs.Found.{AreBlocksRead};
ghost use Rattle.proof_text.specs.Refused.{HasProblem, IsProofRead, IsProofError};

use crate::blocks::{BlockRead, find_blocks};
use crate::frame::read_frame;
use crate::proofs::read_blocks;
use crate::refusing::refuse_byte;
use derivation::Derivation;
use fol_core::Symbols;
use fol_problem::Problem;
use ladr_formulas::Mode;
use ladr_problem::{FileRead, ReadError, read_problem};
use proof_lines::LineOperators;
use std::alloc::{AllocError, Global};

/// What a text of proofs says: its problem, the operators of its lines, the symbols of the problem and behind them those that
/// lines alone bring, and the proofs.
#[derive(Drop)]
pub struct ProofRead {
    pub problem: Problem,
    pub operators: LineOperators,
    pub symbols: Symbols,
    pub proofs: Vec<Derivation>,
}

// Whether each block has its end.
fn are_closed(blocks: &[BlockRead]) -> bool
    ensures { result ≡ list_all (λ b. b.closed) blocks.now }
{
    blocks.iter().all(|block| block.closed)
}

/// The problem and the proofs of a text: a frame with the problem, and behind it blocks of lines.
pub fn read_proof(alloc: Global, bytes: &[u8]) -> Result<ProofRead, ReadError>
    ensures read { IfOk result (IsProofRead bytes.now) }
    ensures refused { IfErr result (IsProofError bytes.now) }
{
    let frame = match read_frame(bytes) {
        Ok(frame) => frame,
        Err(byte) => return Err(refuse_byte(alloc, bytes, byte)),
    };
    let blocks = find_blocks(alloc, bytes, frame.end + 1)?;
    let file = read_problem(alloc, Mode::Prover, &bytes[frame.start..frame.end])?;
    let mut read = without_proofs(alloc, file)?;
    read_all(alloc, bytes, &blocks, &mut read)?;
    Ok(read)
}

// What a text says whose problem is read, and no proof.
fn without_proofs(alloc: Global, file: FileRead) -> Result<ProofRead, AllocError>
    ensures { IfOk result (IsWithoutProofs file) }
{
    let FileRead {
        problem,
        operators,
        ..
    } = file;
    let prolog = problem.options.prolog_style_variables;
    let operators = LineOperators::of(alloc, operators, prolog)?;
    let symbols = problem.symbols.copy(alloc)?;
    Ok(ProofRead {
        problem,
        operators,
        symbols,
        proofs: Vec::new(alloc),
    })
}

// Reads the proofs in blocks; none is read before.
fn read_all(
    alloc: Global,
    bytes: &[u8],
    blocks: &[BlockRead],
    read: &mut ProofRead,
) -> Result<(), ReadError>
    requires { (bs : List TextBlock) × AreBlocksRead bs blocks.now }
    ensures read { (f : FileRead) (bs : List TextBlock) → IsWithoutProofs f read.old
        → HasProblem bytes.now f bs
        → AreBlocksRead bs blocks.now → OnOk result (IsProofRead bytes.now read.new) }
    ensures refused { (f : FileRead) (bs : List TextBlock) → IsWithoutProofs f read.old
        → HasProblem bytes.now f bs → AreBlocksRead bs blocks.now
        → IfErr result (IsProofError bytes.now) }
{
    read.proofs = read_blocks(
        alloc,
        &read.operators,
        &read.problem,
        &mut read.symbols,
        bytes,
        blocks,
    )?;
    if !are_closed(blocks) {
        return Err(refuse_byte(alloc, bytes, bytes.len()));
    }
    Ok(())
}
