// The lines of proofs, block by block.
ghost use Rattle.std.specs.Prelude.{List, [], IfOk, IfErr};
ghost use Rattle.fol_core.specs.SymbolTable.{KeepsNumbers};
ghost use Rattle.ladr_lex.specs.Cuts.{pieces_of};
ghost use Rattle.proof_lines.specs.Strays.{AreNamesOf};
ghost use Rattle.proof_text.specs.Blocks.{TextBlock};
ghost use Rattle.proof_text.specs.Found.{IsBlockRead, AreBlocksRead};
ghost use Rattle.proof_text.specs.Going.{reader_in, lines_of_all, IsLinesStop, OrMemory};
ghost use Rattle.proof_text.specs.Proofs.{HasLines, HasBlockLines, HasProofs};
ghost use Rattle.proof_text.specs.Refused.{IsBlockRefused, HasRefusedBlock};

use crate::blocks::BlockRead;
use crate::refusing::refuse_line;
use derivation::{Derivation, Line};
use fol_core::Symbols;
use fol_problem::Problem;
use ladr_lex::{Text, Token, tokens_from};
use ladr_problem::ReadError;
use proof_lines::{LineFault, LineOperators, ProblemNames, read_line};
use std::alloc::Global;

/// A line is refused that begins with the token of this number.
#[derive(Clone, Copy)]
pub struct LineStop {
    pub at: usize,
    pub fault: LineFault,
}

// The lines that tokens are, one behind the other.
fn read_lines(
    alloc: Global,
    operators: &LineOperators,
    problem: &Problem,
    names: &ProblemNames,
    symbols: &mut Symbols,
    tokens: &[Token],
) -> Result<Vec<Line>, LineStop>
    requires { AreNamesOf problem.now.symbols names.now }
    ensures read { IfOk result (λ lines. HasLines (reader_in operators.now problem.now) symbols.old
        (pieces_of tokens.now) lines.items symbols.new []) }
    ensures stop { IfErr result (IsLinesStop (reader_in operators.now problem.now) symbols.old
        (pieces_of tokens.now)) }
    ensures kept { KeepsNumbers symbols.old symbols.new }
{
    let mut lines = Vec::new(alloc);
    let mut at = 0;
    while at < tokens.len() {
        match read_line(alloc, operators, problem, names, symbols, &tokens[at..]) {
            Ok(read) => {
                if lines.push(read.line).is_err() {
                    return Err(LineStop {
                        at,
                        fault: LineFault::Memory,
                    });
                }
                at += read.len;
            }
            Err(fault) => return Err(LineStop { at, fault }),
        }
    }
    Ok(lines)
}

// The proof in a block.
fn read_block(
    alloc: Global,
    operators: &LineOperators,
    problem: &Problem,
    names: &ProblemNames,
    symbols: &mut Symbols,
    bytes: &[u8],
    block: &BlockRead,
) -> Result<Derivation, ReadError>
    requires block { (b : TextBlock) × IsBlockRead b block.now }
    requires names { AreNamesOf problem.now.symbols names.now }
    ensures read { (b : TextBlock) → IsBlockRead b block.now → IfOk result (λ d. HasBlockLines
        (reader_in operators.now problem.now) symbols.old b d.lines.items symbols.new) }
    ensures refused { (b : TextBlock) → IsBlockRead b block.now → IfErr result (OrMemory
        (IsBlockRefused (reader_in operators.now problem.now) symbols.old bytes.now b)) }
    ensures kept { KeepsNumbers symbols.old symbols.new }
{
    // Its bytes end there, at a place that has a number.
    let _end = block.end;
    let text = Text {
        bytes: &block.bytes,
        start: block.start,
    };
    let tokens = tokens_from(alloc, &text)?;
    match read_lines(alloc, operators, problem, names, symbols, &tokens) {
        Ok(lines) => Ok(Derivation { lines }),
        Err(LineStop { at, fault }) => {
            Err(refuse_line(alloc, bytes, block, &tokens[at..], fault))
        }
    }
}

// The proofs in blocks, one behind the other.
fn read_each(
    alloc: Global,
    operators: &LineOperators,
    problem: &Problem,
    names: &ProblemNames,
    symbols: &mut Symbols,
    bytes: &[u8],
    blocks: &[BlockRead],
) -> Result<Vec<Derivation>, ReadError>
    requires blocks { (bs : List TextBlock) × AreBlocksRead bs blocks.now }
    requires names { AreNamesOf problem.now.symbols names.now }
    ensures read { (bs : List TextBlock) → AreBlocksRead bs blocks.now → IfOk result (λ proofs.
        HasProofs (reader_in operators.now problem.now) symbols.old bs
        (lines_of_all proofs.items) symbols.new) }
    ensures refused { (bs : List TextBlock) → AreBlocksRead bs blocks.now → IfErr result (OrMemory
        (HasRefusedBlock (reader_in operators.now problem.now) symbols.old bytes.now bs)) }
    ensures kept { KeepsNumbers symbols.old symbols.new }
{
    let mut proofs = Vec::new(alloc);
    for block in blocks {
        let proof = read_block(alloc, operators, problem, names, symbols, bytes, block)?;
        proofs.push(proof)?;
    }
    Ok(proofs)
}

/// The proofs in blocks, and the symbols that their lines bring.
pub fn read_blocks(
    alloc: Global,
    operators: &LineOperators,
    problem: &Problem,
    symbols: &mut Symbols,
    bytes: &[u8],
    blocks: &[BlockRead],
) -> Result<Vec<Derivation>, ReadError>
    requires { (bs : List TextBlock) × AreBlocksRead bs blocks.now }
    ensures read { (bs : List TextBlock) → AreBlocksRead bs blocks.now → IfOk result (λ proofs.
        HasProofs (reader_in operators.now problem.now) symbols.old bs
        (lines_of_all proofs.items) symbols.new) }
    ensures refused { (bs : List TextBlock) → AreBlocksRead bs blocks.now → IfErr result (OrMemory
        (HasRefusedBlock (reader_in operators.now problem.now) symbols.old bytes.now bs)) }
    ensures kept { KeepsNumbers symbols.old symbols.new }
{
    let names = ProblemNames::of(alloc, &problem.symbols)?;
    read_each(alloc, operators, problem, &names, symbols, bytes, blocks)
}
