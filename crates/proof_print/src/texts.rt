// The text of a proof.
ghost use Rattle.std.specs.Prelude.{◌≡◌, ◌++◌, IfOk, OnOk};
ghost use Rattle.std.specs.Fmt.{decimal};
ghost use Rattle.proof_lines.specs.ContentTokens.{tables_of};
ghost use Rattle.proof_print.specs.LineTexts.{head_text, proof_banner, end_banner, proof_bytes, frame_text};

use crate::lines::add_lines;
use derivation::Line;
use fol_core::Symbols;
use ladr_output::decimal;
use proof_lines::LineOperators;
use std::alloc::{AllocError, Global};

/// What stands above a proof's lines: its number, how many lines it has, its level, its greatest clause weight, and how many
/// clauses were given.
#[derive(Clone, Copy)]
pub struct Heads {
    pub proof: u64,
    pub length: u64,
    pub level: u64,
    pub weight: u64,
    pub given: u64,
}

/// The banner of a proof, with the end of its line.
const PROOF: &[u8] = b"============================== PROOF =================================\n";

/// The banner of a proof's end, with the end of its line.
const END: &[u8] = b"============================== end of proof ==========================\n";

// Adds some words and a number.
fn numbered(out: &mut Vec<u8>, before: &[u8], n: u64) -> Result<(), AllocError>
    ensures { OnOk result (out.new.items ≡ out.old.items ++ (before.now ++ decimal n)) }
{
    out.extend_from_slice(before)?;
    decimal(out, n)
}

// Adds the lines above a proof's lines.
fn head(out: &mut Vec<u8>, heads: Heads) -> Result<(), AllocError>
    ensures { OnOk result (out.new.items ≡ out.old.items ++ head_text heads) }
{
    numbered(out, b"% Proof ", heads.proof)?;
    numbered(out, b".\n% Length of proof is ", heads.length)?;
    numbered(out, b".\n% Level of proof is ", heads.level)?;
    numbered(out, b".\n% Maximum clause weight is ", heads.weight)?;
    numbered(out, b".\n% Given clauses ", heads.given)?;
    out.extend_from_slice(b".\n")?;
    Ok(())
}

/// The text of a proof: its banner, its head, its lines, and the banner of its end.
pub fn proof_bytes(
    alloc: Global,
    operators: &LineOperators,
    symbols: &Symbols,
    proof: &[Line],
    heads: Heads,
    prolog: bool,
) -> Result<Vec<u8>, AllocError>
    ensures { IfOk result (λ text. text.items
        ≡ proof_bytes (tables_of operators.now) symbols.now prolog heads proof.now) }
{
    let mut out = Vec::new(alloc);
    out.extend_from_slice(PROOF)?;
    head(&mut out, heads)?;
    add_lines(alloc, operators, symbols, prolog, proof, &mut out)?;
    out.extend_from_slice(END)?;
    Ok(out)
}

/// The frame of proofs: the line that tells how many bytes the problem has, and these bytes with the end of a line.
pub fn frame_text(alloc: Global, input: &[u8]) -> Result<Vec<u8>, AllocError>
    ensures { IfOk result (λ text. text.items ≡ frame_text input.now) }
{
    let mut out = Vec::new(alloc);
    out.extend_from_slice(b"% Input ")?;
    decimal(&mut out, input.len() as u64)?;
    out.extend_from_slice(b"\n")?;
    out.extend_from_slice(input)?;
    out.extend_from_slice(b"\n")?;
    Ok(out)
}
