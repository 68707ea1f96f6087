// The report on the proofs of an input.
ghost use Rattle.std.specs.Prelude.{◌≡◌, ◌++◌, IfOk, OnOk};
ghost use Rattle.ladr_check.specs.CheckReport.{accepted_line, accepted_lines, all_accepted_line, not_accepted_line, end_line, check_report};

use crate::ends::{CheckEnd, CheckOver};
use derivation::Row;
use ladr_intake::clause_limit;
use ladr_output::{decimal, text};
use std::alloc::{AllocError, Global};

// Puts the line of an accepted proof behind the text.
fn accepted(out: &mut Vec<u8>, k: u64) -> Result<(), AllocError>
    ensures { OnOk result (out.new.items ≡ out.old.items ++ accepted_line k) }
{
    text(out, b"% Proof ")?;
    decimal(out, k)?;
    text(out, b" accepted.\n")
}

// The lines of the first n proofs, which are accepted.
fn accepted_lines(alloc: Global, n: u64) -> Result<Vec<u8>, AllocError>
    ensures { IfOk result (λ v. v.items ≡ accepted_lines n) }
{
    let mut out = Vec::new(alloc);
    for k in 0..n {
        accepted(&mut out, k + 1)?;
    }
    Ok(out)
}

// For an input of which all proofs are accepted.
fn all_accepted(alloc: Global, proofs: u64) -> Result<Vec<u8>, AllocError>
    ensures { IfOk result (λ v. v.items ≡ all_accepted_line proofs) }
{
    let mut out = Vec::new(alloc);
    text(&mut out, b"% Exit accepted ")?;
    decimal(&mut out, proofs)?;
    text(&mut out, b".\n")?;
    Ok(out)
}

// For a proof that isn't accepted.
fn not_accepted(alloc: Global, line: u64, row: Row) -> Result<Vec<u8>, AllocError>
    ensures { IfOk result (λ v. v.items ≡ not_accepted_line line row) }
{
    let mut out = Vec::new(alloc);
    text(&mut out, b"ladr: not accepted, line ")?;
    decimal(&mut out, line)?;
    text(&mut out, b", cause ")?;
    decimal(&mut out, row.number())?;
    text(&mut out, b"\n")?;
    Ok(out)
}

// The last line.
fn end_line(alloc: Global, end: CheckEnd) -> Result<Vec<u8>, AllocError>
    ensures { IfOk result (λ v. v.items ≡ end_line end) }
{
    match end {
        CheckEnd::Accepted { proofs } => all_accepted(alloc, proofs),
        CheckEnd::NotAccepted { line, row } => not_accepted(alloc, line, row),
        CheckEnd::ClauseLimit { formula } => clause_limit(alloc, formula),
    }
}

/// The whole output of a check that ended so.
pub fn report(alloc: Global, over: CheckOver) -> Result<Vec<u8>, AllocError>
    ensures { IfOk result (λ v. v.items ≡ check_report over.accepted over.end) }
{
    let mut out = accepted_lines(alloc, over.accepted)?;
    let last = end_line(alloc, over.end)?;
    text(&mut out, &last)?;
    Ok(out)
}
