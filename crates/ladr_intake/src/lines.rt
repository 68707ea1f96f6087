// The lines of the refusals.
ghost use Rattle.std.specs.Prelude.{◌≡◌, IfOk};
ghost use Rattle.ladr_intake.specs.Refusals.{limit_text, unreadable_line, misuse_line, too_large_line, read_fault_line, clause_limit_line, refusal_text};

use crate::stops::Refused;
use ladr_output::{decimal, text};
use ladr_problem::{Limit, Place};
use std::alloc::{AllocError, Global};

// For what can't be read, with the place and what stands there.
fn unreadable(alloc: Global, place: &Place) -> Result<Vec<u8>, AllocError>
    ensures { IfOk result (λ v. v.items ≡ unreadable_line place.now.byte place.now.line
        place.now.column place.now.token) }
{
    let mut out = Vec::new(alloc);
    text(&mut out, b"ladr: unreadable at byte ")?;
    decimal(&mut out, place.byte)?;
    text(&mut out, b", line ")?;
    decimal(&mut out, place.line)?;
    text(&mut out, b", column ")?;
    decimal(&mut out, place.column)?;
    text(&mut out, b": ")?;
    text(&mut out, place.token.bytes())?;
    text(&mut out, b"\n")?;
    Ok(out)
}

// For a row of misuse that is broken, with the place.
fn misuse(alloc: Global, row: u8, place: &Place) -> Result<Vec<u8>, AllocError>
    ensures { IfOk result (λ v. v.items ≡ misuse_line row place.now.byte place.now.line
        place.now.column) }
{
    let mut out = Vec::new(alloc);
    text(&mut out, b"ladr: misuse ")?;
    decimal(&mut out, u64::from(row))?;
    text(&mut out, b" at byte ")?;
    decimal(&mut out, place.byte)?;
    text(&mut out, b", line ")?;
    decimal(&mut out, place.line)?;
    text(&mut out, b", column ")?;
    decimal(&mut out, place.column)?;
    text(&mut out, b"\n")?;
    Ok(out)
}

fn limit_text(what: Limit) -> &'static [u8]
    ensures { result.now ≡ limit_text what }
{
    match what {
        Limit::Input => b"input",
        Limit::Nesting => b"nesting",
        Limit::Symbols => b"symbols",
        Limit::Arity => b"arity",
        Limit::Distinct => b"distinct",
    }
}

// For what is too large, and where.
fn too_large(alloc: Global, byte: u64, what: &[u8]) -> Result<Vec<u8>, AllocError>
    ensures { IfOk result (λ v. v.items ≡ too_large_line byte what.now) }
{
    let mut out = Vec::new(alloc);
    text(&mut out, b"ladr: too large at byte ")?;
    decimal(&mut out, byte)?;
    text(&mut out, b": ")?;
    text(&mut out, what)?;
    text(&mut out, b"\n")?;
    Ok(out)
}

/// For an input that is refused.
pub fn refusal(alloc: Global, why: &Refused) -> Result<Vec<u8>, AllocError>
    ensures { IfOk result (λ v. v.items ≡ refusal_text why.now) }
{
    match why {
        Refused::Unreadable(place) => unreadable(alloc, place),
        Refused::Misuse(place, why) => misuse(alloc, why.row(), place),
        Refused::TooLarge { byte, what } => too_large(alloc, *byte, limit_text(*what)),
    }
}

/// For an input that couldn't be read for a fault of its source.
pub fn read_fault(alloc: Global) -> Result<Vec<u8>, AllocError>
    ensures { IfOk result (λ v. v.items ≡ read_fault_line) }
{
    let mut out = Vec::new(alloc);
    text(&mut out, b"ladr: read fault\n")?;
    Ok(out)
}

/// For a formula that has too many clauses, in the commands that make clauses.
pub fn clause_limit(alloc: Global, formula: u64) -> Result<Vec<u8>, AllocError>
    ensures { IfOk result (λ v. v.items ≡ clause_limit_line formula) }
{
    let mut out = Vec::new(alloc);
    text(&mut out, b"ladr: clause limit at formula ")?;
    decimal(&mut out, formula)?;
    text(&mut out, b"\n")?;
    Ok(out)
}
