// The lines of a search for models.
ghost use Rattle.std.specs.Prelude.{◌≡◌, ◌++◌, OnOk, IfOk, codes};
ghost use Rattle.std.specs.Fmt.{decimal};
ghost use Rattle.ladr_mace4.specs.Lines.{size_line, skipped_line, exhausted_line, models_line, ground_limit_line, last_lines, end_text};
ghost use Rattle.search_clock.specs.Lines.{seconds_line};

use crate::ends::SearchEnd;
use ladr_intake::clause_limit;
use ladr_output::{decimal, text};
use search_clock::{exit_line, seconds_line};
use std::alloc::{AllocError, Global};

// The size that a line is about.
fn domain(alloc: Global, n: u64) -> Result<Vec<u8>, AllocError>
    ensures { IfOk result (λ v. v.items ≡ codes "% Domain size " ++ decimal n) }
{
    let mut out = Vec::new(alloc);
    text(&mut out, b"% Domain size ")?;
    decimal(&mut out, n)?;
    Ok(out)
}

/// A size begins.
pub fn size_line(alloc: Global, n: u64) -> Result<Vec<u8>, AllocError>
    ensures { IfOk result (λ v. v.items ≡ size_line n) }
{
    let mut out = domain(alloc, n)?;
    text(&mut out, b".\n")?;
    Ok(out)
}

/// A size is skipped.
pub fn skipped_line(alloc: Global, n: u64) -> Result<Vec<u8>, AllocError>
    ensures { IfOk result (λ v. v.items ≡ skipped_line n) }
{
    let mut out = domain(alloc, n)?;
    text(&mut out, b" skipped.\n")?;
    Ok(out)
}

/// A size was searched to its end.
pub fn exhausted_line(alloc: Global, n: u64) -> Result<Vec<u8>, AllocError>
    ensures { IfOk result (λ v. v.items ≡ exhausted_line n) }
{
    let mut out = domain(alloc, n)?;
    text(&mut out, b" exhausted.\n")?;
    Ok(out)
}

// A size has too many cells by far.
fn ground_limit(alloc: Global, n: u64) -> Result<Vec<u8>, AllocError>
    ensures { IfOk result (λ v. v.items ≡ ground_limit_line n) }
{
    let mut out = Vec::new(alloc);
    text(&mut out, b"ladr: ground limit at size ")?;
    decimal(&mut out, n)?;
    text(&mut out, b"\n")?;
    Ok(out)
}

// How many models were printed.
fn models(out: &mut Vec<u8>, k: u64) -> Result<(), AllocError>
    ensures { OnOk result (out.new.items ≡ out.old.items ++ models_line k) }
{
    text(out, b"% Models=")?;
    decimal(out, k)?;
    text(out, b".\n")
}

// The lines that a search ends with.
fn last_lines(alloc: Global, k: u64, reason: &[u8]) -> Result<Vec<u8>, AllocError>
    ensures { IfOk result (λ v. v.items ≡ last_lines k reason.now) }
{
    let mut out = Vec::new(alloc);
    models(&mut out, k)?;
    exit_line(&mut out, reason)?;
    Ok(out)
}

// Those of a search whose time is over.
fn time_is_over(alloc: Global, k: u64, first: u64, last: u64) -> Result<Vec<u8>, AllocError>
    ensures { IfOk result (λ v. v.items ≡ models_line k ++ seconds_line first last) }
{
    let mut out = Vec::new(alloc);
    models(&mut out, k)?;
    seconds_line(&mut out, first, last)?;
    Ok(out)
}

/// What a search ends with, k models having been printed.
pub fn end_text(alloc: Global, k: u64, end: SearchEnd) -> Result<Vec<u8>, AllocError>
    ensures { IfOk result (λ v. v.items ≡ end_text k end) }
{
    match end {
        SearchEnd::MaxModels => last_lines(alloc, k, b"max_models"),
        SearchEnd::Exhausted => last_lines(alloc, k, b"exhausted"),
        SearchEnd::AllModels => last_lines(alloc, k, b"all_models"),
        SearchEnd::MaxMegs => last_lines(alloc, k, b"max_megs"),
        SearchEnd::MaxSeconds { first, last } => time_is_over(alloc, k, first, last),
        SearchEnd::GroundLimit { size } => ground_limit(alloc, size),
        SearchEnd::ClauseLimit { formula } => clause_limit(alloc, formula),
    }
}
