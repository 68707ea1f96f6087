// The lines behind the proofs.
ghost use Rattle.std.specs.Prelude.{◌≡◌, ◌++◌, IfOk, OnOk};
ghost use Rattle.ladr_prover9.specs.Lines.{counters_line, proved_or_failed, cause_line, closing_lines};
ghost use Rattle.prover.specs.Answers.{counters_of};
ghost use Rattle.prover.specs.Provers.{state_at};
ghost use Rattle.prover_steps.specs.Searching.{SearchState};

use crate::ends::ProverEnd;
use ladr_intake::clause_limit;
use ladr_output::{decimal, text};
use prover::{Counters, Prover};
use search_clock::{exit_line, seconds_line};
use std::alloc::{AllocError, Global};

// The counters.
fn counters_line(alloc: Global, counters: Counters) -> Result<Vec<u8>, AllocError>
    ensures { (t : SearchState) → counters ≡ counters_of t
        → IfOk result (λ v. v.items ≡ counters_line t) }
{
    let mut out = Vec::new(alloc);
    text(&mut out, b"% Given=")?;
    decimal(&mut out, counters.given)?;
    text(&mut out, b". Generated=")?;
    decimal(&mut out, counters.generated)?;
    text(&mut out, b". Kept=")?;
    decimal(&mut out, counters.kept)?;
    text(&mut out, b". Large=")?;
    decimal(&mut out, counters.large)?;
    text(&mut out, b". Proofs=")?;
    decimal(&mut out, counters.proofs)?;
    text(&mut out, b".")?;
    text(&mut out, b"\n")?;
    Ok(out)
}

// Whether there are proofs.
fn verdict(out: &mut Vec<u8>, prover: &Prover<'_>) -> Result<(), AllocError>
    ensures { OnOk result (out.new.items ≡ out.old.items
        ++ proved_or_failed (state_at prover.now)) }
{
    if prover.proofs().is_empty() {
        text(out, b"SEARCH FAILED\n")
    } else {
        text(out, b"THEOREM PROVED\n")
    }
}

fn limit(alloc: Global, out: &mut Vec<u8>, formula: u64) -> Result<(), AllocError>
    ensures { OnOk result (out.new.items ≡ out.old.items
        ++ cause_line (ProverEnd.ClauseLimit formula)) }
{
    let line = clause_limit(alloc, formula)?;
    text(out, &line)
}

fn cause(alloc: Global, out: &mut Vec<u8>, end: ProverEnd) -> Result<(), AllocError>
    ensures { OnOk result (out.new.items ≡ out.old.items ++ cause_line end) }
{
    match end {
        ProverEnd::MaxProofs => exit_line(out, b"max_proofs"),
        ProverEnd::SosEmpty => exit_line(out, b"sos_empty"),
        ProverEnd::MaxMegs => exit_line(out, b"max_megs"),
        ProverEnd::MaxSeconds { first, last } => seconds_line(out, first, last),
        ProverEnd::MaxGiven => exit_line(out, b"max_given"),
        ProverEnd::MaxKept => exit_line(out, b"max_kept"),
        ProverEnd::ClauseLimit { formula } => limit(alloc, out, formula),
    }
}

/// The lines behind the proofs of a search that ended so.
pub fn closing_lines(
    alloc: Global,
    prover: &Prover<'_>,
    end: ProverEnd,
) -> Result<Vec<u8>, AllocError>
    ensures { IfOk result (λ v. v.items ≡ closing_lines (state_at prover.now) end) }
{
    let mut out = counters_line(alloc, prover.counters())?;
    verdict(&mut out, prover)?;
    cause(alloc, &mut out, end)?;
    Ok(out)
}
