// The summary of a generated problem.
ghost use Rattle.std.specs.Prelude.{◌≡◌, ◌++◌, IfOk, OnOk};
ghost use Rattle.ladr_made.specs.Summary.{labelled, counters, prover_line, end_line, check_line, model_line, summary_text};

use crate::parts::{Modelled, Proved};
use ladr_check::{CheckEnd, Checked};
use ladr_output::{decimal, text};
use std::alloc::{AllocError, Global};

// A number behind what it is called.
fn labelled(out: &mut Vec<u8>, label: &[u8], number: u64) -> Result<(), AllocError>
    ensures { OnOk result (out.new.items ≡ out.old.items ++ labelled label.now number) }
{
    text(out, label)?;
    decimal(out, number)
}

// The clauses given and kept, and the lines and levels of the proof.
fn counters(out: &mut Vec<u8>, proved: Proved) -> Result<(), AllocError>
    ensures { OnOk result (out.new.items ≡ out.old.items ++ counters proved) }
{
    labelled(out, b". Given=", proved.given)?;
    labelled(out, b". Kept=", proved.kept)?;
    labelled(out, b". Length=", proved.length)?;
    labelled(out, b". Level=", proved.level)?;
    text(out, b".\n")
}

// What became of the search for proofs.
fn prover_line(out: &mut Vec<u8>, proved: Proved) -> Result<(), AllocError>
    ensures { OnOk result (out.new.items ≡ out.old.items ++ prover_line proved) }
{
    labelled(out, b"% Prover9 status ", u64::from(proved.status))?;
    counters(out, proved)
}

// What a check told of proofs.
fn end_line(out: &mut Vec<u8>, end: CheckEnd) -> Result<(), AllocError>
    ensures { OnOk result (out.new.items ≡ out.old.items ++ end_line end) }
{
    match end {
        CheckEnd::Accepted { .. } => text(out, b"% Check accepted.\n"),
        CheckEnd::NotAccepted { .. } => text(out, b"% Check none.\n"),
        CheckEnd::ClauseLimit { .. } => text(out, b"% Check none.\n"),
    }
}

// What it told, if it was asked.
fn check_line(out: &mut Vec<u8>, checked: Option<Checked>) -> Result<(), AllocError>
    ensures { OnOk result (out.new.items ≡ out.old.items ++ check_line checked) }
{
    match checked {
        None => text(out, b"% Check none.\n"),
        Some(checked) => end_line(out, checked.end()),
    }
}

// What became of the search for a model.
fn model_line(out: &mut Vec<u8>, modelled: Modelled) -> Result<(), AllocError>
    ensures { OnOk result (out.new.items ≡ out.old.items ++ model_line modelled) }
{
    labelled(out, b"% Mace4 status ", u64::from(modelled.status))?;
    labelled(out, b". Size=", modelled.size)?;
    text(out, b".\n")
}

/// What is told of a problem of n steps.
pub fn summary_text(
    alloc: Global,
    n: u64,
    proved: Proved,
    modelled: Modelled,
) -> Result<Vec<u8>, AllocError>
    ensures { IfOk result (λ v. v.items ≡ summary_text n proved modelled) }
{
    let mut out = Vec::new(alloc);
    labelled(&mut out, b"% Made ", n)?;
    text(&mut out, b".\n")?;
    prover_line(&mut out, proved)?;
    check_line(&mut out, proved.checked)?;
    model_line(&mut out, modelled)?;
    text(&mut out, b"% Exit made.\n")?;
    Ok(out)
}
