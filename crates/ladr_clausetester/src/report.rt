// The report on the formulas of an input.
ghost use Rattle.std.specs.Prelude.{◌≡◌, ◌++◌, ◌∷◌, [], List, Bool, OnOk, IfOk, count_by, not};
ghost use Rattle.fol_problem.specs.Stated.{stated_of};
ghost use Rattle.ladr_clausetester.specs.Report.{verdict_line, verdict_lines, block, blocks, in_all, report, report_end};
ghost use Rattle.ladr_clausetester.specs.Verdicts.{AreAllTold, AreTrueAsTold, meaning_in};

use crate::verdicts::verdicts;
use fol_problem::Problem;
use ladr_interpretations::{Interpretations, Named};
use ladr_output::{decimal, text};
use std::alloc::{AllocError, Global};

// Puts the line of a formula behind the text.
fn formula(out: &mut Vec<u8>, k: u64, holds: bool) -> Result<(), AllocError>
    ensures { OnOk result (out.new.items ≡ out.old.items ++ verdict_line k holds) }
{
    text(out, b"formula ")?;
    decimal(out, k)?;
    if holds {
        text(out, b" true\n")
    } else {
        text(out, b" false\n")
    }
}

// Puts the totals and the last line behind the text.
fn ending(out: &mut Vec<u8>, all: &[bool]) -> Result<(), AllocError>
    ensures { OnOk result (out.new.items ≡ out.old.items ++ report_end all.now) }
{
    text(out, b"% True=")?;
    decimal(out, holding(all))?;
    text(out, b". False=")?;
    decimal(out, failing(all))?;
    text(out, b".\n% Exit tested.\n")
}

// The lines of all formulas.
fn formulas(alloc: Global, all: &[bool]) -> Result<Vec<u8>, AllocError>
    ensures { IfOk result (λ v. v.items ≡ verdict_lines 1 all.now) }
{
    let mut out = Vec::new(alloc);
    for (i, holds) in all.iter().enumerate() {
        formula(&mut out, i as u64 + 1, *holds)?;
    }
    Ok(out)
}

/// How many are so.
pub fn holding(all: &[bool]) -> u64
    ensures { result ≡ count_by (λ b. b) all.now }
{
    all.iter().filter(|holds| **holds).count() as u64
}

/// How many aren't.
pub fn failing(all: &[bool]) -> u64
    ensures { result ≡ count_by not all.now }
{
    all.iter().filter(|holds| !**holds).count() as u64
}

// The lines of an interpretation, behind a line of its own.
fn block(alloc: Global, j: u64, all: &[bool]) -> Result<Vec<u8>, AllocError>
    ensures { IfOk result (λ v. v.items ≡ block j all.now) }
{
    let mut out = Vec::new(alloc);
    text(&mut out, b"% Interpretation ")?;
    decimal(&mut out, j)?;
    text(&mut out, b".\n")?;
    let lines = formulas(alloc, all)?;
    text(&mut out, &lines)?;
    Ok(out)
}

// The lines of interpretations, one behind the other; the truth of all formulas in all of them comes behind what is told.
fn blocks(
    alloc: Global,
    problem: &Problem,
    its: &Interpretations,
    told: &mut Vec<bool>,
) -> Result<Vec<u8>, AllocError>
    requires { told.old.items ≡ [] }
    ensures { IfOk result (λ lines. (alls : List (List Bool))
        × AreAllTold (stated_of problem.now) its.now alls × (lines.items ≡ blocks 1 alls)
        × (told.new.items ≡ in_all alls)) }
{
    let mut out = Vec::new(alloc);
    for place in 0..its.len() {
        let all = verdicts(alloc, problem, its.at(place))?;
        let lines = block(alloc, place as u64 + 1, &all)?;
        text(&mut out, &lines)?;
        told.extend_from_slice(&all)?;
    }
    Ok(out)
}

// The whole output for one interpretation.
fn report_of_one(alloc: Global, problem: &Problem, named: &Named) -> Result<Vec<u8>, AllocError>
    ensures { IfOk result (λ v. (all : List Bool)
        × AreTrueAsTold (meaning_in (stated_of problem.now) named.now)
        (stated_of problem.now).formulas all × (v.items ≡ report (all ∷ []))) }
{
    let all = verdicts(alloc, problem, named)?;
    let mut out = formulas(alloc, &all)?;
    ending(&mut out, &all)?;
    Ok(out)
}

/// The whole output for formulas in interpretations: those of a single one are told by themselves.
pub fn report(
    alloc: Global,
    problem: &Problem,
    its: &Interpretations,
) -> Result<Vec<u8>, AllocError>
    ensures { IfOk result (λ v. (alls : List (List Bool))
        × AreAllTold (stated_of problem.now) its.now alls × (v.items ≡ report alls)) }
{
    if its.len() == 1 {
        return report_of_one(alloc, problem, its.at(0));
    }
    let mut told = Vec::new(alloc);
    let mut out = blocks(alloc, problem, its, &mut told)?;
    ending(&mut out, &told)?;
    Ok(out)
}
