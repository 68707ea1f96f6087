// The interpretations that make all formulas of an input true.
ghost use Rattle.std.specs.Prelude.{◌≡◌, ◌++◌, List, Bool, MatchBool, OnOk, IfOk, length};
ghost use Rattle.std.specs.List.{list_all};
ghost use Rattle.fol_problem.specs.Stated.{stated_of};
ghost use Rattle.ladr_clausetester.specs.Filtering.{IsKept, AreKeptAsTold, kept_text, kept_texts, filter_end, filter_report};

use crate::report::{failing, holding};
use crate::verdicts::verdicts;
use fol_problem::Problem;
use ladr_interpretations::{Interpretations, Named, named_text};
use ladr_output::{decimal, text};
use std::alloc::{AllocError, Global};

// Whether an interpretation makes the closure of each formula true.
fn is_kept(alloc: Global, problem: &Problem, named: &Named) -> Result<bool, AllocError>
    ensures { IfOk result (λ b. MatchBool b (IsKept (stated_of problem.now) named.now)
        (¬ IsKept (stated_of problem.now) named.now)) }
{
    let all = verdicts(alloc, problem, named)?;
    Ok(are_all(&all))
}

fn are_all(all: &[bool]) -> bool
    ensures { result ≡ list_all (λ b. b) all.now }
{
    all.iter().all(|holds| *holds)
}

// Which of the interpretations do.
fn are_kept(
    alloc: Global,
    problem: &Problem,
    its: &Interpretations,
) -> Result<Vec<bool>, AllocError>
    ensures { IfOk result (λ kept. AreKeptAsTold (stated_of problem.now) its.now kept.items) }
{
    let mut kept = Vec::new(alloc);
    for place in 0..its.len() {
        let now = is_kept(alloc, problem, its.at(place))?;
        kept.push(now)?;
    }
    Ok(kept)
}

// Puts the text of interpretation j behind the text, if it is kept.
fn put(
    alloc: Global,
    out: &mut Vec<u8>,
    j: u64,
    named: &Named,
    kept: bool,
) -> Result<(), AllocError>
    ensures { OnOk result (out.new.items ≡ out.old.items ++ kept_text j named.now kept) }
{
    if !kept {
        return Ok(());
    }
    let lines = named_text(alloc, named, j)?;
    text(out, &lines)
}

// The texts of those that are kept, each by its number in the input.
fn kept_texts(alloc: Global, its: &Interpretations, kept: &[bool]) -> Result<Vec<u8>, AllocError>
    requires { length kept.now ≡ length its.now }
    ensures { IfOk result (λ v. v.items ≡ kept_texts 1 its.now kept.now) }
{
    let mut out = Vec::new(alloc);
    for place in 0..its.len() {
        put(
            alloc,
            &mut out,
            place as u64 + 1,
            its.at(place),
            kept[place],
        )?;
    }
    Ok(out)
}

// Puts the totals and the last line behind the text.
fn ending(out: &mut Vec<u8>, kept: &[bool]) -> Result<(), AllocError>
    ensures { OnOk result (out.new.items ≡ out.old.items ++ filter_end kept.now) }
{
    text(out, b"% Kept=")?;
    decimal(out, holding(kept))?;
    text(out, b". Dropped=")?;
    decimal(out, failing(kept))?;
    text(out, b".\n% Exit filtered.\n")
}

/// The whole output of a filter.
pub fn filter_report(
    alloc: Global,
    problem: &Problem,
    its: &Interpretations,
) -> Result<Vec<u8>, AllocError>
    ensures { IfOk result (λ v. (bs : List Bool)
        × AreKeptAsTold (stated_of problem.now) its.now bs
        × (v.items ≡ filter_report its.now bs)) }
{
    let kept = are_kept(alloc, problem, its)?;
    let mut out = kept_texts(alloc, its, &kept)?;
    ending(&mut out, &kept)?;
    Ok(out)
}
