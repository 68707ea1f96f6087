// The texts of generated problems.
ghost use Rattle.std.specs.Prelude.{◌≡◌, ◌+◌, ◌<◌, ◌^◌, ◌++◌, IfOk, OnOk};
ghost use Rattle.ladr_made.specs.Chain.{constant, next_line, passing_line, goal_line, steps_before, assumptions_text, goals_text, made_text};

use ladr_output::{decimal, text};
use std::alloc::{AllocError, Global};

// A constant by its number.
fn constant(out: &mut Vec<u8>, k: u64) -> Result<(), AllocError>
    ensures { OnOk result (out.new.items ≡ out.old.items ++ constant k) }
{
    text(out, b"a")?;
    decimal(out, k)
}

// The function takes a constant to the next one.
fn next_line(out: &mut Vec<u8>, k: u64) -> Result<(), AllocError>
    requires { k + 1 < 2 ^ 64 }
    ensures { OnOk result (out.new.items ≡ out.old.items ++ next_line k) }
{
    text(out, b"g(")?;
    constant(out, k)?;
    text(out, b") = ")?;
    constant(out, k + 1)?;
    text(out, b".\n")
}

// What is so of a constant is so of the function's value there.
fn passing_line(out: &mut Vec<u8>, k: u64) -> Result<(), AllocError>
    ensures { OnOk result (out.new.items ≡ out.old.items ++ passing_line k) }
{
    text(out, b"-p(")?;
    constant(out, k)?;
    text(out, b") | p(g(")?;
    constant(out, k)?;
    text(out, b")).\n")
}

// The steps before step n.
fn steps_before(alloc: Global, n: u64) -> Result<Vec<u8>, AllocError>
    ensures { IfOk result (λ v. v.items ≡ steps_before n) }
{
    let mut out = Vec::new(alloc);
    for k in 0..n {
        next_line(&mut out, k)?;
        passing_line(&mut out, k)?;
    }
    Ok(out)
}

// What is to be proved.
fn goal_line(out: &mut Vec<u8>, n: u64) -> Result<(), AllocError>
    ensures { OnOk result (out.new.items ≡ out.old.items ++ goal_line n) }
{
    text(out, b"p(")?;
    constant(out, n)?;
    text(out, b").\n")
}

// The list of goals.
fn goals(out: &mut Vec<u8>, n: u64) -> Result<(), AllocError>
    ensures { OnOk result (out.new.items ≡ out.old.items ++ goals_text n) }
{
    text(out, b"formulas(goals).\n")?;
    goal_line(out, n)?;
    text(out, b"end_of_list.\n")
}

/// The problem of n steps without its goal.
pub fn assumptions_text(alloc: Global, n: u64) -> Result<Vec<u8>, AllocError>
    ensures { IfOk result (λ v. v.items ≡ assumptions_text n) }
{
    let steps = steps_before(alloc, n)?;
    let mut out = Vec::new(alloc);
    text(&mut out, b"formulas(assumptions).\np(a0).\n")?;
    text(&mut out, &steps)?;
    text(&mut out, b"end_of_list.\n")?;
    Ok(out)
}

/// The problem of n steps.
pub fn made_text(alloc: Global, n: u64) -> Result<Vec<u8>, AllocError>
    ensures { IfOk result (λ v. v.items ≡ made_text n) }
{
    let mut out = assumptions_text(alloc, n)?;
    goals(&mut out, n)?;
    Ok(out)
}
