ghost use Rattle.fol_problem.specs.Stated.{stated_of, IsWellFormed};
ghost use Rattle.prover.specs.Provers.{IsGoing, MayGoOn};

use clausify::{clauses_of, own_table};
use fol_core::Clauses;
use fol_problem::Problem;
use ladr_formulas::Mode;
use ladr_io::{Clock, MemClock};
use ladr_output::{decimal, text};
use ladr_problem::read_problem;
use prover::{Prover, ProverAnswer};
use std::alloc::{AllocError, Global};
use std::test::Fail;

// `p` holds of the first of n + 1 constants, and passes on from each to the next: the function's value there.
fn chain(alloc: Global, n: u64) -> Result<Vec<u8>, AllocError> {
    let mut out = Vec::new(alloc);
    text(&mut out, b"formulas(assumptions).\np(a0).\n")?;
    for k in 0..n {
        text(&mut out, b"g(a")?;
        decimal(&mut out, k)?;
        text(&mut out, b") = a")?;
        decimal(&mut out, k.saturating_add(1))?;
        text(&mut out, b".\n-p(a")?;
        decimal(&mut out, k)?;
        text(&mut out, b") | p(g(a")?;
        decimal(&mut out, k)?;
        text(&mut out, b")).\n")?;
    }
    text(&mut out, b"end_of_list.\nformulas(goals).\np(a")?;
    decimal(&mut out, n)?;
    text(&mut out, b").\nend_of_list.\n")?;
    Ok(out)
}

// How many entries of its two indexes a prover tests up to the next proof, and what it has kept then.
fn counts_of<C: Clock>(
    alloc: Global,
    prover: &mut Prover<'_>,
    clock: &mut C,
) -> Result<Option<(u64, u64)>, AllocError>
    requires { IsGoing prover.old → MayGoOn prover.old (C.times clock.old) }
{
    match prover.run(alloc, clock)? {
        ProverAnswer::Proof(_) => Ok(Some((prover.tries(), prover.counters().kept))),
        _ => Ok(None),
    }
}

// The same of a search for one proof of a problem.
fn counted(alloc: Global, problem: &Problem) -> Result<Option<(u64, u64)>, AllocError>
    requires { IsWellFormed (stated_of problem.now) }
{
    own_table();
    let mut symbols = problem.symbols.copy(alloc)?;
    let Ok(Clauses { clauses, .. }) = clauses_of(alloc, problem, &mut symbols) else {
        return Ok(None);
    };
    let mut prover = Prover::new(alloc, problem, &symbols, &clauses, None)?;
    let mut clock = MemClock::new(Vec::new(alloc));
    let counts = counts_of(alloc, &mut prover, &mut clock);
    prover.close();
    counts
}

#[test]
fn few_entries_of_indexes_are_tested(rt: HostRuntime) -> Result<(), Fail> {
    let alloc = rt.alloc();
    let made = chain(alloc, 200)?;
    let Ok(read) = read_problem(alloc, Mode::Prover, &made) else {
        return Err(Fail::from("not read"));
    };
    let found = counted(alloc, &read.problem)?;
    assert!(rt;
        matches!(found, Some((tries, kept)) if tries > 0 && tries <= 20_000 && kept == 401)
    );
    Ok(())
}
