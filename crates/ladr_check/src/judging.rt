// The proofs, one after the other.
ghost use Rattle.std.specs.Prelude.{◌≡◌, IfOk};
ghost use Rattle.clausify.specs.Names.{HasNoSkolemRelation};
ghost use Rattle.answered_lines.specs.View.{asked_of, answered_rows_of};
ghost use Rattle.fol_problem.specs.Stated.{stated_of, IsWellFormed};
ghost use Rattle.fol_core.specs.SymbolTable.{KeepsNumbers};
ghost use Rattle.ladr_check.specs.Offered.{offered_by, proofs_in};
ghost use Rattle.ladr_check.specs.Outcomes.{ProofsEnd, end_of_all, ComesOut};

use crate::ends::{CheckEnd, CheckOver};
use clausify::{ClauseError, clauses_of};
use derivation::{Derivation, Row};
use fol_core::Clauses;
use fol_problem::Problem;
use proof_check::{CheckError, check};
use proof_text::ProofRead;
use std::alloc::{AllocError, Global};

// How a check ends in which each of so many proofs was accepted.
fn end_of_all(proofs: u64) -> CheckEnd
    ensures { result ≡ end_of_all proofs }
{
    if proofs == 0 {
        CheckEnd::NotAccepted {
            line: 0,
            row: Row::NoLines,
        }
    } else {
        CheckEnd::Accepted { proofs }
    }
}

// Checks proofs of a problem with these clauses, up to the first one that isn't accepted.
fn check_proofs(
    alloc: Global,
    problem: &Problem,
    clauses: &Clauses,
    proofs: &[Derivation],
) -> Result<CheckOver, AllocError>
    ensures { IfOk result (λ over. ProofsEnd (asked_of problem.now) (answered_rows_of clauses.now)
        (proofs_in proofs.now) over.end over.accepted) }
{
    for (i, proof) in proofs.iter().enumerate() {
        match check(alloc, problem, clauses, &proof.lines) {
            Ok(()) => {}
            Err(CheckError::NotAccepted { line, row }) => {
                return Ok(CheckOver {
                    end: CheckEnd::NotAccepted { line, row },
                    accepted: i as u64,
                });
            }
            Err(CheckError::Memory) => return Err(AllocError),
        }
    }
    let accepted = proofs.len() as u64;
    Ok(CheckOver {
        end: end_of_all(accepted),
        accepted,
    })
}

/// Checks the proofs that were read of a text.
pub fn judge_proofs(alloc: Global, read: ProofRead) -> Result<CheckOver, AllocError>
    requires well_formed { IsWellFormed (stated_of read.problem) }
    requires table { KeepsNumbers read.problem.symbols read.symbols }
    requires no_relation { HasNoSkolemRelation read.problem.symbols read.symbols }
    ensures { IfOk result (λ over. ComesOut (offered_by read) over.end over.accepted) }
{
    let ProofRead {
        problem,
        mut symbols,
        proofs,
        ..
    } = read;
    match clauses_of(alloc, &problem, &mut symbols) {
        Ok(clauses) => check_proofs(alloc, &problem, &clauses, &proofs),
        Err(ClauseError::ClauseLimit { formula }) => Ok(CheckOver {
            end: CheckEnd::ClauseLimit { formula },
            accepted: 0,
        }),
        Err(ClauseError::Memory) => Err(AllocError),
    }
}
