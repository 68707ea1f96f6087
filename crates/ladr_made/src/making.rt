// The command as a whole.
ghost use Rattle.std.specs.Prelude.{◌≡◌, false, IfOk};
ghost use Rattle.ladr_made.specs.Making.{IsSummary, Makes};

use crate::chain::{assumptions_text, made_text};
use crate::modelling::find_model;
use crate::proving::prove;
use crate::summary::summary_text;
use ladr_io::Sink;
use ladr_output::{Cut, ending};
use std::alloc::{AllocError, Global};

// The summary of the problem of n steps.
fn made_summary(alloc: Global, n: u64) -> Result<Vec<u8>, AllocError>
    ensures { IfOk result (λ v. IsSummary n v.items) }
{
    let problem = made_text(alloc, n)?;
    let proved = prove(alloc, problem)?;
    let assumptions = assumptions_text(alloc, n)?;
    let modelled = find_model(alloc, &assumptions)?;
    summary_text(alloc, n, proved, modelled)
}

/// Generates the problem of n steps, proves it, checks its proof, looks for a model of it without its goal, and prints what came of it.
pub fn made<K: Sink>(alloc: Global, n: u64, sink: &mut K) -> Result<(), Cut>
    requires { (K.outflow sink.old).over ≡ false }
    ensures { Makes n (K.outflow sink.old) (K.outflow sink.new) result }
{
    ending(made_summary(alloc, n), (), sink)
}
