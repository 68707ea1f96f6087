// The search for a model of a problem, in memory.
ghost use Rattle.std.specs.Prelude.{◌≡◌, ◌≤◌, IfOk, MatchOption};
ghost use Rattle.ladr_formulas.specs.declared.styles.Mode.TheVariants.{Mace};
ghost use Rattle.ladr_intake.specs.Refusals.{refuses};
ghost use Rattle.ladr_intake.specs.declared.stops.Refused.{Refused};
ghost use Rattle.ladr_made.specs.Modelling.{one_of_size, exhausted, unmodelled, modelled_at, IsModelled, Seeks};

use crate::parts::Modelled;
use ladr_intake::Stop;
use ladr_io::{MemClock, MemSink, MemSource};
use ladr_mace4::{SearchEnd, mace4};
use ladr_words::ModelOptions;
use std::alloc::{AllocError, Global};

// One model is wanted, of size n.
fn one_of_size(n: u64) -> ModelOptions
    ensures { result ≡ one_of_size n }
{
    ModelOptions {
        start_size: Some(n),
        end_size: Some(n),
        max_models: Some(1),
        max_seconds: None,
    }
}

// Searches for a model of size n, unless the bytes are refused.
fn search_at(alloc: Global, bytes: Vec<u8>, n: u64) -> Result<Option<SearchEnd>, AllocError>
    requires first { 1 ≤ n }
    requires last { n ≤ 200 }
    ensures { IfOk result (λ found. MatchOption found
        ((why : Refused) × refuses Mace bytes.items why) (Seeks bytes.items n)) }
{
    let options = one_of_size(n);
    let mut source = MemSource::new(bytes, Vec::new(alloc));
    let mut sink = MemSink::new(alloc, Vec::new(alloc));
    let mut clock = MemClock::new(Vec::new(alloc));
    match mace4(alloc, options, &mut source, &mut sink, &mut clock) {
        Ok(end) => Ok(Some(end)),
        Err(Stop::Refused(_why)) => Ok(None),
        Err(Stop::ReadFault | Stop::WriteFault | Stop::Memory) => Err(AllocError),
    }
}

// What is told of a size where the search ends.
fn modelled_at(n: u64, end: SearchEnd) -> Option<Modelled>
    ensures { result ≡ modelled_at n end }
{
    let status = end.status();
    match end {
        SearchEnd::Exhausted => None,
        SearchEnd::MaxModels => Some(Modelled { status, size: n }),
        SearchEnd::AllModels
        | SearchEnd::MaxMegs
        | SearchEnd::MaxSeconds { .. }
        | SearchEnd::GroundLimit { .. }
        | SearchEnd::ClauseLimit { .. } => Some(Modelled { status, size: 0 }),
    }
}

/// Searches for a model of what the text poses, at one size after the other.
pub fn find_model(alloc: Global, text: &[u8]) -> Result<Modelled, AllocError>
    ensures { IfOk result (IsModelled text.now) }
{
    for n in 2..11 {
        let bytes = Vec::from_slice(alloc, text)?;
        let Some(end) = search_at(alloc, bytes, n)? else {
            return Ok(Modelled { status: 1, size: 0 });
        };
        if let Some(modelled) = modelled_at(n, end) {
            return Ok(modelled);
        }
    }
    Ok(Modelled { status: 2, size: 0 })
}
