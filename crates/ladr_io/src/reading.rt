// A whole input read from a source.
ghost use Rattle.std.specs.Prelude.{◌≡◌, ℕ, ◌+◌, ◌≤◌, List, length, false, vec_len, IfOk, OnOk, Err};
ghost use Rattle.ladr_io.specs.declared.reading.ReadAll.TheVariants.{TooLarge, Failed as ReadFailed, Memory};
ghost use Rattle.ladr_io.specs.Streams.{Gives, GivesAll, FailsBehind, WithSome, HasAtMost, HasMoreThan};

use crate::{Failed, Source};
use std::alloc::{AllocError, Global};
use thiserror::Error;

/// Why an input wasn't read.
#[derive(Clone, Copy, Debug, Error)]
pub enum ReadAll {
    #[error("the input is too large")]
    TooLarge,
    #[error("a read failed")]
    Failed,
    #[error("out of memory")]
    Memory,
}

impl From<Failed> for ReadAll {
    ghost from_gives = { λ _ e. e ≡ ReadFailed };

    fn from(_failed: Failed) -> ReadAll {
        ReadAll::Failed
    }
}

impl From<AllocError> for ReadAll {
    ghost from_gives = { λ _ e. e ≡ Memory };

    fn from(_error: AllocError) -> ReadAll {
        ReadAll::Memory
    }
}

// How many bytes a call asks the source for.
const PIECE: usize = 8192;

/// Reads a source to its end, if it has at most `limit` bytes.
pub fn read_all<S: Source>(alloc: Global, source: &mut S, limit: u64) -> Result<Vec<u8>, ReadAll>
    requires { (S.inflow source.old).over ≡ false }
    // All that was left of the source was taken, and is handed out.
    ensures gives { IfOk result (λ v. GivesAll (S.inflow source.old)
        (S.inflow source.new) v.items) }
    ensures within { IfOk result (λ v. vec_len v ≤ limit) }

    // Whether the input is too large is told exactly.
    ensures fits { OnOk result (HasAtMost (S.inflow source.old).left limit) }
    ensures too_large { result ≡ Err ReadAll.TooLarge
        → HasMoreThan (S.inflow source.old).left limit }

    // What is taken from the source where nothing is handed out.
    ensures given_too_large { result ≡ Err ReadAll.TooLarge
        → WithSome (λ n. n ≡ limit + 1) (Gives (S.inflow source.old) (S.inflow source.new)) }
    ensures given_failed { result ≡ Err ReadAll.Failed
        → WithSome (λ n. n ≤ limit) (FailsBehind (S.inflow source.old) (S.inflow source.new)) }
    ensures given_memory { result ≡ Err ReadAll.Memory
        → WithSome (λ n. n ≤ limit) (Gives (S.inflow source.old) (S.inflow source.new)) }
{
    let mut all = Vec::new(alloc);
    let mut buf = [0u8; PIECE];
    loop {
        // One byte past the limit shows that the input is too large.
        let room = limit - all.len() as u64;
        let wanted = room.min(PIECE as u64 - 1) as usize + 1;
        let count = source.read(&mut buf[..wanted])?;
        if count == 0 {
            return Ok(all);
        }
        if count as u64 > room {
            return Err(ReadAll::TooLarge);
        }
        all.extend_from_slice(&buf[..count])?;
    }
}
