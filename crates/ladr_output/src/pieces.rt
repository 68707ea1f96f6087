// Printing piece by piece.
ghost use Rattle.std.specs.Prelude.{◌≡◌, List, [], ℕ, IfOk, OnErr, OnOk, Err, false};
ghost use Rattle.ladr_output.specs.Telling.{IsPiece, Tells, IsEnd};

use crate::cut::Cut;
use ladr_io::{Sink, write_all};
use std::alloc::AllocError;

/// Prints a text, if memory sufficed for it.
pub fn piece<K: Sink>(text: Result<Vec<u8>, AllocError>, sink: &mut K) -> Result<(), Cut>
    requires { (K.outflow sink.old).over ≡ false }
    ensures printed { (t : List ℕ) → IfOk text (λ v. v.items ≡ t)
        → IsPiece t (K.outflow sink.old) (K.outflow sink.new) result }
    ensures lacking { OnErr text (result ≡ Err Cut.Memory) }
    ensures sufficed { OnOk text (result ≡ Err Cut.Memory → ⊥) }
{
    let text = text?;
    write_all(sink, &text)?;
    Ok(())
}

/// Prints the text that a run ends with, if memory sufficed for it, and hands on how it ends.
#[tactic(auto, using(crate::proofs::Tellings::end_cut))]
pub fn ending<E: Drop, K: Sink>(
    text: Result<Vec<u8>, AllocError>,
    end: E,
    sink: &mut K,
) -> Result<E, Cut>
    requires { (K.outflow sink.old).over ≡ false }
    ensures printed { (t : List ℕ) → IfOk text (λ v. v.items ≡ t)
        → Tells (λ u. u ≡ []) (IsEnd end t) (K.outflow sink.old) (K.outflow sink.new) result }
    ensures lacking { OnErr text (result ≡ Err Cut.Memory) }
    ensures sufficed { OnOk text (result ≡ Err Cut.Memory → ⊥) }
{
    let text = text?;
    write_all(sink, &text)?;
    Ok(end)
}
