// What bytes are read from and written to.
ghost use Rattle.std.specs.Prelude.{◌≡◌, ℕ, ◌<◌, ◌≤◌, [], false, true, take, length, IfOk, MatchResult, Ok};
ghost use Rattle.ladr_io.specs.Streams.{Inflow, Outflow, Gives, FailsBehind, Takes, TakesFront, IsDrained};

use thiserror::Error;

/// A call of a stream failed.
#[derive(Clone, Copy, Debug, Error)]
#[error("a read or a write failed")]
pub struct Failed;

/// Bytes to be read.
pub trait Source {
    // What is known of it; its count of faults may stop at the greatest u64.
    ghost inflow: { Self → Inflow };

    /// Puts bytes at the front of the buffer and tells how many. None, for a buffer that isn't empty,
    /// means that the input has ended. Nothing is asked of a source that told its end, or that failed.
    fn read(&mut self, buf: &mut [u8]) -> Result<usize, Failed>
        requires { (inflow self.old).over ≡ false }
        ensures within { IfOk result (λ n. n ≤ length buf.new) }
        ensures gives { MatchResult result (λ n. Gives (inflow self.old) (inflow self.new)
            (take n buf.new)) (λ _. FailsBehind (inflow self.old) (inflow self.new) []) }
        ensures more { IfOk result (λ n. 0 < n → (inflow self.new).over ≡ false) }
        ensures drained { result ≡ Ok 0 → 0 < length buf.old → IsDrained (inflow self.new).left }
        ensures ends { result ≡ Ok 0 → 0 < length buf.old → (inflow self.new).over ≡ true };
}

/// A place that bytes are written to.
pub trait Sink {
    // What is known of it; its count of faults may stop at the greatest u64.
    ghost outflow: { Self → Outflow };

    /// Takes bytes from the front of the piece and tells how many: at least one, if it isn't empty. Nothing is asked of a sink
    /// that failed.
    fn write(&mut self, piece: &[u8]) -> Result<usize, Failed>
        requires { (outflow self.old).over ≡ false }
        ensures within { IfOk result (λ n. n ≤ length piece.now) }
        ensures takes { MatchResult result (λ n. Takes (outflow self.old) (outflow self.new)
            (take n piece.now)) (λ _. TakesFront (outflow self.old) (outflow self.new) []) }
        ensures takes_some { 0 < length piece.now → IfOk result (λ n. 0 < n) };
}
