// The text of proofs: a frame with a problem, and behind it the blocks of proofs.
// `text.rt` has `read_proof`, which puts the proofs into a value that has none yet. `frame.rt` finds the bytes of the
// problem, `blocks.rt` the blocks behind them, each with white space in place of the lines that are passed over, so
// that places stay; `proofs.rt` reads their lines, block by block, and `refusing.rt` makes refusals with their places.
// `specs/Frame` and `specs/Blocks` say what the frame and the blocks of bytes are, `specs/Proofs` what lines tokens
// are, one behind the other, and `specs/Refused` what is refused first. Answered are the problem, the proofs and the
// symbols of a text, or the first refusal with its place.
#![tactic(auto)]

mod blocks;
mod frame;
mod proofs;
mod refusing;
mod text;

pub use text::{ProofRead, read_proof};
