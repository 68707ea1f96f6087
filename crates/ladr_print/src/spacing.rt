// Which texts would run together, and how a space keeps them apart.
ghost use Rattle.std.specs.Prelude.{◌≡◌, ◌++◌, ◌||◌, OnOk};
ghost use Rattle.ladr_lex.specs.Bytes.{is_ordinary, is_special};
ghost use Rattle.ladr_print.specs.Spacing.{is_wordly, run_together, runs_into, kept_apart};

use ladr_lex::{is_ordinary, is_special};
use std::alloc::AllocError;

// Whether a byte is one of an ordinary symbol, or a quote.
fn is_wordly(byte: u8) -> bool
    ensures { result ≡ is_wordly byte }
{
    is_ordinary(byte) || byte == b'"'
}

// Whether two bytes that meet run together.
fn joins(a: u8, b: u8) -> bool
    ensures { result ≡ run_together a b }
{
    is_special(a) && is_special(b) || is_wordly(a) && is_wordly(b)
}

// Whether a text would run into the one behind it.
#[tactic(auto, using(crate::proofs::Ends::runs_get))]
fn runs_into(left: &[u8], right: &[u8]) -> bool
    ensures { result ≡ runs_into left.now right.now }
{
    match (left.last(), right.first()) {
        (Some(a), Some(b)) => joins(*a, *b),
        _ => false,
    }
}

/// Adds a text with another beside it.
pub fn add_beside(out: &mut Vec<u8>, left: &[u8], right: &[u8]) -> Result<(), AllocError>
    ensures { OnOk result (out.new.items ≡ out.old.items ++ kept_apart left.now right.now) }
{
    out.extend_from_slice(left)?;
    if runs_into(left, right) {
        out.push(b' ')?;
    }
    out.extend_from_slice(right)
}
