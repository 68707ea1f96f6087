// The frame of a proof's text.
ghost use Rattle.std.specs.Prelude.{◌≡◌, ◌+◌, ◌<◌, ◌≤◌, ◌^◌, IfOk, IfErr, length, drop, slice_range};
ghost use Rattle.std.specs.List.{prefix_len};
ghost use Rattle.ladr_lex.specs.Comments.{is_in_line};
ghost use Rattle.ladr_lex.specs.Numeral.{fitting};
ghost use Rattle.proof_text.specs.Frame.{count_told, IsFramed, IsUnframed};

use ladr_lex::whole_number;

/// Where the bytes of the problem begin and end; the end of a line stands behind them.
#[derive(Clone, Copy)]
pub struct Frame {
    pub start: usize,
    pub end: usize,
}

// Whether a byte ends no line.
fn is_in_line(byte: u8) -> bool
    ensures { result ≡ is_in_line byte }
{
    byte != b'\n'
}

/// How many bytes stand in front of the first end of a line.
pub fn first_line_len(bytes: &[u8]) -> usize
    ensures len { result ≡ prefix_len is_in_line bytes.now }
    ensures within { result ≤ length bytes.now }
{
    let mut len = 0;
    while len < bytes.len() && is_in_line(bytes[len]) {
        len += 1;
    }
    len
}

// The number of bytes that a line tells.
fn count_told(line: &[u8]) -> Option<u64>
    ensures { result ≡ count_told line.now }
{
    if line.starts_with(b"% Input ") {
        whole_number(&line[8..])
    } else {
        None
    }
}

/// The frame of a text, or the byte where it can't be read.
#[tactic(auto, using(crate::proofs::LineLemmas::framed_at, crate::proofs::LineLemmas::untold, crate::proofs::LineLemmas::cut_off))]
pub fn read_frame(bytes: &[u8]) -> Result<Frame, usize>
    ensures framed { IfOk result (λ f. IsFramed bytes.now (slice_range bytes.now f.start f.end)
        (drop (f.end + 1) bytes.now)) }
    ensures within { IfOk result (λ f. (f.start ≤ f.end) × (f.end < length bytes.now)) }
    ensures unframed { IfErr result (IsUnframed bytes.now) }
{
    let len = first_line_len(bytes);
    let Some(count) = count_told(&bytes[..len]) else {
        return Err(0);
    };
    match problem_end(len, count) {
        Some(end) if end < bytes.len() => {
            if bytes[end] == b'\n' {
                Ok(Frame {
                    start: len + 1,
                    end,
                })
            } else {
                Err(end)
            }
        }
        _ => Err(bytes.len()),
    }
}

// Where so many bytes end behind a first line of this length, if the place has a number.
fn problem_end(len: usize, count: u64) -> Option<usize>
    requires { len + 1 < 2 ^ 64 }
    ensures { result ≡ fitting (len + 1 + count) }
{
    (len + 1).checked_add(count as usize)
}
