// The blocks of a proof's text.
ghost use Rattle.std.specs.Prelude.{◌≡◌, ◌∷◌, ◌++◌, ◌<◌, ◌≤◌, IfOk, OnOk, length, drop, slice_range};
ghost use Rattle.proof_text.specs.Blocks.{lines_in, has_text, blank, bared};
ghost use Rattle.proof_text.specs.Found.{IsBlockFound, HasFoundBlocks};

use crate::frame::first_line_len;
use std::alloc::{AllocError, Global};

/// A block: the place of its first line and that behind its last one, its bytes with white space for the lines that are passed
/// over, and whether the banner of its end follows.
#[derive(Drop)]
pub struct BlockRead {
    pub start: usize,
    pub end: usize,
    pub bytes: Vec<u8>,
    pub closed: bool,
}

/// The banner of a proof.
const PROOF: &[u8] = b"============================== PROOF =================================";

/// The banner of a proof's end.
const END: &[u8] = b"============================== end of proof ==========================";

// Whether a line has this text.
fn has_text(line: &[u8], text: &[u8]) -> bool
    ensures { result ≡ has_text text.now line.now }
{
    &line[..first_line_len(line)] == text
}

// Where the line that begins at a place ends, its end included.
#[tactic(auto, using(crate::proofs::LineLemmas::line_at, crate::proofs::LineLemmas::last_line_at))]
fn line_end(bytes: &[u8], at: usize) -> usize
    requires { at < length bytes.now }
    ensures some { at < result }
    ensures within { result ≤ length bytes.now }
    ensures line { lines_in (drop at bytes.now) ≡ slice_range bytes.now at result
        ∷ lines_in (drop result bytes.now) }
{
    let rest = &bytes[at..];
    let len = first_line_len(rest);
    if len < rest.len() {
        at + len + 1
    } else {
        at + len
    }
}

// A byte of a line that is passed over.
fn blank(byte: u8) -> u8
    ensures { result ≡ blank byte }
{
    if byte == b'\n' { byte } else { b' ' }
}

// Adds a line, or white space where it is passed over.
fn add_bared(line: &[u8], bytes: &mut Vec<u8>) -> Result<(), AllocError>
    ensures { OnOk result (bytes.new.items ≡ bytes.old.items ++ bared line.now) }
{
    if !line.starts_with(b"%") {
        bytes.extend_from_slice(line)?;
        return Ok(());
    }
    for byte in line {
        bytes.push(blank(*byte))?;
    }
    Ok(())
}

// The block whose first line begins at a place, and where the text goes on behind it.
#[tactic(auto, using(crate::proofs::Gathered::gathered_none, crate::proofs::Gathered::gathered_more, crate::proofs::Gathered::at_line, crate::proofs::Gathered::closed_at, crate::proofs::Gathered::open_at))]
fn block_at(alloc: Global, bytes: &[u8], start: usize) -> Result<(BlockRead, usize), AllocError>
    requires { start ≤ length bytes.now }
    ensures found { IfOk result (λ r. IsBlockFound bytes.now start r.0 r.1) }
    ensures onward { IfOk result (λ r. (start ≤ r.1) × (r.1 ≤ length bytes.now)) }
{
    let mut bare = Vec::new(alloc);
    let mut at = start;
    while at < bytes.len() {
        let end = line_end(bytes, at);
        let line = &bytes[at..end];
        if has_text(line, END) {
            let block = BlockRead {
                start,
                end: at,
                bytes: bare,
                closed: true,
            };
            return Ok((block, end));
        }
        add_bared(line, &mut bare)?;
        at = end;
    }
    let block = BlockRead {
        start,
        end: at,
        bytes: bare,
        closed: false,
    };
    Ok((block, at))
}

/// The blocks of the lines from a place on.
#[tactic(auto, using(crate::proofs::Gathered::passed_none, crate::proofs::Gathered::passed_line, crate::proofs::Gathered::passed_block, crate::proofs::Gathered::at_line, crate::proofs::Gathered::all_found))]
pub fn find_blocks(alloc: Global, bytes: &[u8], from: usize) -> Result<Vec<BlockRead>, AllocError>
    requires { from ≤ length bytes.now }
    ensures { IfOk result (λ found.
        HasFoundBlocks from (lines_in (drop from bytes.now)) found.items) }
{
    let mut found = Vec::new(alloc);
    let mut at = from;
    while at < bytes.len() {
        let end = line_end(bytes, at);
        if has_text(&bytes[at..end], PROOF) {
            let (block, next) = block_at(alloc, bytes, end)?;
            found.push(block)?;
            at = next;
        } else {
            at = end;
        }
    }
    Ok(found)
}
