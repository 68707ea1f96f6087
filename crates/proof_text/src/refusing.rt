// Refusals with their places.
ghost use Rattle.std.specs.Prelude.{◌≡◌, IfOk};
ghost use Rattle.ladr_lex.specs.Cuts.{pieces_of};
ghost use Rattle.ladr_problem.specs.File.{start_at};
ghost use Rattle.proof_text.specs.Going.{OrMemory};
ghost use Rattle.proof_text.specs.Refused.{IsPlaceOf, byte_shown, token_shown, IsTokenPlace, IsUnreadableAt, IsLineRefused};

use crate::blocks::BlockRead;
use fol_core::Name;
use ladr_lex::{Token, place_of};
use ladr_problem::{Limit, Place, ReadError, shown, shown_byte};
use proof_lines::LineFault;
use std::alloc::{AllocError, Global};

// The place of a byte, with what is shown there.
fn place_with(bytes: &[u8], byte: usize, token: Name) -> Place
    ensures byte { result.byte ≡ byte }
    ensures place { IsPlaceOf bytes.now token result }
{
    let spot = place_of(bytes, byte.min(bytes.len()));
    Place {
        byte: byte as u64,
        line: spot.line,
        column: spot.column,
        token,
    }
}

// One byte as it is shown, or that the input ends.
fn byte_name(alloc: Global, bytes: &[u8], byte: usize) -> Result<Name, AllocError>
    ensures { IfOk result (λ name. name ≡ byte_shown bytes.now byte) }
{
    match bytes.get(byte) {
        Some(found) => Name::from_slice(alloc, &[shown_byte(*found)]),
        None => Name::from_slice(alloc, b"end of input"),
    }
}

/// The refusal of a text at a byte.
pub fn refuse_byte(alloc: Global, bytes: &[u8], byte: usize) -> ReadError
    ensures { OrMemory (IsUnreadableAt bytes.now byte) result }
{
    match byte_name(alloc, bytes, byte) {
        Ok(token) => ReadError::Unreadable(place_with(bytes, byte, token)),
        Err(_) => ReadError::Memory,
    }
}

// Where a token of a block begins, or its last line ends.
fn token_start(block: &BlockRead, tokens: &[Token], k: usize) -> usize
    ensures { result ≡ start_at block.now.end (pieces_of tokens.now) k }
{
    match tokens.get(k) {
        Some(token) => token.start(),
        None => block.end,
    }
}

// What is shown of a token of a block, or of what stands behind the last one.
fn token_name(
    alloc: Global,
    block: &BlockRead,
    tokens: &[Token],
    k: usize,
) -> Result<Name, AllocError>
    ensures { IfOk result (λ name. name ≡ token_shown block.now.closed (pieces_of tokens.now) k) }
{
    match tokens.get(k) {
        Some(token) => shown(alloc, token),
        None if block.closed => Name::from_slice(alloc, b"===================="),
        None => Name::from_slice(alloc, b"end of input"),
    }
}

// The place of a token of a block.
fn token_place(
    alloc: Global,
    bytes: &[u8],
    block: &BlockRead,
    tokens: &[Token],
    k: usize,
) -> Result<Place, AllocError>
    ensures { IfOk result (λ p. IsTokenPlace bytes.now block.now.end block.now.closed
        (pieces_of tokens.now) k p) }
{
    let token = token_name(alloc, block, tokens, k)?;
    Ok(place_with(bytes, token_start(block, tokens, k), token))
}

/// The refusal of a line of a block, which begins with these tokens.
pub fn refuse_line(
    alloc: Global,
    bytes: &[u8],
    block: &BlockRead,
    tokens: &[Token],
    fault: LineFault,
) -> ReadError
    ensures { OrMemory (IsLineRefused bytes.now block.now.end block.now.closed
        (pieces_of tokens.now) fault) result }
{
    match fault {
        LineFault::Bad(k) => match token_place(alloc, bytes, block, tokens, k) {
            Ok(place) => ReadError::Unreadable(place),
            Err(_) => ReadError::Memory,
        },
        LineFault::Deep => ReadError::TooLarge {
            byte: token_start(block, tokens, 0) as u64,
            what: Limit::Nesting,
        },
        LineFault::Misused(misuse) => match token_place(alloc, bytes, block, tokens, 0) {
            Ok(place) => ReadError::Misuse(place, misuse),
            Err(_) => ReadError::Memory,
        },
        LineFault::Memory => ReadError::Memory,
    }
}
