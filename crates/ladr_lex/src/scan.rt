// Cuts a text into its tokens.
ghost use Rattle.std.specs.Prelude.{◌≡◌, ◌+◌, ◌^◌, ◌<◌, ◌≤◌, ◌↔◌, ◌||◌, ◌==◌, [], ◌∷◌, ◌++◌, length, drop, slice_index, codes, true, is_some, IsTrue, IfSome, IfOk, OnOk, Err};
ghost use Rattle.std.specs.List.{prefix_len};
ghost use Rattle.ladr_lex.specs.Comments.{begins_with, up_to};
ghost use Rattle.ladr_lex.specs.Cuts.{pieces_of, is_plain_symbol, is_quoted, Cuts};
ghost use Rattle.ladr_lex.specs.Item.{is_stop, has_stop};
ghost use Rattle.ladr_lex.specs.Tokens.{token_kind};
ghost use Rattle.ladr_lex.specs.declared.token.Token.{Token};
ghost use Rattle.ladr_lex.specs.Lexed.{kind_begun_by, kind_beginning, kept, length_behind, special_behind, quoted_behind, comment_behind, in_class, whole_kind, Advances};
ghost use Rattle.ladr_lex.specs.declared.bytes.TokenStart.TheVariants.{Quote, Percent};

use crate::bytes::{Class, TokenStart, is_special, start_of};
use crate::limits::MOST_BYTES;
use crate::token::{Text, Token, TokenKind};
use std::alloc::{AllocError, Global};

/// Why a text isn't cut: it has too many bytes, or memory is lacking.
#[derive(Clone, Copy)]
pub enum Lex {
    Input,
    Memory,
}

impl From<AllocError> for Lex {
    ghost use Rattle.std.specs.Prelude.{◌≡◌};
    ghost use Rattle.ladr_lex.specs.declared.scan.Lex.TheVariants.{Memory};

    ghost from_gives = { λ _ e. e ≡ Memory };

    fn from(_: AllocError) -> Lex {
        Lex::Memory
    }
}

/// The tokens of a text.
pub fn tokens<'a>(alloc: Global, text: &'a Text<'a>) -> Result<Vec<Token<'a>>, Lex>
    ensures cut { IfOk result (λ found.
        Cuts text.now.start text.now.bytes.now (pieces_of found.items)) }
    ensures input { (result ≡ Err Lex.Input) ↔ (MOST_BYTES < length text.now.bytes.now) }
{
    if text.bytes.len() as u64 > MOST_BYTES {
        return Err(Lex::Input);
    }
    let found = tokens_from(alloc, text)?;
    Ok(found)
}

/// The tokens of a text, however many bytes it has below 4 GiB; a longer one is refused as if memory were lacking.
pub fn tokens_from<'a>(alloc: Global, text: &'a Text<'a>) -> Result<Vec<Token<'a>>, AllocError>
    ensures { IfOk result (λ found.
        Cuts text.now.start text.now.bytes.now (pieces_of found.items)) }
{
    if text.bytes.len() > u32::MAX as usize {
        return Err(AllocError);
    }
    let mut found = Vec::new(alloc);
    let mut at = 0;
    while at < text.bytes.len() {
        at = step(&mut found, text, at)?;
    }
    Ok(found)
}

/// Whether bytes are one ordinary or special symbol.
#[tactic(auto, using(crate::proofs::Wholes::symbol_by_kind))]
pub fn is_symbol(text: &[u8]) -> bool
    ensures { result ≡ is_plain_symbol text.now }
{
    matches!(
        whole_kind(text),
        Some(TokenKind::Ordinary | TokenKind::Special)
    )
}

/// Whether bytes are one quoted symbol.
#[tactic(auto, using(crate::proofs::Wholes::quoted_by_kind))]
pub fn is_quoted(text: &[u8]) -> bool
    ensures { result ≡ is_quoted text.now }
{
    matches!(whole_kind(text), Some(TokenKind::Quoted))
}

// The kind of the token that bytes are, if they are one.
fn whole_kind(text: &[u8]) -> Option<TokenKind>
    ensures { result ≡ whole_kind text.now }
{
    if text.is_empty() {
        return None;
    }
    let (kind, end) = piece_at(text, 0);
    if end == text.len() { kind } else { None }
}

/// Adds the token that begins at a place, if one does, with each `-` that was cut off its end, and answers the place behind
/// them. A full stop is added where one stands at the place, and nowhere else.
#[inline(always)]
pub fn step<'a>(
    found: &mut Vec<Token<'a>>,
    text: &'a Text<'a>,
    at: usize,
) -> Result<usize, AllocError>
    requires small { length text.now.bytes.now < 2 ^ 32 }
    requires place { at < length text.now.bytes.now }
    ensures cut { IfOk result (λ next. Advances text.now.start text.now.bytes.now found.old.items
        found.new.items at next × (at < next)) }
    ensures stop { OnOk result (has_stop (pieces_of found.new.items)
        ≡ (has_stop (pieces_of found.old.items) || slice_index text.now.bytes.now at == 46)) }
{
    let (kind, end) = piece_at(text.bytes, at);
    match kind {
        None => Ok(end),
        Some(_) => {
            add(found, text, at, end)?;
            if is_special(text.bytes[at]) {
                dashes(found, text, end)
            } else {
                Ok(end)
            }
        }
    }
}

// Each `-` from a place on is a token, where no special byte but `-` follows.
fn dashes<'a>(
    found: &mut Vec<Token<'a>>,
    text: &'a Text<'a>,
    from: usize,
) -> Result<usize, AllocError>
    requires small { length text.now.bytes.now < 2 ^ 32 }
    requires place { from ≤ length text.now.bytes.now }
    requires dashed { kept (drop from text.now.bytes.now) ≡ 0 }
    ensures cut { IfOk result (λ next.
        Advances text.now.start text.now.bytes.now found.old.items found.new.items from next) }
    ensures stop { OnOk result (has_stop (pieces_of found.new.items)
        ≡ has_stop (pieces_of found.old.items)) }
{
    let mut at = from;
    while at < text.bytes.len() && text.bytes[at] == b'-' {
        add(found, text, at, at + 1)?;
        at += 1;
    }
    Ok(at)
}

/// Adds the token that begins at a place and ends before another.
#[inline(always)]
pub fn add<'a>(
    found: &mut Vec<Token<'a>>,
    text: &'a Text<'a>,
    at: usize,
    end: usize,
) -> Result<(), AllocError>
    requires small { length text.now.bytes.now < 2 ^ 32 }
    requires place { at < length text.now.bytes.now }
    requires token { is_some (kind_beginning (slice_index text.now.bytes.now at)
        (drop (at + 1) text.now.bytes.now)) ≡ true }
    requires end { end ≡ at + 1 + length_behind (slice_index text.now.bytes.now at)
        (drop (at + 1) text.now.bytes.now) }
    requires within { end ≤ length text.now.bytes.now }
    ensures cut { OnOk result (Advances text.now.start text.now.bytes.now found.old.items
        found.new.items at end) }
    ensures stop { OnOk result (has_stop (pieces_of found.new.items)
        ≡ (has_stop (pieces_of found.old.items) || slice_index text.now.bytes.now at == 46)) }
    ensures added { OnOk result ((t : Token) × (found.new.items ≡ found.old.items ++ t ∷ [])
        × (is_stop (token_kind t) ≡ (slice_index text.now.bytes.now at == 46))) }
{
    found.push(Token {
        source: text,
        at: at as u32,
        len: (end - at) as u32,
    })?;
    Ok(())
}

// What begins at a place: its kind, if it is a token, and its end.
#[inline(always)]
fn piece_at(bytes: &[u8], at: usize) -> (Option<TokenKind>, usize)
    requires { at < length bytes.now }
    ensures kind { result.0 ≡ kind_beginning (slice_index bytes.now at) (drop (at + 1) bytes.now) }
    ensures end { result.1
        ≡ at + 1 + length_behind (slice_index bytes.now at) (drop (at + 1) bytes.now) }
    ensures within { result.1 ≤ length bytes.now }
{
    match start_of(bytes[at]) {
        TokenStart::Blank => (None, at + 1),
        TokenStart::Word => (
            Some(TokenKind::Ordinary),
            run_end(bytes, at + 1, Class::Ordinary),
        ),
        TokenStart::Sign => (Some(TokenKind::Special), special_end(bytes, at)),
        TokenStart::Quote => quoted_at(bytes, at),
        TokenStart::Percent => comment_at(bytes, at),
        TokenStart::Single(kind) => (Some(kind), at + 1),
    }
}

// What begins with the quote at a place: a quoted symbol, or the quote alone where that isn't closed.
fn quoted_at(bytes: &[u8], at: usize) -> (Option<TokenKind>, usize)
    requires { at < length bytes.now }
    ensures kind { result.0 ≡ kind_begun_by Quote (drop (at + 1) bytes.now) }
    ensures end { result.1 ≡ at + 1 + quoted_behind (drop (at + 1) bytes.now) }
    ensures within { result.1 ≤ length bytes.now }
{
    let end = run_end(bytes, at + 1, Class::Quotable);
    if has_at(bytes, end, b"\"") {
        (Some(TokenKind::Quoted), end + 1)
    } else {
        (Some(TokenKind::Unreadable), at + 1)
    }
}

// What begins with the `%` at a place: a comment, or a block that isn't closed, which all that is left belongs to.
fn comment_at(bytes: &[u8], at: usize) -> (Option<TokenKind>, usize)
    requires { at < length bytes.now }
    ensures kind { result.0 ≡ kind_begun_by Percent (drop (at + 1) bytes.now) }
    ensures end { result.1 ≡ at + 1 + comment_behind (drop (at + 1) bytes.now) }
    ensures within { result.1 ≤ length bytes.now }
{
    if !has_at(bytes, at + 1, b"BEGIN") {
        return (None, run_end(bytes, at + 1, Class::InLine));
    }
    match to_block_end(bytes, at + 1) {
        Some(more) => (None, at + 1 + more),
        None => (Some(TokenKind::Unreadable), bytes.len()),
    }
}

// How many bytes there are from a place on up to the end of the first `%END`.
fn to_block_end(bytes: &[u8], from: usize) -> Option<usize>
    requires { from ≤ length bytes.now }
    ensures end { result ≡ up_to (codes "%END") (drop from bytes.now) }
    ensures within { IfSome result (λ more. from + more ≤ length bytes.now) }
{
    for at in from..bytes.len() {
        if has_at(bytes, at, b"%END") {
            return Some(at + 4 - from);
        }
    }
    None
}

// Whether the bytes from a place on begin with a word.
fn has_at(bytes: &[u8], at: usize, word: &[u8]) -> bool
    requires { at ≤ length bytes.now }
    ensures word { result ≡ begins_with word.now (drop at bytes.now) }
    ensures room { IsTrue result → at + length word.now ≤ length bytes.now }
{
    bytes[at..].starts_with(word)
}

// Where the run of bytes of a class ends, from a place on.
fn run_end(bytes: &[u8], from: usize, class: Class) -> usize
    requires { from ≤ length bytes.now }
    ensures end { result ≡ from + prefix_len (in_class class) (drop from bytes.now) }
    ensures within { result ≤ length bytes.now }
{
    let mut end = from;
    while end < bytes.len() && class.has(bytes[end]) {
        end += 1;
    }
    end
}

// Where the special token that begins at a place ends.
fn special_end(bytes: &[u8], at: usize) -> usize
    requires { at < length bytes.now }
    ensures end { result ≡ at + 1 + special_behind (slice_index bytes.now at)
        (drop (at + 1) bytes.now) }
    ensures within { result ≤ length bytes.now }
{
    let end = kept_end(bytes, at + 1);
    if bytes[at] == b'<' && end == at + 1 && end < bytes.len() && bytes[end] == b'-' {
        at + 2
    } else {
        end
    }
}

// Where the run of special bytes from a place on ends, without each `-` at its end.
fn kept_end(bytes: &[u8], from: usize) -> usize
    requires { from ≤ length bytes.now }
    ensures end { result ≡ from + kept (drop from bytes.now) }
    ensures within { result ≤ length bytes.now }
{
    let mut end = from;
    let mut at = from;
    while at < bytes.len() && is_special(bytes[at]) {
        let byte = bytes[at];
        at += 1;
        if byte != b'-' {
            end = at;
        }
    }
    end
}
