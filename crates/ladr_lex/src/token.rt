// Texts that are cut, and their tokens.
ghost use Rattle.std.specs.Prelude.{◌+◌, ◌^◌, ◌<◌, ◌≤◌, length};

use crate::bytes::kind_in;

/// The kinds of tokens. `Unreadable` is what no item has: a byte that begins no other token and no comment, or a block that
/// isn't closed, up to the end of the text. The first byte of either is the place to name.
#[derive(Clone, Copy)]
pub enum TokenKind {
    Open,
    Close,
    LeftSquare,
    RightSquare,
    Comma,
    Stop,
    Ordinary,
    Quoted,
    Special,
    Unreadable,
}

/// Bytes that are cut into tokens, and the place of the first of them, from which the places of the tokens count.
#[derive(Clone, Copy)]
pub struct Text<'a> {
    pub bytes: &'a [u8],
    pub start: usize,
    pub ghost placed: { start + length bytes.now < 2 ^ 64 },
}

/// A token of a text: the number, from 0, of the byte that it begins with, and how many bytes it has. Its bytes, their
/// kind and their place are told from the text, since texts may have millions of tokens.
#[derive(Clone, Copy)]
pub struct Token<'a> {
    pub source: &'a Text<'a>,
    pub at: u32,
    pub len: u32,
    pub ghost within: { at + len ≤ length source.now.bytes.now },
}

impl<'a> Token<'a> {
    ghost use Rattle.std.specs.Prelude.{◌≡◌};
    ghost use Rattle.ladr_lex.specs.Tokens.{token_kind, token_text, token_start};

    /// What it stands for in the text, quotes included.
    #[tactic(auto, unfolding(crate::specs::Tokens::token_text))]
    #[inline(always)]
    pub fn text(&self) -> &'a [u8]
        ensures { result.now ≡ token_text self.now }
    {
        let at = self.at as usize;
        &self.source.bytes[at..at + self.len as usize]
    }

    /// Its kind.
    #[tactic(auto, unfolding(crate::specs::Tokens::token_kind))]
    #[inline(always)]
    pub fn kind(&self) -> TokenKind
        ensures { result ≡ token_kind self.now }
    {
        kind_in(self.text())
    }

    /// The place of its first byte.
    #[tactic(auto, unfolding(crate::specs::Tokens::token_start))]
    pub fn start(&self) -> usize
        ensures { result ≡ token_start self.now }
    {
        self.source.start + self.at as usize
    }
}
