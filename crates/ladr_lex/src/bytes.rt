// The classes of bytes.
ghost use Rattle.std.specs.Prelude.{◌≡◌};
ghost use Rattle.ladr_lex.specs.Bytes.{is_ordinary, is_special};
ghost use Rattle.ladr_lex.specs.Starts.{start_of, kind_with, kind_in};

use crate::token::TokenKind;

/// What begins with a byte: white space, an ordinary symbol, a special one, a quoted one, a comment, or a token of one byte.
#[derive(Clone, Copy)]
pub enum TokenStart {
    Blank,
    Word,
    Sign,
    Quote,
    Percent,
    Single(TokenKind),
}

/// The classes whose runs are looked for: bytes of ordinary symbols, bytes between quotes, bytes of one line.
#[derive(Clone, Copy)]
pub enum Class {
    Ordinary,
    Quotable,
    InLine,
}

impl Class {
    ghost use Rattle.std.specs.Prelude.{◌≡◌};
    ghost use Rattle.ladr_lex.specs.Lexed.{in_class};

    /// Whether a byte is of the class.
    pub fn has(self, byte: u8) -> bool
        ensures { result ≡ in_class self byte }
    {
        match self {
            Class::Ordinary => is_ordinary(byte),
            Class::Quotable => byte >= b' ' && byte != b'"',
            Class::InLine => byte != b'\n',
        }
    }
}

/// Whether a byte is a letter, a digit, `_` or `$`.
#[tactic(auto, unfolding(crate::specs::Starts::start_of, crate::specs::Bytes::is_blank, crate::specs::Bytes::is_ordinary, crate::specs::Bytes::is_special))]
#[inline(always)]
pub fn is_ordinary(byte: u8) -> bool
    ensures { result ≡ is_ordinary byte }
{
    matches!(start_of(byte), TokenStart::Word)
}

/// Whether a byte is special; `'`, which is a token by itself, isn't meant.
#[tactic(auto, unfolding(crate::specs::Starts::start_of, crate::specs::Bytes::is_blank, crate::specs::Bytes::is_ordinary, crate::specs::Bytes::is_special))]
#[inline(always)]
pub fn is_special(byte: u8) -> bool
    ensures { result ≡ is_special byte }
{
    matches!(start_of(byte), TokenStart::Sign)
}

/// What begins with a byte.
#[tactic(auto, unfolding(crate::specs::Starts::start_of, crate::specs::Bytes::is_blank, crate::specs::Bytes::is_ordinary, crate::specs::Bytes::is_special))]
#[inline(always)]
pub fn start_of(byte: u8) -> TokenStart
    ensures { result ≡ start_of byte }
{
    match byte {
        b'(' => TokenStart::Single(TokenKind::Open),
        b')' => TokenStart::Single(TokenKind::Close),
        b',' => TokenStart::Single(TokenKind::Comma),
        b'.' => TokenStart::Single(TokenKind::Stop),
        b'\t' | b'\n' | b'\r' | b' ' => TokenStart::Blank,
        b'a'..=b'z' | b'A'..=b'Z' | b'0'..=b'9' | b'_' | b'$' => TokenStart::Word,
        b'+'
        | b'-'
        | b'*'
        | b'/'
        | b'\\'
        | b'^'
        | b'<'
        | b'>'
        | b'='
        | b'~'
        | b'?'
        | b'@'
        | b'&'
        | b'|'
        | b'!'
        | b'#'
        | b';'
        | b'`' => TokenStart::Sign,
        b'"' => TokenStart::Quote,
        b'%' => TokenStart::Percent,
        b'\'' => TokenStart::Single(TokenKind::Special),
        b'[' => TokenStart::Single(TokenKind::LeftSquare),
        b']' => TokenStart::Single(TokenKind::RightSquare),
        _ => TokenStart::Single(TokenKind::Unreadable),
    }
}

/// The kind of a token's bytes.
#[inline(always)]
pub fn kind_in(text: &[u8]) -> TokenKind
    ensures { result ≡ kind_in text.now }
{
    match text {
        [] => TokenKind::Unreadable,
        [first, behind @ ..] => kind_with(start_of(*first), behind),
    }
}

// The kind of a token that begins so, with the bytes behind its first.
#[inline(always)]
fn kind_with(start: TokenStart, behind: &[u8]) -> TokenKind
    ensures { result ≡ kind_with start behind.now }
{
    match start {
        TokenStart::Word => TokenKind::Ordinary,
        TokenStart::Sign => TokenKind::Special,
        TokenStart::Quote => match behind {
            [] => TokenKind::Unreadable,
            [_, ..] => TokenKind::Quoted,
        },
        TokenStart::Single(kind) => kind,
        TokenStart::Blank | TokenStart::Percent => TokenKind::Unreadable,
    }
}
