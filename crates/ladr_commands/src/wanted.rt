// Which tokens may stand at a place.
ghost use Rattle.std.specs.Prelude.{◌≡◌, codes};
ghost use Rattle.ladr_lex.specs.Lexeme.{lexeme_of};
ghost use Rattle.ladr_commands.specs.Wanted.{fits, symbol_text, is_symbol, is_number, is_open, is_close, is_comma, is_open_square, is_close_square, is_word, is_equality, is_interpretation, is_kind_word, kind_said};
ghost use Rattle.ladr_commands.specs.declared.wanted.Wanted.TheVariants.{CommandWord};

use crate::word::word_of;
use fol_core::Kind;
use ladr_lex::{Token, TokenKind, is_numeral};

/// A class of tokens that may stand at a place.
#[derive(Clone, Copy)]
pub enum Wanted {
    Open,
    Close,
    OpenSquare,
    CloseSquare,
    Comma,
    Stop,
    Symbol,
    Numeral,
    CommandWord,
    CommaOrCloseSquare,
    SymbolOrOpenSquare,
    NumeralOrClose,
    TesterWord,
    InterpretationWord,
    Equality,
    Place,
    CommaOrOpen,
    CommaOrClose,
    SymbolOrCloseSquare,
    KindWord,
    KindWordOrCloseSquare,
}

impl Wanted {
    /// Whether a token is of the class.
    pub fn fits(self, token: &Token) -> bool
        ensures { result ≡ fits self (lexeme_of token.now) }
    {
        match self {
            Wanted::Open => is_open(token),
            Wanted::Close => is_close(token),
            Wanted::OpenSquare => is_open_square(token),
            Wanted::CloseSquare => is_close_square(token),
            Wanted::Comma => is_comma(token),
            Wanted::Stop => token.kind() == TokenKind::Stop,
            Wanted::Symbol => is_symbol(token),
            Wanted::Numeral => is_number(token),
            Wanted::CommandWord => is_command_word(token),
            Wanted::CommaOrCloseSquare => is_comma(token) || is_close_square(token),
            Wanted::SymbolOrOpenSquare => is_symbol(token) || is_open_square(token),
            Wanted::NumeralOrClose => is_number(token) || is_close(token),
            Wanted::TesterWord => is_interpretation(token) || is_command_word(token),
            Wanted::InterpretationWord => is_interpretation(token),
            Wanted::Equality => is_equality(token),
            Wanted::Place => is_word(token, b"_"),
            Wanted::CommaOrOpen => is_comma(token) || is_open(token),
            Wanted::CommaOrClose => is_comma(token) || is_close(token),
            Wanted::SymbolOrCloseSquare => is_symbol(token) || is_close_square(token),
            Wanted::KindWord => is_kind_word(token),
            Wanted::KindWordOrCloseSquare => is_kind_word(token) || is_close_square(token),
        }
    }
}

fn is_command_word(token: &Token) -> bool
    ensures { result ≡ fits CommandWord (lexeme_of token.now) }
{
    word_of(text_of(token)).is_some()
}

/// The bytes of a symbol, and none of another token.
pub fn text_of<'a>(token: &Token<'a>) -> &'a [u8]
    ensures { result.now ≡ symbol_text (lexeme_of token.now) }
{
    match token.kind() {
        TokenKind::Ordinary | TokenKind::Quoted | TokenKind::Special => token.text(),
        _ => &[],
    }
}

pub fn is_symbol(token: &Token) -> bool
    ensures { result ≡ is_symbol (lexeme_of token.now) }
{
    match token.kind() {
        TokenKind::Ordinary | TokenKind::Quoted | TokenKind::Special => true,
        _ => false,
    }
}

pub fn is_number(token: &Token) -> bool
    ensures { result ≡ is_number (lexeme_of token.now) }
{
    match token.kind() {
        TokenKind::Ordinary => is_numeral(token.text()),
        _ => false,
    }
}

pub fn is_close(token: &Token) -> bool
    ensures { result ≡ is_close (lexeme_of token.now) }
{
    token.kind() == TokenKind::Close
}

pub fn is_open_square(token: &Token) -> bool
    ensures { result ≡ is_open_square (lexeme_of token.now) }
{
    token.kind() == TokenKind::LeftSquare
}

pub fn is_close_square(token: &Token) -> bool
    ensures { result ≡ is_close_square (lexeme_of token.now) }
{
    token.kind() == TokenKind::RightSquare
}

pub fn is_comma(token: &Token) -> bool
    ensures { result ≡ is_comma (lexeme_of token.now) }
{
    token.kind() == TokenKind::Comma
}

pub fn is_open(token: &Token) -> bool
    ensures { result ≡ is_open (lexeme_of token.now) }
{
    token.kind() == TokenKind::Open
}

fn is_word(token: &Token, word: &[u8]) -> bool
    ensures { result ≡ is_word word.now (lexeme_of token.now) }
{
    token.kind() == TokenKind::Ordinary && token.text() == word
}

fn is_equality(token: &Token) -> bool
    ensures { result ≡ is_equality (lexeme_of token.now) }
{
    token.kind() == TokenKind::Special && token.text() == b"=".as_slice()
}

/// Whether a token is the word of interpretations.
pub fn is_interpretation(token: &Token) -> bool
    ensures { result ≡ is_interpretation (lexeme_of token.now) }
{
    is_word(token, b"interpretation")
}

fn is_kind_word(token: &Token) -> bool
    ensures { result ≡ is_kind_word (lexeme_of token.now) }
{
    is_word(token, b"function") || is_word(token, b"relation")
}

/// The kind that a word tells.
pub fn kind_in(token: &Token) -> Kind
    ensures { result ≡ kind_said (lexeme_of token.now) }
{
    if is_word(token, b"function") {
        Kind::Function
    } else {
        Kind::Relation
    }
}
