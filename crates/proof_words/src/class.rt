// Which tokens may stand at a place in the words of a line.
ghost use Rattle.std.specs.Prelude.{◌≡◌};
ghost use Rattle.ladr_lex.specs.Lexeme.{lexeme_of};
ghost use Rattle.proof_words.specs.Classes.{is_of, word_text};

use crate::names::{ContentKind, first_name, is_literal_name, later_name};
use ladr_lex::{Token, TokenKind, whole_number};

/// A class of tokens that may stand at a place.
#[derive(Clone, Copy)]
pub enum TokenClass {
    Open,
    Close,
    OpenSquare,
    CloseSquare,
    Comma,
    Stop,
    Number,
    LiteralName,
    FirstWord(ContentKind),
    StepWord,
    CommaOrClose,
    CommaOrCloseSquare,
}

impl TokenClass {
    /// Whether a token is of the class.
    pub fn has(self, token: &Token) -> bool
        ensures { result ≡ is_of self (lexeme_of token.now) }
    {
        match self {
            TokenClass::Open => token.kind() == TokenKind::Open,
            TokenClass::Close => token.kind() == TokenKind::Close,
            TokenClass::OpenSquare => token.kind() == TokenKind::LeftSquare,
            TokenClass::CloseSquare => token.kind() == TokenKind::RightSquare,
            TokenClass::Comma => token.kind() == TokenKind::Comma,
            TokenClass::Stop => token.kind() == TokenKind::Stop,
            TokenClass::Number => whole_number(word_text(token)).is_some(),
            TokenClass::LiteralName => is_literal_name(word_text(token)),
            TokenClass::FirstWord(kind) => match first_name(word_text(token)) {
                Some(name) => kind.takes(name),
                None => false,
            },
            TokenClass::StepWord => later_name(word_text(token)).is_some(),
            TokenClass::CommaOrClose => {
                token.kind() == TokenKind::Comma || token.kind() == TokenKind::Close
            }
            TokenClass::CommaOrCloseSquare => {
                token.kind() == TokenKind::Comma || token.kind() == TokenKind::RightSquare
            }
        }
    }
}

/// The bytes of an ordinary symbol, and none of another token.
pub fn word_text<'a>(token: &Token<'a>) -> &'a [u8]
    ensures { result.now ≡ word_text (lexeme_of token.now) }
{
    match token.kind() {
        TokenKind::Ordinary => token.text(),
        _ => &[],
    }
}
