// Going through the tokens of a line's words.
ghost use Rattle.std.specs.Prelude.{◌≡◌, ◌∷◌, Err, true, IfOk, OnOk, length};
ghost use Rattle.ladr_lex.specs.Lexeme.{Lexeme, lexeme_of, lexemes_of};
ghost use Rattle.proof_words.specs.Classes.{is_of};
ghost use Rattle.proof_words.specs.Spelling.{Spelling, wants, words_outcome, stops};
ghost use Rattle.proof_words.specs.declared.fault.Halt.TheVariants.{Bad};

use crate::class::TokenClass;
use crate::fault::Halt;
use ladr_lex::Token;
use std::marker::Model;

/// Tokens of which some may be passed; contracts see those that are left.
#[derive(Drop)]
pub struct Walk<'a> {
    pub tokens: &'a [Token<'a>],
    pub at: usize,
}

impl<'a> Model for Walk<'a> {
    ghost use Rattle.std.specs.Prelude.{List, drop, ◌≤◌, length};
    ghost use Rattle.ladr_lex.specs.Lexeme.{Lexeme, lexemes_of};
    ghost use Rattle.ladr_commands.specs.LexemeCodes.{coded_lexemes};

    ghost Value = { List Lexeme };

    ghost coded = { coded_lexemes };

    ghost view = { λ a. lexemes_of (drop a.at a.tokens.now) };

    ghost invariant = { λ a. a.at ≤ length a.tokens.now };
}

impl<'a> Walk<'a> {
    /// Before the first of the tokens.
    pub fn new(tokens: &'a [Token<'a>]) -> Walk<'a>
        ensures { result ≡ lexemes_of tokens.now }
    {
        Walk { tokens, at: 0 }
    }

    /// How many tokens are left.
    pub fn left(&self) -> usize
        ensures { result ≡ length self.now }
    {
        self.tokens.len() - self.at
    }

    /// Passes the next token, which is to be of a class.
    pub fn take(&mut self, class: TokenClass) -> Result<Token<'a>, Halt>
        ensures passed { IfOk result (λ t. self.old ≡ lexeme_of t ∷ self.new) }
        ensures of { IfOk result (λ t. is_of class (lexeme_of t) ≡ true) }
        ensures ok { IfOk result (λ t. (onward : Lexeme → Spelling)
            → words_outcome (wants class onward) self.old
            ≡ words_outcome (onward (lexeme_of t)) self.new) }
        ensures bad { result ≡ Err Bad → (onward : Lexeme → Spelling)
            → words_outcome (wants class onward) self.old ≡ stops self.new }
    {
        let Some(token) = self.tokens.get(self.at) else {
            return Err(Halt::Bad);
        };
        if !class.has(token) {
            return Err(Halt::Bad);
        }
        self.at += 1;
        Ok(*token)
    }
}
