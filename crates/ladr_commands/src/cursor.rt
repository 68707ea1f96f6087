// Going through tokens one by one.
ghost use Rattle.std.specs.Prelude.{◌≡◌, ◌∷◌, List, Err, IfOk, OnOk, true, length};
ghost use Rattle.ladr_lex.specs.Lexeme.{Lexeme, lexeme_of, lexemes_of};
ghost use Rattle.ladr_commands.specs.Form.{Form, ends, token, form_outcome, reads, stops};
ghost use Rattle.ladr_commands.specs.Wanted.{fits};
ghost use Rattle.ladr_commands.specs.declared.command.Command.{Command};
ghost use Rattle.ladr_commands.specs.declared.fault.Fault.TheVariants as fault;

use crate::fault::Fault;
use crate::wanted::Wanted;
use ladr_lex::Token;
use std::marker::Model;

/// Tokens of which some may be passed; contracts see those that are left.
#[derive(Drop)]
pub struct Cursor<'a> {
    pub tokens: &'a [Token<'a>],
    pub at: usize,
}

impl<'a> Model for Cursor<'a> {
    ghost use Rattle.std.specs.Prelude.{List, drop, ◌≤◌, length};
    ghost use Rattle.ladr_lex.specs.Lexeme.{Lexeme, lexemes_of};
    ghost use Rattle.ladr_commands.specs.LexemeCodes.{coded_lexemes};

    ghost Value = { List Lexeme };

    ghost coded = { coded_lexemes };

    ghost view = { λ a. lexemes_of (drop a.at a.tokens.now) };

    ghost invariant = { λ a. a.at ≤ length a.tokens.now };
}

impl<'a> Cursor<'a> {
    /// Before the first of the tokens.
    pub fn new(tokens: &'a [Token<'a>]) -> Cursor<'a>
        ensures { result ≡ lexemes_of tokens.now }
    {
        Cursor { tokens, at: 0 }
    }

    /// How many tokens are left.
    pub fn left(&self) -> usize
        ensures { result ≡ length self.now }
    {
        self.tokens.len() - self.at
    }

    /// Passes the next token, which is to be of a class.
    pub fn take(&mut self, wanted: Wanted) -> Result<Token<'a>, Fault>
        ensures passed { IfOk result (λ t. self.old ≡ lexeme_of t ∷ self.new) }
        ensures fits { IfOk result (λ t. fits wanted (lexeme_of t) ≡ true) }
        ensures ok { IfOk result (λ t. (onward : Lexeme → Form)
            → form_outcome (token wanted onward) self.old
            ≡ form_outcome (onward (lexeme_of t)) self.new) }
        ensures bad { result ≡ Err fault.Bad → (onward : Lexeme → Form)
            → form_outcome (token wanted onward) self.old ≡ stops self.new }
    {
        let Some(token) = self.tokens.get(self.at) else {
            return Err(Fault::Bad);
        };
        if !wanted.fits(token) {
            return Err(Fault::Bad);
        }
        self.at += 1;
        Ok(*token)
    }

    /// There is no further token.
    pub fn end(&mut self) -> Result<(), Fault>
        ensures ok { OnOk result ((c : Command) → form_outcome (ends c) self.old ≡ reads c) }
        ensures bad { result ≡ Err fault.Bad → (c : Command)
            → form_outcome (ends c) self.old ≡ stops self.new }
    {
        match self.tokens.get(self.at) {
            None => Ok(()),
            Some(_) => Err(Fault::Bad),
        }
    }
}
