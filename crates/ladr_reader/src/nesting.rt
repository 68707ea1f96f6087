// How many parentheses are open at once.
ghost use Rattle.std.specs.Prelude.{◌≡◌, ◌+◌, ◌^◌, ◌<◌, ◌≤◌, max, List, ◌∷◌};
ghost use Rattle.ladr_lex.specs.Lexeme.{Lexeme, lexeme_of};
ghost use Rattle.ladr_reader.specs.Nesting.{most_open};

use ladr_lex::{Token, TokenKind};

/// The parentheses that are open, and the most that were at once.
#[derive(Clone, Copy)]
pub struct Parentheses {
    pub unclosed: usize,
    pub most: usize,
}

impl Parentheses {
    /// None is open.
    pub fn new() -> Parentheses
        ensures unclosed { result.unclosed ≡ 0 }
        ensures most { result.most ≡ 0 }
    {
        Parentheses {
            unclosed: 0,
            most: 0,
        }
    }

    /// One token more.
    #[inline(always)]
    pub fn note(&mut self, token: &Token)
        requires { self.old.unclosed + 1 < 2 ^ 64 }
        ensures unclosed { self.new.unclosed ≤ self.old.unclosed + 1 }
        ensures most { (ts : List Lexeme) → max self.new.most (most_open self.new.unclosed ts)
            ≡ max self.old.most (most_open self.old.unclosed (lexeme_of token.now ∷ ts)) }
    {
        match token.kind() {
            TokenKind::Open => self.unclosed += 1,
            TokenKind::Close => {
                self.most = self.most.max(self.unclosed);
                self.unclosed = self.unclosed.saturating_sub(1);
            }
            _ => {}
        }
    }

    /// The most that were open at once.
    pub fn most(self) -> usize
        ensures { result ≡ max self.most self.unclosed }
    {
        self.most.max(self.unclosed)
    }
}
