// What waits for more tokens, without its names and trees.
ghost use Rattle.std.specs.Prelude.{◌≡◌, [], ◌∷◌, reverse, IfOk, MatchOption};
ghost use Rattle.std.specs.Option.{option_copied};
ghost use Rattle.ladr_reader.specs.Control.{waits_allow, innermost_of};

use crate::sides::Side;
use std::alloc::{AllocError, Global};
use std::marker::Model;

/// What waits: an open parenthesis, a name's arguments, or a term's last argument, on this side of a term of this
/// precedence.
#[derive(Clone, Copy)]
pub enum Wait {
    Parenthesis,
    Arguments,
    Last(Side, u16),
}

/// All that waits; contracts see the list, the innermost first. There may be millions, so that each takes a few bytes.
#[derive(Drop)]
pub struct Waits {
    // The innermost last.
    held: Vec<Wait>,
}

impl Model for Waits {
    ghost use Rattle.std.specs.Prelude.{List, reverse};
    ghost use Rattle.ladr_reader.specs.declared.waits.Wait.{Wait};

    ghost Value = { List Wait };

    ghost view = { λ a. reverse a.held.items };
}

impl Waits {
    /// Nothing waits.
    pub fn new(alloc: Global) -> Waits
        ensures { result ≡ [] }
    {
        Waits {
            held: Vec::new(alloc),
        }
    }

    /// One more, the innermost.
    pub fn push(&mut self, wait: Wait) -> Result<(), AllocError>
        ensures { IfOk result (λ _. self.new ≡ wait ∷ self.old) }
    {
        self.held.push(wait)?;
        Ok(())
    }

    /// The innermost.
    pub fn innermost(&self) -> Option<Wait>
        ensures { result ≡ innermost_of self.now }
    {
        innermost(&self.held)
    }

    /// The innermost, taken off.
    pub fn pop(&mut self) -> Option<Wait>
        ensures { MatchOption result ((self.old ≡ []) × (self.new ≡ []))
            (λ wait. self.old ≡ wait ∷ self.new) }
    {
        self.held.pop()
    }

    /// Whether a term of precedence `own` may stand on top of what waits.
    pub fn allow(&self, own: u16, growing: bool) -> bool
        ensures { result ≡ waits_allow self.now own growing }
    {
        match self.innermost() {
            Some(Wait::Last(side, limit)) => side.ends(limit, own, growing),
            _ => true,
        }
    }
}

fn innermost(held: &[Wait]) -> Option<Wait>
    ensures { result ≡ innermost_of (reverse held.now) }
{
    held.last().copied()
}
