// Terms by chance, the same in each run.
ghost use Rattle.std.specs.Prelude.{◌<◌};

use fol_core::{Sym, Term, Terms};
use std::alloc::{AllocError, Global};

/// Numbers by chance: each state follows from the one before.
#[derive(Drop)]
pub struct Chance {
    pub state: u64,
}

// A symbol applied to as many terms as there are.
fn applied(
    alloc: Global,
    symbol: u64,
    first: Term,
    second: Option<Term>,
) -> Result<Term, AllocError> {
    let mut terms = Terms::new(alloc);
    terms.push(first)?;
    if let Some(term) = second {
        terms.push(term)?;
    }
    Ok(Term::App(Sym(symbol), terms))
}

impl Chance {
    // A number below another one.
    fn below(&mut self, most: u64) -> u64
        requires { 0 < most }
    {
        self.state = self
            .state
            .wrapping_mul(6364136223846793005)
            .wrapping_add(1442695040888963407);
        (self.state >> 33) % most
    }

    // A variable from a number on, a constant or an element.
    fn leaf(&mut self, alloc: Global, variable: u64) -> Term {
        match self.below(9) {
            0 => Term::App(Sym(0), Terms::new(alloc)),
            1 => Term::App(Sym(1), Terms::new(alloc)),
            2 => Term::Elem(0),
            _ => Term::Var(variable.saturating_add(self.below(2))),
        }
    }

    /// A term of two variables from a number on, two constants, an element, a symbol with one argument and another with two,
    /// of which at most so many stand one under the other.
    pub fn term(&mut self, alloc: Global, depth: u64, variable: u64) -> Result<Term, AllocError> {
        if depth == 0 || self.below(8) == 0 {
            return Ok(self.leaf(alloc, variable));
        }
        let first = self.term(alloc, depth - 1, variable)?;
        if self.below(3) == 0 {
            return applied(alloc, 2, first, None);
        }
        let second = self.term(alloc, depth - 1, variable)?;
        applied(alloc, 3, first, Some(second))
    }
}
