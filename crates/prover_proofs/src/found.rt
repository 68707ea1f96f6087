// The proof under a number.
ghost use Rattle.std.specs.Prelude.{◌≡◌, IfOk, map};
ghost use Rattle.clause_store.specs.Ancestors.{AreAncestors};
ghost use Rattle.clause_store.specs.Lines.{plain_line, plain_trees, AreUnnoted};
ghost use Rattle.prover_proofs.specs.Levels.{level_in, greatest_size};
ghost use Rattle.prover_proofs.specs.SearchLines.{lines_in};

use crate::lines::SearchLines;
use crate::measures::{greatest_size, level_in};
use clause_store::lines_say_the_same;
use derivation::Line;
use std::alloc::{AllocError, Global};

/// The lines that one rests on, itself among them; its level, and how many symbols and variables the greatest of their clauses has.
#[derive(Drop)]
pub struct Proof {
    pub lines: Vec<Line>,
    pub level: u64,
    pub size: u64,
}

impl<'a> SearchLines<'a> {
    /// The proof whose last line has this number.
    pub fn proof(&self, alloc: Global, n: u64) -> Result<Proof, AllocError>
        ensures lines { IfOk result (λ p. AreAncestors (lines_in self.now) n
            (map plain_line p.lines.items)) }
        ensures notes { IfOk result (λ p. AreUnnoted p.lines.items) }
        ensures level { IfOk result (λ p. p.level
            ≡ level_in (plain_trees (map plain_line p.lines.items)) n) }
        ensures size { IfOk result (λ p. p.size
            ≡ greatest_size (map plain_line p.lines.items)) }
    {
        lines_say_the_same();
        let lines = self.lines_to(alloc, n)?;
        let level = level_in(alloc, lines.as_slice(), n)?;
        let size = greatest_size(lines.as_slice())?;
        Ok(Proof { lines, level, size })
    }
}
