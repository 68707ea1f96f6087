// A line that is kept.
ghost use Rattle.std.specs.Prelude.{◌≡◌, IfOk};
ghost use Rattle.clause_store.specs.Lines.{stored_content, stored_line, plain_content, plain_line, IsContentIn, IsUnnoted};

use crate::copying::{copy_just, copy_label};
use crate::stored::Stored;
use derivation::{Content, Just, Line, LineNotes};
use fol_core::{Formula, RawSub};
use std::alloc::{AllocError, Global};
use term_bank::Bank;

/// A formula with its label, or a clause.
#[derive(Drop)]
pub enum StoredContent {
    Formula(Formula, Option<RawSub>),
    Clause(Stored),
}

/// A formula or a clause, and how it is come by.
#[derive(Drop)]
pub struct StoredLine {
    pub content: StoredContent,
    pub just: Just,
}

impl StoredContent {
    // What stands in a proof's line.
    fn plain(&self, alloc: Global, bank: &Bank) -> Result<Content, AllocError>
        requires { IsContentIn bank.now self.now }
        ensures { IfOk result (λ c. plain_content c ≡ stored_content bank.now self.now) }
    {
        match self {
            StoredContent::Formula(formula, label) => {
                let label = copy_label(alloc, label)?;
                Ok(Content::Formula(formula.copy(alloc)?, label))
            }
            StoredContent::Clause(clause) => Ok(Content::Clause(clause.plain(alloc, bank)?)),
        }
    }
}

impl StoredLine {
    /// The line of a proof, under this number.
    pub fn plain(&self, alloc: Global, bank: &Bank, number: u64) -> Result<Line, AllocError>
        requires { IsContentIn bank.now self.now.content }
        ensures line { IfOk result (λ l. plain_line l ≡ stored_line bank.now number self.now) }
        ensures notes { IfOk result (λ l. IsUnnoted l) }
    {
        let content = self.content.plain(alloc, bank)?;
        let just = copy_just(alloc, &self.just)?;
        Ok(Line {
            number,
            content,
            just,
            notes: LineNotes::none(alloc),
        })
    }
}
