// The store of lines.
ghost use Rattle.std.specs.Prelude.{◌≡◌, ◌++◌, ◌∷◌, [], IfOk, IsSome, OnOk, OnErr, List, Some, length, map};
ghost use Rattle.fol_core.specs.Tree.{Tree};
ghost use Rattle.clause_store.specs.Ancestors.{AreAncestors};
ghost use Rattle.clause_store.specs.Lines.{formula_lines, plain_line, store_lines, stored_at, AreStoredIn, AreUnnoted, IsLineOfInput};

use crate::ancestors::marked;
use crate::copying::copy_label;
use crate::lines::{StoredContent, StoredLine};
use crate::stored::Stored;
use derivation::{First, Just, Line};
use fol_problem::{Input, Problem, Role};
use std::alloc::{AllocError, Global};
use term_bank::Bank;

/// The lines of a search, numbered from 1 on; none is ever taken out.
#[derive(Drop)]
pub struct Store {
    pub lines: Vec<StoredLine>,
}

// The line of a formula.
fn formula_line(alloc: Global, input: &Input) -> Result<StoredLine, AllocError>
    ensures { IfOk result (λ l. IsLineOfInput input.now l) }
{
    let first = match input.role {
        Role::Goal => First::Goal,
        Role::Assumption => First::Assumption,
        Role::Usable => First::Assumption,
        Role::Demodulator => First::Assumption,
    };
    let formula = input.formula.copy(alloc)?;
    let label = copy_label(alloc, &input.label)?;
    Ok(StoredLine {
        content: StoredContent::Formula(formula, label),
        just: Just {
            first,
            steps: Vec::new(alloc),
        },
    })
}

impl Store {
    /// The lines of a problem's formulas.
    pub fn new(alloc: Global, problem: &Problem) -> Result<Store, AllocError>
        ensures lines { IfOk result (λ s. (bank : List Tree) → store_lines bank s.lines.items
            ≡ formula_lines 1 problem.now.inputs.items) }
        ensures stored { IfOk result (λ s. (bank : List Tree) → AreStoredIn bank s.lines.items) }
    {
        let mut lines = Vec::new(alloc);
        for input in &problem.inputs {
            lines.push(formula_line(alloc, input)?)?;
        }
        Ok(Store { lines })
    }

    /// A clause with the next number, which is answered.
    pub fn add(&mut self, clause: Stored, just: Just) -> Result<u64, AllocError>
        ensures number { IfOk result (λ n. n ≡ length self.new.lines.items) }
        ensures line { OnOk result (self.new.lines.items ≡ self.old.lines.items
            ++ record { content = StoredContent.Clause clause; just = just } ∷ []) }
        ensures err { OnErr result (self.new.lines.items ≡ self.old.lines.items) }
    {
        self.lines.push(StoredLine {
            content: StoredContent::Clause(clause),
            just,
        })?;
        Ok(self.lines.len() as u64)
    }

    /// The clause under a number.
    pub fn get(&self, n: u64) -> &Stored
        requires { IsSome (stored_at self.now.lines.items n) }
        ensures { stored_at self.now.lines.items n ≡ Some result.now }
    {
        match &self.lines[(n - 1) as usize].content {
            StoredContent::Clause(clause) => clause,
            StoredContent::Formula(_, _) => unreachable!(),
        }
    }

    /// The lines that the one of a number rests on, itself among them, under their numbers.
    pub fn lines_to(&self, alloc: Global, bank: &Bank, n: u64) -> Result<Vec<Line>, AllocError>
        requires { AreStoredIn bank.now self.now.lines.items }
        ensures lines { IfOk result (λ lines. AreAncestors
            (store_lines bank.now self.now.lines.items) n (map plain_line lines.items)) }
        ensures notes { IfOk result (λ lines. AreUnnoted lines.items) }
    {
        let marks = marked(alloc, &self.lines, n)?;
        let mut lines = Vec::new(alloc);
        for (place, line) in self.lines.iter().enumerate() {
            if marks[place] {
                lines.push(line.plain(alloc, bank, place as u64 + 1)?)?;
            }
        }
        Ok(lines)
    }
}
