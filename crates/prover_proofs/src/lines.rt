// All lines of a search, and those that one of them rests on.
ghost use Rattle.std.specs.Prelude.{◌≡◌, ◌++◌, Some, IfOk, OnOk, length, map};
ghost use Rattle.clause_store.specs.Ancestors.{AreAncestors};
ghost use Rattle.clause_store.specs.Lines.{plain_line, AreUnnoted, IsUnnoted};
ghost use Rattle.clause_store.specs.Marks.{line_under_number, parents_at, IsNumberOf, MarkAncestors, VisitsLine};
ghost use Rattle.prover_proofs.specs.SearchLines.{lines_in};

use crate::measures::sum_of;
use crate::written::{clausal_line, formula_line, numbered_line};
use clause_store::add_parents;
use derivation::Line;
use fol_core::Clause;
use fol_problem::Input;
use held_clauses::MadeLine;
use std::alloc::{AllocError, Global};

/// All lines of a search so far, where they are: a problem's formulas, their clauses with the numbers of the formulas, and those
/// that were made.
#[derive(Drop)]
pub struct SearchLines<'a> {
    pub inputs: &'a [Input],
    pub clauses: &'a [(u64, Clause)],
    pub made: &'a [MadeLine],
}

impl<'a> SearchLines<'a> {
    // How many there are.
    fn count(&self) -> Result<usize, AllocError>
        ensures { IfOk result (λ n. n ≡ length (lines_in self.now)) }
    {
        let stated = sum_of(self.inputs.len() as u64, self.clauses.len() as u64)?;
        let count = sum_of(stated, self.made.len() as u64)?;
        Ok(count as usize)
    }

    // The line of a number.
    fn line(&self, alloc: Global, number: u64) -> Result<Line, AllocError>
        requires { IsNumberOf (length (lines_in self.now)) number }
        ensures line { IfOk result (λ l. line_under_number (lines_in self.now) number
            ≡ Some (plain_line l)) }
        ensures notes { IfOk result (λ l. IsUnnoted l) }
    {
        let place = (number - 1) as usize;
        if place < self.inputs.len() {
            return formula_line(alloc, number, &self.inputs[place]);
        }
        let behind = place - self.inputs.len();
        if behind < self.clauses.len() {
            return clausal_line(alloc, self.inputs, number, &self.clauses[behind]);
        }
        match self.made.get(behind - self.clauses.len()) {
            Some(line) => numbered_line(alloc, number, line),
            None => unreachable!(),
        }
    }

    // Puts the numbers of the lines that the one of a number takes behind others.
    fn add_parents_of(&self, number: u64, numbers: &mut Vec<u64>) -> Result<(), AllocError>
        requires { IsNumberOf (length (lines_in self.now)) number }
        ensures { OnOk result (numbers.new.items
            ≡ numbers.old.items ++ parents_at (lines_in self.now) number) }
    {
        let place = (number - 1) as usize;
        if place < self.inputs.len() {
            return Ok(());
        }
        let behind = place - self.inputs.len();
        if behind < self.clauses.len() {
            numbers.push(self.clauses[behind].0)?;
            return Ok(());
        }
        match self.made.get(behind - self.clauses.len()) {
            Some(line) => add_parents(&line.just, numbers),
            None => unreachable!(),
        }
    }

    // Marks a line that isn't marked, and has its parents wait.
    fn look_at(
        &self,
        m: u64,
        marks: &mut Vec<bool>,
        waiting: &mut Vec<u64>,
    ) -> Result<(), AllocError>
        requires { length marks.old.items ≡ length (lines_in self.now) }
        ensures { OnOk result (VisitsLine (length (lines_in self.now)) (parents_at (lines_in self.now)) m
            marks.old.items waiting.old.items marks.new.items waiting.new.items) }
    {
        if m == 0 {
            return Ok(());
        }
        let place = (m - 1) as usize;
        if place >= marks.len() {
            return Ok(());
        }
        if marks[place] {
            return Ok(());
        }
        marks[place] = true;
        self.add_parents_of(m, waiting)
    }

    // Marks the lines that the one of a number rests on, itself among them.
    #[tactic(auto, using(clause_store::proofs::Marking::way_begins))]
    fn marked(&self, alloc: Global, n: u64) -> Result<Vec<bool>, AllocError>
        ensures { IfOk result (λ marks. MarkAncestors (length (lines_in self.now))
            (parents_at (lines_in self.now)) n marks.items) }
    {
        let count = self.count()?;
        let mut marks: Vec<bool> = vec![in alloc; false; count]?;
        let mut waiting = Vec::new(alloc);
        waiting.push(n)?;
        while let Some(m) = waiting.pop() {
            self.look_at(m, &mut marks, &mut waiting)?;
        }
        Ok(marks)
    }

    /// The lines that the one of a number rests on, itself among them, under their numbers.
    pub fn lines_to(&self, alloc: Global, n: u64) -> Result<Vec<Line>, AllocError>
        ensures lines { IfOk result (λ lines. AreAncestors (lines_in self.now) n
            (map plain_line lines.items)) }
        ensures notes { IfOk result (λ lines. AreUnnoted lines.items) }
    {
        let marks = self.marked(alloc, n)?;
        let mut lines = Vec::new(alloc);
        for (place, mark) in marks.iter().enumerate() {
            if *mark {
                lines.push(self.line(alloc, place as u64 + 1)?)?;
            }
        }
        Ok(lines)
    }
}
