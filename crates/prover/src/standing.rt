// A prover: where a search for proofs stands between two answers.
ghost use Rattle.std.specs.Prelude.{◌≡◌, ◌≤◌, true, false, None, Some, Ok, IfOk, OnOk, OnErr, IsTrue, ◌↔◌};
ghost use Rattle.prover.specs.Answers.{counters_of, end_of, readings_first, IsAtGiving, IsGivenStep, RunsTo};
ghost use Rattle.prover.specs.Provers.{setting_at, state_at, lines_had, proofs_had, tries_of, watch_of, end_answered, is_short, IsFit, IsGoing, MayGoOn, IsNew};
ghost use Rattle.prover_setup.specs.SearchInputs.{input_in, symbols_in, rows_in};
ghost use Rattle.search_clock.specs.Watching.{HasBegun};

use crate::answer::{Counters, ProverAnswer, end_of};
use crate::processing::settle;
use crate::seeking::{begin, is_at_giving, seek};
use fol_core::{Clause, Symbols};
use fol_problem::Problem;
use given_clause::{FoundProof, Guide, Search, step};
use held_clauses::MadeLine;
use ladr_io::Clock;
use prover_setup::{guide_of, start_search};
use prover_steps::searches_stay_in_order;
use search_clock::Watch;
use std::alloc::{AllocError, Global};

/// What guides a search and its state, its clock, the end that it was answered to have come to, and whether memory was lacking.
#[derive(Drop)]
pub struct Prover<'a> {
    guide: Guide<'a>,
    search: Search,
    watch: Watch,
    end: Option<ProverAnswer>,
    short: bool,
}

impl<'a> Prover<'a> {
    /// A prover for a problem with these clauses, and with its symbols and the Skolem symbols; so many seconds may pass, if a time is
    /// set.
    pub fn new(
        alloc: Global,
        problem: &'a Problem,
        symbols: &Symbols,
        clauses: &[(u64, Clause)],
        seconds: Option<u64>,
    ) -> Result<Prover<'a>, AllocError>
        requires symbols { symbols.now ≡ symbols_in (input_in problem.now) }
        requires clauses { clauses.now ≡ rows_in (input_in problem.now) }
        ensures { IfOk result (IsNew (input_in problem.now) seconds) }
    {
        searches_stay_in_order();
        let guide = guide_of(alloc, problem, symbols, clauses)?;
        let search = start_search(alloc, problem, clauses)?;
        Ok(Prover {
            guide,
            search,
            watch: Watch {
                seconds,
                first: None,
            },
            end: None,
            short: false,
        })
    }

    /// Lets the prover go. A crate in which one goes out of scope proves anew how each of its parts is let go; one that calls
    /// this doesn't.
    pub fn close(self) {}

    /// What was counted so far.
    pub fn counters(&self) -> Counters
        ensures { result ≡ counters_of (state_at self.now) }
    {
        Counters {
            given: self.search.given,
            generated: self.search.generated,
            kept: self.search.kept,
            large: self.search.large,
            proofs: self.search.proofs.as_slice().len() as u64,
        }
    }

    /// How many entries of the indexes of rules and of units were reached by walks so far and told whether they match a term, or
    /// unify with it; at the greatest number the count stops. Other tests aren't counted.
    pub fn tries(&self) -> u64
        ensures { result ≡ tries_of self.now }
    {
        self.search.tries.count()
    }

    /// The lines that were made so far, behind those of the problem.
    pub fn lines(&self) -> &[MadeLine]
        ensures { result.now ≡ lines_had self.now }
    {
        self.search.lines.as_slice()
    }

    /// The proofs that were found so far.
    pub fn proofs(&self) -> &[FoundProof]
        ensures { result.now ≡ proofs_had self.now }
    {
        self.search.proofs.as_slice()
    }

    /// Whether a clause is to be given next.
    pub fn is_at_giving(&self) -> bool
        ensures { IsTrue result ↔ IsAtGiving (setting_at self.now) (state_at self.now) }
    {
        is_at_giving(&self.guide, &self.search)
    }

    /// A clause is given, and what is queued is processed, with no look at the clock.
    pub fn given_step(&mut self, alloc: Global) -> Result<(), AllocError>
        requires fit { is_short self.old ≡ false → IsFit self.old }
        requires going { is_short self.old ≡ false → end_answered self.old ≡ None }
        requires giving { is_short self.old ≡ false
            → IsAtGiving (setting_at self.old) (state_at self.old) }
        ensures setting { setting_at self.new ≡ setting_at self.old }
        ensures watch { watch_of self.new ≡ watch_of self.old }
        ensures end { end_answered self.new ≡ end_answered self.old }
        ensures gives { OnOk result (IsGivenStep (setting_at self.old) (state_at self.old)
            (state_at self.new)) }
        ensures fit { OnOk result (IsFit self.new) }
        ensures sufficed { OnOk result ((is_short self.old ≡ false) × (is_short self.new ≡ false)) }
        ensures lacking { OnErr result (is_short self.new ≡ true) }
        ensures tries { tries_of self.old ≤ tries_of self.new }
    {
        searches_stay_in_order();
        if self.short {
            return Err(AllocError);
        }
        self.short = true;
        step(alloc, &self.guide, &mut self.search)?;
        settle(alloc, &self.guide, &mut self.search)?;
        self.short = false;
        Ok(())
    }

    /// Goes on to the next proof, or to the end; an end is answered again from then on, with no look at the clock, and so is want of
    /// memory. Before the first clause is processed, and before each that is given, the clock is read where a time is set.
    pub fn run<C: Clock>(
        &mut self,
        alloc: Global,
        clock: &mut C,
    ) -> Result<ProverAnswer, AllocError>
        requires { IsGoing self.old → MayGoOn self.old (C.times clock.old) }
        ensures setting { setting_at self.new ≡ setting_at self.old }
        ensures time { (watch_of self.new).seconds ≡ (watch_of self.old).seconds }
        ensures begun { IsGoing self.old → HasBegun (watch_of self.new) (C.times clock.new) }
        ensures runs { IsGoing self.old → RunsTo (setting_at self.old) (watch_of self.old).seconds
            (readings_first (watch_of self.old)) (state_at self.old) (state_at self.new)
            (C.times clock.old) (C.times clock.new) result }
        ensures ends { IsGoing self.old
            → IfOk result (λ a. end_answered self.new ≡ end_of a) }
        ensures goes { IsGoing self.new → MayGoOn self.new (C.times clock.new) }
        ensures again { (a : ProverAnswer) → is_short self.old ≡ false → end_answered self.old ≡ Some a
            → (result ≡ Ok a) × (self.new ≡ self.old) × (C.times clock.new ≡ C.times clock.old) }
        ensures short { is_short self.old ≡ true
            → (self.new ≡ self.old) × (C.times clock.new ≡ C.times clock.old) }
        ensures sufficed { OnOk result ((is_short self.old ≡ false) × (is_short self.new ≡ false)) }
        ensures lacking { OnErr result (is_short self.new ≡ true) }
        ensures tries { tries_of self.old ≤ tries_of self.new }
    {
        searches_stay_in_order();
        if self.short {
            return Err(AllocError);
        }
        if let Some(end) = self.end {
            return Ok(end);
        }
        begin(&mut self.watch, clock);
        match seek(alloc, &self.guide, &mut self.search, &mut self.watch, clock) {
            Ok(answer) => {
                self.end = end_of(answer);
                Ok(answer)
            }
            Err(error) => {
                self.short = true;
                Err(error)
            }
        }
    }
}
