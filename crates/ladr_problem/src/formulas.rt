// Formulas of lists.
ghost use Rattle.std.specs.Prelude.{◌≡◌, ◌&&◌, not, OnOk, IfErr, IfOk, Option, None, Some, List, nat_lt, length, if◌then◌else◌};
ghost use Rattle.fol_core.specs.Fol.{Fol};
ghost use Rattle.fol_core.specs.FormulaView.{fol_of};
ghost use Rattle.fol_core.specs.RawView.{raw_of};
ghost use Rattle.ladr_lex.specs.declared.limits.TheConstants.{MOST_SYMBOLS};
ghost use Rattle.ladr_formulas.specs.Formulas.{formula_reading};
ghost use Rattle.ladr_rules.specs.Asked.{asked};
ghost use Rattle.ladr_settings.specs.declared.lists.FormulaList.{FormulaList};
ghost use Rattle.ladr_problem.specs.Adding.{style_in, after_formula, is_goals, is_hints, is_demodulators, is_closed, kept_answer, met, least_misuse};
ghost use Rattle.ladr_problem.specs.Draft.{sofar_of};
ghost use Rattle.ladr_problem.specs.Reading.{after_formula_read, with_read, IsNo};

use crate::draft::Draft;
use crate::refusal::{Limit, Refusal};
use fol_core::{Formula, Raw, RawSub, free_vars};
use ladr_formulas::{FormulaRead, Mode, brings_too_many, has_large_arity, read_formula};
use ladr_lex::{MOST_SYMBOLS, Misuse};
use ladr_rules::{LabelledFormula, Notes, asked, is_demodulator, is_hint};
use ladr_settings::FormulaList;
use std::alloc::{AllocError, Global};

fn is_hints(list: FormulaList) -> bool
    ensures { result ≡ is_hints list }
{
    match list {
        FormulaList::Hints => true,
        FormulaList::Assumptions
        | FormulaList::Usable
        | FormulaList::Demodulators
        | FormulaList::Goals => false,
    }
}

fn is_demodulators(list: FormulaList) -> bool
    ensures { result ≡ is_demodulators list }
{
    match list {
        FormulaList::Demodulators => true,
        FormulaList::Assumptions | FormulaList::Usable | FormulaList::Hints | FormulaList::Goals =>
            false,
    }
}

fn is_goals(list: FormulaList) -> bool
    ensures { result ≡ is_goals list }
{
    match list {
        FormulaList::Goals => true,
        FormulaList::Assumptions
        | FormulaList::Usable
        | FormulaList::Demodulators
        | FormulaList::Hints => false,
    }
}

// What a term in a list of goals asks for.
fn asked_in(alloc: Global, list: Option<FormulaList>, raw: &Raw) -> Result<Vec<u64>, AllocError>
    ensures { (l : FormulaList) → list ≡ Some l → (f : Fol) → IfOk result (λ places.
        kept_answer l places.items f ≡ kept_answer l (asked (raw_of raw.now)) f) }
{
    match list {
        Some(FormulaList::Goals) => asked(alloc, raw),
        _ => Ok(Vec::new(alloc)),
    }
}

// What is kept of it: closed goals alone ask for anything.
fn kept_answer(
    alloc: Global,
    list: FormulaList,
    places: Vec<u64>,
    formula: &Formula,
) -> Result<Vec<u64>, AllocError>
    ensures { IfOk result (λ kept. kept.items
        ≡ kept_answer list places.items (fol_of formula.now.shape)) }
{
    if places.is_empty() || is_goals(list) && is_closed(alloc, formula)? {
        Ok(places)
    } else {
        Ok(Vec::new(alloc))
    }
}

// Whether a formula has no free variables.
fn is_closed(alloc: Global, formula: &Formula) -> Result<bool, AllocError>
    ensures { IfOk result (λ closed. closed ≡ is_closed (fol_of formula.now.shape)) }
{
    let free = free_vars(alloc, formula)?;
    Ok(free.is_empty())
}

/// The misuse of the least row, where one more is met.
pub fn meet(test: bool, misuse: Misuse, least: Option<Misuse>) -> Option<Misuse>
    ensures { result ≡ met test misuse least }
{
    if test {
        Some(misuse.earlier(least))
    } else {
        least
    }
}

// How a formula is misused in its list, by the least row.
fn least_misuse(
    alloc: Global,
    list: FormulaList,
    misused: bool,
    read: &FormulaRead,
) -> Result<Option<Misuse>, AllocError>
    ensures { IfOk result (λ row. row ≡ least_misuse list misused
        (fol_of read.now.formula.shape) read.now.least) }
{
    let least = meet(misused, Misuse::UnfitAttribute, read.least);
    let is_lost = is_demodulators(list) && !is_demodulator(alloc, &read.formula)?;
    let least = meet(is_lost, Misuse::UnfitDemodulator, least);
    Ok(meet(
        is_hints(list) && !is_hint(&read.formula),
        Misuse::UnfitHint,
        least,
    ))
}

impl Draft {
    /// Takes a formula of a list; where its list has no known name it is read alone.
    #[inline(always)]
    pub fn take_formula(
        &mut self,
        alloc: Global,
        program: Mode,
        list: Option<FormulaList>,
        byte: u64,
        raw: Raw,
    ) -> Result<(), Refusal>
        ensures ok { OnOk result (after_formula program list byte (sofar_of self.old) (raw_of raw)
            ≡ Ok (sofar_of self.new)) }
        ensures refused { IfErr result (IsNo (after_formula program list byte (sofar_of self.old)
            (raw_of raw))) }
    {
        let answer = asked_in(alloc, list, &raw)?;
        let stated = LabelledFormula::of(raw);
        let LabelledFormula { formula, notes } = stated;
        if has_large_arity(&formula) {
            return Err(self.refusal_of_large(alloc, program, &formula));
        }
        let before = self.symbols.len();
        let prolog = self.settings.options.prolog_style_variables;
        let read = read_formula(alloc, formula, &mut self.symbols, program, prolog)?;
        self.settle(alloc, program, list, byte, before, notes, answer, read)
    }

    // Why a formula is refused that has too large an arity: nothing is made of it, since it may be long.
    #[inline(never)]
    fn refusal_of_large(&mut self, alloc: Global, program: Mode, formula: &Raw) -> Refusal
        ensures { IsNo (if nat_lt MOST_SYMBOLS (length (formula_reading
            (style_in program (sofar_of self.old)) (sofar_of self.old).symbols
            (raw_of formula.now)).reading.symbols) then Err (Refusal.Large Limit.Symbols)
            else Err (Refusal.Large Limit.Arity)) result }
    {
        let prolog = self.settings.options.prolog_style_variables;
        match brings_too_many(alloc, formula, &mut self.symbols, program, prolog) {
            Ok(true) => Refusal::Large(Limit::Symbols),
            Ok(false) => Refusal::Large(Limit::Arity),
            Err(_) => Refusal::Memory,
        }
    }

    /// Takes a formula that was read behind so many symbols.
    #[inline(always)]
    pub fn settle(
        &mut self,
        alloc: Global,
        program: Mode,
        list: Option<FormulaList>,
        byte: u64,
        before: usize,
        notes: Notes,
        answer: Vec<u64>,
        read: FormulaRead,
    ) -> Result<(), Refusal>
        ensures ok { OnOk result (after_formula_read program list byte before
            (sofar_of self.old) notes answer.items read ≡ Ok (sofar_of self.new)) }
        ensures refused { IfErr result (IsNo (after_formula_read program list byte before
            (sofar_of self.old) notes answer.items read)) }
    {
        if self.symbols.len() > MOST_SYMBOLS {
            return Err(Refusal::Large(Limit::Symbols));
        }
        if read.large {
            return Err(Refusal::Large(Limit::Arity));
        }
        match list {
            Some(list) if self.settings.is_meant(program) => {
                self.judge(alloc, list, byte, notes, answer, read)
            }
            _ => {
                self.symbols.truncate(before);
                Ok(())
            }
        }
    }

    // Adds a formula, unless it breaks a row.
    #[inline(always)]
    fn judge(
        &mut self,
        alloc: Global,
        list: FormulaList,
        byte: u64,
        notes: Notes,
        answer: Vec<u64>,
        read: FormulaRead,
    ) -> Result<(), Refusal>
        ensures ok { OnOk result (with_read list byte (sofar_of self.old) notes answer.items read
            ≡ Ok (sofar_of self.new)) }
        ensures refused { IfErr result (IsNo (with_read list byte
            (sofar_of self.old) notes answer.items read)) }
    {
        match least_misuse(alloc, list, notes.misused, &read)? {
            Some(misuse) => Err(Refusal::Misused(misuse)),
            None => {
                let label = RawSub::of(alloc, notes.label)?;
                let answer = kept_answer(alloc, list, answer, &read.formula)?;
                self.add(list, read.formula, label, answer, notes.hint_weight, byte)?;
                Ok(())
            }
        }
    }
}
