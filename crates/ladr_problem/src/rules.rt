// Rules of the lists of weights.
ghost use Rattle.std.specs.Prelude.{◌≡◌, OnOk, IfErr, Ok};
ghost use Rattle.fol_core.specs.RawView.{raw_of};
ghost use Rattle.ladr_problem.specs.Adding.{after_weight, after_kbo};
ghost use Rattle.ladr_problem.specs.Draft.{sofar_of};
ghost use Rattle.ladr_problem.specs.Reading.{IsNo, after_rule_read};

use crate::draft::Draft;
use crate::refusal::{Limit, Refusal};
use fol_core::Raw;
use ladr_formulas::Mode;
use ladr_lex::{MOST_SYMBOLS, Misuse};
use ladr_rules::{RuleRead, kbo_rule, weight_rule};
use std::alloc::Global;

impl Draft {
    /// Takes a rule of the list of weights.
    pub fn take_weight(&mut self, alloc: Global, program: Mode, raw: &Raw) -> Result<(), Refusal>
        ensures ok { OnOk result (after_weight program (sofar_of self.old) (raw_of raw.now)
            ≡ Ok (sofar_of self.new)) }
        ensures refused { IfErr result (IsNo (after_weight program (sofar_of self.old)
            (raw_of raw.now))) }
    {
        let before = self.symbols.len();
        let prolog = self.settings.options.prolog_style_variables;
        match weight_rule(alloc, raw, &mut self.symbols, program, prolog)? {
            Some(read) => self.settle_rule(program, before, read),
            None => {
                if self.settings.is_meant(program) {
                    return Err(Refusal::Misused(Misuse::UnfitRule));
                }
                Ok(())
            }
        }
    }

    // Takes a rule that was read behind so many symbols.
    fn settle_rule(&mut self, program: Mode, before: usize, read: RuleRead) -> Result<(), Refusal>
        ensures ok { OnOk result (after_rule_read program before (sofar_of self.old) read
            ≡ Ok (sofar_of self.new)) }
        ensures refused { IfErr result (IsNo (after_rule_read program before
            (sofar_of self.old) read)) }
    {
        if self.symbols.len() > MOST_SYMBOLS {
            return Err(Refusal::Large(Limit::Symbols));
        }
        if read.large {
            return Err(Refusal::Large(Limit::Arity));
        }
        if !self.settings.is_meant(program) {
            self.symbols.truncate(before);
            return Ok(());
        }
        match read.least {
            Some(misuse) => Err(Refusal::Misused(misuse)),
            None => {
                self.weights.push(read.rule)?;
                Ok(())
            }
        }
    }

    /// Takes a rule of the list of KBO weights.
    pub fn take_kbo_weight(
        &mut self,
        alloc: Global,
        program: Mode,
        raw: &Raw,
    ) -> Result<(), Refusal>
        ensures ok { OnOk result (after_kbo program (sofar_of self.old) (raw_of raw.now)
            ≡ Ok (sofar_of self.new)) }
        ensures refused { IfErr result (IsNo (after_kbo program (sofar_of self.old)
            (raw_of raw.now))) }
    {
        if !self.settings.is_meant(program) {
            return Ok(());
        }
        match kbo_rule(alloc, raw)? {
            Some(rule) => {
                if !self.kbo_weights.push(rule.name.bytes(), rule.weight)? {
                    return Err(Refusal::Misused(Misuse::UnfitRule));
                }
                Ok(())
            }
            None => Err(Refusal::Misused(Misuse::UnfitRule)),
        }
    }
}
