// What was read of a file so far.
ghost use Rattle.std.specs.Prelude.{◌≡◌, [], OnOk, IfOk};
ghost use Rattle.ladr_problem.specs.Adding.{with_listed};
ghost use Rattle.ladr_problem.specs.Draft.{sofar_of};
ghost use Rattle.ladr_problem.specs.Sofar.{listed_of, nothing_read};

use fol_core::{Formula, KboWeights, RawSub, Symbols, WeightRule};
use fol_problem::{Hint, Input, Role};
use ladr_settings::{FormulaList, Settings};
use std::alloc::{AllocError, Global};

/// The settings, the symbols, the formulas with their roles, the hints, and the rules of the lists of weights.
#[derive(Drop)]
pub struct Draft {
    pub settings: Settings,
    pub symbols: Symbols,
    pub inputs: Vec<Input>,
    pub hints: Vec<Hint>,
    pub weights: Vec<WeightRule>,
    pub kbo_weights: KboWeights,
}

impl Draft {
    /// Before the first item.
    pub fn new(alloc: Global) -> Result<Draft, AllocError>
        ensures { IfOk result (λ d. sofar_of d ≡ nothing_read) }
    {
        Ok(Draft {
            settings: Settings::start(alloc)?,
            symbols: Symbols::new(alloc),
            inputs: Vec::new(alloc),
            hints: Vec::new(alloc),
            weights: Vec::new(alloc),
            kbo_weights: KboWeights::new(alloc),
        })
    }

    /// Adds a formula to those of its list; a weight is kept for hints alone, which ask for nothing.
    #[inline(always)]
    pub fn add(
        &mut self,
        list: FormulaList,
        formula: Formula,
        label: Option<RawSub>,
        answer: Vec<u64>,
        weight: Option<u32>,
        byte: u64,
    ) -> Result<(), AllocError>
        requires { list ≡ FormulaList.Hints → answer.items ≡ [] }
        ensures { OnOk result (sofar_of self.new
            ≡ with_listed list (listed_of formula label answer.items byte) weight
            (sofar_of self.old)) }
    {
        let role = match list {
            FormulaList::Assumptions => Role::Assumption,
            FormulaList::Usable => Role::Usable,
            FormulaList::Demodulators => Role::Demodulator,
            FormulaList::Goals => Role::Goal,
            FormulaList::Hints => return self.add_hint(formula, label, weight, byte),
        };
        self.inputs.push(Input {
            role,
            formula,
            label,
            answer,
            byte,
        })?;
        Ok(())
    }

    #[inline(never)]
    fn add_hint(
        &mut self,
        formula: Formula,
        label: Option<RawSub>,
        weight: Option<u32>,
        byte: u64,
    ) -> Result<(), AllocError>
        ensures { OnOk result (sofar_of self.new
            ≡ with_listed FormulaList.Hints (listed_of formula label [] byte) weight
            (sofar_of self.old)) }
    {
        self.hints.push(Hint {
            formula,
            label,
            weight,
            byte,
        })?;
        Ok(())
    }
}
