// Names that are to differ.
ghost use Rattle.std.specs.Prelude.{◌≡◌, OnOk, IfErr, Ok};
ghost use Rattle.std.specs.List.{list_any};
ghost use Rattle.ladr_formulas.specs.Formulas.{is_free_name, is_too_great};
ghost use Rattle.ladr_problem.specs.Adding.{style_in, limit_of_names, after_names, met};
ghost use Rattle.ladr_problem.specs.Draft.{sofar_of};
ghost use Rattle.ladr_problem.specs.Reading.{IsNo};
ghost use Rattle.ladr_problem.specs.declared.refusal.Refusal.TheVariants.{Large};
ghost use Rattle.std.specs.declared.result.Result.TheVariants.{Err};

use crate::draft::Draft;
use crate::formulas::meet;
use crate::refusal::{Limit, Refusal};
use fol_core::{Name, Names};
use ladr_distinct::{distinct_formula, names_bring_too_many};
use ladr_formulas::{Mode, Style, is_free_name, is_too_great, read_formula, style_of};
use ladr_lex::{MOST_NAMES, Misuse};
use ladr_rules::LabelledFormula;
use ladr_settings::FormulaList;
use std::alloc::Global;

impl Draft {
    /// Takes names of a list: that they differ is an assumption.
    pub fn take_names(
        &mut self,
        alloc: Global,
        program: Mode,
        byte: u64,
        names: &Names,
    ) -> Result<(), Refusal>
        ensures ok { OnOk result (after_names program byte (sofar_of self.old) names.now
            ≡ Ok (sofar_of self.new)) }
        ensures refused { IfErr result (IsNo (after_names program byte (sofar_of self.old)
            names.now)) }
    {
        if names.len() > MOST_NAMES {
            return Err(self.refusal_of_names(program, names.as_slice()));
        }
        let raw = distinct_formula(alloc, names.as_slice())?;
        let stated = LabelledFormula::of(raw);
        let LabelledFormula { formula, notes } = stated;
        let before = self.symbols.len();
        let prolog = self.settings.options.prolog_style_variables;
        let mut read = read_formula(alloc, formula, &mut self.symbols, program, prolog)?;
        read.least = least_among(style_of(program, prolog), names.as_slice(), read.least);
        let list = Some(FormulaList::Assumptions);
        self.settle(
            alloc,
            program,
            list,
            byte,
            before,
            notes,
            Vec::new(alloc),
            read,
        )
    }

    // Why so many names are refused: no formula is made of them, since it would be long.
    #[inline(never)]
    fn refusal_of_names(&mut self, program: Mode, names: &[Name]) -> Refusal
        ensures { IsNo (Err (Large (limit_of_names (style_in program (sofar_of self.old))
            (sofar_of self.old).symbols names.now))) result }
    {
        let prolog = self.settings.options.prolog_style_variables;
        match names_bring_too_many(names, &mut self.symbols, program, prolog) {
            Ok(true) => Refusal::Large(Limit::Symbols),
            Ok(false) => Refusal::Large(Limit::Distinct),
            Err(_) => Refusal::Memory,
        }
    }
}

// The misuse of the least row, of names and of their formula.
fn least_among(style: Style, names: &[Name], least: Option<Misuse>) -> Option<Misuse>
    ensures { result ≡ met (list_any (is_free_name style) names.now) Misuse.VariableAmongNames
        (met (list_any (is_too_great style) names.now) Misuse.UnfitNumeral least) }
{
    let least = meet(any_too_great(style, names), Misuse::UnfitNumeral, least);
    meet(any_free(style, names), Misuse::VariableAmongNames, least)
}

fn any_too_great(style: Style, names: &[Name]) -> bool
    ensures { result ≡ list_any (is_too_great style) names.now }
{
    names.iter().any(|name| is_too_great(style, name.bytes()))
}

fn any_free(style: Style, names: &[Name]) -> bool
    ensures { result ≡ list_any (is_free_name style) names.now }
{
    names.iter().any(|name| is_free_name(style, name.bytes()))
}
