// The texts of formulas.
ghost use Rattle.std.specs.Prelude.{◌≡◌, ℕ, List, IfOk};
ghost use Rattle.std.specs.Option.{option_map};
ghost use Rattle.fol_core.specs.Fol.{Fol};
ghost use Rattle.fol_core.specs.FormulaView.{fol_of};
ghost use Rattle.fol_core.specs.RawTree.{named, quantified, no_raws, more_raws};
ghost use Rattle.fol_core.specs.RawView.{raw_of};
ghost use Rattle.ladr_print.specs.FormulaText.{two, denial, formula_raw, with_attribute};
ghost use Rattle.ladr_print.specs.RawText.{text_of};
ghost use Rattle.fol_core.specs.SymbolTable.{Symbol};
ghost use Rattle.ladr_formulas.specs.declared.styles.Style.{Style};
ghost use Rattle.ladr_print.specs.ReadsAgain.{IsAmong, made_behind, ReadsFormula};
ghost use Rattle.ladr_formulas.specs.Formulas.{Made, names_of_variables};
ghost use Rattle.ladr_print.specs.StatesAs.{KeepsFixed, StatesAs};
ghost use Rattle.ladr_print.specs.TermText.{name_in, naming_of};
ghost use Rattle.ladr_reader.specs.Table.{table_of};

use crate::raw::{write, write_two};
use crate::terms::{Variables, symbol_name, term_raw, terms_raw, variable};
use fol_core::{Formula, Name, Quantifier, Raw, RawSub, Raws, Shape, Symbols};
use ladr_lex::Ops;
use std::alloc::{AllocError, Global};

/// The text of a formula, with its attribute behind it if it has one. Where any text states this formula, the printed one does
/// too, behind the same table of symbols; the fixed symbols must be the operators that they are at the start.
pub fn formula_text(
    alloc: Global,
    ops: &Ops,
    symbols: &Symbols,
    formula: &Formula,
    label: Option<&Raw>,
) -> Result<Vec<u8>, AllocError>
    ensures text { IfOk result (λ text. text.items ≡ text_of (table_of ops.now)
        (with_attribute (option_map (λ l. raw_of l.now) label.entry)
        (formula_raw symbols.now (name_in formula.now.names) (fol_of formula.now.shape)))) }
    ensures back { IfOk result (λ text. (st : Style) (before : List Symbol) (other : List ℕ)
        → KeepsFixed ops.now →
        StatesAs (table_of ops.now) st before other (option_map (λ l. raw_of l.now) label.entry)
        (fol_of formula.now.shape) formula.now.names symbols.now →
        StatesAs (table_of ops.now) st before text.items
        (option_map (λ l. raw_of l.now) label.entry)
        (fol_of formula.now.shape) formula.now.names symbols.now) }
    // So it is whatever the size, and however many symbols stand at the table's end: it is read with all that was read with it,
    // behind the same table and behind this one.
    ensures again { IfOk result (λ text. (st : Style) (before : List Symbol) (other : List ℕ)
        (m : Made Fol) →
        KeepsFixed ops.now → m.tree ≡ fol_of formula.now.shape →
        names_of_variables m.reading.variables ≡ formula.now.names → IsAmong m.reading symbols.now →
        ReadsFormula (table_of ops.now) st before other
        (option_map (λ l. raw_of l.now) label.entry) m →
        ReadsFormula (table_of ops.now) st before text.items
        (option_map (λ l. raw_of l.now) label.entry) m
        × ReadsFormula (table_of ops.now) st symbols.now text.items
        (option_map (λ l. raw_of l.now) label.entry) (made_behind symbols.now m)) }
{
    ops.rows_are_lawful();
    let text = labelled(alloc, ops, symbols, formula, label)?;
    Ok(text)
}

// The text of a formula and its attribute.
fn labelled(
    alloc: Global,
    ops: &Ops,
    symbols: &Symbols,
    formula: &Formula,
    label: Option<&Raw>,
) -> Result<Vec<u8>, AllocError>
    ensures { IfOk result (λ text. text.items ≡ text_of (table_of ops.now)
        (with_attribute (option_map (λ l. raw_of l.now) label.entry)
        (formula_raw symbols.now (name_in formula.now.names) (fol_of formula.now.shape)))) }
{
    let raw = formula_raw(
        alloc,
        symbols,
        Variables::Named(&formula.names),
        &formula.shape,
    )?;
    let mut out = Vec::new(alloc);
    match label {
        None => write(alloc, ops, &raw, &mut out)?,
        Some(label) => write_two(alloc, ops, b"#", &raw, label, &mut out)?,
    }
    Ok(out)
}

fn constant(alloc: Global, name: &[u8]) -> Result<Raw, AllocError>
    ensures { IfOk result (λ raw. raw_of raw ≡ named name.now no_raws) }
{
    Ok(Raw::App(Name::from_slice(alloc, name)?, Raws::new(alloc)))
}

fn one(alloc: Global, name: &[u8], raw: Raw) -> Result<Raw, AllocError>
    ensures { IfOk result (λ made. raw_of made ≡ named name.now (more_raws (raw_of raw) no_raws)) }
{
    let mut args = Raws::new(alloc);
    args.push(raw)?;
    Ok(Raw::App(Name::from_slice(alloc, name)?, args))
}

fn two(alloc: Global, name: &[u8], left: Raw, right: Raw) -> Result<Raw, AllocError>
    ensures { IfOk result (λ made. raw_of made ≡ two name.now (raw_of left) (raw_of right)) }
{
    let mut args = Raws::new(alloc);
    args.push(left)?;
    args.push(right)?;
    Ok(Raw::App(Name::from_slice(alloc, name)?, args))
}

/// A denial; that of an equation is written with `!=`.
#[tactic(auto, using(crate::proofs::Ends::denial_short, crate::proofs::Ends::denial_other, crate::proofs::Ends::denial_equation))]
pub fn denial(alloc: Global, raw: Raw) -> Result<Raw, AllocError>
    ensures { IfOk result (λ made. raw_of made ≡ denial (raw_of raw)) }
{
    match raw {
        Raw::App(name, args) => {
            if args.len() != 2 {
                return one(alloc, b"-", Raw::App(name, args));
            }
            if name.bytes() != b"=".as_slice() {
                return one(alloc, b"-", Raw::App(name, args));
            }
            Ok(Raw::App(Name::from_slice(alloc, b"!=")?, args))
        }
        Raw::Quant(quantifier, name, body) => {
            one(alloc, b"-", Raw::Quant(quantifier, name, body))
        }
    }
}

fn bound(alloc: Global, quantifier: Quantifier, name: Name, body: Raw) -> Result<Raw, AllocError>
    ensures { IfOk result (λ made. raw_of made ≡ quantified quantifier name (raw_of body)) }
{
    Ok(Raw::Quant(quantifier, name, RawSub::new(alloc, body)?))
}

/// The term as read that a formula is printed as.
pub fn formula_raw(
    alloc: Global,
    symbols: &Symbols,
    variables: Variables,
    shape: &Shape,
) -> Result<Raw, AllocError>
    ensures { IfOk result (λ raw. raw_of raw
        ≡ formula_raw symbols.now (naming_of variables.entry) (fol_of shape.now)) }
{
    match shape {
        Shape::True => constant(alloc, b"$T"),
        Shape::False => constant(alloc, b"$F"),
        Shape::Eq(sides) => {
            let left = term_raw(alloc, symbols, variables, sides.left())?;
            let right = term_raw(alloc, symbols, variables, sides.right())?;
            two(alloc, b"=", left, right)
        }
        Shape::Atom(relation, terms) => Ok(Raw::App(
            symbol_name(alloc, symbols, *relation)?,
            terms_raw(alloc, symbols, variables, terms)?,
        )),
        Shape::Not(f) => denial(alloc, formula_raw(alloc, symbols, variables, &f.shape)?),
        Shape::And(f, g) => {
            let left = formula_raw(alloc, symbols, variables, &f.shape)?;
            let right = formula_raw(alloc, symbols, variables, &g.shape)?;
            two(alloc, b"&", left, right)
        }
        Shape::Or(f, g) => {
            let left = formula_raw(alloc, symbols, variables, &f.shape)?;
            let right = formula_raw(alloc, symbols, variables, &g.shape)?;
            two(alloc, b"|", left, right)
        }
        Shape::If(f, g) => {
            let left = formula_raw(alloc, symbols, variables, &f.shape)?;
            let right = formula_raw(alloc, symbols, variables, &g.shape)?;
            two(alloc, b"->", left, right)
        }
        Shape::Iff(f, g) => {
            let left = formula_raw(alloc, symbols, variables, &f.shape)?;
            let right = formula_raw(alloc, symbols, variables, &g.shape)?;
            two(alloc, b"<->", left, right)
        }
        Shape::All(x, f) => {
            let name = variable(alloc, variables, *x)?;
            let body = formula_raw(alloc, symbols, variables, &f.shape)?;
            bound(alloc, Quantifier::All, name, body)
        }
        Shape::Exists(x, f) => {
            let name = variable(alloc, variables, *x)?;
            let body = formula_raw(alloc, symbols, variables, &f.shape)?;
            bound(alloc, Quantifier::Exists, name, body)
        }
    }
}
