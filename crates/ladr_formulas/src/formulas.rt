// From terms as they are read to formulas.
ghost use Rattle.std.specs.Prelude.{◌≡◌, ◌≤◌, [], ◌∷◌, ◌++◌, length, true, None, IfOk, OnOk};
ghost use Rattle.fol_core.specs.declared.symbols.Kind.TheVariants.{Function};
ghost use Rattle.fol_core.specs.Bound.{BindsOnce, HasSymbolsBelow};
ghost use Rattle.fol_core.specs.Fol.{Fol};
ghost use Rattle.fol_core.specs.FormulaView.{fol_of};
ghost use Rattle.fol_core.specs.RawTree.{RawTree, raws_of};
ghost use Rattle.fol_core.specs.RawView.{raw_of};
ghost use Rattle.fol_core.specs.SymbolTable.{KeepsNumbers};
ghost use Rattle.fol_core.specs.Tree.{trees_of};
ghost use Rattle.fol_core.specs.TermView.{tree_of};
ghost use Rattle.ladr_formulas.specs.Broken.{broken, least_of};
ghost use Rattle.ladr_formulas.specs.Formulas.{is_element, is_too_great, arity_of, meets, with_symbol, symbol_number, constant, term_of, terms_of, relation_of, equation_read, sentence, bound_by, joined_by, comparison, formula_in, formula_reading, names_of_variables, style_of};
ghost use Rattle.ladr_formulas.specs.Means.{IsMeaning};
ghost use Rattle.ladr_formulas.specs.Occurring.{occurring, new_symbols, has_many_arguments};
ghost use Rattle.ladr_formulas.specs.VariablesMet.{variables_in};
ghost use Rattle.ladr_formulas.specs.Whole.{IsWhole};

use crate::connectives::{Connective, connective_of, is_denial};
use crate::reader::Reader;
use crate::styles::{Mode, Style, style_of};
use crate::waiting::{Waiting, one, two};
use fol_core::{
    Formula, Kind, Quantifier, Raw, Raws, Shape, Sides, Sub, Sym, Symbols, Term, Terms,
};
use ladr_lex::{MOST_ELEMENT, Misuse, is_numeral, number};
use std::alloc::{AllocError, Global};
use std::mem;

/// Whether a name is that of an element.
pub fn is_element(style: Style, name: &[u8]) -> bool
    ensures { result ≡ is_element style name.now }
{
    style.elements && is_numeral(name)
}

/// Whether a name is a numeral that is too great for an element.
pub fn is_too_great(style: Style, name: &[u8]) -> bool
    ensures { result ≡ is_too_great style name.now }
{
    style.elements && is_numeral(name) && number(name) > MOST_ELEMENT
}

// A term without arguments.
#[inline(always)]
fn constant(
    alloc: Global,
    name: &[u8],
    style: Style,
    reader: &mut Reader,
) -> Result<Term, AllocError>
    ensures read { IfOk result (λ term. constant style reader.old.scope name.now reader.old.reading
        ≡ record { tree = tree_of term; reading = reader.new.reading }) }
    ensures scope { OnOk result (reader.new.scope ≡ reader.old.scope) }
    ensures kept { KeepsNumbers reader.old.reading.symbols reader.new.reading.symbols }
{
    if let Some(x) = reader.variable(alloc, style, name)? {
        return Ok(Term::Var(x));
    }
    if is_element(style, name) {
        reader.meet(is_too_great(style, name), Misuse::UnfitNumeral);
        return Ok(Term::Elem(number(name)));
    }
    let s = reader.enter(name, 0, Kind::Function)?;
    Ok(Term::App(s, Terms::new(alloc)))
}

#[tactic(auto, using(crate::proofs::TermLemmas::arity_is_length))]
// The symbol of an application below a relation.
#[inline(always)]
fn function(name: &[u8], args: &Raws, style: Style, reader: &mut Reader) -> Result<Sym, AllocError>
    ensures read { OnOk result (reader.new.reading
        ≡ with_symbol name.now (arity_of (raws_of args.now)) Function
        (meets (is_too_great style name.now) Misuse.UnfitNumeral reader.old.reading)) }
    ensures number { IfOk result (λ s. s.0 ≡ symbol_number name.now
        (arity_of (raws_of args.now)) reader.new.reading) }
    ensures scope { OnOk result (reader.new.scope ≡ reader.old.scope) }
    ensures kept { KeepsNumbers reader.old.reading.symbols reader.new.reading.symbols }
{
    reader.meet(is_too_great(style, name), Misuse::UnfitNumeral);
    reader.enter(name, args.len(), Kind::Function)
}

// No terms, with room for so many.
fn room(alloc: Global, count: usize) -> Result<Terms, AllocError>
    ensures { IfOk result (λ terms. terms ≡ []) }
{
    Ok(Terms {
        items: Vec::with_capacity(alloc, count)?,
    })
}

#[tactic(auto, using(crate::proofs::TermLemmas::kept_both))]
// The term that is read below a relation.
fn term(alloc: Global, raw: &Raw, style: Style, reader: &mut Reader) -> Result<Term, AllocError>
    ensures read { IfOk result (λ term. term_of style reader.old.scope reader.old.reading
        (raw_of raw.now) ≡ record { tree = tree_of term; reading = reader.new.reading }) }
    ensures scope { OnOk result (reader.new.scope ≡ reader.old.scope) }
    ensures kept { KeepsNumbers reader.old.reading.symbols reader.new.reading.symbols }
{
    match raw {
        Raw::Quant(_, name, body) => {
            reader.meet(true, Misuse::QuantifierInTerm);
            reader.bind(alloc, name.bytes())?;
            let read = term(alloc, &body.raw, style, reader)?;
            reader.unbind();
            Ok(read)
        }
        Raw::App(name, args) => {
            if args.len() == 0 {
                return constant(alloc, name.bytes(), style, reader);
            }
            let s = function(name.bytes(), args, style, reader)?;
            let mut terms = room(alloc, args.len())?;
            for arg in &args.items {
                terms.push(term(alloc, arg, style, reader)?)?;
            }
            Ok(Term::App(s, terms))
        }
    }
}

#[tactic(auto, using(crate::proofs::TermLemmas::kept_both))]
/// The terms that are read from arguments.
#[inline(always)]
pub fn terms(
    alloc: Global,
    raws: &Raws,
    style: Style,
    reader: &mut Reader,
) -> Result<Terms, AllocError>
    ensures read { IfOk result (λ terms. terms_of style reader.old.scope reader.old.reading
        (raws_of raws.now) ≡ record { tree = trees_of terms; reading = reader.new.reading }) }
    ensures scope { OnOk result (reader.new.scope ≡ reader.old.scope) }
    ensures kept { KeepsNumbers reader.old.reading.symbols reader.new.reading.symbols }
{
    let mut terms = room(alloc, raws.len())?;
    for arg in &raws.items {
        terms.push(term(alloc, arg, style, reader)?)?;
    }
    Ok(terms)
}

#[tactic(auto, using(crate::proofs::TermLemmas::kept_both))]
// The same of a term that is given back bit by bit.
fn taken_term(
    alloc: Global,
    raw: Raw,
    style: Style,
    reader: &mut Reader,
) -> Result<Term, AllocError>
    ensures read { IfOk result (λ term. term_of style reader.old.scope reader.old.reading
        (raw_of raw) ≡ record { tree = tree_of term; reading = reader.new.reading }) }
    ensures scope { OnOk result (reader.new.scope ≡ reader.old.scope) }
    ensures kept { KeepsNumbers reader.old.reading.symbols reader.new.reading.symbols }
{
    match raw {
        Raw::Quant(_, name, body) => {
            reader.meet(true, Misuse::QuantifierInTerm);
            reader.bind(alloc, name.bytes())?;
            let read = taken_term(alloc, Box::into_inner(body.raw), style, reader)?;
            reader.unbind();
            Ok(read)
        }
        Raw::App(name, args) => {
            if args.len() == 0 {
                return constant(alloc, name.bytes(), style, reader);
            }
            let s = function(name.bytes(), &args, style, reader)?;
            let mut terms = room(alloc, args.len())?;
            let mut waiting = Waiting::of(args);
            while let Some(arg) = waiting.next() {
                terms.push(taken_term(alloc, arg, style, reader)?)?;
            }
            Ok(Term::App(s, terms))
        }
    }
}

// Up to so many arguments are few.
const FEW: usize = 16;

// Whether arguments are few, and names alone: then they take little room.
fn are_few_names(args: &Raws) -> bool
    ensures { result ≡ true → length args.now ≤ FEW }
{
    if args.len() > FEW {
        return false;
    }
    for arg in &args.items {
        match arg {
            Raw::App(_, parts) if parts.len() == 0 => {}
            _ => return false,
        }
    }
    true
}

#[tactic(auto, using(crate::proofs::TermLemmas::kept_both))]
// The terms that are read from arguments, which are given back bit by bit where they may take much room.
fn taken_terms(
    alloc: Global,
    args: Raws,
    style: Style,
    reader: &mut Reader,
) -> Result<Terms, AllocError>
    ensures read { IfOk result (λ terms. terms_of style reader.old.scope reader.old.reading
        (raws_of args) ≡ record { tree = trees_of terms; reading = reader.new.reading }) }
    ensures scope { OnOk result (reader.new.scope ≡ reader.old.scope) }
    ensures kept { KeepsNumbers reader.old.reading.symbols reader.new.reading.symbols }
{
    if are_few_names(&args) {
        return terms(alloc, &args, style, reader);
    }
    let mut terms = room(alloc, args.len())?;
    let mut waiting = Waiting::of(args);
    while let Some(arg) = waiting.next() {
        terms.push(taken_term(alloc, arg, style, reader)?)?;
    }
    Ok(terms)
}

#[tactic(auto, using(crate::proofs::TermLemmas::kept_both, crate::proofs::TermLemmas::arity_is_length))]
// A relation with its arguments.
#[inline(never)]
fn relation(
    alloc: Global,
    name: &[u8],
    args: Raws,
    style: Style,
    reader: &mut Reader,
) -> Result<Shape, AllocError>
    ensures read { IfOk result (λ shape. relation_of style reader.old.scope name.now
        (raws_of args) reader.old.reading
        ≡ record { tree = fol_of shape; reading = reader.new.reading }) }
    ensures scope { OnOk result (reader.new.scope ≡ reader.old.scope) }
    ensures kept { KeepsNumbers reader.old.reading.symbols reader.new.reading.symbols }
{
    reader.meet(is_element(style, name), Misuse::UnfitNumeral);
    let s = reader.enter(name, args.len(), Kind::Relation)?;
    let terms = taken_terms(alloc, args, style, reader)?;
    Ok(Shape::Atom(s, terms))
}

#[tactic(auto, using(crate::proofs::TermLemmas::kept_both))]
// An equation.
#[inline(never)]
fn equation(
    alloc: Global,
    left: Raw,
    right: Raw,
    style: Style,
    reader: &mut Reader,
) -> Result<Shape, AllocError>
    ensures read { IfOk result (λ shape. equation_read style reader.old.scope (raw_of left)
        (raw_of right) reader.old.reading
        ≡ record { tree = fol_of shape; reading = reader.new.reading }) }
    ensures scope { OnOk result (reader.new.scope ≡ reader.old.scope) }
    ensures kept { KeepsNumbers reader.old.reading.symbols reader.new.reading.symbols }
{
    let left = taken_term(alloc, left, style, reader)?;
    let right = taken_term(alloc, right, style, reader)?;
    Ok(Shape::Eq(Sides::new(alloc, left, right)?))
}

#[tactic(auto, using(crate::proofs::TermLemmas::kept_both))]
// A formula without arguments; `args` has none.
#[inline(never)]
fn sentence(
    alloc: Global,
    name: &[u8],
    args: Raws,
    style: Style,
    reader: &mut Reader,
) -> Result<Shape, AllocError>
    requires { args ≡ [] }
    ensures read { IfOk result (λ shape. sentence style reader.old.scope name.now reader.old.reading
        ≡ record { tree = fol_of shape; reading = reader.new.reading }) }
    ensures scope { OnOk result (reader.new.scope ≡ reader.old.scope) }
    ensures kept { KeepsNumbers reader.old.reading.symbols reader.new.reading.symbols }
{
    if reader.variable(alloc, style, name)?.is_some() {
        reader.meet(true, Misuse::VariableAsFormula);
        return Ok(Shape::True);
    }
    if name == b"$T".as_slice() {
        Ok(Shape::True)
    } else if name == b"$F".as_slice() {
        Ok(Shape::False)
    } else {
        relation(alloc, name, args, style, reader)
    }
}

// An equation, its denial, or a relation of two terms.
#[inline(never)]
fn comparison(
    alloc: Global,
    name: &[u8],
    args: Raws,
    style: Style,
    reader: &mut Reader,
) -> Result<Shape, AllocError>
    requires { length args ≡ 2 }
    ensures read { (t u : RawTree) → args ≡ t ∷ u ∷ [] → IfOk result (λ shape.
        comparison style reader.old.scope name.now t u reader.old.reading
        ≡ record { tree = fol_of shape; reading = reader.new.reading }) }
    ensures scope { OnOk result (reader.new.scope ≡ reader.old.scope) }
    ensures kept { KeepsNumbers reader.old.reading.symbols reader.new.reading.symbols }
{
    if name == b"=".as_slice() {
        let (left, right) = two(args);
        return equation(alloc, left, right, style, reader);
    }
    if name == b"!=".as_slice() {
        let (left, right) = two(args);
        let equal = equation(alloc, left, right, style, reader)?;
        let equal = Sub::new(alloc, equal)?;
        return Ok(Shape::Not(equal));
    }
    relation(alloc, name, args, style, reader)
}

// A formula under a quantifier.
fn quantified(word: Quantifier, number: u64, body: Sub) -> Shape
    ensures { fol_of result ≡ bound_by word number body }
{
    match word {
        Quantifier::All => Shape::All(number, body),
        Quantifier::Exists => Shape::Exists(number, body),
    }
}

/// The formula that is read from a term, which is given back bit by bit.
pub fn formula(
    alloc: Global,
    raw: Raw,
    style: Style,
    reader: &mut Reader,
) -> Result<Shape, AllocError>
    ensures read { IfOk result (λ shape. formula_in style reader.old.scope reader.old.reading
        (raw_of raw) ≡ record { tree = fol_of shape; reading = reader.new.reading }) }
    ensures scope { OnOk result (reader.new.scope ≡ reader.old.scope) }
    ensures kept { KeepsNumbers reader.old.reading.symbols reader.new.reading.symbols }
{
    match raw {
        Raw::App(name, args) => {
            // Many formulas are atoms with one argument, for which what other ones need would be made ready in vain.
            if args.len() == 1 && !is_denial(name.bytes()) {
                relation(alloc, name.bytes(), args, style, reader)
            } else {
                any_formula(alloc, Raw::App(name, args), style, reader)
            }
        }
        Raw::Quant(word, name, body) => {
            any_formula(alloc, Raw::Quant(word, name, body), style, reader)
        }
    }
}

#[tactic(auto, using(crate::proofs::TermLemmas::kept_both))]
// The same, of whatever kind it is.
fn any_formula(
    alloc: Global,
    raw: Raw,
    style: Style,
    reader: &mut Reader,
) -> Result<Shape, AllocError>
    ensures read { IfOk result (λ shape. formula_in style reader.old.scope reader.old.reading
        (raw_of raw) ≡ record { tree = fol_of shape; reading = reader.new.reading }) }
    ensures scope { OnOk result (reader.new.scope ≡ reader.old.scope) }
    ensures kept { KeepsNumbers reader.old.reading.symbols reader.new.reading.symbols }
{
    match raw {
        Raw::Quant(word, name, body) => {
            let number = reader.bind(alloc, name.bytes())?;
            let shape = any_formula(alloc, Box::into_inner(body.raw), style, reader)?;
            reader.unbind();
            let body = Sub::new(alloc, shape)?;
            Ok(quantified(word, number, body))
        }
        Raw::App(name, args) => match args.len() {
            0 => sentence(alloc, name.bytes(), args, style, reader),
            1 => {
                if is_denial(name.bytes()) {
                    let shape = any_formula(alloc, one(args), style, reader)?;
                    let part = Sub::new(alloc, shape)?;
                    Ok(Shape::Not(part))
                } else {
                    relation(alloc, name.bytes(), args, style, reader)
                }
            }
            2 => match connective_of(name.bytes()) {
                Some(connective) => {
                    let (first, second) = two(args);
                    match connective {
                        Connective::ThenIf => {
                            let premise = any_formula(alloc, second, style, reader)?;
                            let conclusion = any_formula(alloc, first, style, reader)?;
                            joined(alloc, Connective::ThenIf, premise, conclusion)
                        }
                        other => {
                            let first = any_formula(alloc, first, style, reader)?;
                            let second = any_formula(alloc, second, style, reader)?;
                            joined(alloc, other, first, second)
                        }
                    }
                }
                None => comparison(alloc, name.bytes(), args, style, reader),
            },
            _ => relation(alloc, name.bytes(), args, style, reader),
        },
    }
}

// Two formulas that a connective joins, the premise first.
fn joined(
    alloc: Global,
    connective: Connective,
    first: Shape,
    second: Shape,
) -> Result<Shape, AllocError>
    ensures { IfOk result (λ shape. fol_of shape
        ≡ joined_by connective (fol_of first) (fol_of second)) }
{
    let first = Sub::new(alloc, first)?;
    let second = Sub::new(alloc, second)?;
    Ok(match connective {
        Connective::And => Shape::And(first, second),
        Connective::Or => Shape::Or(first, second),
        Connective::IfThen | Connective::ThenIf => Shape::If(first, second),
        Connective::IfAndOnlyIf => Shape::Iff(first, second),
    })
}

/// A formula as it is read, whatever it breaks: the misuse of the least row that was met, and whether an arity is too large.
#[derive(Drop)]
pub struct FormulaRead {
    pub formula: Formula,
    pub least: Option<Misuse>,
    pub large: bool,
}

// The formula of a term with what it breaks.
#[inline(always)]
fn whole_formula(
    alloc: Global,
    raw: Raw,
    style: Style,
    reader: &mut Reader,
) -> Result<FormulaRead, AllocError>
    ensures read { IfOk result (λ r. IsWhole
        (formula_in style reader.old.scope reader.old.reading
        (raw_of raw)) r reader.new.reading.symbols) }
    ensures kept { KeepsNumbers reader.old.reading.symbols reader.new.reading.symbols }
{
    let shape = formula(alloc, raw, style, reader)?;
    let least = reader.least();
    let large = reader.is_large();
    let names = reader.take_names(alloc)?;
    Ok(FormulaRead {
        formula: Formula { shape, names },
        least,
        large,
    })
}

/// The formula that a term is read as, behind formulas with these symbols, with what it breaks; its symbols are entered, also
/// those of a formula that is to be refused.
pub fn read_formula(
    alloc: Global,
    raw: Raw,
    symbols: &mut Symbols,
    mode: Mode,
    prolog: bool,
) -> Result<FormulaRead, AllocError>
    ensures read { IfOk result (λ r. IsWhole
        (formula_reading (style_of mode prolog) symbols.old (raw_of raw)) r symbols.new) }
    // Where no row was met no variable is bound twice, and none is both bound and free; the symbols are of the table.
    ensures once { IfOk result (λ r. r.least ≡ None → BindsOnce (fol_of r.formula.shape)) }
    ensures symbols { IfOk result (λ r. HasSymbolsBelow (length symbols.new)
        (fol_of r.formula.shape)) }
    // New symbols stand behind the others, in the order in which they occur.
    ensures ordered { OnOk result (symbols.new ≡ symbols.old ++ new_symbols symbols.old
        (occurring (style_of mode prolog) [] (raw_of raw))) }
    // An arity is too large where one of these symbols has so many arguments.
    ensures arity { IfOk result (λ r. r.large
        ≡ has_many_arguments (occurring (style_of mode prolog) [] (raw_of raw))) }
    // So do the variables: each free one where it is first met, and each quantifier's.
    ensures numbered { IfOk result (λ r. r.formula.names
        ≡ names_of_variables (variables_in (style_of mode prolog) (raw_of raw))) }
    // The row that is told is the least of those that the term breaks.
    ensures least { IfOk result (λ r. r.least
        ≡ least_of (broken (style_of mode prolog) symbols.new (raw_of raw))) }
    // Where no row was met the formula is what the term means by these symbols and variables.
    ensures means { IfOk result (λ r. r.least ≡ None → IsMeaning (style_of mode prolog) symbols.new
        (raw_of raw) (fol_of r.formula.shape)) }
    // A row was met only where it means no formula.
    ensures unmet { IfOk result (λ r. (f : Fol) → IsMeaning (style_of mode prolog) symbols.new
        (raw_of raw) f → r.least ≡ None) }
    // Whatever the answer, the old symbols keep their numbers.
    ensures kept { KeepsNumbers symbols.old symbols.new }
{
    let table = mem::replace(symbols, Symbols::new(alloc));
    let mut reader = Reader::new(alloc, table);
    let answer = whole_formula(alloc, raw, style_of(mode, prolog), &mut reader);
    *symbols = reader.into_symbols();
    answer
}
