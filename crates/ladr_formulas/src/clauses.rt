// From literals as they are read to a clause.
ghost use Rattle.std.specs.Prelude.{◌≡◌, [], ◌++◌, Some, None, IfOk, OnOk};
ghost use Rattle.std.specs.Option.{option_map};
ghost use Rattle.fol_core.specs.ClauseView.{literal_of};
ghost use Rattle.fol_core.specs.Fol.{Fol};
ghost use Rattle.fol_core.specs.FormulaView.{fol_of};
ghost use Rattle.fol_core.specs.RawTree.{RawTree, raws_of};
ghost use Rattle.fol_core.specs.RawView.{raw_list};
ghost use Rattle.fol_core.specs.SymbolTable.{KeepsNumbers};
ghost use Rattle.fol_core.specs.Tree.{trees_of};
ghost use Rattle.ladr_reader.specs.Capped.{disjuncts};
ghost use Rattle.ladr_formulas.specs.Broken.{broken, least_of};
ghost use Rattle.ladr_formulas.specs.ClauseIn.{atom_in, literal_in, clause_in};
ghost use Rattle.ladr_formulas.specs.Formulas.{formula_in, formula_reading, names_of_variables, style_of};
ghost use Rattle.ladr_formulas.specs.Literals.{formulas_in, all_literals, clause_from, with_literal, IsClauseRead, IsReadWithTerms};
ghost use Rattle.ladr_formulas.specs.Means.{IsMeaning};
ghost use Rattle.ladr_formulas.specs.Occurring.{occurring, new_symbols, has_many_arguments};
ghost use Rattle.ladr_formulas.specs.VariablesMet.{variables_in};

use crate::formulas::{formula, terms};
use crate::reader::Reader;
use crate::styles::{Mode, Style, style_of};
use crate::waiting::{Waiting, one};
use fol_core::{Clause, EQ, Literal, Names, Raw, Raws, Shape, Symbols, Term, Terms};
use ladr_lex::Misuse;
use std::alloc::{AllocError, Global};
use std::mem;

/// A clause as it is read, whatever it breaks: the clause, if the literals are one, the names of its variables, the least row of
/// misuse that was met, and whether an arity is too large.
#[derive(Drop)]
pub struct ClauseRead {
    pub clause: Option<Clause>,
    pub names: Names,
    pub least: Option<Misuse>,
    pub large: bool,
}

/// The clause that the disjuncts of a term are, read behind formulas with these symbols, with one numbering of variables; its
/// symbols are entered.
pub fn clause_of(
    alloc: Global,
    literals: Vec<Raw>,
    symbols: &mut Symbols,
    mode: Mode,
    prolog: bool,
) -> Result<ClauseRead, AllocError>
    // It is the clause of the term's formula.
    ensures read { IfOk result (λ r. (t : RawTree) → raw_list literals.items ≡ disjuncts t →
        IsClauseRead (formula_reading (style_of mode prolog) symbols.old t) r symbols.new) }
    // New symbols stand behind the others, in the order in which they occur in the term, and so do the variables.
    ensures ordered { IfOk result (λ r. (t : RawTree) → raw_list literals.items ≡ disjuncts t →
        symbols.new ≡ symbols.old ++ new_symbols symbols.old
        (occurring (style_of mode prolog) [] t)) }
    ensures arity { IfOk result (λ r. (t : RawTree) → raw_list literals.items ≡ disjuncts t →
        r.large ≡ has_many_arguments (occurring (style_of mode prolog) [] t)) }
    ensures numbered { IfOk result (λ r. (t : RawTree) → raw_list literals.items ≡ disjuncts t →
        r.names ≡ names_of_variables (variables_in (style_of mode prolog) t)) }
    // The row that is told is the least of those that the term breaks.
    ensures least { IfOk result (λ r. (t : RawTree) → raw_list literals.items ≡ disjuncts t →
        r.least ≡ least_of (broken (style_of mode prolog) symbols.new t)) }
    // Where no row was met the formula is what the term means by these.
    ensures means { IfOk result (λ r. (t : RawTree) → raw_list literals.items ≡ disjuncts t →
        r.least ≡ None →
        (f : Fol) × IsMeaning (style_of mode prolog) symbols.new t f × (r.clause ≡ clause_in f)) }
    // A row was met only where it means no formula.
    ensures unmet { IfOk result (λ r. (t : RawTree) → raw_list literals.items ≡ disjuncts t →
        (f : Fol) → IsMeaning (style_of mode prolog) symbols.new t f → r.least ≡ None) }
    // Whatever the answer, the old symbols keep their numbers.
    ensures kept { KeepsNumbers symbols.old symbols.new }
{
    let table = mem::replace(symbols, Symbols::new(alloc));
    let mut reader = Reader::new(alloc, table);
    let answer = whole_clause(alloc, literals, style_of(mode, prolog), &mut reader);
    *symbols = reader.into_symbols();
    answer
}

/// The clause that the disjuncts of a term are, and terms that are read behind it, with one numbering of variables; their
/// symbols are entered, those of the clause first.
pub fn clause_with_terms(
    alloc: Global,
    literals: Vec<Raw>,
    behind: &Raws,
    symbols: &mut Symbols,
    mode: Mode,
    prolog: bool,
) -> Result<(ClauseRead, Terms), AllocError>
    ensures read { IfOk result (λ r. (t : RawTree) → raw_list literals.items ≡ disjuncts t →
        IsReadWithTerms (style_of mode prolog)
        (formula_reading (style_of mode prolog) symbols.old t) (raws_of behind.now) r.0
        (trees_of r.1) symbols.new) }
    // Whatever the answer, the old symbols keep their numbers.
    ensures kept { KeepsNumbers symbols.old symbols.new }
{
    let table = mem::replace(symbols, Symbols::new(alloc));
    let mut reader = Reader::new(alloc, table);
    let answer = whole_with_terms(alloc, literals, behind, style_of(mode, prolog), &mut reader);
    *symbols = reader.into_symbols();
    answer
}

// The clause of literals and the terms behind it, with what both break.
fn whole_with_terms(
    alloc: Global,
    literals: Vec<Raw>,
    behind: &Raws,
    style: Style,
    reader: &mut Reader,
) -> Result<(ClauseRead, Terms), AllocError>
    ensures read { IfOk result (λ r. (t : RawTree) → raw_list literals.items ≡ disjuncts t
        → reader.old.scope ≡ [] →
        IsReadWithTerms style (formula_in style [] reader.old.reading t) (raws_of behind.now) r.0
        (trees_of r.1) reader.new.reading.symbols) }
    ensures kept { KeepsNumbers reader.old.reading.symbols reader.new.reading.symbols }
{
    let clause = clause(alloc, literals, style, reader)?;
    let read = terms(alloc, behind, style, reader)?;
    let least = reader.least();
    let large = reader.is_large();
    let names = reader.take_names(alloc)?;
    let clause = ClauseRead {
        clause,
        names,
        least,
        large,
    };
    Ok((clause, read))
}

// The clause of literals with what it breaks.
fn whole_clause(
    alloc: Global,
    literals: Vec<Raw>,
    style: Style,
    reader: &mut Reader,
) -> Result<ClauseRead, AllocError>
    ensures read { IfOk result (λ r. (t : RawTree) → raw_list literals.items ≡ disjuncts t
        → reader.old.scope ≡ [] →
        IsClauseRead (formula_in style [] reader.old.reading t) r reader.new.reading.symbols) }
    ensures kept { KeepsNumbers reader.old.reading.symbols reader.new.reading.symbols }
{
    let clause = clause(alloc, literals, style, reader)?;
    let least = reader.least();
    let large = reader.is_large();
    let names = reader.take_names(alloc)?;
    Ok(ClauseRead {
        clause,
        names,
        least,
        large,
    })
}

// The clause of literals.
fn clause(
    alloc: Global,
    literals: Vec<Raw>,
    style: Style,
    reader: &mut Reader,
) -> Result<Option<Clause>, AllocError>
    ensures clause { IfOk result (λ c. c ≡ clause_from
        (formulas_in style reader.old.scope reader.old.reading (raw_list literals.items)).tree) }
    ensures reading { OnOk result (reader.new.reading
        ≡ (formulas_in style reader.old.scope reader.old.reading (raw_list literals.items)).reading) }
    ensures scope { OnOk result (reader.new.scope ≡ reader.old.scope) }
    ensures kept { KeepsNumbers reader.old.reading.symbols reader.new.reading.symbols }
{
    if literals.len() != 1 {
        return all_literals(alloc, literals, style, reader);
    }
    let only = one(Raws { items: literals });
    let shape = formula(alloc, only, style, reader)?;
    let clause = Some(Clause::new(alloc));
    if matches!(shape, Shape::False) {
        return Ok(clause);
    }
    with_literal(alloc, clause, shape)
}

// The clause of literals, none of which is `$F`.
fn all_literals(
    alloc: Global,
    literals: Vec<Raw>,
    style: Style,
    reader: &mut Reader,
) -> Result<Option<Clause>, AllocError>
    ensures clause { IfOk result (λ c. c ≡ all_literals
        (formulas_in style reader.old.scope reader.old.reading (raw_list literals.items)).tree) }
    ensures reading { OnOk result (reader.new.reading
        ≡ (formulas_in style reader.old.scope reader.old.reading (raw_list literals.items)).reading) }
    ensures scope { OnOk result (reader.new.scope ≡ reader.old.scope) }
    ensures kept { KeepsNumbers reader.old.reading.symbols reader.new.reading.symbols }
{
    let mut clause = Some(Clause::new(alloc));
    let mut waiting = Waiting::of(Raws { items: literals });
    while let Some(literal) = waiting.next() {
        let shape = formula(alloc, literal, style, reader)?;
        clause = with_literal(alloc, clause, shape)?;
    }
    Ok(clause)
}

// The clause with one more literal, if both are there.
fn with_literal(
    alloc: Global,
    clause: Option<Clause>,
    shape: Shape,
) -> Result<Option<Clause>, AllocError>
    ensures { IfOk result (λ c. c ≡ with_literal clause (literal_in (fol_of shape))) }
{
    let Some(mut clause) = clause else {
        return Ok(None);
    };
    match literal_in(alloc, shape)? {
        Some(literal) => {
            clause.push(literal)?;
            Ok(Some(clause))
        }
        None => Ok(None),
    }
}

// The literal that a formula is, if it is one.
fn literal_in(alloc: Global, shape: Shape) -> Result<Option<Literal>, AllocError>
    ensures { IfOk result (λ l. option_map literal_of l ≡ literal_in (fol_of shape)) }
{
    match shape {
        Shape::Not(part) => atom_in(alloc, false, part.into_shape()),
        other => atom_in(alloc, true, other),
    }
}

// The literal of an atom, if it is one.
fn atom_in(alloc: Global, positive: bool, shape: Shape) -> Result<Option<Literal>, AllocError>
    ensures { IfOk result (λ l. option_map literal_of l ≡ atom_in positive (fol_of shape)) }
{
    match shape {
        Shape::Atom(s, terms) => Ok(Some(Literal {
            positive,
            atom: Term::App(s, terms),
        })),
        Shape::Eq(equation) => {
            let (left, right) = equation.into_terms();
            let mut sides = Terms::new(alloc);
            sides.push(left)?;
            sides.push(right)?;
            Ok(Some(Literal {
                positive,
                atom: Term::App(EQ, sides),
            }))
        }
        _ => Ok(None),
    }
}
