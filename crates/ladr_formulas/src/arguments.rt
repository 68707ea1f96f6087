// Terms that stand in no formula.
ghost use Rattle.std.specs.Prelude.{◌≡◌, [], ◌++◌, None, length, IfOk, OnOk};
ghost use Rattle.fol_core.specs.Bound.{HaveSymbolsBelow};
ghost use Rattle.fol_core.specs.RawTree.{raws_of};
ghost use Rattle.fol_core.specs.SymbolTable.{KeepsNumbers};
ghost use Rattle.fol_core.specs.Tree.{Trees, trees_of};
ghost use Rattle.ladr_formulas.specs.Broken.{broken_outside, least_of};
ghost use Rattle.ladr_formulas.specs.Formulas.{unread, terms_of};
ghost use Rattle.ladr_formulas.specs.Means.{MeanTerms};
ghost use Rattle.ladr_formulas.specs.Occurring.{symbols_of_terms, new_symbols, has_many_arguments};
ghost use Rattle.ladr_formulas.specs.VariablesMet.{variables_of_terms, numbered};

use crate::formulas::terms;
use crate::numbering::Variables;
use crate::reader::Reader;
use crate::styles::Style;
use fol_core::{Raws, Symbols, Terms};
use ladr_lex::Misuse;
use std::alloc::{AllocError, Global};
use std::mem;

/// Terms that were read, their variables, the least row of misuse that was met, and whether an arity was too large.
#[derive(Drop)]
pub struct TermsRead {
    pub terms: Terms,
    pub variables: Variables,
    pub least: Option<Misuse>,
    pub large: bool,
}

/// The terms that are read from arguments outside formulas, behind these symbols; the terms' own are entered.
pub fn terms_of(
    alloc: Global,
    raws: &Raws,
    symbols: &mut Symbols,
    style: Style,
) -> Result<TermsRead, AllocError>
    // What is read goes on where something is misused or too large.
    ensures read { IfOk result (λ r. terms_of style [] (unread symbols.old) (raws_of raws.now)
        ≡ record {
          tree = trees_of r.terms;
          reading = record
              { symbols = symbols.new; variables = r.variables; least = r.least; large = r.large };
        }) }
    // The symbols are of the table.
    ensures symbols { IfOk result (λ r. HaveSymbolsBelow (length symbols.new) (trees_of r.terms)) }
    // New symbols stand behind the others, in the order in which they occur, and so do the variables.
    ensures ordered { OnOk result (symbols.new ≡ symbols.old ++ new_symbols symbols.old
        (symbols_of_terms style [] (raws_of raws.now))) }
    ensures arity { IfOk result (λ r. r.large
        ≡ has_many_arguments (symbols_of_terms style [] (raws_of raws.now))) }
    ensures numbered { IfOk result (λ r. r.variables
        ≡ numbered (variables_of_terms style [] (raws_of raws.now))) }
    // The row that is told is the least of those that the arguments break.
    ensures least { IfOk result (λ r. r.least
        ≡ least_of (broken_outside style symbols.new (raws_of raws.now))) }
    // Where no row was met the terms are what the arguments mean by these.
    ensures means { IfOk result (λ r. r.least ≡ None → MeanTerms style symbols.new
        (numbered (variables_of_terms style [] (raws_of raws.now))) [] (raws_of raws.now)
        (trees_of r.terms)) }
    // A row was met only where they mean no terms.
    ensures unmet { IfOk result (λ r. (ts : Trees) → MeanTerms style symbols.new
        (numbered (variables_of_terms style [] (raws_of raws.now))) [] (raws_of raws.now) ts →
        r.least ≡ None) }
    // Whatever the answer, the old symbols keep their numbers.
    ensures kept { KeepsNumbers symbols.old symbols.new }
{
    let table = mem::replace(symbols, Symbols::new(alloc));
    let mut reader = Reader::new(alloc, table);
    let answer = terms(alloc, raws, style, &mut reader);
    let (table, variables, least, large) = reader.into_read();
    *symbols = table;
    let terms = answer?;
    Ok(TermsRead {
        terms,
        variables,
        least,
        large,
    })
}
