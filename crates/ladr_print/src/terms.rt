// The terms as read that terms are printed as.
ghost use Rattle.std.specs.Prelude.{◌≡◌, ◌<◌, ◌≤◌, ◌^◌, ◌++◌, ℕ, List, length, IfOk, OnOk};
ghost use Rattle.std.specs.Fmt.{decimal};
ghost use Rattle.fol_core.specs.RawTree.{raws_of};
ghost use Rattle.fol_core.specs.RawView.{raw_of};
ghost use Rattle.fol_core.specs.TermView.{tree_of};
ghost use Rattle.fol_core.specs.Tree.{trees_of};
ghost use Rattle.ladr_print.specs.Precedences.{precedence};
ghost use Rattle.ladr_print.specs.RawText.{text_of};
ghost use Rattle.fol_core.specs.SymbolTable.{Symbol, KeepsNumbers};
ghost use Rattle.ladr_lex.specs.ClauseNames.{FreesVariables};
ghost use Rattle.ladr_print.specs.ReadsAgain.{ReadsTerm};
ghost use Rattle.ladr_print.specs.ReadsAs.{ReadsAs};
ghost use Rattle.ladr_print.specs.StatesAs.{KeepsFixed};
ghost use Rattle.ladr_print.specs.TermText.{clause_variable, name_in, naming_of, symbol_name, term_raw, terms_raw};
ghost use Rattle.ladr_reader.specs.Table.{table_of};
ghost use Rattle.ladr_formulas.specs.declared.styles.Style.{Style};

use crate::raw::raw_text;
use fol_core::{EQ, Name, Names, Raw, Raws, Sym, Symbols, Term, Terms};
use ladr_lex::Ops;
use std::alloc::{AllocError, Global};

/// What variables are called: by the names of a formula, or by the letters of clauses, in the style of Prolog or not.
#[derive(Clone, Copy)]
pub enum Variables<'a> {
    Named(&'a Names),
    Numbered(bool),
}

/// The text of a term, variable number k under the k-th name of clauses. It reads back as the same term where any text reads
/// as it.
pub fn term_text(
    alloc: Global,
    ops: &Ops,
    symbols: &Symbols,
    term: &Term,
    prolog: bool,
) -> Result<Vec<u8>, AllocError>
    ensures text { IfOk result (λ text. text.items
        ≡ text_of (table_of ops.now)
        (term_raw symbols.now (clause_variable prolog) (tree_of term.now))) }
    ensures back { IfOk result (λ text. (other : List ℕ) (p : ℕ)
        → ReadsAs (table_of ops.now) other
        (term_raw symbols.now (clause_variable prolog) (tree_of term.now)) p →
        ReadsAs (table_of ops.now) text.items (term_raw symbols.now (clause_variable prolog)
        (tree_of term.now))
        (precedence (table_of ops.now)
        (term_raw symbols.now (clause_variable prolog) (tree_of term.now)))) }
    // Where any text is read as this term, with its variables, the printed one is too, behind the same table and behind this one,
    // which may have more symbols at its end.
    ensures again { IfOk result (λ text. (st : Style) (before after : List Symbol) (other : List ℕ)
        (n : ℕ) →
        KeepsFixed ops.now → st.prolog ≡ prolog → FreesVariables prolog ops.now →
        ReadsTerm (table_of ops.now) st before other (tree_of term.now) after n →
        KeepsNumbers after symbols.now → length symbols.now < 2 ^ 64 → n ≤ 2 ^ 64 →
        ReadsTerm (table_of ops.now) st before text.items (tree_of term.now) after n
        × ReadsTerm (table_of ops.now) st symbols.now text.items (tree_of term.now) symbols.now n) }
{
    ops.rows_are_lawful();
    let raw = term_raw(alloc, symbols, Variables::Numbered(prolog), term)?;
    let text = raw_text(alloc, ops, &raw)?;
    Ok(text)
}

// Adds the decimal digits of a number.
fn number(out: &mut Vec<u8>, n: u64) -> Result<(), AllocError>
    ensures { OnOk result (out.new.items ≡ out.old.items ++ decimal n) }
{
    let mut buffer = itoa::Buffer::new();
    out.extend_from_slice(buffer.format(n).as_bytes())
}

// The name of a clause's variable.
fn clause_variable(alloc: Global, prolog: bool, x: u64) -> Result<Name, AllocError>
    ensures { IfOk result (λ name. name ≡ clause_variable prolog x) }
{
    let letters: &[u8] = if prolog { b"ABCDE" } else { b"xyzuw" };
    let mut bytes = Vec::new(alloc);
    match letters.get(x as usize) {
        Some(letter) => bytes.push(*letter)?,
        None => {
            bytes.push(if prolog { b'V' } else { b'v' })?;
            number(&mut bytes, x)?;
        }
    }
    Ok(Name::new(bytes))
}

// The name that a formula has with it for a variable.
fn name_in(alloc: Global, names: &Names, x: u64) -> Result<Name, AllocError>
    ensures { IfOk result (λ name. name ≡ name_in names.now x) }
{
    match names.as_slice().get(x as usize) {
        Some(name) => Name::from_slice(alloc, name.bytes()),
        None => Ok(Name::new(Vec::new(alloc))),
    }
}

/// The name of a variable.
pub fn variable(alloc: Global, variables: Variables, x: u64) -> Result<Name, AllocError>
    ensures { IfOk result (λ name. name ≡ naming_of variables.entry x) }
{
    match variables {
        Variables::Named(names) => name_in(alloc, names, x),
        Variables::Numbered(prolog) => clause_variable(alloc, prolog, x),
    }
}

/// The name of a symbol, or of equality.
pub fn symbol_name(alloc: Global, symbols: &Symbols, s: Sym) -> Result<Name, AllocError>
    ensures { IfOk result (λ name. name ≡ symbol_name symbols.now s.0) }
{
    if s == EQ {
        Name::from_slice(alloc, b"=")
    } else if s.0 < symbols.len() as u64 {
        Name::from_slice(alloc, symbols.name(s))
    } else {
        Ok(Name::new(Vec::new(alloc)))
    }
}

/// The term as read that a term is printed as.
pub fn term_raw(
    alloc: Global,
    symbols: &Symbols,
    variables: Variables,
    term: &Term,
) -> Result<Raw, AllocError>
    ensures { IfOk result (λ raw. raw_of raw
        ≡ term_raw symbols.now (naming_of variables.entry) (tree_of term.now)) }
{
    match term {
        Term::Var(x) => Ok(Raw::App(variable(alloc, variables, *x)?, Raws::new(alloc))),
        Term::Elem(k) => {
            let mut digits = Vec::new(alloc);
            number(&mut digits, u64::from(*k))?;
            Ok(Raw::App(Name::new(digits), Raws::new(alloc)))
        }
        Term::App(s, terms) => {
            let name = symbol_name(alloc, symbols, *s)?;
            let mut args = Raws::new(alloc);
            for term in &terms.items {
                args.push(term_raw(alloc, symbols, variables, term)?)?;
            }
            Ok(Raw::App(name, args))
        }
    }
}

/// The same of each of some terms.
pub fn terms_raw(
    alloc: Global,
    symbols: &Symbols,
    variables: Variables,
    terms: &Terms,
) -> Result<Raws, AllocError>
    ensures { IfOk result (λ raws. raws_of raws
        ≡ terms_raw symbols.now (naming_of variables.entry) (trees_of terms.now)) }
{
    let mut args = Raws::new(alloc);
    for term in &terms.items {
        args.push(term_raw(alloc, symbols, variables, term)?)?;
    }
    Ok(args)
}
