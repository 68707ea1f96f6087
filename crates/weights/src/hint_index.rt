// Rows of hints, by the symbols that their literals begin with.
ghost use Rattle.std.specs.Prelude.{◌≡◌, ◌≤◌, ◌<◌, ◌^◌, ◌++◌, [], ◌∷◌, ◌==◌, if◌then◌else◌, ℕ, true, IfSome, IfOk, OnOk, length};
ghost use Rattle.std.specs.List.{list_any};
ghost use Rattle.fol_core.specs.TermView.{tree_of};
ghost use Rattle.fol_core.specs.Tree.{trees_of};
ghost use Rattle.weights.specs.HintIndex.{head_mark, first_mark, sign_mark, row_of, row_for, rows_by, rows_of, is_among, looks_up, row_items};

use fol_core::{Clause, Literal, Sym, Term, Terms};
use std::alloc::{AllocError, Global};

// What a term begins with: one more than its symbol, and 0 where there is none.
fn head_mark(term: &Term) -> u128
    ensures mark { result ≡ head_mark (tree_of term.now) }
    ensures bound { result ≤ 2 ^ 64 }
{
    match term {
        Term::Var(_) => 0,
        Term::Elem(_) => 0,
        Term::App(symbol, _) => u128::from(symbol.0) + 1,
    }
}

// And what the first of some arguments begins with.
#[tactic(auto, using(crate::proofs::Indexed::mark_none, crate::proofs::Indexed::mark_first))]
fn first_mark(terms: &Terms) -> u128
    ensures mark { result ≡ first_mark (trees_of terms.now) }
    ensures bound { result ≤ 2 ^ 64 }
{
    if terms.items.len() == 0 {
        return 0;
    }
    head_mark(&terms.items[0])
}

// A number for a sign.
fn sign_mark(positive: bool) -> u128
    ensures mark { result ≡ sign_mark positive }
    ensures bound { result ≤ 1 }
{
    if positive { 1 } else { 0 }
}

// The row, of so many, of a sign, a symbol, and what its first argument begins with.
#[tactic(auto, using(std::proofs::lemmas::Nat::mod_below))]
fn row_of(rows: usize, positive: bool, symbol: Sym, mark: u128) -> usize
    requires rows { 0 < rows }
    requires mark { mark ≤ 2 ^ 64 }
    ensures row { result ≡ row_of rows positive symbol.0 mark }
    ensures bound { result < rows }
{
    let key = (u128::from(symbol.0) * 31 + mark) * 2 + sign_mark(positive);
    (key % rows as u128) as usize
}

// The row in which a literal of a clause is looked up.
fn row_for(rows: usize, literal: &Literal) -> Option<usize>
    requires { 0 < rows }
    ensures row { result ≡ row_for rows literal.now.positive (tree_of literal.now.atom) }
    ensures bound { IfSome result (λ r. r < rows) }
{
    match &literal.atom {
        Term::Var(_) => None,
        Term::Elem(_) => None,
        Term::App(symbol, terms) => {
            Some(row_of(rows, literal.positive, *symbol, first_mark(terms)))
        }
    }
}

// Adds the rows in which a hint stands by a literal.
fn add_rows(rows: usize, literal: &Literal, all: &mut Vec<usize>) -> Result<(), AllocError>
    requires { 0 < rows }
    ensures { OnOk result (all.new.items ≡ all.old.items
        ++ rows_by rows literal.now.positive (tree_of literal.now.atom)) }
{
    match &literal.atom {
        Term::Var(_) => Ok(()),
        Term::Elem(_) => Ok(()),
        Term::App(symbol, terms) => {
            all.push(row_of(rows, literal.positive, *symbol, 0))?;
            all.push(row_of(rows, literal.positive, *symbol, first_mark(terms)))?;
            Ok(())
        }
    }
}

/// The rows in which a hint stands.
#[tactic(auto, using(crate::proofs::Indexed::rows_more, crate::proofs::Indexed::rows_end))]
pub fn rows_of(alloc: Global, rows: usize, clause: &Clause) -> Result<Vec<usize>, AllocError>
    requires { 0 < rows }
    ensures { IfOk result (λ all. all.items ≡ rows_of rows clause.now) }
{
    let mut all = Vec::new(alloc);
    for literal in &clause.literals {
        add_rows(rows, literal, &mut all)?;
    }
    Ok(all)
}

// Whether a row is the shortest so far.
fn is_shorter(rows: &[Vec<usize>], row: usize, shortest: Option<usize>) -> bool
    requires row { row < length rows.now }
    requires shortest { IfSome shortest (λ r. r < length rows.now) }
{
    match shortest {
        Some(other) => rows[row].len() < rows[other].len(),
        None => true,
    }
}

/// The shortest of the rows in which literals of a clause are looked up.
#[tactic(auto, using(crate::proofs::Indexed::looked_up))]
pub fn shortest_row(rows: &[Vec<usize>], clause: &Clause) -> Option<usize>
    requires { 0 < length rows.now }
    ensures bound { IfSome result (λ r. r < length rows.now) }
    ensures row { IfSome result (λ r. list_any (looks_up (length rows.now) r) clause.now ≡ true) }
{
    let mut shortest = None;
    for literal in &clause.literals {
        if let Some(row) = row_for(rows.len(), literal) {
            if is_shorter(rows, row, shortest) {
                shortest = Some(row);
            }
        }
    }
    shortest
}

/// Rows without places.
pub fn no_rows(alloc: Global, many: usize) -> Result<Vec<Vec<usize>>, AllocError>
    ensures len { IfOk result (λ rows. length rows.items ≡ many) }
    ensures none { IfOk result (λ rows. (r : ℕ) → row_items rows.items r ≡ []) }
{
    let mut rows = Vec::new(alloc);
    for _ in 0..many {
        rows.push(Vec::new(alloc))?;
    }
    Ok(rows)
}

// Puts a place at the end of a row.
#[tactic(auto, using(crate::proofs::Indexed::pushed_at))]
fn push_at(rows: &mut Vec<Vec<usize>>, row: usize, place: usize) -> Result<(), AllocError>
    requires { row < length rows.old.items }
    ensures len { OnOk result (length rows.new.items ≡ length rows.old.items) }
    ensures rows { OnOk result ((r : ℕ) → row_items rows.new.items r
        ≡ row_items rows.old.items r ++ (if row == r then place ∷ [] else [])) }
{
    rows[row].push(place)?;
    Ok(())
}

/// Puts the place of a hint at the end of each row in which it stands, once.
#[tactic(auto, using(crate::proofs::Indexed::added))]
pub fn add_place(
    rows: &mut Vec<Vec<usize>>,
    named: &[usize],
    place: usize,
) -> Result<(), AllocError>
    ensures len { OnOk result (length rows.new.items ≡ length rows.old.items) }
    ensures rows { OnOk result ((r : ℕ) → r < length rows.old.items → row_items rows.new.items r
        ≡ row_items rows.old.items r ++ (if is_among named.now r then place ∷ [] else [])) }
{
    for (i, row) in named.iter().enumerate() {
        if *row < rows.len() && !named[..i].contains(row) {
            push_at(rows, *row, place)?;
        }
    }
    Ok(())
}
