// Reading an interpretation, behind its word.
ghost use Rattle.std.specs.Prelude.{◌≡◌, ◌+◌, ◌<◌, ◌≤◌, ◌^◌, ℕ, List, [], ◌∷◌, ◌++◌, if◌then◌else◌, Err, IfOk, OnOk, length};
ghost use Rattle.fol_core.specs.declared.symbols.Kind.{Kind};
ghost use Rattle.ladr_lex.specs.Lexeme.{Lexeme, lexeme_of};
ghost use Rattle.ladr_commands.specs.ByName.{NamedTable, table, by_name};
ghost use Rattle.ladr_commands.specs.Commands.{interpretation, comment_list, behind_comments, entry_list};
ghost use Rattle.ladr_commands.specs.Form.{Form, token, values, places, comments, comment, entries, entry, entry_values, behind_entry_name, behind_number, behind_place, number_said, closed, form_outcome, reads, stops, IsValue, IsPlaceholder, IsEntry};
ghost use Rattle.ladr_commands.specs.Wanted.{kind_said};
ghost use Rattle.ladr_commands.specs.declared.command.Command.TheVariants.{Interpretation};
ghost use Rattle.ladr_commands.specs.declared.fault.Fault.TheVariants.{Bad};
ghost use Rattle.ladr_commands.specs.declared.wanted.Wanted.TheVariants.{OpenSquare, CommaOrClose, CommaOrCloseSquare, CommaOrOpen, SymbolOrCloseSquare, KindWordOrCloseSquare};

use crate::by_name::{ByName, TableEntry};
use crate::cursor::Cursor;
use crate::fault::Fault;
use crate::read::closed;
use crate::wanted::{Wanted, is_close_square, is_comma, kind_in, text_of};
use fol_core::{Kind, Name};
use ladr_lex::{Token, number};
use std::alloc::Global;

/// `(n, [name = number, ..], [entry, ..]).`
pub fn opened_interpretation(alloc: Global, cursor: &mut Cursor) -> Result<ByName, Fault>
    ensures ok { IfOk result (λ it. form_outcome interpretation cursor.old
        ≡ reads (Interpretation it)) }
    ensures bad { result ≡ Err Bad → form_outcome interpretation cursor.old ≡ stops cursor.new }
{
    cursor.take(Wanted::Open)?;
    let size = cursor.take(Wanted::Numeral)?;
    cursor.take(Wanted::Comma)?;
    comment_list(cursor)?;
    cursor.take(Wanted::Comma)?;
    let entries = entry_list(alloc, cursor, number(text_of(&size)))?;
    Ok(ByName::new(number(text_of(&size)), entries))
}

// `[name = number, ..]`
fn comment_list(cursor: &mut Cursor) -> Result<(), Fault>
    ensures ok { OnOk result ((n : ℕ) → form_outcome (comment_list n) cursor.old
        ≡ form_outcome (behind_comments n) cursor.new) }
    ensures bad { result ≡ Err Bad → (n : ℕ)
        → form_outcome (comment_list n) cursor.old ≡ stops cursor.new }
{
    cursor.take(Wanted::OpenSquare)?;
    let first = cursor.take(Wanted::SymbolOrCloseSquare)?;
    if is_close_square(&first) {
        return Ok(());
    }
    comments(cursor)
}

// `= number`, and then further comments up to `]`.
fn comments(cursor: &mut Cursor) -> Result<(), Fault>
    ensures ok { OnOk result ((f : Form) → form_outcome (comment f) cursor.old
        ≡ form_outcome f cursor.new) }
    ensures bad { result ≡ Err Bad → (f : Form)
        → form_outcome (comment f) cursor.old ≡ stops cursor.new }
{
    while comment(cursor)? {
        name(cursor)?;
    }
    Ok(())
}

// `= number`, and whether a comma stands behind it, or else `]`.
fn comment(cursor: &mut Cursor) -> Result<bool, Fault>
    ensures ok { IfOk result (λ more. (f : Form)
        → form_outcome (comment f) cursor.old
        ≡ form_outcome (if more then comments f else f) cursor.new) }
    ensures bad { result ≡ Err Bad → (f : Form)
        → form_outcome (comment f) cursor.old ≡ stops cursor.new }
    ensures shorter { OnOk result (length cursor.new < length cursor.old) }
{
    cursor.take(Wanted::Equality)?;
    cursor.take(Wanted::Numeral)?;
    let mark = cursor.take(Wanted::CommaOrCloseSquare)?;
    Ok(is_comma(&mark))
}

// The name of a further comment.
fn name<'a>(cursor: &mut Cursor<'a>) -> Result<Token<'a>, Fault>
    ensures ok { OnOk result ((f : Form) → form_outcome (comments f) cursor.old
        ≡ form_outcome (comment f) cursor.new) }
    ensures bad { result ≡ Err Bad → (f : Form)
        → form_outcome (comments f) cursor.old ≡ stops cursor.new }
    ensures shorter { OnOk result (length cursor.new < length cursor.old) }
{
    cursor.take(Wanted::Symbol)
}

// `[entry, .., entry]).`
fn entry_list(alloc: Global, cursor: &mut Cursor, size: u32) -> Result<Vec<TableEntry>, Fault>
    ensures ok { IfOk result (λ es. form_outcome (entry_list size) cursor.old
        ≡ reads (Interpretation (by_name size es.items))) }
    ensures bad { result ≡ Err Bad → form_outcome (entry_list size) cursor.old ≡ stops cursor.new }
{
    cursor.take(Wanted::OpenSquare)?;
    let first = cursor.take(Wanted::KindWordOrCloseSquare)?;
    if is_close_square(&first) {
        closed(cursor)?;
        return Ok(Vec::new(alloc));
    }
    let entries = entries(alloc, cursor, size, kind_in(&first))?;
    closed(cursor)?;
    Ok(entries)
}

// Entries up to `]`, the kind of the first being told.
fn entries(
    alloc: Global,
    cursor: &mut Cursor,
    size: u32,
    kind: Kind,
) -> Result<Vec<TableEntry>, Fault>
    ensures ok { IfOk result (λ es. form_outcome (entry size [] kind) cursor.old
        ≡ form_outcome (closed (Interpretation (by_name size es.items))) cursor.new) }
    ensures bad { result ≡ Err Bad → form_outcome (entry size [] kind) cursor.old
        ≡ stops cursor.new }
{
    let mut entries = Vec::new(alloc);
    let mut kind = kind;
    loop {
        let (entry, last) = entry(alloc, cursor, kind)?;
        entries.push(entry)?;
        if last {
            return Ok(entries);
        }
        kind = kind_word(cursor)?;
    }
}

// The kind of a further entry.
fn kind_word(cursor: &mut Cursor) -> Result<Kind, Fault>
    ensures ok { IfOk result (λ kind. (n : ℕ) (es : List NamedTable)
        → form_outcome (entries n es) cursor.old ≡ form_outcome (entry n es kind) cursor.new) }
    ensures bad { result ≡ Err Bad → (n : ℕ) (es : List NamedTable)
        → form_outcome (entries n es) cursor.old ≡ stops cursor.new }
    ensures shorter { OnOk result (length cursor.new < length cursor.old) }
{
    match cursor.take(Wanted::KindWord) {
        Ok(token) => Ok(kind_in(&token)),
        Err(fault) => Err(fault),
    }
}

// An entry behind its kind's word, and whether it is the last one.
fn entry(alloc: Global, cursor: &mut Cursor, kind: Kind) -> Result<(TableEntry, bool), Fault>
    ensures ok { IfOk result (λ r. IsEntry cursor.old kind r.0 r.1 cursor.new) }
    ensures bad { result ≡ Err Bad → (n : ℕ) (es : List NamedTable)
        → form_outcome (entry n es kind) cursor.old ≡ stops cursor.new }
    ensures shorter { OnOk result (length cursor.new < length cursor.old) }
{
    cursor.take(Wanted::Open)?;
    let name = cursor.take(Wanted::Symbol)?;
    let arity = arity(cursor)?;
    cursor.take(Wanted::OpenSquare)?;
    let values = values(alloc, cursor)?;
    cursor.take(Wanted::Close)?;
    let mark = cursor.take(Wanted::CommaOrCloseSquare)?;
    let name = Name::from_slice(alloc, text_of(&name))?;
    Ok((TableEntry::new(kind, name, arity, values), !is_comma(&mark)))
}

// What stands between a name and its values: a comma, or places for arguments before it.
fn arity(cursor: &mut Cursor) -> Result<u64, Fault>
    ensures ok { IfOk result (λ arity. (n : ℕ) (es : List NamedTable) (kind : Kind) (name : List ℕ)
        → form_outcome (token CommaOrOpen (behind_entry_name n es kind name)) cursor.old
        ≡ form_outcome (entry_values n es kind name arity) cursor.new) }
    ensures bad { result ≡ Err Bad → (n : ℕ) (es : List NamedTable) (kind : Kind) (name : List ℕ)
        → form_outcome (token CommaOrOpen (behind_entry_name n es kind name)) cursor.old
        ≡ stops cursor.new }
    ensures shorter { OnOk result (length cursor.new ≤ length cursor.old) }
{
    let mark = cursor.take(Wanted::CommaOrOpen)?;
    if is_comma(&mark) {
        return Ok(0);
    }
    let arity = places(cursor)?;
    cursor.take(Wanted::Comma)?;
    Ok(arity)
}

// `_, .., _)`: how many there are.
fn places(cursor: &mut Cursor) -> Result<u64, Fault>
    ensures ok { IfOk result (λ n. (onward : ℕ → Form)
        → form_outcome (places 0 onward) cursor.old ≡ form_outcome (onward n) cursor.new) }
    ensures bad { result ≡ Err Bad → (onward : ℕ → Form)
        → form_outcome (places 0 onward) cursor.old ≡ stops cursor.new }
    ensures shorter { OnOk result (length cursor.new ≤ length cursor.old) }
{
    for before in 0..cursor.left() {
        if place(cursor)? {
            return Ok(before as u64 + 1);
        }
    }
    Err(Fault::Bad)
}

// A place for an argument, and whether it is the last one.
fn place(cursor: &mut Cursor) -> Result<bool, Fault>
    ensures ok { IfOk result (λ last. IsPlaceholder cursor.old last cursor.new) }
    ensures bad { result ≡ Err Bad → (n : ℕ) (onward : ℕ → Form)
        → form_outcome (places n onward) cursor.old ≡ stops cursor.new }
    ensures shorter { OnOk result (length cursor.new < length cursor.old) }
{
    blank(cursor)?;
    let mark = cursor.take(Wanted::CommaOrClose)?;
    Ok(!is_comma(&mark))
}

// `_`
fn blank<'a>(cursor: &mut Cursor<'a>) -> Result<Token<'a>, Fault>
    ensures ok { OnOk result ((n : ℕ) (onward : ℕ → Form)
        → form_outcome (places n onward) cursor.old
        ≡ form_outcome (token CommaOrClose (behind_place (n + 1) onward)) cursor.new) }
    ensures bad { result ≡ Err Bad → (n : ℕ) (onward : ℕ → Form)
        → form_outcome (places n onward) cursor.old ≡ stops cursor.new }
    ensures shorter { OnOk result (length cursor.new < length cursor.old) }
{
    cursor.take(Wanted::Place)
}

// `v, .., v]`
fn values(alloc: Global, cursor: &mut Cursor) -> Result<Vec<u32>, Fault>
    ensures ok { IfOk result (λ vs. (onward : List ℕ → Form)
        → form_outcome (values [] onward) cursor.old ≡ form_outcome (onward vs.items) cursor.new) }
    ensures bad { result ≡ Err Bad → (onward : List ℕ → Form)
        → form_outcome (values [] onward) cursor.old ≡ stops cursor.new }
    ensures shorter { OnOk result (length cursor.new < length cursor.old) }
{
    let mut values = Vec::new(alloc);
    loop {
        let (value, last) = value(cursor)?;
        values.push(value)?;
        if last {
            return Ok(values);
        }
    }
}

// A value, and whether it is the last one.
fn value(cursor: &mut Cursor) -> Result<(u32, bool), Fault>
    ensures ok { IfOk result (λ r. IsValue cursor.old r.0 r.1 cursor.new) }
    ensures bad { result ≡ Err Bad → (read : List ℕ) (onward : List ℕ → Form)
        → form_outcome (values read onward) cursor.old ≡ stops cursor.new }
    ensures shorter { OnOk result (length cursor.new < length cursor.old) }
{
    let token = numeral(cursor)?;
    let mark = cursor.take(Wanted::CommaOrCloseSquare)?;
    Ok((number(text_of(&token)), !is_comma(&mark)))
}

// The numeral of a value.
fn numeral<'a>(cursor: &mut Cursor<'a>) -> Result<Token<'a>, Fault>
    ensures ok { IfOk result (λ t. (read : List ℕ) (onward : List ℕ → Form)
        → form_outcome (values read onward) cursor.old
        ≡ form_outcome (token CommaOrCloseSquare
        (behind_number (read ++ number_said (lexeme_of t) ∷ []) onward)) cursor.new) }
    ensures bad { result ≡ Err Bad → (read : List ℕ) (onward : List ℕ → Form)
        → form_outcome (values read onward) cursor.old ≡ stops cursor.new }
    ensures shorter { OnOk result (length cursor.new < length cursor.old) }
{
    cursor.take(Wanted::Numeral)
}
