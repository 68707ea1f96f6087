// Reading a command.
ghost use Rattle.std.specs.Prelude.{◌≡◌, ◌<◌, length, ℕ, true, List, [], Err, IfOk, OnOk, IfErr};
ghost use Rattle.ladr_lex.specs.Lexeme.{Lexeme, lexeme_of, lexemes_of};
ghost use Rattle.ladr_commands.specs.Commands.{commands_of, interpretation_item, behind_first_token, behind_word, name_form, names_form, assign_form, behind_value, behind_dash, declaration, behind_type, whole_in};
ghost use Rattle.ladr_commands.specs.Faults.{IsCommandFault};
ghost use Rattle.ladr_commands.specs.Form.{Form, token, members, opened, closed, stopped, behind_text, IsMember, list, form_outcome, reads, stops, SaysCommand};
ghost use Rattle.ladr_commands.specs.Spelled.{Spells, SpellsInterpretation, SpellsNone};
ghost use Rattle.ladr_commands.specs.declared.command.Command.{Command};
ghost use Rattle.ladr_commands.specs.declared.command.Command.TheVariants as command;
ghost use Rattle.ladr_commands.specs.declared.command.Command.TheVariants.{Interpretation};
ghost use Rattle.ladr_commands.specs.declared.fault.Fault.TheVariants.{Bad};
ghost use Rattle.ladr_commands.specs.declared.wanted.Wanted.TheVariants.{Symbol, NumeralOrClose, SymbolOrOpenSquare};

use crate::by_name::ByName;
use crate::command::{Command, Value};
use crate::cursor::Cursor;
use crate::fault::{CommandFault, Fault};
use crate::interpretation::opened_interpretation;
use crate::wanted::{
    Wanted, is_close, is_comma, is_interpretation, is_number, is_open_square, text_of,
};
use crate::word::{Word, word_of};
use fol_core::{Name, Names};
use ladr_lex::{Token, number, whole_number};
use std::alloc::Global;

/// The command that the tokens of an item are; interpretations are commands of the program that tests them alone.
pub fn read_command(alloc: Global, tester: bool, tokens: &[Token]) -> Result<Command, CommandFault>
    ensures read { IfOk result (λ c. SaysCommand (commands_of tester) (lexemes_of tokens.now) c) }
    ensures fault { IfErr result (IsCommandFault (commands_of tester) (lexemes_of tokens.now)) }
    ensures spelled { IfOk result (Spells tester (lexemes_of tokens.now)) }
    ensures unspelled { IfErr result (SpellsNone (Spells tester (lexemes_of tokens.now))) }
{
    let mut cursor = Cursor::new(tokens);
    match command(alloc, tester, &mut cursor) {
        Ok(command) => Ok(command),
        Err(Fault::Bad) => Err(CommandFault::Bad(tokens.len() - cursor.left())),
        Err(Fault::Memory) => Err(CommandFault::Memory),
    }
}

/// The interpretation that the tokens of an item are.
pub fn read_interpretation(alloc: Global, tokens: &[Token]) -> Result<ByName, CommandFault>
    ensures read { IfOk result (λ it. SaysCommand interpretation_item (lexemes_of tokens.now)
        (Interpretation it)) }
    ensures fault { IfErr result (IsCommandFault interpretation_item (lexemes_of tokens.now)) }
    ensures spelled { IfOk result (SpellsInterpretation (lexemes_of tokens.now)) }
    ensures unspelled { IfErr result (SpellsNone (SpellsInterpretation (lexemes_of tokens.now))) }
{
    let mut cursor = Cursor::new(tokens);
    match worded_interpretation(alloc, &mut cursor) {
        Ok(it) => Ok(it),
        Err(Fault::Bad) => Err(CommandFault::Bad(tokens.len() - cursor.left())),
        Err(Fault::Memory) => Err(CommandFault::Memory),
    }
}

fn worded_interpretation(alloc: Global, cursor: &mut Cursor) -> Result<ByName, Fault>
    ensures ok { IfOk result (λ it. form_outcome interpretation_item cursor.old
        ≡ reads (Interpretation it)) }
    ensures bad { result ≡ Err Bad → form_outcome interpretation_item cursor.old
        ≡ stops cursor.new }
{
    cursor.take(Wanted::InterpretationWord)?;
    opened_interpretation(alloc, cursor)
}

// All that is left is a command.
fn command(alloc: Global, tester: bool, cursor: &mut Cursor) -> Result<Command, Fault>
    ensures ok { IfOk result (λ c. form_outcome (commands_of tester) cursor.old ≡ reads c) }
    ensures bad { result ≡ Err Bad → form_outcome (commands_of tester) cursor.old
        ≡ stops cursor.new }
{
    let token = first_word(tester, cursor)?;
    behind_first(alloc, cursor, &token)
}

// The word that a command begins with.
fn first_word<'a>(tester: bool, cursor: &mut Cursor<'a>) -> Result<Token<'a>, Fault>
    ensures ok { IfOk result (λ t. form_outcome (commands_of tester) cursor.old
        ≡ form_outcome (behind_first_token (lexeme_of t)) cursor.new) }
    ensures bad { result ≡ Err Bad → form_outcome (commands_of tester) cursor.old
        ≡ stops cursor.new }
{
    if tester {
        cursor.take(Wanted::TesterWord)
    } else {
        cursor.take(Wanted::CommandWord)
    }
}

// What stands behind the first token.
fn behind_first(alloc: Global, cursor: &mut Cursor, first: &Token) -> Result<Command, Fault>
    ensures ok { IfOk result (λ c.
        form_outcome (behind_first_token (lexeme_of first.now)) cursor.old ≡ reads c) }
    ensures bad { result ≡ Err Bad
        → form_outcome (behind_first_token (lexeme_of first.now)) cursor.old
        ≡ stops cursor.new }
{
    if is_interpretation(first) {
        return Ok(Command::Interpretation(opened_interpretation(alloc, cursor)?));
    }
    let word = word_of(text_of(first)).unwrap_or(Word::EndIf);
    behind_word(alloc, cursor, word)
}

// What stands behind a word.
fn behind_word(alloc: Global, cursor: &mut Cursor, word: Word) -> Result<Command, Fault>
    ensures ok { IfOk result (λ c. form_outcome (behind_word word) cursor.old ≡ reads c) }
    ensures bad { result ≡ Err Bad → form_outcome (behind_word word) cursor.old ≡ stops cursor.new }
{
    match word {
        Word::Set => Ok(Command::Flag(true, opened_name(alloc, cursor)?)),
        Word::Clear => Ok(Command::Flag(false, opened_name(alloc, cursor)?)),
        Word::Assign => opened_assignment(alloc, cursor),
        Word::Op => opened_declaration(alloc, cursor),
        Word::FunctionOrder => Ok(Command::FunctionOrder(opened_names(alloc, cursor)?)),
        Word::PredicateOrder => Ok(Command::PredicateOrder(opened_names(alloc, cursor)?)),
        Word::Formulas => Ok(Command::Formulas(opened_name(alloc, cursor)?)),
        Word::List => Ok(Command::List(opened_name(alloc, cursor)?)),
        Word::If => Ok(Command::If(opened_name(alloc, cursor)?)),
        Word::EndIf => {
            stopped(cursor)?;
            Ok(Command::EndIf)
        }
    }
}

// `.`, and nothing more.
pub fn stopped(cursor: &mut Cursor) -> Result<(), Fault>
    ensures ok { OnOk result ((c : Command) → form_outcome (stopped c) cursor.old ≡ reads c) }
    ensures bad { result ≡ Err Bad → (c : Command)
        → form_outcome (stopped c) cursor.old ≡ stops cursor.new }
{
    cursor.take(Wanted::Stop)?;
    cursor.end()
}

// `).`, and nothing more.
pub fn closed(cursor: &mut Cursor) -> Result<(), Fault>
    ensures ok { OnOk result ((c : Command) → form_outcome (closed c) cursor.old ≡ reads c) }
    ensures bad { result ≡ Err Bad → (c : Command)
        → form_outcome (closed c) cursor.old ≡ stops cursor.new }
{
    cursor.take(Wanted::Close)?;
    stopped(cursor)
}

// `(name).`
fn opened_name(alloc: Global, cursor: &mut Cursor) -> Result<Name, Fault>
    ensures ok { IfOk result (λ name. (command : List ℕ → Command)
        → form_outcome (opened (name_form command)) cursor.old ≡ reads (command name)) }
    ensures bad { result ≡ Err Bad → (command : List ℕ → Command)
        → form_outcome (opened (name_form command)) cursor.old ≡ stops cursor.new }
{
    cursor.take(Wanted::Open)?;
    let token = cursor.take(Wanted::Symbol)?;
    closed(cursor)?;
    Ok(Name::from_slice(alloc, text_of(&token))?)
}

// The symbol of a member of a list.
fn member_symbol<'a>(cursor: &mut Cursor<'a>) -> Result<Token<'a>, Fault>
    ensures ok { IfOk result (λ t. (read : List (List ℕ)) (onward : List (List ℕ) → Form)
        → form_outcome (members Symbol read onward) cursor.old
        ≡ form_outcome (behind_text read (lexeme_of t) onward) cursor.new) }
    ensures bad { result ≡ Err Bad → (read : List (List ℕ)) (onward : List (List ℕ) → Form)
        → form_outcome (members Symbol read onward) cursor.old ≡ stops cursor.new }
    ensures shorter { OnOk result (length cursor.new < length cursor.old) }
{
    cursor.take(Wanted::Symbol)
}

// A member of a list, and whether it is the last one.
fn member(alloc: Global, cursor: &mut Cursor) -> Result<(Name, bool), Fault>
    ensures ok { IfOk result (λ r. IsMember cursor.old r.0 r.1 cursor.new) }
    ensures bad { result ≡ Err Bad → (read : List (List ℕ)) (onward : List (List ℕ) → Form)
        → form_outcome (members Symbol read onward) cursor.old ≡ stops cursor.new }
    ensures shorter { OnOk result (length cursor.new < length cursor.old) }
{
    let token = member_symbol(cursor)?;
    let mark = cursor.take(Wanted::CommaOrCloseSquare)?;
    let name = Name::from_slice(alloc, text_of(&token))?;
    Ok((name, !is_comma(&mark)))
}

// `name, .., name]`
fn names(alloc: Global, cursor: &mut Cursor) -> Result<Names, Fault>
    ensures ok { IfOk result (λ names. (onward : List (List ℕ) → Form)
        → form_outcome (members Symbol [] onward) cursor.old
        ≡ form_outcome (onward names) cursor.new) }
    ensures bad { result ≡ Err Bad → (onward : List (List ℕ) → Form)
        → form_outcome (members Symbol [] onward) cursor.old ≡ stops cursor.new }
{
    let mut names = Names::new(alloc);
    loop {
        let (name, last) = member(alloc, cursor)?;
        names.push(name)?;
        if last {
            return Ok(names);
        }
    }
}

// `([name, .., name]).`
fn opened_names(alloc: Global, cursor: &mut Cursor) -> Result<Names, Fault>
    ensures ok { IfOk result (λ names. (command : List (List ℕ) → Command)
        → form_outcome (opened (names_form command)) cursor.old ≡ reads (command names)) }
    ensures bad { result ≡ Err Bad → (command : List (List ℕ) → Command)
        → form_outcome (opened (names_form command)) cursor.old ≡ stops cursor.new }
{
    cursor.take(Wanted::Open)?;
    cursor.take(Wanted::OpenSquare)?;
    let names = names(alloc, cursor)?;
    closed(cursor)?;
    Ok(names)
}

// `(name, value).`
fn opened_assignment(alloc: Global, cursor: &mut Cursor) -> Result<Command, Fault>
    ensures ok { IfOk result (λ c. form_outcome (opened assign_form) cursor.old ≡ reads c) }
    ensures bad { result ≡ Err Bad → form_outcome (opened assign_form) cursor.old
        ≡ stops cursor.new }
{
    cursor.take(Wanted::Open)?;
    let name = cursor.take(Wanted::Symbol)?;
    cursor.take(Wanted::Comma)?;
    let value = cursor.take(Wanted::Symbol)?;
    let value = closed_value(alloc, cursor, &value)?;
    let name = Name::from_slice(alloc, text_of(&name))?;
    Ok(Command::Assign(name, value))
}

// What stands behind the first token of a value.
fn closed_value(alloc: Global, cursor: &mut Cursor, first: &Token) -> Result<Value, Fault>
    ensures ok { IfOk result (λ v. (name : List ℕ)
        → form_outcome (behind_value name (lexeme_of first.now)) cursor.old
        ≡ reads (command.Assign name v)) }
    ensures bad { result ≡ Err Bad → (name : List ℕ)
        → form_outcome (behind_value name (lexeme_of first.now)) cursor.old ≡ stops cursor.new }
{
    if text_of(first) == b"-".as_slice() {
        return dashed_value(alloc, cursor);
    }
    closed(cursor)?;
    if is_number(first) {
        return Ok(Value::Number(false, whole_in(first)));
    }
    Ok(Value::Symbol(Name::from_slice(alloc, text_of(first))?))
}

// What stands behind `-`: a number, or the end of the value.
fn dashed_value(alloc: Global, cursor: &mut Cursor) -> Result<Value, Fault>
    ensures ok { IfOk result (λ v. (name : List ℕ)
        → form_outcome (token NumeralOrClose (behind_dash name)) cursor.old
        ≡ reads (command.Assign name v)) }
    ensures bad { result ≡ Err Bad → (name : List ℕ)
        → form_outcome (token NumeralOrClose (behind_dash name)) cursor.old ≡ stops cursor.new }
{
    let token = cursor.take(Wanted::NumeralOrClose)?;
    if is_close(&token) {
        stopped(cursor)?;
        return Ok(Value::Symbol(Name::from_slice(alloc, b"-")?));
    }
    closed(cursor)?;
    Ok(Value::Number(true, whole_in(&token)))
}

// The number of a numeral.
fn whole_in(token: &Token) -> u64
    ensures { result ≡ whole_in (lexeme_of token.now) }
{
    whole_number(text_of(token)).unwrap_or(u64::MAX)
}

// `(number, type, symbols).`
fn opened_declaration(alloc: Global, cursor: &mut Cursor) -> Result<Command, Fault>
    ensures ok { IfOk result (λ c. form_outcome (opened declaration) cursor.old ≡ reads c) }
    ensures bad { result ≡ Err Bad → form_outcome (opened declaration) cursor.old
        ≡ stops cursor.new }
{
    cursor.take(Wanted::Open)?;
    let precedence = cursor.take(Wanted::Numeral)?;
    cursor.take(Wanted::Comma)?;
    let kind = cursor.take(Wanted::Symbol)?;
    cursor.take(Wanted::Comma)?;
    let names = closed_symbols(alloc, cursor)?;
    let kind = Name::from_slice(alloc, text_of(&kind))?;
    Ok(Command::Op(number(text_of(&precedence)), kind, names))
}

// `symbol).` or `[symbol, .., symbol]).`
fn closed_symbols(alloc: Global, cursor: &mut Cursor) -> Result<Names, Fault>
    ensures ok { IfOk result (λ names. (p : ℕ) (type : List ℕ)
        → form_outcome (token SymbolOrOpenSquare (behind_type p type)) cursor.old
        ≡ reads (command.Op p type names)) }
    ensures bad { result ≡ Err Bad → (p : ℕ) (type : List ℕ)
        → form_outcome (token SymbolOrOpenSquare (behind_type p type)) cursor.old
        ≡ stops cursor.new }
{
    let token = cursor.take(Wanted::SymbolOrOpenSquare)?;
    if is_open_square(&token) {
        let names = names(alloc, cursor)?;
        closed(cursor)?;
        return Ok(names);
    }
    closed(cursor)?;
    let mut names = Names::new(alloc);
    names.push(Name::from_slice(alloc, text_of(&token))?)?;
    Ok(names)
}
