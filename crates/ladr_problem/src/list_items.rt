// The item of a list that tokens are.
ghost use Rattle.std.specs.Prelude.{◌≡◌, take, codes, IfOk, IfErr, MatchBool};
ghost use Rattle.ladr_lex.specs.Lexeme.{ordinary, symbol, full_stop, lexeme_of, lexemes_of};
ghost use Rattle.ladr_reader.specs.Table.{table_of};
ghost use Rattle.ladr_problem.specs.ItemView.{item_of};
ghost use Rattle.ladr_problem.specs.ListItem.{closing_tokens, IsListItem, IsItemFault, IsShallow};
ghost use Rattle.ladr_settings.specs.declared.lists.OpenList.TheVariants.{Distinct};

use crate::item::ListItem;
use ladr_distinct::read_names;
use ladr_lex::{Ops, Token, TokenKind};
use ladr_reader::{TermFault, read_term};
use ladr_settings::OpenList;
use std::alloc::Global;

/// The item that the tokens are in a list, which are one item with its full stop, or all that is left of a text.
pub fn read_list_item(
    alloc: Global,
    ops: &Ops,
    list: OpenList,
    tokens: &[Token],
) -> Result<ListItem, TermFault>
    ensures read { IfOk result (λ item. IsListItem list (table_of ops.now)
        (lexemes_of tokens.now) (item_of item)) }
    ensures shallow { IfOk result (λ item. IsShallow (lexemes_of tokens.now) (item_of item)) }
    ensures fault { IfErr result (IsItemFault list (table_of ops.now)
        (lexemes_of tokens.now)) }
{
    ops.rows_are_lawful();
    if !begins_with_closing(tokens) {
        if let OpenList::Distinct = list {
            return read_names_item(alloc, ops, tokens);
        }
        let raw = read_term(alloc, ops, tokens)?;
        return Ok(ListItem::Term(raw));
    }
    if tokens.len() == 2 {
        Ok(ListItem::End)
    } else {
        Err(TermFault::Bad(2))
    }
}

// The names that the tokens are, which don't begin with `end_of_list.`
fn read_names_item(alloc: Global, ops: &Ops, tokens: &[Token]) -> Result<ListItem, TermFault>
    requires { ¬ take 2 (lexemes_of tokens.now) ≡ closing_tokens }
    ensures read { IfOk result (λ item. IsListItem Distinct (table_of ops.now)
        (lexemes_of tokens.now) (item_of item)) }
    ensures shallow { IfOk result (λ item. IsShallow (lexemes_of tokens.now) (item_of item)) }
    ensures fault { IfErr result (IsItemFault Distinct (table_of ops.now)
        (lexemes_of tokens.now)) }
{
    if begins_with_end_word(tokens) {
        return Err(TermFault::Bad(1));
    }
    let names = read_names(alloc, ops, tokens)?;
    Ok(ListItem::Names(names))
}

// Whether the first token is `end_of_list`.
fn begins_with_end_word(tokens: &[Token]) -> bool
    ensures { MatchBool result (take 1 (lexemes_of tokens.now) ≡ take 1 closing_tokens)
        (¬ take 1 (lexemes_of tokens.now) ≡ take 1 closing_tokens) }
{
    match tokens {
        [word, ..] => is_end_word(word),
        _ => false,
    }
}

// Whether the first tokens are `end_of_list.`
fn begins_with_closing(tokens: &[Token]) -> bool
    ensures { MatchBool result (take 2 (lexemes_of tokens.now) ≡ closing_tokens)
        (¬ take 2 (lexemes_of tokens.now) ≡ closing_tokens) }
{
    match tokens {
        [word, stop, ..] => is_end_word(word) && stop.kind() == TokenKind::Stop,
        _ => false,
    }
}

fn is_end_word(token: &Token) -> bool
    ensures { MatchBool result (lexeme_of token.now ≡ symbol ordinary (codes "end_of_list"))
        (¬ lexeme_of token.now ≡ symbol ordinary (codes "end_of_list")) }
{
    token.kind() == TokenKind::Ordinary && token.text() == b"end_of_list".as_slice()
}
