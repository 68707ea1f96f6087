// Names in square brackets, as items of a list of names are.
ghost use Rattle.std.specs.Prelude.{◌≡◌, ◌++◌, OnOk, IfOk, IfErr};
ghost use Rattle.ladr_lex.specs.Lexeme.{lexeme_of, lexemes_of};
ghost use Rattle.ladr_distinct.specs.Names.{may_be_listed, NamesItem, IsNamesFault};
ghost use Rattle.ladr_lex.specs.Tokens.{token_text};
ghost use Rattle.ladr_distinct.specs.NamesPass.{names_token, place_behind, name_in};
ghost use Rattle.ladr_reader.specs.Table.{table_of};

use fol_core::{Name, Names};
use ladr_lex::{Ops, Token, TokenKind};
use ladr_reader::{TermFault, quantifier_of};
use std::alloc::{AllocError, Global};

/// Where the reader of names stands.
#[derive(Clone, Copy)]
enum NamesPlace {
    AtStart,
    BehindOpening,
    BehindName,
    BehindComma,
    BehindClosing,
    BehindStop,
}

/// What a token is among names: a square bracket, a comma, a full stop, a name, or nothing that may stand there.
#[derive(Clone, Copy)]
enum NamesToken {
    Opens,
    Closes,
    Separates,
    Stops,
    Names,
    Unfit,
}

impl NamesToken {
    // What the token is.
    fn of(ops: &Ops, token: &Token) -> NamesToken
        ensures { result ≡ names_token (table_of ops.now) (lexeme_of token.now) }
    {
        match token.kind() {
            TokenKind::LeftSquare => NamesToken::Opens,
            TokenKind::RightSquare => NamesToken::Closes,
            TokenKind::Comma => NamesToken::Separates,
            TokenKind::Stop => NamesToken::Stops,
            TokenKind::Ordinary | TokenKind::Quoted | TokenKind::Special => {
                if may_be_listed(ops, token.text()) {
                    NamesToken::Names
                } else {
                    NamesToken::Unfit
                }
            }
            _ => NamesToken::Unfit,
        }
    }
}

impl NamesPlace {
    // Where the reader stands behind a token, if it may come here.
    fn behind(self, token: NamesToken) -> Option<NamesPlace>
        ensures { result ≡ place_behind self token }
    {
        match (self, token) {
            (NamesPlace::AtStart, NamesToken::Opens) => Some(NamesPlace::BehindOpening),
            (NamesPlace::BehindOpening, NamesToken::Closes) => Some(NamesPlace::BehindClosing),
            (NamesPlace::BehindOpening, NamesToken::Names) => Some(NamesPlace::BehindName),
            (NamesPlace::BehindName, NamesToken::Separates) => Some(NamesPlace::BehindComma),
            (NamesPlace::BehindName, NamesToken::Closes) => Some(NamesPlace::BehindClosing),
            (NamesPlace::BehindComma, NamesToken::Names) => Some(NamesPlace::BehindName),
            (NamesPlace::BehindClosing, NamesToken::Stops) => Some(NamesPlace::BehindStop),
            _ => None,
        }
    }
}

// Whether a symbol may be among the names.
fn may_be_listed(ops: &Ops, name: &[u8]) -> bool
    ensures { result ≡ may_be_listed (table_of ops.now) name.now }
{
    quantifier_of(name).is_none() && ops.prefix_of(name).is_none() && name != b"#".as_slice()
}

// Keeps a token, if it is a name.
fn keep(alloc: Global, names: &mut Names, token: &Token, role: NamesToken) -> Result<(), AllocError>
    ensures { OnOk result (names.new ≡ names.old ++ name_in role (token_text token.now)) }
{
    match role {
        NamesToken::Names => names.push(Name::from_slice(alloc, token.text())?),
        _ => Ok(()),
    }
}

/// The names that the tokens are in square brackets, which are one item with its full stop, or all that is left of a text.
pub fn read_names(alloc: Global, ops: &Ops, tokens: &[Token]) -> Result<Names, TermFault>
    ensures read { IfOk result (λ names. NamesItem (table_of ops.now) (lexemes_of tokens.now)
        names) }
    ensures fault { IfErr result (IsNamesFault (table_of ops.now) (lexemes_of tokens.now)) }
{
    ops.rows_are_lawful();
    let mut names = Names::new(alloc);
    let mut place = NamesPlace::AtStart;
    for (i, token) in tokens.iter().enumerate() {
        let role = NamesToken::of(ops, token);
        match place.behind(role) {
            Some(next) => place = next,
            None => return Err(TermFault::Bad(i)),
        }
        keep(alloc, &mut names, token, role)?;
    }
    match place {
        NamesPlace::BehindStop => Ok(names),
        _ => Err(TermFault::Bad(tokens.len())),
    }
}
