// Operators: how each stands to its arguments, and the table of those in force.
ghost use Rattle.std.specs.Prelude.{◌≡◌, ◌↔◌, ◌&&◌, not, ℕ, IfOk, OnOk, OnErr, Err, IsTrue, List, [], Some, true, false, length};
ghost use Rattle.ladr_lex.specs.ClauseNames.{clause_operator, FreesVariables};
ghost use Rattle.ladr_lex.specs.Cuts.{is_plain_symbol};
ghost use Rattle.ladr_lex.specs.OperatorView.{row_list, begins_usually, with_rows, may_be_put};
ghost use Rattle.ladr_lex.specs.Operators.{OperatorRow, operator_of, if_prefix, if_after, is_prefix, is_quantifier_word, has_precedence, are_lawful, standard_rows, with_operator_row, is_precedence, is_fixed, type_named, operator_with, unquoted, is_unfit_operator, is_unfit_symbol, declared};

use crate::clause_names::clause_operator;
use crate::scan::{is_quoted, is_symbol};
use fol_core::NameOrder;
use std::alloc::{AllocError, Global};
use std::marker::Model;

/// How an operator of precedence p stands to its arguments.
///
/// Infix operators take arguments below p; `InfixLeft` one up to p on the left, `InfixRight` on the right. `Prefix` and
/// `Postfix` take an argument up to p, `PrefixParen` and `PostfixParen` one below p.
#[derive(Clone, Copy)]
pub enum OperatorKind {
    Infix,
    InfixLeft,
    InfixRight,
    Prefix,
    PrefixParen,
    Postfix,
    PostfixParen,
}

/// What a symbol is declared as: an operator of a kind, or none.
#[derive(Clone, Copy)]
pub enum SymbolType {
    Operates(OperatorKind),
    Ordinary,
}

/// An operator: the precedence of its terms, and where its arguments stand.
#[derive(Clone, Copy)]
pub struct Operator {
    pub precedence: u16,
    pub kind: OperatorKind,
}

/// Why a symbol isn't declared: by the rows of misuse for precedences and types, and for symbols; or memory is lacking.
#[derive(Clone, Copy)]
pub enum DeclareError {
    UnfitOperator,
    UnfitSymbol,
    Memory,
}

/// The operators in force; contracts see the list of names with their operators.
///
/// A name has one operator at most; it is a symbol without quotes, and none of the words of quantifiers. Precedences are from 1
/// to 998.
#[derive(Drop)]
pub struct Ops {
    names: NameOrder,
    // By place of the name; a name whose operator was taken away has none.
    operators: Vec<Option<Operator>>,
    // Whether one of the names may begin as most symbols do. At the start none does, and then no such symbol is looked up.
    usual: bool,
}

impl Model for Ops {
    ghost use Rattle.std.specs.Prelude.{List};
    ghost use Rattle.ladr_lex.specs.Operators.{OperatorRow, are_lawful};

    ghost Value = { List OperatorRow };

    ghost use Rattle.ladr_lex.specs.OperatorView.{row_list, are_unusual};

    ghost view = { λ a. row_list a.names a.operators.items };

    ghost use Rattle.std.specs.Prelude.{◌≡◌, true, false, length};

    ghost invariant = { λ a. (length a.names ≡ length a.operators.items)
        × (are_lawful (row_list a.names a.operators.items) ≡ true)
        × (a.usual ≡ false → are_unusual (row_list a.names a.operators.items) ≡ true) };
}

impl Ops {
    #[tactic(auto, unfolding(crate::specs::Bytes::is_ordinary, crate::specs::Bytes::is_special))]
    /// The operators at the start.
    pub fn standard(alloc: Global) -> Result<Ops, AllocError>
        ensures { IfOk result (λ ops. ops ≡ standard_rows) }
    {
        let mut ops = Ops::none(alloc);
        ops.put_all(&[
            (b"#".as_slice(), 810, OperatorKind::InfixRight),
            (b"<->", 800, OperatorKind::Infix),
            (b"->", 800, OperatorKind::Infix),
            (b"<-", 800, OperatorKind::Infix),
            (b"|", 790, OperatorKind::InfixRight),
            (b"&", 780, OperatorKind::InfixRight),
            (b"=", 700, OperatorKind::Infix),
            (b"!=", 700, OperatorKind::Infix),
            (b"==", 700, OperatorKind::Infix),
            (b"<", 700, OperatorKind::Infix),
            (b"<=", 700, OperatorKind::Infix),
            (b">", 700, OperatorKind::Infix),
            (b">=", 700, OperatorKind::Infix),
            (b"+", 500, OperatorKind::Infix),
            (b"*", 500, OperatorKind::Infix),
            (b"@", 500, OperatorKind::Infix),
            (b"/", 500, OperatorKind::Infix),
            (b"\\", 500, OperatorKind::Infix),
            (b"^", 500, OperatorKind::Infix),
            (b"v", 500, OperatorKind::Infix),
            (b"-", 350, OperatorKind::Prefix),
            (b"'", 300, OperatorKind::Postfix),
        ])?;
        Ok(ops)
    }

    /// The operator of this name that stands before its argument.
    #[inline(always)]
    pub fn prefix_of(&self, name: &[u8]) -> Option<Operator>
        ensures { result ≡ if_prefix (operator_of self.now name.now) }
    {
        self.operator_of(name)
            .filter(|operator| operator.kind.is_prefix())
    }

    /// The operator of this name that stands between its arguments or behind its argument.
    #[inline(always)]
    pub fn after_of(&self, name: &[u8]) -> Option<Operator>
        ensures { result ≡ if_after (operator_of self.now name.now) }
    {
        self.operator_of(name)
            .filter(|operator| !operator.kind.is_prefix())
    }

    /// Every table is lawful.
    pub fn rows_are_lawful(&self)
        ensures { IsTrue (are_lawful self.now) }
    {
        let _ = &self.names;
    }

    /// Declares a symbol, whose quotes don't count: the operator that it had, if any, gives way to one of this precedence and
    /// type, or to none.
    pub fn declare(
        &mut self,
        precedence: u32,
        type_name: &[u8],
        symbol: &[u8],
    ) -> Result<(), DeclareError>
        ensures declared { OnOk result (self.new
            ≡ declared precedence type_name.now symbol.now self.old) }
        ensures operator { (result ≡ Err DeclareError.UnfitOperator)
            ↔ IsTrue (is_unfit_operator precedence type_name.now) }
        ensures symbol { (result ≡ Err DeclareError.UnfitSymbol)
            ↔ IsTrue (not (is_unfit_operator precedence type_name.now)
            && is_unfit_symbol symbol.now) }
        ensures err { OnErr result (self.new ≡ self.old) }
    {
        if precedence < 1 || precedence > 998 {
            return Err(DeclareError::UnfitOperator);
        }
        let Some(symbol_type) = type_named(type_name) else {
            return Err(DeclareError::UnfitOperator);
        };
        let name = unquoted(symbol);
        if is_fixed(name) || !is_symbol(name) {
            return Err(DeclareError::UnfitSymbol);
        }
        match self.put(name, symbol_type.with(precedence as u16)) {
            Ok(()) => Ok(()),
            Err(_) => Err(DeclareError::Memory),
        }
    }

    /// The operators of the texts of clauses: those that stand before their argument are none there if they are named like a
    /// clause's variable in this style, or like `c` or `f` with a number.
    pub fn of_clauses(&self, alloc: Global, prolog: bool) -> Result<Ops, AllocError>
        ensures operators { IfOk result (λ ops. (name : List ℕ) →
            operator_of ops name ≡ clause_operator prolog name (operator_of self.now name)) }
        ensures frees { IfOk result (λ ops. FreesVariables prolog ops) }
        ensures fixed { IfOk result (λ ops. (name : List ℕ) → is_fixed name ≡ true →
            operator_of ops name ≡ operator_of self.now name) }
    {
        let mut ops = Ops::none(alloc);
        for place in 0..self.operators.len() {
            let name = self.names.name(place);
            ops.put(name, clause_operator(prolog, name, self.operators[place]))?;
        }
        Ok(ops)
    }

    fn none(alloc: Global) -> Ops
        ensures { result ≡ [] }
    {
        Ops {
            names: NameOrder::new(alloc),
            operators: Vec::new(alloc),
            usual: false,
        }
    }

    // Gives names these operators, one after the other.
    fn put_all(&mut self, rows: &[(&[u8], u16, OperatorKind)]) -> Result<(), AllocError>
        requires { IsTrue (may_be_put rows.now) }
        ensures { OnOk result (self.new ≡ with_rows rows.now self.old) }
    {
        for (name, precedence, kind) in rows {
            self.put(name, kind.with(*precedence))?;
        }
        Ok(())
    }

    // Gives a name this operator, or none, in place of the one that it has.
    fn put(&mut self, name: &[u8], operator: Option<Operator>) -> Result<(), AllocError>
        requires symbol { IsTrue (is_plain_symbol name.now) }
        requires word { is_quantifier_word name.now ≡ false }
        requires precedence { IsTrue (has_precedence operator) }
        ensures ok { OnOk result (self.new ≡ with_operator_row name.now operator self.old) }
        ensures err { OnErr result (self.new ≡ self.old) }
    {
        put_row(&mut self.names, &mut self.operators, name, operator)?;
        self.usual |= begins_usually(name);
        Ok(())
    }

    #[tactic(auto, using(crate::proofs::OperatorLemmas::place_within, crate::proofs::OperatorLemmas::none_usual))]
    #[inline(always)]
    fn operator_of(&self, name: &[u8]) -> Option<Operator>
        ensures { result ≡ operator_of self.now name.now }
    {
        if !self.usual && begins_usually(name) {
            return None;
        }
        match self.names.position(name) {
            Some(place) => self.operators[place],
            None => None,
        }
    }
}

// Gives a name this operator, or none, in place of the one that it has.
#[tactic(auto, using(crate::proofs::OperatorLemmas::place_within))]
fn put_row(
    names: &mut NameOrder,
    operators: &mut Vec<Option<Operator>>,
    name: &[u8],
    operator: Option<Operator>,
) -> Result<(), AllocError>
    requires { length names.old ≡ length operators.old.items }
    ensures paired { length names.new ≡ length operators.new.items }
    ensures ok { OnOk result (row_list names.new operators.new.items
        ≡ with_operator_row name.now operator (row_list names.old operators.old.items)) }
    ensures err { OnErr result ((names.new ≡ names.old)
        × (operators.new.items ≡ operators.old.items)) }
{
    match names.position(name) {
        Some(place) => {
            operators[place] = operator;
            Ok(())
        }
        None => {
            operators.reserve(1)?;
            names.push(name)?;
            operators.push_reserved(operator);
            Ok(())
        }
    }
}

impl OperatorKind {
    /// Whether the operator stands before its argument.
    pub fn is_prefix(self) -> bool
        ensures { result ≡ is_prefix self }
    {
        matches!(self, OperatorKind::Prefix | OperatorKind::PrefixParen)
    }

    // An operator of this kind.
    fn with(self, precedence: u16) -> Option<Operator>
        ensures { result ≡ Some (record { precedence = precedence; kind = self }) }
    {
        Some(Operator {
            precedence,
            kind: self,
        })
    }
}

impl SymbolType {
    // The operator of this type, if it is one of operators.
    fn with(self, precedence: u16) -> Option<Operator>
        ensures { result ≡ operator_with precedence self }
    {
        match self {
            SymbolType::Operates(kind) => kind.with(precedence),
            SymbolType::Ordinary => None,
        }
    }
}

// Whether a name begins as most symbols do, with a small letter that isn't `v`.
#[inline(always)]
fn begins_usually(name: &[u8]) -> bool
    ensures { result ≡ begins_usually name.now }
{
    match name {
        [] => false,
        [first, ..] => matches!(*first, b'a'..=b'u' | b'w'..=b'z'),
    }
}

// The type of a name.
fn type_named(name: &[u8]) -> Option<SymbolType>
    ensures { result ≡ type_named name.now }
{
    if name == b"infix".as_slice() {
        Some(SymbolType::Operates(OperatorKind::Infix))
    } else if name == b"infix_left".as_slice() {
        Some(SymbolType::Operates(OperatorKind::InfixLeft))
    } else if name == b"infix_right".as_slice() {
        Some(SymbolType::Operates(OperatorKind::InfixRight))
    } else if name == b"prefix".as_slice() {
        Some(SymbolType::Operates(OperatorKind::Prefix))
    } else if name == b"prefix_paren".as_slice() {
        Some(SymbolType::Operates(OperatorKind::PrefixParen))
    } else if name == b"postfix".as_slice() {
        Some(SymbolType::Operates(OperatorKind::Postfix))
    } else if name == b"postfix_paren".as_slice() {
        Some(SymbolType::Operates(OperatorKind::PostfixParen))
    } else if name == b"ordinary".as_slice() {
        Some(SymbolType::Ordinary)
    } else {
        None
    }
}

// Whether a symbol's operator, or its lack of one, can't be changed.
fn is_fixed(name: &[u8]) -> bool
    ensures { result ≡ is_fixed name.now }
{
    matches!(
        name,
        b"#" | b"<->"
            | b"->"
            | b"<-"
            | b"|"
            | b"&"
            | b"="
            | b"!="
            | b"-"
            | b"$T"
            | b"$F"
            | b"all"
            | b"exists"
    )
}

// A symbol without its quotes, where it has some.
fn unquoted(symbol: &[u8]) -> &[u8]
    ensures { result.now ≡ unquoted symbol.now }
{
    if is_quoted(symbol) {
        &symbol[1..symbol.len() - 1]
    } else {
        symbol
    }
}
