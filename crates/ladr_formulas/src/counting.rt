// How many symbols there would be behind a formula, told without making anything of it.
ghost use Rattle.std.specs.Prelude.{◌≡◌, List, ◌∷◌, [], ◌++◌, ◌||◌, if◌then◌else◌, true, IfOk, length, nat_lt, codes};
ghost use Rattle.std.specs.Str.{bytes_eq};
ghost use Rattle.fol_core.specs.RawTree.{RawTrees, raws_of, more_raws, no_raws};
ghost use Rattle.fol_core.specs.RawView.{raw_of};
ghost use Rattle.fol_core.specs.SymbolTable.{Symbol, symbol, KeepsNumbers};
ghost use Rattle.fol_core.specs.declared.symbols.Kind.TheVariants.{Function};
ghost use Rattle.ladr_lex.specs.declared.limits.TheConstants.{MOST_SYMBOLS};
ghost use Rattle.ladr_formulas.specs.Counting.{is_wide, names_bound, IsCounted};
ghost use Rattle.ladr_formulas.specs.Formulas.{Style, is_element, arity_of, style_of, formula_reading};
ghost use Rattle.ladr_formulas.specs.Occurring.{stands_for_variable, symbols_of_term, symbols_of_relation, symbols_of_sentence, symbols_compared, occurring};

use crate::connectives::{Connective, connective_of, is_denial};
use crate::formulas::is_element;
use crate::reader::{enter, is_free_name};
use crate::scopes::Scope;
use crate::styles::{Mode, Style, style_of};
use fol_core::{Kind, Name, Raw, Raws, Symbols};
use ladr_lex::{MOST_ARGUMENTS, MOST_SYMBOLS};
use std::alloc::{AllocError, Global};

/// Whether an arity is too large where a term is read as a formula, in whatever style and behind whatever symbols.
pub fn has_large_arity(raw: &Raw) -> bool
    ensures { (st : Style) (table : List Symbol) → result
        ≡ (formula_reading st table (raw_of raw.now)).reading.large }
{
    is_wide(raw)
}

// Whether some name in a term has more arguments than a symbol may have.
fn is_wide(raw: &Raw) -> bool
    ensures { result ≡ is_wide (raw_of raw.now) }
{
    match raw {
        Raw::Quant(_, _, body) => is_wide(&body.raw),
        Raw::App(_, args) => {
            if args.len() > MOST_ARGUMENTS {
                return true;
            }
            for arg in &args.items {
                if is_wide(arg) {
                    return true;
                }
            }
            false
        }
    }
}

// Enters a symbol, and tells whether there aren't too many yet.
fn count(symbols: &mut Symbols, name: &[u8], arity: usize, kind: Kind) -> Result<bool, AllocError>
    ensures counted { IfOk result (λ few. IsCounted symbols.old (symbol name.now arity kind ∷ [])
        symbols.new few) }
    ensures kept { KeepsNumbers symbols.old symbols.new }
{
    let _ = enter(symbols, name, arity as u64, kind)?;
    Ok(symbols.len() <= MOST_SYMBOLS)
}

// Enters the symbol of an application.
#[tactic(auto, using(crate::proofs::TermLemmas::arity_is_length))]
fn count_head(
    symbols: &mut Symbols,
    name: &[u8],
    args: &Raws,
    kind: Kind,
) -> Result<bool, AllocError>
    ensures counted { IfOk result (λ few. IsCounted symbols.old
        (symbol name.now (arity_of (raws_of args.now)) kind ∷ []) symbols.new few) }
    ensures kept { KeepsNumbers symbols.old symbols.new }
{
    count(symbols, name, args.len(), kind)
}

// Whether a name without arguments is a variable, where these quantifiers are around.
fn is_variable(style: Style, scope: &Scope, name: &[u8]) -> bool
    ensures { result ≡ stands_for_variable style (names_bound scope.now) name.now }
{
    let bound = scope.number(name).is_some();
    bound || is_free_name(style, name)
}

// A term without arguments.
fn count_constant(
    style: Style,
    scope: &Scope,
    name: &[u8],
    symbols: &mut Symbols,
) -> Result<bool, AllocError>
    ensures counted { IfOk result (λ few. IsCounted symbols.old
        (if stands_for_variable style (names_bound scope.now) name.now || is_element style name.now
        then [] else symbol name.now 0 Function ∷ []) symbols.new few) }
    ensures kept { KeepsNumbers symbols.old symbols.new }
{
    if is_variable(style, scope, name) || is_element(style, name) {
        return Ok(true);
    }
    count(symbols, name, 0, Kind::Function)
}

// A term below a relation.
#[tactic(auto, using(crate::proofs::TermLemmas::kept_both))]
fn count_term(
    alloc: Global,
    raw: &Raw,
    style: Style,
    scope: &mut Scope,
    symbols: &mut Symbols,
) -> Result<bool, AllocError>
    ensures counted { IfOk result (λ few. IsCounted symbols.old
        (symbols_of_term style (names_bound scope.old) (raw_of raw.now)) symbols.new few) }
    ensures scope { IfOk result (λ few. few ≡ true → scope.new ≡ scope.old) }
    ensures kept { KeepsNumbers symbols.old symbols.new }
{
    match raw {
        Raw::Quant(_, name, body) => {
            scope.push(Name::from_slice(alloc, name.bytes())?, 0)?;
            let few = count_term(alloc, &body.raw, style, scope, symbols)?;
            scope.pop();
            Ok(few)
        }
        Raw::App(name, args) => {
            if args.len() == 0 {
                return count_constant(style, scope, name.bytes(), symbols);
            }
            if !count_head(symbols, name.bytes(), args, Kind::Function)? {
                return Ok(false);
            }
            for arg in &args.items {
                if !count_term(alloc, arg, style, scope, symbols)? {
                    return Ok(false);
                }
            }
            Ok(true)
        }
    }
}

// A relation with its arguments.
#[tactic(auto, using(crate::proofs::TermLemmas::kept_both))]
fn count_relation(
    alloc: Global,
    name: &[u8],
    args: &Raws,
    style: Style,
    scope: &mut Scope,
    symbols: &mut Symbols,
) -> Result<bool, AllocError>
    ensures counted { IfOk result (λ few. IsCounted symbols.old (symbols_of_relation style
        (names_bound scope.old) name.now (raws_of args.now)) symbols.new few) }
    ensures scope { IfOk result (λ few. few ≡ true → scope.new ≡ scope.old) }
    ensures kept { KeepsNumbers symbols.old symbols.new }
{
    if !count_head(symbols, name, args, Kind::Relation)? {
        return Ok(false);
    }
    for arg in &args.items {
        if !count_term(alloc, arg, style, scope, symbols)? {
            return Ok(false);
        }
    }
    Ok(true)
}

// A formula without arguments.
fn count_sentence(
    style: Style,
    scope: &Scope,
    name: &[u8],
    symbols: &mut Symbols,
) -> Result<bool, AllocError>
    ensures counted { IfOk result (λ few. IsCounted symbols.old
        (symbols_of_sentence style (names_bound scope.now) name.now) symbols.new few) }
    ensures kept { KeepsNumbers symbols.old symbols.new }
{
    if is_variable(style, scope, name) || name == b"$T".as_slice() || name == b"$F".as_slice() {
        return Ok(true);
    }
    count(symbols, name, 0, Kind::Relation)
}

// The two sides of an equation.
#[tactic(auto, using(crate::proofs::TermLemmas::kept_both))]
fn count_sides(
    alloc: Global,
    left: &Raw,
    right: &Raw,
    style: Style,
    scope: &mut Scope,
    symbols: &mut Symbols,
) -> Result<bool, AllocError>
    ensures counted { IfOk result (λ few. IsCounted symbols.old
        (symbols_of_term style (names_bound scope.old) (raw_of left.now)
        ++ symbols_of_term style (names_bound scope.old) (raw_of right.now)) symbols.new few) }
    ensures scope { IfOk result (λ few. few ≡ true → scope.new ≡ scope.old) }
    ensures kept { KeepsNumbers symbols.old symbols.new }
{
    if !count_term(alloc, left, style, scope, symbols)? {
        return Ok(false);
    }
    count_term(alloc, right, style, scope, symbols)
}

// Whether a name between two terms makes an equation of them, or its denial.
fn is_equality(name: &[u8]) -> bool
    ensures { result ≡ (bytes_eq name.now (codes "=") || bytes_eq name.now (codes "!=")) }
{
    name == b"=".as_slice() || name == b"!=".as_slice()
}

// Two terms that are compared, or the arguments of a relation.
fn count_comparison(
    alloc: Global,
    name: &[u8],
    args: &Raws,
    left: &Raw,
    right: &Raw,
    style: Style,
    scope: &mut Scope,
    symbols: &mut Symbols,
) -> Result<bool, AllocError>
    requires { args.now ≡ raw_of left.now ∷ raw_of right.now ∷ [] }
    ensures counted { IfOk result (λ few. IsCounted symbols.old (symbols_compared style
        (names_bound scope.old) name.now (raw_of left.now) (raw_of right.now)) symbols.new few) }
    ensures scope { IfOk result (λ few. few ≡ true → scope.new ≡ scope.old) }
    ensures kept { KeepsNumbers symbols.old symbols.new }
{
    if is_equality(name) {
        count_sides(alloc, left, right, style, scope, symbols)
    } else {
        count_relation(alloc, name, args, style, scope, symbols)
    }
}

// A formula.
#[tactic(auto, using(crate::proofs::TermLemmas::kept_both))]
fn count_formula(
    alloc: Global,
    raw: &Raw,
    style: Style,
    scope: &mut Scope,
    symbols: &mut Symbols,
) -> Result<bool, AllocError>
    ensures counted { IfOk result (λ few. IsCounted symbols.old
        (occurring style (names_bound scope.old) (raw_of raw.now)) symbols.new few) }
    ensures scope { IfOk result (λ few. few ≡ true → scope.new ≡ scope.old) }
    ensures kept { KeepsNumbers symbols.old symbols.new }
{
    match raw {
        Raw::Quant(_, name, body) => {
            scope.push(Name::from_slice(alloc, name.bytes())?, 0)?;
            let few = count_formula(alloc, &body.raw, style, scope, symbols)?;
            scope.pop();
            Ok(few)
        }
        Raw::App(name, args) => match args.items.as_slice() {
            [] => count_sentence(style, scope, name.bytes(), symbols),
            [part] => {
                if is_denial(name.bytes()) {
                    count_formula(alloc, part, style, scope, symbols)
                } else {
                    count_relation(alloc, name.bytes(), args, style, scope, symbols)
                }
            }
            [first, second] => match connective_of(name.bytes()) {
                Some(connective) => match connective {
                    Connective::ThenIf => {
                        if !count_formula(alloc, second, style, scope, symbols)? {
                            return Ok(false);
                        }
                        count_formula(alloc, first, style, scope, symbols)
                    }
                    _ => {
                        if !count_formula(alloc, first, style, scope, symbols)? {
                            return Ok(false);
                        }
                        count_formula(alloc, second, style, scope, symbols)
                    }
                },
                None => count_comparison(
                    alloc,
                    name.bytes(),
                    args,
                    first,
                    second,
                    style,
                    scope,
                    symbols,
                ),
            },
            _ => count_relation(alloc, name.bytes(), args, style, scope, symbols),
        },
    }
}

/// Whether there would be too many symbols behind a formula that is read behind these symbols. Those that are met until that is
/// known are entered.
pub fn brings_too_many(
    alloc: Global,
    raw: &Raw,
    symbols: &mut Symbols,
    mode: Mode,
    prolog: bool,
) -> Result<bool, AllocError>
    ensures many { IfOk result (λ many. many ≡ nat_lt MOST_SYMBOLS (length
        (formula_reading (style_of mode prolog) symbols.old (raw_of raw.now)).reading.symbols)) }
    // Whatever the answer, the old symbols keep their numbers.
    ensures kept { KeepsNumbers symbols.old symbols.new }
{
    let mut scope = Scope::new(alloc);
    if count_formula(alloc, raw, style_of(mode, prolog), &mut scope, symbols)? {
        Ok(symbols.len() > MOST_SYMBOLS)
    } else {
        Ok(true)
    }
}
