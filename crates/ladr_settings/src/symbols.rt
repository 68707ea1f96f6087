// Lists of names, and operators that are declared together.
ghost use Rattle.std.specs.Prelude.{◌≡◌, nat_lt, length, ◌&&◌, true, false, if◌then◌else◌, OnOk, IfOk, Err, Some, None};
ghost use Rattle.std.specs.List.{list_any};
ghost use Rattle.fol_core.specs.NamesOnce.{are_apart};
ghost use Rattle.ladr_lex.specs.Operators.{is_unfit_operator, is_unfit_symbol, declared};
ghost use Rattle.ladr_settings.specs.Settings.{all_declared};
ghost use Rattle.ladr_lex.specs.declared.operators.DeclareError.TheVariants.{UnfitOperator, UnfitSymbol};

use fol_core::{Name, NameOrder};
use ladr_lex::{DeclareError, Ops};
use std::alloc::{AllocError, Global};

/// The names as an order, unless one stands twice.
pub fn order_of(alloc: Global, names: &[Name]) -> Result<Option<NameOrder>, AllocError>
    ensures { IfOk result (λ order. order ≡ (if are_apart names.now then Some names.now else
        None)) }
{
    let mut order = NameOrder::new(alloc);
    for name in names {
        if !order.push(name.bytes())? {
            return Ok(None);
        }
    }
    Ok(Some(order))
}

/// Declares each of the symbols.
pub fn declare_all(
    operators: &mut Ops,
    precedence: u32,
    type_name: &[u8],
    symbols: &[Name],
) -> Result<(), DeclareError>
    ensures ok { OnOk result (operators.new ≡ all_declared precedence type_name.now symbols.now
        operators.old) }
    ensures no_operator { OnOk result ((nat_lt 0 (length symbols.now)
        && is_unfit_operator precedence type_name.now) ≡ false) }
    ensures no_symbol { OnOk result (list_any is_unfit_symbol symbols.now ≡ false) }
    ensures operator { result ≡ Err UnfitOperator
        → (nat_lt 0 (length symbols.now) && is_unfit_operator precedence type_name.now) ≡ true }
    ensures not_operator { result ≡ Err UnfitSymbol
        → is_unfit_operator precedence type_name.now ≡ false }
    ensures symbol { result ≡ Err UnfitSymbol → list_any is_unfit_symbol symbols.now ≡ true }
{
    for symbol in symbols {
        declare(operators, precedence, type_name, symbol.bytes())?;
    }
    Ok(())
}

// Declares a symbol.
fn declare(
    operators: &mut Ops,
    precedence: u32,
    type_name: &[u8],
    symbol: &[u8],
) -> Result<(), DeclareError>
    ensures ok { OnOk result (operators.new ≡ declared precedence type_name.now symbol.now
        operators.old) }
    ensures no_operator { OnOk result (is_unfit_operator precedence type_name.now ≡ false) }
    ensures no_symbol { OnOk result (is_unfit_symbol symbol.now ≡ false) }
    ensures operator { result ≡ Err UnfitOperator
        → is_unfit_operator precedence type_name.now ≡ true }
    ensures not_operator { result ≡ Err UnfitSymbol
        → is_unfit_operator precedence type_name.now ≡ false }
    ensures symbol { result ≡ Err UnfitSymbol → is_unfit_symbol symbol.now ≡ true }
{
    operators.declare(precedence, type_name, symbol)
}
