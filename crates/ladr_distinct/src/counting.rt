// How many symbols there would be behind names, told without making anything of them.
ghost use Rattle.std.specs.Prelude.{◌≡◌, IfOk, OnOk, length, nat_lt};
ghost use Rattle.fol_core.specs.SymbolTable.{KeepsNumbers};
ghost use Rattle.ladr_distinct.specs.Symbols.{symbols_of_name, symbols_of_names};
ghost use Rattle.ladr_formulas.specs.Counting.{all_entered};
ghost use Rattle.ladr_formulas.specs.Formulas.{is_element, style_of};
ghost use Rattle.ladr_lex.specs.declared.limits.TheConstants.{MOST_SYMBOLS};

use fol_core::{Clash, Kind, Name, Symbols};
use ladr_formulas::{Mode, Style, is_free_name, style_of};
use ladr_lex::{MOST_SYMBOLS, is_numeral};
use std::alloc::AllocError;

/// Whether there would be too many symbols behind names that stand for terms. Those that are met until that is known are
/// entered.
pub fn names_bring_too_many(
    names: &[Name],
    symbols: &mut Symbols,
    mode: Mode,
    prolog: bool,
) -> Result<bool, AllocError>
    ensures many { IfOk result (λ many. many ≡ nat_lt MOST_SYMBOLS (length
        (all_entered symbols.old (symbols_of_names (style_of mode prolog) names.now)))) }
    // Whatever the answer, the old symbols keep their numbers.
    ensures kept { KeepsNumbers symbols.old symbols.new }
{
    let style = style_of(mode, prolog);
    for name in names {
        enter_name(symbols, style, name.bytes())?;
        if symbols.len() > MOST_SYMBOLS {
            return Ok(true);
        }
    }
    Ok(symbols.len() > MOST_SYMBOLS)
}

// Enters a name that is a constant.
fn enter_name(symbols: &mut Symbols, style: Style, name: &[u8]) -> Result<(), AllocError>
    ensures entered { OnOk result (symbols.new
        ≡ all_entered symbols.old (symbols_of_name style name.now)) }
    ensures kept { KeepsNumbers symbols.old symbols.new }
{
    if is_free_name(style, name) || is_element(style, name) {
        return Ok(());
    }
    match symbols.enter(name, 0, Kind::Function) {
        Ok(_) | Err(Clash::OtherKind) => Ok(()),
        Err(Clash::Memory) => Err(AllocError),
    }
}

fn is_element(style: Style, name: &[u8]) -> bool
    ensures { result ≡ is_element style name.now }
{
    style.elements && is_numeral(name)
}
