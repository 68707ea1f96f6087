// What patterns of weights are to be.
ghost use Rattle.std.specs.Prelude.{◌≡◌, IfOk, OnOk};
ghost use Rattle.fol_core.specs.RawTree.{named, no_raws, raws_of};
ghost use Rattle.fol_core.specs.RawView.{raw_of};
ghost use Rattle.fol_core.specs.NamesOnce.{with_name};
ghost use Rattle.ladr_rules.specs.KeptNames.{names_of};
ghost use Rattle.ladr_rules.specs.Rules.{quantifies, some_quantifies, variable_names, all_names, too_great, some_too_great, pattern_misuse, is_shaped, is_value};
ghost use Rattle.ladr_rules.specs.Seen.{with_names};
ghost use Rattle.ladr_rules.specs.SidesView.{sides_view};

use crate::sides::Sides;
use crate::values::is_value;
use fol_core::{Raw, Raws};
use indexmap::IndexSet;
use ladr_formulas::{Style, is_free_name, is_too_great};
use ladr_lex::Misuse;
use std::alloc::{AllocError, Global};

#[tactic(auto, using(crate::proofs::Parts::bare_by_length))]
/// Whether a rule has the right shape.
pub fn is_shaped(alloc: Global, style: Style, sides: &Sides<'_>) -> Result<bool, AllocError>
    ensures { IfOk result (λ b. b ≡ is_shaped style (sides_view sides.now)) }
{
    let excluded = some_quantifies(sides.parts)
        || quantifies(sides.value)
        || sides.parts.len() == 0 && is_free_name(style, sides.head.bytes());
    if excluded {
        Ok(false)
    } else {
        has_value(alloc, style, sides.parts, sides.value)
    }
}

// Whether a term is a value, with the variables of these parts of a pattern.
fn has_value(alloc: Global, style: Style, parts: &Raws, value: &Raw) -> Result<bool, AllocError>
    ensures { IfOk result (λ b. b ≡ is_value (all_names style (raws_of parts.now))
        (raw_of value.now)) }
{
    let mut names = IndexSet::new(alloc);
    add_names(alloc, style, parts, &mut names)?;
    Ok(is_value(&names, value))
}

/// How a pattern is misused, where this was met as it was read.
pub fn pattern_misuse(style: Style, sides: &Sides<'_>, met: Option<Misuse>) -> Option<Misuse>
    ensures { result ≡ pattern_misuse style (sides_view sides.now) met }
{
    match met {
        Some(Misuse::TwoKinds) => Some(Misuse::TwoKinds),
        _ => {
            if is_too_great(style, sides.head.bytes()) || some_too_great(style, sides.parts) {
                Some(Misuse::UnfitNumeral)
            } else {
                None
            }
        }
    }
}

// Whether a quantifier stands in a term.
#[cycle(quantifies)]
fn quantifies(raw: &Raw) -> bool
    ensures { result ≡ quantifies (raw_of raw.now) }
{
    match raw {
        Raw::App(_, args) => some_quantifies(args),
        Raw::Quant(_, _, _) => true,
    }
}

#[tactic(auto, using(crate::proofs::Parts::raws_next, crate::proofs::Parts::raws_end))]
// Whether one stands in some of these terms.
#[cycle(quantifies)]
fn some_quantifies(raws: &Raws) -> bool
    ensures { result ≡ some_quantifies (raws_of raws.now) }
{
    for raw in &raws.items {
        if quantifies(raw) {
            return true;
        }
    }
    false
}

#[tactic(auto, using(crate::proofs::Names::names_next, crate::proofs::Names::names_end))]
// Adds the names of the variables of terms to a set.
#[cycle(names)]
fn add_names(
    alloc: Global,
    style: Style,
    raws: &Raws,
    found: &mut IndexSet<Vec<u8>>,
) -> Result<(), AllocError>
    ensures { OnOk result (names_of found.new.keys
        ≡ with_names (names_of found.old.keys) (all_names style (raws_of raws.now))) }
{
    for raw in &raws.items {
        add_names_of(alloc, style, raw, found)?;
    }
    Ok(())
}

#[tactic(auto, using(crate::proofs::Parts::names_by_length))]
// Adds those of a term.
#[cycle(names)]
fn add_names_of(
    alloc: Global,
    style: Style,
    raw: &Raw,
    found: &mut IndexSet<Vec<u8>>,
) -> Result<(), AllocError>
    ensures { OnOk result (names_of found.new.keys
        ≡ with_names (names_of found.old.keys) (variable_names style (raw_of raw.now))) }
{
    match raw {
        Raw::App(symbol, args) => {
            if args.len() == 0 {
                add_variable(alloc, style, symbol.bytes(), found)
            } else {
                add_names(alloc, style, args, found)
            }
        }
        Raw::Quant(_, _, body) => add_names_of(alloc, style, body.raw(), found),
    }
}

// Adds the name of a symbol without arguments, where it is a variable.
fn add_variable(
    alloc: Global,
    style: Style,
    symbol: &[u8],
    found: &mut IndexSet<Vec<u8>>,
) -> Result<(), AllocError>
    ensures { OnOk result (names_of found.new.keys
        ≡ with_names (names_of found.old.keys) (variable_names style (named symbol.now no_raws))) }
{
    if is_free_name(style, symbol) {
        add_name(alloc, symbol, found)
    } else {
        Ok(())
    }
}

// Adds a name, unless it is there.
fn add_name(alloc: Global, name: &[u8], found: &mut IndexSet<Vec<u8>>) -> Result<(), AllocError>
    ensures { OnOk result (names_of found.new.keys ≡ with_name name.now (names_of found.old.keys)) }
{
    if !found.contains(name) {
        found.insert(Vec::from_slice(alloc, name)?)?;
    }
    Ok(())
}

// Whether a numeral of a term is too great for an element.
#[cycle(great)]
fn too_great(style: Style, raw: &Raw) -> bool
    ensures { result ≡ too_great style (raw_of raw.now) }
{
    match raw {
        Raw::App(name, args) => is_too_great(style, name.bytes()) || some_too_great(style, args),
        Raw::Quant(_, _, body) => too_great(style, body.raw()),
    }
}

#[tactic(auto, using(crate::proofs::Parts::raws_next, crate::proofs::Parts::raws_end))]
// Whether one of some of these terms is.
#[cycle(great)]
fn some_too_great(style: Style, raws: &Raws) -> bool
    ensures { result ≡ some_too_great style (raws_of raws.now) }
{
    for raw in &raws.items {
        if too_great(style, raw) {
            return true;
        }
    }
    false
}
