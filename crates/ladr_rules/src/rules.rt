// Rules of the lists of weights.
ghost use Rattle.std.specs.Prelude.{◌≡◌, length, IfOk, if◌then◌else◌, None, Some};
ghost use Rattle.std.specs.Option.{option_map, ForSome};
ghost use Rattle.fol_core.specs.Bound.{HaveSymbolsBelow};
ghost use Rattle.fol_core.specs.RawView.{raw_of};
ghost use Rattle.fol_core.specs.SymbolTable.{KeepsNumbers};
ghost use Rattle.fol_core.specs.Tree.{trees_of};
ghost use Rattle.ladr_formulas.specs.Formulas.{style_of};
ghost use Rattle.ladr_rules.specs.RuleSeen.{IsRule, IsRuleIn};
ghost use Rattle.ladr_rules.specs.Rules.{shaped_sides, rule_made, rule_in};
ghost use Rattle.ladr_rules.specs.SidesView.{sides_view};

use crate::patterns::{is_shaped, pattern_misuse};
use crate::sides::{Sides, sides_of};
use crate::values::value_of;
use fol_core::{Name, Raw, Symbols, WeightRule};
use ladr_formulas::{Mode, Style, TermsRead, style_of, terms_of};
use ladr_lex::Misuse;
use std::alloc::{AllocError, Global};

/// A rule that was read, the misuse of the least row that was met in it, and whether an arity was too large.
#[derive(Drop)]
pub struct RuleRead {
    pub rule: WeightRule,
    pub least: Option<Misuse>,
    pub large: bool,
}

/// The rule `weight(pattern) = value` that a term is, behind these symbols; those of the pattern's arguments are entered. Where
/// the term has another shape there is none, and nothing is entered.
pub fn weight_rule(
    alloc: Global,
    raw: &Raw,
    symbols: &mut Symbols,
    mode: Mode,
    prolog: bool,
) -> Result<Option<RuleRead>, AllocError>
    ensures read { IfOk result (λ r. IsRuleIn
        (rule_in (style_of mode prolog) symbols.old (raw_of raw.now)) r symbols.old symbols.new) }
    // The symbols of its pattern are of the table.
    ensures symbols { IfOk result (λ r. ForSome r
        (λ x. HaveSymbolsBelow (length symbols.new) (trees_of x.rule.arguments))) }
    // Whatever the answer, the old symbols keep their numbers.
    ensures kept { KeepsNumbers symbols.old symbols.new }
{
    let style = style_of(mode, prolog);
    match shaped_sides(alloc, style, raw)? {
        Some(sides) => Ok(Some(shaped_rule(alloc, &sides, symbols, style)?)),
        None => Ok(None),
    }
}

// The sides of a term that is a rule.
fn shaped_sides(alloc: Global, style: Style, raw: &Raw) -> Result<Option<Sides<'_>>, AllocError>
    ensures { IfOk result (λ sides. option_map sides_view sides
        ≡ shaped_sides style (raw_of raw.now)) }
{
    match sides_of(raw) {
        Some(sides) => {
            if is_shaped(alloc, style, &sides)? {
                Ok(Some(sides))
            } else {
                Ok(None)
            }
        }
        None => Ok(None),
    }
}

// The rule of these sides.
fn shaped_rule(
    alloc: Global,
    sides: &Sides<'_>,
    symbols: &mut Symbols,
    style: Style,
) -> Result<RuleRead, AllocError>
    ensures read { IfOk result (λ r. IsRule (rule_made style symbols.old
        (sides_view sides.now)) r symbols.new) }
    ensures symbols { IfOk result (λ r. HaveSymbolsBelow (length symbols.new)
        (trees_of r.rule.arguments)) }
    ensures kept { KeepsNumbers symbols.old symbols.new }
{
    let TermsRead {
        terms,
        variables,
        least,
        large,
    } = terms_of(alloc, sides.parts, symbols, style)?;
    let weight = value_of(alloc, &variables, sides.value)?;
    let head = Name::from_slice(alloc, sides.head.bytes())?;
    let rule = WeightRule {
        head,
        arguments: terms,
        weight,
    };
    let least = pattern_misuse(style, sides, least);
    Ok(RuleRead { rule, least, large })
}
