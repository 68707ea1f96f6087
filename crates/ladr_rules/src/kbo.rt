// Weights of symbols, `name = number`.
ghost use Rattle.std.specs.Prelude.{◌≡◌, IfOk};
ghost use Rattle.std.specs.Option.{option_map};
ghost use Rattle.fol_core.specs.RawTree.{named, no_raws};
ghost use Rattle.fol_core.specs.RawView.{raw_of};
ghost use Rattle.ladr_rules.specs.RuleSeen.{kbo_of};
ghost use Rattle.ladr_rules.specs.Rules.{kbo_sides, kbo_rule};

use crate::attributes::limited_number;
use crate::bounds::MOST_SYMBOL_WEIGHT;
use fol_core::{KboWeight, Name, Raw};
use std::alloc::{AllocError, Global};

#[tactic(auto, using(crate::proofs::Arities::no_kbo))]
/// The weight of a name that a term states, if it states one.
pub fn kbo_rule(alloc: Global, raw: &Raw) -> Result<Option<KboWeight>, AllocError>
    ensures { IfOk result (λ r. option_map kbo_of r ≡ kbo_rule (raw_of raw.now)) }
{
    match raw {
        Raw::App(name, args) => match args.as_slice() {
            [left, right] => kbo_sides(alloc, name.bytes(), left, right),
            _ => Ok(None),
        },
        Raw::Quant(_, _, _) => Ok(None),
    }
}

#[tactic(auto, using(crate::proofs::Arities::kbo_by_length))]
fn kbo_sides(
    alloc: Global,
    name: &[u8],
    left: &Raw,
    right: &Raw,
) -> Result<Option<KboWeight>, AllocError>
    ensures { IfOk result (λ r. option_map kbo_of r
        ≡ kbo_sides name.now (raw_of left.now) (raw_of right.now)) }
{
    match left {
        Raw::App(symbol, args) => {
            if args.len() == 0 {
                symbol_weight(alloc, name, symbol.bytes(), right)
            } else {
                Ok(None)
            }
        }
        Raw::Quant(_, _, _) => Ok(None),
    }
}

fn symbol_weight(
    alloc: Global,
    name: &[u8],
    symbol: &[u8],
    right: &Raw,
) -> Result<Option<KboWeight>, AllocError>
    ensures { IfOk result (λ r. option_map kbo_of r
        ≡ kbo_sides name.now (named symbol.now no_raws) (raw_of right.now)) }
{
    let weight = limited_number(MOST_SYMBOL_WEIGHT, right).unwrap_or(0);
    if name == b"=".as_slice() && weight != 0 {
        let name = Name::from_slice(alloc, symbol)?;
        Ok(Some(KboWeight { name, weight }))
    } else {
        Ok(None)
    }
}
