// The sides of `weight(pattern) = value`.
ghost use Rattle.std.specs.Prelude.{◌≡◌};
ghost use Rattle.std.specs.Option.{option_map};
ghost use Rattle.fol_core.specs.RawView.{raw_of};
ghost use Rattle.ladr_rules.specs.Rules.{pattern_sides, equation_sides, sides_of};
ghost use Rattle.ladr_rules.specs.SidesView.{sides_view};

use fol_core::{Name, Raw, Raws};

/// The head of a pattern, its arguments, and the term behind `=`.
#[derive(Drop)]
pub struct Sides<'a> {
    pub head: &'a Name,
    pub parts: &'a Raws,
    pub value: &'a Raw,
}

#[tactic(auto, using(crate::proofs::Arities::no_sides))]
/// The sides of a term that has them.
pub fn sides_of(raw: &Raw) -> Option<Sides<'_>>
    ensures { option_map sides_view result ≡ sides_of (raw_of raw.now) }
{
    match raw {
        Raw::App(name, args) => match args.as_slice() {
            [left, value] => equation_sides(name.bytes(), left, value),
            _ => None,
        },
        Raw::Quant(_, _, _) => None,
    }
}

#[tactic(auto, using(crate::proofs::Arities::no_equation))]
fn equation_sides<'a>(name: &[u8], left: &'a Raw, value: &'a Raw) -> Option<Sides<'a>>
    ensures { option_map sides_view result ≡ equation_sides name.now (raw_of left.now)
        (raw_of value.now) }
{
    match left {
        Raw::App(word, args) => match args.as_slice() {
            [pattern] => {
                if name == b"=".as_slice() {
                    pattern_sides(word.bytes(), pattern, value)
                } else {
                    None
                }
            }
            _ => None,
        },
        Raw::Quant(_, _, _) => None,
    }
}

fn pattern_sides<'a>(word: &[u8], pattern: &'a Raw, value: &'a Raw) -> Option<Sides<'a>>
    ensures { option_map sides_view result ≡ pattern_sides word.now (raw_of pattern.now)
        (raw_of value.now) }
{
    match pattern {
        Raw::App(head, parts) => {
            if word == b"weight".as_slice() {
                Some(Sides { head, parts, value })
            } else {
                None
            }
        }
        Raw::Quant(_, _, _) => None,
    }
}
