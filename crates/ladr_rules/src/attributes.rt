// Formulas with attributes, `formula # t # t`, taken apart.
ghost use Rattle.std.specs.Prelude.{◌≡◌, [], ◌∷◌, length, None, Some, false, true, ◌||◌, if◌then◌else◌};
ghost use Rattle.std.specs.Option.{option_map};
ghost use Rattle.fol_core.specs.RawTree.{named, raws_of};
ghost use Rattle.fol_core.specs.RawView.{raw_of};
ghost use Rattle.ladr_rules.specs.Attributes.{attributed, attributes_in, is_label, label_of, limited, limited_number, is_hint_weight, hint_weight, has_unfit_weight, hint_weight_of};
ghost use Rattle.ladr_rules.specs.Seen.{is_joined, IsSplit};

use crate::bounds::MOST_WEIGHT;
use fol_core::{Raw, Raws};
use ladr_lex::whole_number;

/// A formula without its attributes, and what these say.
#[derive(Drop)]
pub struct LabelledFormula {
    pub formula: Raw,
    pub notes: Notes,
}

impl LabelledFormula {
    /// The term taken apart.
    #[inline(always)]
    pub fn of(raw: Raw) -> LabelledFormula
        ensures formula { raw_of result.formula ≡ (attributed (raw_of raw)).formula }
        ensures label { option_map raw_of result.notes.label
            ≡ label_of (attributed (raw_of raw)).attributes }
        ensures misused { result.notes.misused
            ≡ has_unfit_weight (attributed (raw_of raw)).attributes }
        ensures hint_weight { result.notes.hint_weight
            ≡ hint_weight_of (attributed (raw_of raw)).attributes }
    {
        match Split::of(raw) {
            Split::Joined(formula, rest) => LabelledFormula {
                formula,
                notes: Notes::of(rest),
            },
            Split::Alone(formula) => LabelledFormula {
                formula,
                notes: Notes::none(),
            },
        }
    }
}

/// What attributes say: the first label among them, whether one of them is misused, and the number of the first
/// `bsub_hint_wt`.
#[derive(Drop)]
pub struct Notes {
    pub label: Option<Raw>,
    pub misused: bool,
    pub hint_weight: Option<u32>,
}

impl Notes {
    // Of the attributes behind a formula's `#`.
    #[inline(never)]
    fn of(raw: Raw) -> Notes
        ensures label { option_map raw_of result.label ≡ label_of (attributes_in (raw_of raw)) }
        ensures misused { result.misused ≡ has_unfit_weight (attributes_in (raw_of raw)) }
        ensures hint_weight { result.hint_weight ≡ hint_weight_of (attributes_in (raw_of raw)) }
    {
        match Split::of(raw) {
            Split::Joined(first, rest) => Notes::of(rest).behind(first),
            Split::Alone(last) => Notes::none().behind(last),
        }
    }

    // Of no attribute.
    #[inline(always)]
    fn none() -> Notes
        ensures { result ≡ record { label = None; misused = false; hint_weight = None } }
    {
        Notes {
            label: None,
            misused: false,
            hint_weight: None,
        }
    }

    // With one attribute before these.
    fn behind(self, first: Raw) -> Notes
        ensures label { option_map raw_of result.label
            ≡ (if is_label (raw_of first) then Some
            (raw_of first) else option_map raw_of self.label) }
        ensures misused { result.misused ≡ (has_unfit_weight (raw_of first ∷ []) || self.misused) }
        ensures hint_weight { result.hint_weight
            ≡ (if is_hint_weight (raw_of first) then hint_weight
            (raw_of first) else self.hint_weight) }
    {
        if is_hint_weight(&first) {
            let number = hint_weight(&first);
            let lost = number.is_none();
            return Notes {
                label: self.label,
                misused: lost || self.misused,
                hint_weight: number,
            };
        }
        if is_label(&first) {
            return Notes {
                label: Some(first),
                misused: self.misused,
                hint_weight: self.hint_weight,
            };
        }
        self
    }
}

/// A term: two parts that `#` joins, or another one.
#[derive(Drop)]
pub enum Split {
    Joined(Raw, Raw),
    Alone(Raw),
}

impl Split {
    /// The term taken apart.
    #[inline(always)]
    pub fn of(raw: Raw) -> Split
        ensures { IsSplit (raw_of raw) result }
    {
        match raw {
            Raw::App(name, args) => {
                if is_joined(name.bytes(), &args) {
                    let (formula, rest) = two(args);
                    Split::Joined(formula, rest)
                } else {
                    Split::Alone(Raw::App(name, args))
                }
            }
            Raw::Quant(word, name, body) => Split::Alone(Raw::Quant(word, name, body)),
        }
    }
}

#[tactic(auto, using(crate::proofs::Arities::joined_by_length))]
// Whether `#` joins two parts.
fn is_joined(name: &[u8], args: &Raws) -> bool
    ensures joined { result ≡ is_joined (named name.now (raws_of args.now)) }
    ensures two { result ≡ true → length args.now ≡ 2 }
{
    args.len() == 2 && name == b"#".as_slice()
}

// Two arguments by value.
fn two(args: Raws) -> (Raw, Raw)
    requires { length args ≡ 2 }
    ensures { args ≡ raw_of result.0 ∷ raw_of result.1 ∷ [] }
{
    let mut items = args.into_items();
    let second = items.pop().unwrap();
    let first = items.pop().unwrap();
    (first, second)
}

#[tactic(auto, using(crate::proofs::Arities::label_by_length))]
fn is_label(raw: &Raw) -> bool
    ensures { result ≡ is_label (raw_of raw.now) }
{
    match raw {
        Raw::App(name, args) => args.len() == 1 && name.bytes() == b"label".as_slice(),
        Raw::Quant(_, _, _) => false,
    }
}

fn is_hint_weight(raw: &Raw) -> bool
    ensures { result ≡ is_hint_weight (raw_of raw.now) }
{
    match raw {
        Raw::App(name, _) => name.bytes() == b"bsub_hint_wt".as_slice(),
        Raw::Quant(_, _, _) => false,
    }
}

#[tactic(auto, using(crate::proofs::Arities::no_weight))]
// The number of `bsub_hint_wt(n)`.
fn hint_weight(raw: &Raw) -> Option<u32>
    ensures { result ≡ hint_weight (raw_of raw.now) }
{
    match raw {
        Raw::App(_, args) => match args.as_slice() {
            [number] => limited_number(MOST_WEIGHT, number),
            _ => None,
        },
        Raw::Quant(_, _, _) => None,
    }
}

#[tactic(auto, using(crate::proofs::Arities::number_by_length))]
/// The whole number that a term is, unless it is above the greatest.
pub fn limited_number(greatest: u32, raw: &Raw) -> Option<u32>
    ensures { result ≡ limited_number greatest (raw_of raw.now) }
{
    match raw {
        Raw::App(name, args) => {
            if args.len() == 0 {
                limited(greatest, whole_number(name.bytes()))
            } else {
                None
            }
        }
        Raw::Quant(_, _, _) => None,
    }
}

// A number, unless it is above the greatest.
fn limited(greatest: u32, number: Option<u64>) -> Option<u32>
    ensures { result ≡ limited greatest number }
{
    match number {
        Some(n) if n <= u64::from(greatest) => Some(n as u32),
        _ => None,
    }
}
