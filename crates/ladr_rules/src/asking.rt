// What a goal asks for.
ghost use Rattle.std.specs.Prelude.{◌≡◌, ◌==◌, position, [], IfOk, MatchOption, Some, None, false, codes, if◌then◌else◌};
ghost use Rattle.std.specs.Option.{option_map};
ghost use Rattle.fol_core.specs.Free.{is_in};
ghost use Rattle.fol_core.specs.RawTree.{named, no_raws, more_raws, raws_of};
ghost use Rattle.fol_core.specs.RawView.{raw_of, raw_list};
ghost use Rattle.ladr_rules.specs.Asked.{asked, asked_among, asked_by, asked_of, asked_with, first_asking, front_of, is_asking, line_asks, new_place, place_of, places_behind};
ghost use Rattle.ladr_rules.specs.Attributes.{attributes_in};
ghost use Rattle.ladr_rules.specs.Seen.{is_joined};

use fol_core::{NameOrder, Quantifier, Raw};
use std::alloc::{AllocError, Global};

/// What a formula with attributes asks for, by the first of them that is `answer(w1,..,wj)` with different variables of the
/// quantifiers `exists` in front of it: their places among these, which have different names. None where there is none.
#[tactic(auto, using(crate::proofs::AskedParts::asked_joined, crate::proofs::AskedParts::asked_alone))]
pub fn asked(alloc: Global, raw: &Raw) -> Result<Vec<u64>, AllocError>
    ensures { IfOk result (λ places. places.items ≡ asked (raw_of raw.now)) }
{
    match joined_parts(raw) {
        Some((formula, rest)) => asked_behind(alloc, formula, rest),
        None => Ok(Vec::new(alloc)),
    }
}

/// What the first attribute `answer(t,..)` behind a formula asks for: places as above, none where it doesn't ask so. Nothing
/// where there is no such attribute.
#[tactic(auto, using(crate::proofs::AskedParts::line_joined, crate::proofs::AskedParts::line_alone))]
pub fn line_asks(alloc: Global, raw: &Raw) -> Result<Option<Vec<u64>>, AllocError>
    ensures { IfOk result (λ o. option_map (λ v. v.items) o ≡ line_asks (raw_of raw.now)) }
{
    match joined_parts(raw) {
        Some((formula, rest)) => asked_first(alloc, formula, rest),
        None => Ok(None),
    }
}

// What the first of attributes behind a formula asks for that is `answer(t,..)`.
fn asked_first(alloc: Global, formula: &Raw, rest: &Raw) -> Result<Option<Vec<u64>>, AllocError>
    ensures { IfOk result (λ o. option_map (λ v. v.items) o
        ≡ option_map (asked_with (front_of [] (raw_of formula.now)))
        (first_asking (attributes_in (raw_of rest.now)))) }
{
    match first_asking(rest) {
        Some(attribute) => Ok(Some(asked_with(alloc, formula, attribute)?)),
        None => Ok(None),
    }
}

// The first of attributes that is `answer(t,..)`.
#[tactic(auto, using(crate::proofs::AskedParts::attributes_joined, crate::proofs::AskedParts::attributes_alone))]
fn first_asking(rest: &Raw) -> Option<&Raw>
    ensures { option_map (λ t. raw_of t.now) result
        ≡ first_asking (attributes_in (raw_of rest.now)) }
{
    match joined_parts(rest) {
        Some((first, more)) => {
            if is_asking(first) {
                Some(first)
            } else {
                first_asking(more)
            }
        }
        None => { if is_asking(rest) { Some(rest) } else { None } }
    }
}

// Whether an attribute is `answer(t,..)`.
#[tactic(auto, using(crate::proofs::AskedParts::asking_by_length))]
fn is_asking(attribute: &Raw) -> bool
    ensures { result ≡ is_asking (raw_of attribute.now) }
{
    match attribute {
        Raw::App(name, args) => {
            if args.len() == 0 {
                return false;
            }
            name.bytes() == b"answer".as_slice()
        }
        Raw::Quant(_, _, _) => false,
    }
}

// What such an attribute asks for.
fn asked_with(alloc: Global, formula: &Raw, attribute: &Raw) -> Result<Vec<u64>, AllocError>
    ensures { IfOk result (λ places. places.items
        ≡ asked_with (front_of [] (raw_of formula.now)) (raw_of attribute.now)) }
{
    let mut front = NameOrder::new(alloc);
    if !add_front(formula, &mut front)? {
        return Ok(Vec::new(alloc));
    }
    match asked_by(alloc, &front, attribute)? {
        Some(places) => Ok(places),
        None => Ok(Vec::new(alloc)),
    }
}

// What attributes behind a formula ask for.
fn asked_behind(alloc: Global, formula: &Raw, rest: &Raw) -> Result<Vec<u64>, AllocError>
    ensures { IfOk result (λ places. places.items
        ≡ asked_among (attributes_in (raw_of rest.now)) (front_of [] (raw_of formula.now))) }
{
    let mut front = NameOrder::new(alloc);
    if !add_front(formula, &mut front)? {
        return Ok(Vec::new(alloc));
    }
    first_asked(alloc, &front, rest)
}

// Adds the names of the variables of the quantifiers `exists` in front; no if one stands twice.
fn add_front(raw: &Raw, front: &mut NameOrder) -> Result<bool, AllocError>
    ensures { IfOk result (λ apart. front_of front.old (raw_of raw.now)
        ≡ (if apart then Some front.new else None)) }
{
    match raw {
        Raw::Quant(Quantifier::Exists, name, body) => {
            if !front.push(name.bytes())? {
                return Ok(false);
            }
            add_front(body.raw(), front)
        }
        _ => Ok(true),
    }
}

// What the first attribute asks for that asks for such names.
#[tactic(auto, using(crate::proofs::AskedParts::attributes_joined, crate::proofs::AskedParts::attributes_alone))]
fn first_asked(alloc: Global, front: &NameOrder, rest: &Raw) -> Result<Vec<u64>, AllocError>
    ensures { IfOk result (λ places. places.items
        ≡ asked_of front.now (attributes_in (raw_of rest.now))) }
{
    match joined_parts(rest) {
        Some((first, more)) => match asked_by(alloc, front, first)? {
            Some(places) => Ok(places),
            None => first_asked(alloc, front, more),
        },
        None => match asked_by(alloc, front, rest)? {
            Some(places) => Ok(places),
            None => Ok(Vec::new(alloc)),
        },
    }
}

// The two parts of a term that `#` joins.
#[tactic(auto, using(crate::proofs::Arities::joined_by_length))]
fn joined_parts(raw: &Raw) -> Option<(&Raw, &Raw)>
    ensures { MatchOption result (is_joined (raw_of raw.now) ≡ false)
        (λ p. raw_of raw.now ≡ named (codes "#") (more_raws (raw_of p.0.now) (more_raws (raw_of p.1.now) no_raws))) }
{
    match raw {
        Raw::App(name, args) => match args.as_slice() {
            [first, second] if name.bytes() == b"#".as_slice() => Some((first, second)),
            _ => None,
        },
        Raw::Quant(_, _, _) => None,
    }
}

// The places that an attribute asks for, if it does.
#[tactic(auto, using(crate::proofs::AskedParts::asked_by_length))]
fn asked_by(
    alloc: Global,
    front: &NameOrder,
    attribute: &Raw,
) -> Result<Option<Vec<u64>>, AllocError>
    ensures { IfOk result (λ o. option_map (λ v. v.items) o
        ≡ asked_by front.now (raw_of attribute.now)) }
{
    match attribute {
        Raw::App(name, args) => {
            if args.len() == 0 || name.bytes() != b"answer".as_slice() {
                return Ok(None);
            }
            places_of(alloc, front, args.as_slice())
        }
        Raw::Quant(_, _, _) => Ok(None),
    }
}

// The places of terms that are different ones of the names.
#[tactic(auto, using(crate::proofs::AskedParts::places_none, crate::proofs::AskedParts::places_next, crate::proofs::AskedParts::places_end))]
fn places_of(
    alloc: Global,
    front: &NameOrder,
    terms: &[Raw],
) -> Result<Option<Vec<u64>>, AllocError>
    ensures { IfOk result (λ o. option_map (λ v. v.items) o
        ≡ places_behind front.now [] (raws_of (raw_list terms.now))) }
{
    let mut places: Vec<u64> = Vec::with_capacity(alloc, terms.len())?;
    for term in terms {
        let Some(place) = new_place(front, term, &places) else {
            return Ok(None);
        };
        places.push(place)?;
    }
    Ok(Some(places))
}

// The place of a term that is one of the names, unless it is among these.
fn new_place(front: &NameOrder, term: &Raw, places: &[u64]) -> Option<u64>
    ensures { result ≡ new_place front.now places.now (raw_of term.now) }
{
    match place_of(front, term) {
        Some(place) if !is_among(place, places) => Some(place),
        _ => None,
    }
}

fn is_among(place: u64, places: &[u64]) -> bool
    ensures { result ≡ is_in place places.now }
{
    first_among(place, places).is_some()
}

fn first_among(place: u64, places: &[u64]) -> Option<usize>
    ensures { result ≡ position (λ p. place == p) places.now }
{
    places.iter().position(|p| place == *p)
}

// The place of a term that is one of the names.
#[tactic(auto, using(crate::proofs::AskedParts::place_by_length))]
fn place_of(front: &NameOrder, term: &Raw) -> Option<u64>
    ensures { result ≡ place_of front.now (raw_of term.now) }
{
    match term {
        Raw::App(name, args) => {
            if args.len() > 0 {
                return None;
            }
            match front.position(name.bytes()) {
                Some(place) => Some(place as u64),
                None => None,
            }
        }
        Raw::Quant(_, _, _) => None,
    }
}
