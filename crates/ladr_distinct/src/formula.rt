// The term which says that names differ pairwise.
ghost use Rattle.std.specs.Prelude.{◌≡◌, ◌<◌, ◌++◌, map, length, OnOk, IfOk};
ghost use Rattle.fol_core.specs.RawView.{raw_of, raw_list};
ghost use Rattle.ladr_distinct.specs.Formula.{alone, differ, all_differ, halved, distinct_formula};
ghost use Rattle.ladr_formulas.specs.Means.{between};

use fol_core::{Name, Raw, Raws};
use std::alloc::{AllocError, Global};

/// The term which says that these names differ pairwise.
pub fn distinct_formula(alloc: Global, names: &[Name]) -> Result<Raw, AllocError>
    ensures { IfOk result (λ raw. raw_of raw ≡ distinct_formula names.now) }
{
    let parts = all_differ(alloc, names)?;
    halved(alloc, parts)
}

// Each name with each of those behind it.
fn all_differ(alloc: Global, names: &[Name]) -> Result<Vec<Raw>, AllocError>
    ensures { IfOk result (λ parts. raw_list parts.items ≡ all_differ names.now) }
{
    let mut parts = Vec::new(alloc);
    for i in 0..names.len() {
        differ_from_each(alloc, names[i].bytes(), &names[i + 1..], &mut parts)?;
    }
    Ok(parts)
}

// A name with each of some others.
fn differ_from_each(
    alloc: Global,
    name: &[u8],
    others: &[Name],
    parts: &mut Vec<Raw>,
) -> Result<(), AllocError>
    ensures { OnOk result (raw_list parts.new.items
        ≡ raw_list parts.old.items ++ map (differ name.now) others.now) }
{
    for other in others {
        parts.push(differ(alloc, name, other.bytes())?)?;
    }
    Ok(())
}

fn differ(alloc: Global, first: &[u8], second: &[u8]) -> Result<Raw, AllocError>
    ensures { IfOk result (λ raw. raw_of raw ≡ differ first.now second.now) }
{
    let first = alone(alloc, first)?;
    let second = alone(alloc, second)?;
    between(alloc, b"!=", first, second)
}

// A name without arguments.
fn alone(alloc: Global, name: &[u8]) -> Result<Raw, AllocError>
    ensures { IfOk result (λ raw. raw_of raw ≡ alone name.now) }
{
    Ok(Raw::App(Name::from_slice(alloc, name)?, Raws::new(alloc)))
}

// A name with two arguments.
fn between(alloc: Global, name: &[u8], first: Raw, second: Raw) -> Result<Raw, AllocError>
    ensures { IfOk result (λ raw. raw_of raw ≡ between name.now (raw_of first) (raw_of second)) }
{
    let name = Name::from_slice(alloc, name)?;
    let mut parts = Raws::new(alloc);
    parts.push(first)?;
    parts.push(second)?;
    Ok(Raw::App(name, parts))
}

// Parts joined as halves; none are `$T`. It goes down as often as their number can be halved.
fn halved(alloc: Global, parts: Vec<Raw>) -> Result<Raw, AllocError>
    ensures { IfOk result (λ raw. raw_of raw
        ≡ halved (length parts.items) (raw_list parts.items)) }
{
    if parts.len() < 2 {
        return undivided(alloc, parts);
    }
    let mut parts = parts;
    let half = parts.len() / 2;
    let behind = parts.split_off(half)?;
    let first = halved(alloc, parts)?;
    let second = halved(alloc, behind)?;
    between(alloc, b"&", first, second)
}

// The one part there is, or `$T`.
fn undivided(alloc: Global, parts: Vec<Raw>) -> Result<Raw, AllocError>
    requires { length parts.items < 2 }
    ensures { IfOk result (λ raw. raw_of raw
        ≡ halved (length parts.items) (raw_list parts.items)) }
{
    let mut parts = parts;
    match parts.pop() {
        Some(part) => Ok(part),
        None => alone(alloc, b"$T"),
    }
}
