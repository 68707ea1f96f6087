// Copies of labels, and of the words of a line.
ghost use Rattle.std.specs.Prelude.{◌≡◌, IfOk, map};
ghost use Rattle.fol_core.specs.RawView.{raw_of};
ghost use Rattle.derivation.specs.View.{later_of};
ghost use Rattle.proof_words.specs.Written.{written_first, written_of};

use derivation::{First, Just, Later, Paramodulation, Rewrite};
use fol_core::{Name, Raw, RawSub, Raws};
use std::alloc::{AllocError, Global};
use substitutions::Subst;

// An equal term as read.
#[cycle(raw_copy)]
fn copy_raw(alloc: Global, raw: &Raw) -> Result<Raw, AllocError>
    ensures { IfOk result (λ copy. raw_of copy ≡ raw_of raw.now) }
{
    match raw {
        Raw::App(name, raws) => {
            let name = Name::from_slice(alloc, name.bytes())?;
            Ok(Raw::App(name, copy_raws(alloc, raws)?))
        }
        Raw::Quant(quantifier, name, body) => {
            let name = Name::from_slice(alloc, name.bytes())?;
            let body = copy_raw(alloc, body.raw())?;
            Ok(Raw::Quant(*quantifier, name, RawSub::new(alloc, body)?))
        }
    }
}

// Equal arguments.
#[cycle(raw_copy)]
fn copy_raws(alloc: Global, raws: &Raws) -> Result<Raws, AllocError>
    ensures { IfOk result (λ copy. copy ≡ raws.now) }
{
    let mut copies = Raws::new(alloc);
    for raw in &raws.items {
        copies.push(copy_raw(alloc, raw)?)?;
    }
    Ok(copies)
}

/// An equal label, where there is one.
pub fn copy_label(alloc: Global, label: &Option<RawSub>) -> Result<Option<RawSub>, AllocError>
    ensures { IfOk result (λ copy. copy ≡ label.now) }
{
    match label {
        None => Ok(None),
        Some(label) => {
            let copy = copy_raw(alloc, label.raw())?;
            Ok(Some(RawSub::new(alloc, copy)?))
        }
    }
}

// The same first word.
fn copy_first(alloc: Global, first: &First) -> Result<First, AllocError>
    ensures { IfOk result (λ copy. written_first copy ≡ written_first first.now) }
{
    Ok(match first {
        First::Assumption => First::Assumption,
        First::Goal => First::Goal,
        First::Clausify(n) => First::Clausify(*n),
        First::Deny(n) => First::Deny(*n),
        First::Copy(n) => First::Copy(*n),
        First::BackRewrite(n) => First::BackRewrite(*n),
        First::BackUnitDel(n) => First::BackUnitDel(*n),
        First::Resolve(n, satellite) => First::Resolve(*n, *satellite),
        First::Hyper(n, satellites) => First::Hyper(*n, Vec::from_slice(alloc, satellites)?),
        First::Ur(n, satellites) => First::Ur(*n, Vec::from_slice(alloc, satellites)?),
        First::Factor(n, a, b) => First::Factor(*n, *a, *b),
        First::Para(step) => First::Para(copy_paramodulation(alloc, step)?),
        First::XxRes(n, a) => First::XxRes(*n, *a),
        First::Instantiate(n, subst) => First::Instantiate(*n, copy_subst(alloc, subst)?),
    })
}

// The same terms for variables.
fn copy_subst(alloc: Global, subst: &Subst) -> Result<Subst, AllocError>
    ensures { IfOk result (λ copy. copy ≡ subst.now) }
{
    let mut copy = Subst::new(alloc);
    for (x, term) in &subst.terms {
        copy.bind(*x, term.copy(alloc)?)?;
    }
    Ok(copy)
}

// The same paramodulation.
fn copy_paramodulation(alloc: Global, step: &Paramodulation) -> Result<Paramodulation, AllocError>
    ensures { IfOk result (λ copy. written_first (First.Para copy)
        ≡ written_first (First.Para step.now)) }
{
    Ok(Paramodulation {
        from: step.from,
        equation: step.equation,
        side: step.side,
        into: step.into,
        literal: step.literal,
        path: Vec::from_slice(alloc, &step.path)?,
    })
}

// The same later word.
fn copy_later(alloc: Global, later: &Later) -> Result<Later, AllocError>
    ensures { IfOk result (λ copy. later_of copy ≡ later_of later.now) }
{
    Ok(match later {
        Later::Rewrite(step) => Later::Rewrite(Rewrite {
            rule: step.rule,
            literal: step.literal,
            path: Vec::from_slice(alloc, &step.path)?,
        }),
        Later::Flip(a) => Later::Flip(*a),
        Later::Merge(a) => Later::Merge(*a),
        Later::Xx(a) => Later::Xx(*a),
        Later::UnitDel(a, n) => Later::UnitDel(*a, *n),
    })
}

// The same later words.
fn copy_steps(alloc: Global, steps: &[Later]) -> Result<Vec<Later>, AllocError>
    ensures { IfOk result (λ copies. map later_of copies.items ≡ map later_of steps.now) }
{
    let mut copies = Vec::new(alloc);
    for step in steps {
        copies.push(copy_later(alloc, step)?)?;
    }
    Ok(copies)
}

/// The same words.
pub fn copy_just(alloc: Global, just: &Just) -> Result<Just, AllocError>
    ensures { IfOk result (λ copy. written_of copy ≡ written_of just.now) }
{
    let steps = copy_steps(alloc, &just.steps)?;
    let first = copy_first(alloc, &just.first)?;
    Ok(Just { first, steps })
}
