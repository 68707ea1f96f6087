// The words of a line.
ghost use Rattle.std.specs.Prelude.{map};
ghost use Rattle.derivation.specs.View.{later_of};
ghost use Rattle.proof_words.specs.Written.{by_para, written_first, written_of};
ghost use Rattle.printed_proofs.specs.LineBounds.{AreBoundedClash, AreBoundedFirst, AreBoundedLater, AreBoundedWords, IsBoundedLater};
ghost use Rattle.words_print.specs.Sayable.{IsShort, AreShort, IsShortSatellite, AreShortSatellites};

use derivation::{First, Just, Later, Paramodulation, Satellite};

/// A number of the code is below 2 ^ 64.
pub fn number_is_short(n: u64)
    ensures { IsShort n }
{}

/// The numbers of a line's words.
pub fn words_are_bounded(just: &Just)
    ensures { AreBoundedWords (written_of just.now) }
{
    first_is_bounded(&just.first);
    steps_are_bounded(&just.steps);
}

// The first word.
fn first_is_bounded(first: &First)
    ensures { AreBoundedFirst (written_first first.now) }
{
    match first {
        First::Assumption => (),
        First::Goal => (),
        First::Clausify(n) => number_is_short(*n),
        First::Deny(n) => number_is_short(*n),
        First::Copy(n) => number_is_short(*n),
        First::BackRewrite(n) => number_is_short(*n),
        First::BackUnitDel(n) => number_is_short(*n),
        First::Resolve(n, satellite) => {
            number_is_short(*n);
            satellite_is_short(*satellite);
        }
        First::Hyper(n, satellites) => clash_is_bounded(*n, satellites),
        First::Ur(n, satellites) => clash_is_bounded(*n, satellites),
        First::Factor(n, a, b) => {
            number_is_short(*n);
            number_is_short(*a);
            number_is_short(*b);
        }
        First::Para(step) => paramodulation_is_bounded(step),
        First::XxRes(n, a) => {
            number_is_short(*n);
            number_is_short(*a);
        }
        First::Instantiate(n, _) => number_is_short(*n),
    }
}

// A nucleus and its satellites.
fn clash_is_bounded(n: u64, satellites: &[Satellite])
    ensures { AreBoundedClash n satellites.now }
{
    number_is_short(n);
    satellites_are_short(satellites);
}

// A paramodulation.
fn paramodulation_is_bounded(step: &Paramodulation)
    ensures { AreBoundedFirst (by_para step.now.from step.now.equation step.now.side
        step.now.into step.now.literal step.now.path.items) }
{
    number_is_short(step.from);
    number_is_short(step.equation);
    number_is_short(step.side);
    number_is_short(step.into);
    number_is_short(step.literal);
    path_is_short(&step.path);
}

// The words behind the first.
fn steps_are_bounded(steps: &[Later])
    ensures { AreBoundedLater (map later_of steps.now) }
{
    for step in steps {
        step_is_bounded(step);
    }
}

// One of them.
fn step_is_bounded(step: &Later)
    ensures { IsBoundedLater (later_of step.now) }
{
    match step {
        Later::Rewrite(step) => {
            number_is_short(step.rule);
            number_is_short(step.literal);
            path_is_short(&step.path);
        }
        Later::Flip(a) => number_is_short(*a),
        Later::Merge(a) => number_is_short(*a),
        Later::Xx(a) => number_is_short(*a),
        Later::UnitDel(a, n) => {
            number_is_short(*a);
            number_is_short(*n);
        }
    }
}

// A satellite.
fn satellite_is_short(satellite: Satellite)
    ensures { IsShortSatellite satellite }
{
    number_is_short(satellite.place);
    number_is_short(satellite.clause);
    number_is_short(satellite.literal);
}

// Each of them.
fn satellites_are_short(satellites: &[Satellite])
    ensures { AreShortSatellites satellites.now }
{
    for satellite in satellites {
        satellite_is_short(*satellite);
    }
}

// The numbers of a path.
fn path_is_short(path: &[u64])
    ensures { AreShort path.now }
{}
