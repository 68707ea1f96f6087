// Which clause is given next.
ghost use Rattle.std.specs.Prelude.{◌≡◌, ◌+◌, nat_lt, if◌then◌else◌};
ghost use Rattle.std.specs.Option.{option_map};
ghost use Rattle.given_clause.specs.Guides.{setting_of};
ghost use Rattle.given_clause.specs.Noted.{AreNoted};
ghost use Rattle.given_clause.specs.Turns.{is_noted_among, lightest_among, best_of, best_so_far, lighter_next, best_next, IsRun, pick_of};
ghost use Rattle.prover_steps.specs.Picking.{lightest, picked, picked_at, picked_from, turn_at, turns_of};

use crate::guide::Guide;
use crate::waiting::{Note, Waiting};
use held_clauses::Held;
use ladr_options::Options;

/// All clauses, those that match a hint, those with a positive literal, or those without.
#[derive(Clone, Copy)]
pub enum Among {
    All,
    Hinted,
    WithPositive,
    WithoutPositive,
}

/// A clause with the place of the next turn.
#[derive(Clone, Copy)]
pub struct Pick<'a> {
    pub held: &'a Held,
    pub turn: u64,
}

// Whether a note is of one of those.
fn is_among(among: Among, note: &Note) -> bool
    ensures { result ≡ is_noted_among among note.now }
{
    match among {
        Among::All => true,
        Among::Hinted => note.hinted,
        Among::WithPositive => note.positive,
        Among::WithoutPositive => !note.positive,
    }
}

// The lighter one of the best clause so far and the next; of equal ones the first.
fn lighter<'a>(best: Option<(&'a Held, u64)>, held: &'a Held, weight: u64) -> (&'a Held, u64)
    ensures { best_of result ≡ lighter_next (best_so_far best.entry) (held.now, weight) }
{
    match best {
        None => (held, weight),
        Some((before, least)) => {
            if least <= weight {
                (before, least)
            } else {
                (held, weight)
            }
        }
    }
}

// The best clause with the next one, if that is one of those by its note.
fn best_with<'a>(
    among: Among,
    best: Option<(&'a Held, u64)>,
    held: &'a Held,
    note: &Note,
) -> Option<(&'a Held, u64)>
    ensures { best_so_far result ≡ best_next among (best_so_far best.entry) held.now note.now }
{
    if !is_among(among, note) {
        return best;
    }
    Some(lighter(best, held, note.weight))
}

// The first of the lightest ones of those, by their notes.
fn lightest_among<'a>(guide: &Guide<'_>, among: Among, waiting: &'a Waiting) -> Option<&'a Held>
    requires { AreNoted (setting_of guide.now) waiting.now }
    ensures { option_map (λ h. h.now) result
        ≡ lightest_among (setting_of guide.now) among waiting.now.held }
{
    let mut best: Option<(&Held, u64)> = None;
    for (place, held) in waiting.held.as_slice().iter().enumerate() {
        best = best_with(among, best, held, &waiting.notes[place]);
    }
    match best {
        None => None,
        Some((held, _)) => Some(held),
    }
}

// The first of the lightest ones of all.
fn lightest_of_all<'a>(guide: &Guide<'_>, waiting: &'a Waiting) -> Option<&'a Held>
    requires { AreNoted (setting_of guide.now) waiting.now }
    ensures { option_map (λ h. h.now) result
        ≡ lightest (setting_of guide.now).weight waiting.now.held }
{
    lightest_among(guide, Among::All, waiting)
}

// How many turns there are.
fn turns_of(options: &Options) -> u64
    ensures { result ≡ turns_of options.now }
{
    u64::from(options.age_part)
        + (u64::from(options.weight_part)
            + (u64::from(options.false_part) + u64::from(options.true_part)))
}

// The place behind the turns by age.
fn behind_age(options: &Options) -> u64
    ensures { result ≡ options.now.age_part }
{
    u64::from(options.age_part)
}

// The place behind those by weight.
fn behind_weight(options: &Options) -> u64
    ensures { result ≡ options.now.age_part + options.now.weight_part }
{
    u64::from(options.age_part) + u64::from(options.weight_part)
}

// The place behind those of clauses without a positive literal.
fn behind_falsity(options: &Options) -> u64
    ensures { result ≡ options.now.age_part + (options.now.weight_part + options.now.false_part) }
{
    u64::from(options.age_part) + (u64::from(options.weight_part) + u64::from(options.false_part))
}

// How many turns of one kind there are from a place on.
fn run_from(options: &Options, n: u64) -> u64
    ensures { IsRun options.now n result }
{
    let age = u64::from(options.age_part);
    let weight = age + u64::from(options.weight_part);
    let of_false = weight + u64::from(options.false_part);
    let of_true = of_false + u64::from(options.true_part);
    if n < age {
        age - n
    } else if n < weight {
        weight - n
    } else if n < of_false {
        of_false - n
    } else if n < of_true {
        of_true - n
    } else {
        1
    }
}

// The clause that a turn picks, if it has one.
fn picked_at<'a>(guide: &Guide<'_>, waiting: &'a Waiting, n: u64) -> Option<&'a Held>
    requires { AreNoted (setting_of guide.now) waiting.now }
    ensures { option_map (λ h. h.now) result
        ≡ picked_at (setting_of guide.now).weight waiting.now.held (turn_at guide.now.options n) }
{
    if n < behind_age(&guide.options) {
        waiting.held.as_slice().first()
    } else if n < behind_weight(&guide.options) {
        lightest_of_all(guide, waiting)
    } else if n < behind_falsity(&guide.options) {
        lightest_among(guide, Among::WithoutPositive, waiting)
    } else {
        lightest_among(guide, Among::WithPositive, waiting)
    }
}

// The place behind a run of turns, the first one behind the last.
fn place_behind(options: &Options, n: u64, run: u64) -> u64
    ensures { result ≡ (if nat_lt (n + run) (turns_of options.now) then n + run else 0) }
{
    if run < turns_of(options).saturating_sub(n) {
        n + run
    } else {
        0
    }
}

// Of the turns from a place on, once around, the first that has a clause: where one has none, those of its kind have none.
fn picked_from<'a>(guide: &Guide<'_>, waiting: &'a Waiting, turn: u64) -> Option<Pick<'a>>
    requires { AreNoted (setting_of guide.now) waiting.now }
    ensures { option_map pick_of result ≡ picked_from guide.now.options
        (setting_of guide.now).weight waiting.now.held (turns_of guide.now.options) turn }
{
    let mut left = turns_of(&guide.options);
    let mut n = turn;
    while left > 0 {
        match picked_at(guide, waiting, n) {
            Some(held) => {
                let turn = place_behind(&guide.options, n, 1);
                return Some(Pick { held, turn });
            }
            None => {
                let run = run_from(&guide.options, n).min(left);
                n = place_behind(&guide.options, n, run);
                left -= run;
            }
        }
    }
    None
}

/// The clause that is given next, with the place of the next turn; nothing where none waits.
pub fn picked<'a>(guide: &Guide<'_>, waiting: &'a Waiting, turn: u64) -> Option<Pick<'a>>
    requires { AreNoted (setting_of guide.now) waiting.now }
    ensures { option_map pick_of result ≡ picked guide.now.options
        (setting_of guide.now).weight (setting_of guide.now).is_hinted waiting.now.held turn }
{
    if let Some(held) = lightest_among(guide, Among::Hinted, waiting) {
        return Some(Pick { held, turn });
    }
    if let Some(pick) = picked_from(guide, waiting, turn) {
        return Some(pick);
    }
    waiting
        .held
        .as_slice()
        .first()
        .map(|held| Pick { held, turn })
}
