// Values that are given to cells, or crossed off them, since clauses ask for it.
ghost use Rattle.std.specs.Prelude.{ℕ, ◌≡◌, ◌+◌, ◌<◌, ◌≤◌, ◌^◌, ◌⊎◌, [], length, true, false, None, Some};
ghost use Rattle.cell_search.specs.Asking.{IsDue, IsOnly, IsNone, IsRest, IsWellLeft, KeepsValues, IsGivenSingle};
ghost use Rattle.cell_search.specs.Following.{AreWellLeft, Grows, IsFollowed, StayWellLeft};
ghost use Rattle.cell_search.specs.Losses.{IsBoard, decided_in};
ghost use Rattle.cell_search.specs.Searchable.{HasAllCells};
ghost use Rattle.mace_cells.specs.Trails.{value_in};
ghost use Rattle.mace_cells.specs.World.{cell_of, many_cells, IsRefuted};
ghost use Rattle.plain_search.specs.Closing.{asks, nothing};

use crate::asks::Ask;
use crate::setup::Setup;
use mace_cells::Trail;

/// What values a cell has left.
#[derive(Clone, Copy)]
pub enum Rest {
    Nothing,
    One(u32),
    Several,
}

/// What values below `end` a cell has left.
pub fn left(trail: &Trail, cell: u32, end: u32) -> Rest
    requires cell { cell < trail.now.many }
    requires end { end ≤ trail.now.stride }
    requires byte { end < 2 ^ 8 }
    ensures { IsRest trail.now cell end result }
{
    let mut only = None;
    for value in 0..end {
        if !trail.is_crossed(cell, value as u8) {
            if only.is_some() {
                return Rest::Several;
            }
            only = Some(value);
        }
    }
    match only {
        None => Rest::Nothing,
        Some(value) => Rest::One(value),
    }
}

/// Gives a cell the one value that it can have; false where it can't have that one either.
pub fn settle(setup: &Setup, trail: &mut Trail, cell: u32, value: u32) -> bool
    requires board { IsBoard setup.now trail.old }
    requires cell { cell < many_cells setup.now }
    requires blank { value_in trail.old.entries cell ≡ None }
    requires only { IsOnly setup.now trail.old.entries cell value }
    ensures grows { Grows trail.old trail.new }
    ensures board { IsBoard setup.now trail.new }
    ensures decided { decided_in setup.now trail.new.entries
        ≡ decided_in setup.now trail.old.entries }
    ensures given { result ≡ true → value_in trail.new.entries cell ≡ Some value }
    ensures more { result ≡ true
        → length trail.new.entries ≡ length trail.old.entries + 1 }
    ensures kept { KeepsValues trail.old.entries trail.new.entries }
    ensures refuted { result ≡ false
        → IsRefuted setup.now (decided_in setup.now trail.old.entries) }
    ensures follows { HasAllCells setup.now → IsFollowed setup.now trail.old
        (asks (cell_of setup.now cell) value true) result trail.new }
    ensures well { result ≡ true → StayWellLeft setup.now trail.old trail.new }
    ensures crossings { trail.new.crossings ≡ trail.old.crossings }
{
    if value >= setup.bound(cell) {
        return false;
    }
    let value = value as u8;
    if trail.is_crossed(cell, value) {
        return false;
    }
    trail.assign(cell, value, false);
    true
}

// Gives a cell that can have one value alone that value; false where no solution can.
fn settle_one(setup: &Setup, trail: &mut Trail, cell: u32) -> bool
    requires board { IsBoard setup.now trail.old }
    requires cell { cell < many_cells setup.now }
    ensures grows { Grows trail.old trail.new }
    ensures board { IsBoard setup.now trail.new }
    ensures decided { decided_in setup.now trail.new.entries
        ≡ decided_in setup.now trail.old.entries }
    ensures kept { KeepsValues trail.old.entries trail.new.entries }
    ensures given { result ≡ true → IsGivenSingle setup.now trail.new.entries cell }
    ensures refuted { result ≡ false
        → IsRefuted setup.now (decided_in setup.now trail.old.entries) }
    ensures crossings { trail.new.crossings ≡ trail.old.crossings }
    // At the beginning that changes nothing of what is left.
    ensures follows { HasAllCells setup.now → trail.old.crossings ≡ []
        → IsFollowed setup.now trail.old nothing result trail.new }
{
    if setup.bound(cell) != 1 {
        return true;
    }
    match trail.value(cell) {
        Some(_) => true,
        None => settle(setup, trail, cell, 0),
    }
}

/// Gives each cell that can have one value alone that value; false where no solution can.
pub fn settle_single(setup: &Setup, trail: &mut Trail) -> bool
    requires { IsBoard setup.now trail.old }
    ensures grows { Grows trail.old trail.new }
    ensures board { IsBoard setup.now trail.new }
    ensures decided { decided_in setup.now trail.new.entries
        ≡ decided_in setup.now trail.old.entries }
    ensures given { result ≡ true → (cell : ℕ) → cell < many_cells setup.now
        → IsGivenSingle setup.now trail.new.entries cell }
    ensures refuted { result ≡ false
        → IsRefuted setup.now (decided_in setup.now trail.old.entries) }
    ensures crossings { trail.new.crossings ≡ trail.old.crossings }
    // At the beginning that changes nothing of what is left.
    ensures follows { HasAllCells setup.now → trail.old.crossings ≡ []
        → IsFollowed setup.now trail.old nothing result trail.new }
    ensures well { result ≡ true → trail.old.crossings ≡ []
        → AreWellLeft setup.now trail.new }
{
    for cell in 0..setup.cells() {
        if !settle_one(setup, trail, cell) {
            return false;
        }
    }
    true
}

// Crosses a value that it can't have off a cell, which gets the value that is left where there is only one; false where none is.
fn strike(setup: &Setup, trail: &mut Trail, cell: u32, value: u32) -> bool
    requires board { IsBoard setup.now trail.old }
    requires cell { cell < many_cells setup.now }
    requires blank { value_in trail.old.entries cell ≡ None }
    requires none { IsNone setup.now trail.old.entries cell value }
    ensures grows { Grows trail.old trail.new }
    ensures board { IsBoard setup.now trail.new }
    ensures decided { decided_in setup.now trail.new.entries
        ≡ decided_in setup.now trail.old.entries }
    ensures left { result ≡ true → (trail.new.crossings ≡ trail.old.crossings)
        ⊎ IsWellLeft setup.now trail.new cell }
    ensures refuted { result ≡ false
        → IsRefuted setup.now (decided_in setup.now trail.old.entries) }
    ensures follows { HasAllCells setup.now → IsWellLeft setup.now trail.old cell
        → IsFollowed setup.now trail.old (asks (cell_of setup.now cell) value false) result
        trail.new }
    ensures well { result ≡ true → StayWellLeft setup.now trail.old trail.new }
{
    let end = setup.bound(cell);
    if value >= end {
        return true;
    }
    let value = value as u8;
    if trail.is_crossed(cell, value) {
        return true;
    }
    trail.cross(cell, value);
    match left(trail, cell, end) {
        Rest::Nothing => false,
        Rest::One(value) => settle(setup, trail, cell, value),
        Rest::Several => true,
    }
}

/// Does what is asked; false where no solution can.
pub fn obey(setup: &Setup, trail: &mut Trail, ask: Ask) -> bool
    requires board { IsBoard setup.now trail.old }
    requires cell { ask.cell < many_cells setup.now }
    requires due { IsDue setup.now trail.old.entries ask }
    ensures grows { Grows trail.old trail.new }
    ensures board { IsBoard setup.now trail.new }
    ensures decided { decided_in setup.now trail.new.entries
        ≡ decided_in setup.now trail.old.entries }
    ensures refuted { result ≡ false
        → IsRefuted setup.now (decided_in setup.now trail.old.entries) }
    // Exactly that is done.
    ensures follows { HasAllCells setup.now → IsWellLeft setup.now trail.old ask.cell
        → IsFollowed setup.now trail.old
        (asks (cell_of setup.now ask.cell) ask.value ask.positive) result trail.new }
    ensures well { result ≡ true → StayWellLeft setup.now trail.old trail.new }
{
    match trail.value(ask.cell) {
        Some(value) => (u32::from(value) == ask.value) == ask.positive,
        None if ask.positive => settle(setup, trail, ask.cell, ask.value),
        None => strike(setup, trail, ask.cell, ask.value),
    }
}
