// Going over the instances of clauses, and doing what they ask.
ghost use Rattle.std.specs.Prelude.{◌≡◌, ◌<◌, true, false, [], drop, length, set};
ghost use Rattle.cell_search.specs.Covering.{AgreeOutside, AreDoneBefore, AreWholeWays, Covers, IsClauseAt, IsDone, IsGoneOver, IsHere, bound_by, element_of};
ghost use Rattle.cell_search.specs.Following.{AreWellLeft, GoesOver, Grows, left_after};
ghost use Rattle.cell_search.specs.Full.{HaveVariables};
ghost use Rattle.cell_search.specs.Losses.{IsBoard, decided_in};
ghost use Rattle.cell_search.specs.Phases.{IsReady, IsWaiting};
ghost use Rattle.cell_search.specs.Searchable.{HasAllCells};
ghost use Rattle.cell_search.specs.Viewing.{left_in};
ghost use Rattle.cell_search.specs.Ways.{AreWays, CoversCell, IsGroupOf};
ghost use Rattle.fol_core.specs.Literals.{ClauseTree};
ghost use Rattle.mace_cells.specs.World.{IsRefuted};
ghost use Rattle.mace_ground.specs.Instances.{assigned_by};
ghost use Rattle.model_tables.specs.Size.{AllBelow};
ghost use Rattle.plain_search.specs.Closing.{closure};
ghost use Rattle.plain_search.specs.Coming.{closed_behind};
ghost use Rattle.plain_search.specs.Lefts.{all_left};
ghost use Rattle.std.specs.Option.{option_map};

use crate::closing::{obey, settle_single};
use crate::look::{Verdict, look};
use crate::seen::number;
use crate::setup::Setup;
use crate::walk::{Group, Occurrence, Walk};
use mace_cells::Trail;

// Looks at an instance of a clause, and does what it asks; false where it can't be true.
fn pursue(setup: &Setup, trail: &mut Trail, clause: usize, env: &[u32]) -> bool
    requires board { IsBoard setup.now trail.old }
    requires env { AllBelow setup.now.size env.now }
    ensures grows { Grows trail.old trail.new }
    ensures board { IsBoard setup.now trail.new }
    ensures decided { decided_in setup.now trail.new.entries
        ≡ decided_in setup.now trail.old.entries }
    ensures refuted { result ≡ false
        → IsRefuted setup.now (decided_in setup.now trail.old.entries) }
    ensures goes { GoesOver setup.now trail.old result trail.new }
    ensures looked { HasAllCells setup.now → AreWellLeft setup.now trail.old → result ≡ true
        → (c : ClauseTree) → IsClauseAt setup.now clause c
        → IsDone setup.now c env.now trail.old trail.new }
{
    let clauses = setup.clauses();
    if clause >= clauses.len() {
        return true;
    }
    let (_, clause) = &clauses[clause];
    match look(setup, trail, clause.as_slice(), env) {
        Verdict::Quiet => true,
        Verdict::Contradiction => false,
        Verdict::Asks(ask) => obey(setup, trail, ask),
    }
}

// Gives a variable an element.
fn set(env: &mut [u32], variable: usize, element: u32, size: u32)
    requires element { element < size }
    requires env { AllBelow size env.old }
    ensures env { AllBelow size env.new }
    ensures set { env.new ≡ set env.old variable element }
{
    if variable < env.len() {
        env[variable] = element;
    }
}

// Whether the occurrence's terms have the values of the cell's arguments.
fn is_here(setup: &Setup, trail: &Trail, walk: &Walk, cell: u32, env: &[u32]) -> bool
    requires { IsBoard setup.now trail.now }
    ensures { IsHere setup.now trail.now.entries (assigned_by env.now) walk.now.occurrence cell
        → result ≡ true }
{
    match &walk.occurrence {
        None => true,
        Some(occurrence) => {
            let here = number(
                setup,
                trail,
                occurrence.kind,
                occurrence.symbol,
                occurrence.terms,
                env,
            );
            here == Some(cell)
        }
    }
}

// Goes over the instances with the elements that the variables before this place have; false where one can't be true.
fn go(setup: &Setup, trail: &mut Trail, walk: &Walk, cell: u32, env: &mut [u32], at: usize) -> bool
    requires board { IsBoard setup.now trail.old }
    requires env { AllBelow setup.now.size env.old }
    ensures grows { Grows trail.old trail.new }
    ensures board { IsBoard setup.now trail.new }
    ensures decided { decided_in setup.now trail.new.entries
        ≡ decided_in setup.now trail.old.entries }
    ensures refuted { result ≡ false
        → IsRefuted setup.now (decided_in setup.now trail.old.entries) }
    ensures goes { GoesOver setup.now trail.old result trail.new }
    ensures env { AllBelow setup.now.size env.new }
    ensures frame { AgreeOutside (drop at walk.now.order.items) env.new env.old }
    ensures many { length env.new ≡ length env.old }
    ensures covers { result ≡ true
        → Covers setup.now walk.now cell at env.old trail.old trail.new }
{
    if at == walk.nested && !is_here(setup, trail, walk, cell, env) {
        return true;
    }
    let size = setup.size();
    // One element is that of each variable.
    if at >= walk.order.len() || size == 1 {
        return pursue(setup, trail, walk.clause, env);
    }
    for element in 0..size {
        set(env, walk.order[at], element, size);
        if !go(setup, trail, walk, cell, env, at + 1) {
            return false;
        }
    }
    true
}

// The element that a cell has for an argument, by its place and by how many cells lie between those of one element and the next.
fn element_of(place: u32, step: u32, size: u32) -> u32
    requires { 0 < size }
    ensures element { result ≡ element_of size place step }
    ensures below { result < size }
{
    place.checked_div(step).unwrap_or(0) % size
}

// Gives the variables that are arguments of an occurrence the elements that the cell has for them.
fn bind(setup: &Setup, occurrence: &Occurrence, place: u32, env: &mut [u32])
    requires { AllBelow setup.now.size env.old }
    ensures env { AllBelow setup.now.size env.new }
    ensures many { length env.new ≡ length env.old }
    ensures bound { env.new ≡ bound_by setup.now.size place occurrence.now.direct.items env.old }
{
    let size = setup.size();
    for (variable, step) in &occurrence.direct {
        set(env, *variable, element_of(place, *step, size), size);
    }
}

// Goes over the instances in which an occurrence of the group's symbol has the values of the cell's arguments.
fn go_over(setup: &Setup, trail: &mut Trail, group: &Group, cell: u32, env: &mut [u32]) -> bool
    requires board { IsBoard setup.now trail.old }
    requires env { AllBelow setup.now.size env.old }
    ensures grows { Grows trail.old trail.new }
    ensures board { IsBoard setup.now trail.new }
    ensures decided { decided_in setup.now trail.new.entries
        ≡ decided_in setup.now trail.old.entries }
    ensures refuted { result ≡ false
        → IsRefuted setup.now (decided_in setup.now trail.old.entries) }
    ensures goes { GoesOver setup.now trail.old result trail.new }
    ensures env { AllBelow setup.now.size env.new }
    ensures many { length env.new ≡ length env.old }
    ensures covers { result ≡ true → CoversCell setup.now group.now cell (length env.old)
        trail.old trail.new (length group.now.walks.items) }
{
    for walk in &group.walks {
        if let Some(occurrence) = &walk.occurrence {
            bind(setup, occurrence, cell.saturating_sub(group.first), env);
        }
        if !go(setup, trail, walk, cell, env, 0) {
            return false;
        }
    }
    true
}

// The last group whose cells begin with this one or before it.
fn group_of<'a, 'g>(groups: &'g [Group<'a>], cell: u32) -> Option<&'g Group<'a>>
    ensures { IsGroupOf groups.now cell (option_map (λ g. g.now) result) }
{
    let mut at = groups.len();
    while at > 0 {
        at -= 1;
        if groups[at].first <= cell {
            return Some(&groups[at]);
        }
    }
    None
}

// Goes over the clauses' instances that have a cell which got a value in this step or a later one, those which get one meanwhile
// too; false where the clauses contradict what was decided.
pub fn close(
    setup: &Setup,
    trail: &mut Trail,
    groups: &[Group],
    env: &mut [u32],
    from: usize,
) -> bool
    requires board { IsBoard setup.now trail.old }
    requires env { AllBelow setup.now.size env.old }
    ensures grows { Grows trail.old trail.new }
    ensures board { IsBoard setup.now trail.new }
    ensures decided { decided_in setup.now trail.new.entries
        ≡ decided_in setup.now trail.old.entries }
    ensures refuted { result ≡ false
        → IsRefuted setup.now (decided_in setup.now trail.old.entries) }
    ensures goes { GoesOver setup.now trail.old result trail.new }
    ensures env { AllBelow setup.now.size env.new }
    ensures many { length env.new ≡ length env.old }
    // Where the instances were gone over for the steps before, it comes to the closure of the table.
    ensures closes { AreWays setup.now groups.now (length env.old)
        → AreWellLeft setup.now trail.old → IsGoneOver setup.now trail.old from
        → closure setup.now (left_in setup.now trail.old) ≡ left_after setup.now result trail.new }
{
    let mut step = from;
    while step < trail.len() {
        let cell = trail.cell_at(step);
        step += 1;
        if let Some(group) = group_of(groups, cell) {
            if !go_over(setup, trail, group, cell, env) {
                return false;
            }
        }
    }
    true
}

// Goes over all instances; false where the clauses contradict what was decided.
fn begin(setup: &Setup, trail: &mut Trail, walks: &[Walk], env: &mut [u32]) -> bool
    requires board { IsBoard setup.now trail.old }
    requires env { AllBelow setup.now.size env.old }
    ensures grows { Grows trail.old trail.new }
    ensures board { IsBoard setup.now trail.new }
    ensures decided { decided_in setup.now trail.new.entries
        ≡ decided_in setup.now trail.old.entries }
    ensures refuted { result ≡ false
        → IsRefuted setup.now (decided_in setup.now trail.old.entries) }
    ensures goes { GoesOver setup.now trail.old result trail.new }
    ensures env { AllBelow setup.now.size env.new }
    ensures many { length env.new ≡ length env.old }
    ensures covers { result ≡ true → AreWholeWays setup.now walks.now
        → HaveVariables setup.now.clauses (length env.old)
        → AreDoneBefore setup.now (length walks.now) trail.old trail.new }
{
    for walk in walks {
        if !go(setup, trail, walk, 0, env, 0) {
            return false;
        }
    }
    true
}

// Closes a table in which no cell has a value: each that can have one value alone gets it, and all instances are gone over; false
// where the clauses can't be true.
fn close_first(
    setup: &Setup,
    trail: &mut Trail,
    walks: &[Walk],
    groups: &[Group],
    env: &mut [u32],
) -> bool
    requires board { IsBoard setup.now trail.old }
    requires env { AllBelow setup.now.size env.old }
    ensures grows { Grows trail.old trail.new }
    ensures board { IsBoard setup.now trail.new }
    ensures decided { decided_in setup.now trail.new.entries
        ≡ decided_in setup.now trail.old.entries }
    ensures refuted { result ≡ false
        → IsRefuted setup.now (decided_in setup.now trail.old.entries) }
    ensures env { AllBelow setup.now.size env.new }
    ensures many { length env.new ≡ length env.old }
    // It comes to the closure of the table that the plain search begins with.
    ensures closes { AreWays setup.now groups.now (length env.old)
        → AreWholeWays setup.now walks.now → length walks.now ≡ length setup.now.clauses
        → trail.old.entries ≡ [] → trail.old.crossings ≡ []
        → closure setup.now (all_left setup.now) ≡ left_after setup.now result trail.new }
    ensures well { HasAllCells setup.now → trail.old.crossings ≡ [] → result ≡ true
        → AreWellLeft setup.now trail.new }
{
    if !settle_single(setup, trail) {
        return false;
    }
    if !begin(setup, trail, walks, env) {
        return false;
    }
    close(setup, trail, groups, env, 0)
}

/// Closes a table that waits for it, all instances having been gone over for the first so many steps, or none yet; false where the
/// clauses can't be true.
pub fn close_waiting(
    setup: &Setup,
    trail: &mut Trail,
    walks: &[Walk],
    groups: &[Group],
    env: &mut [u32],
    begun: bool,
    head: usize,
) -> bool
    requires board { IsBoard setup.now trail.old }
    requires env { AllBelow setup.now.size env.old }
    ensures grows { Grows trail.old trail.new }
    ensures board { IsBoard setup.now trail.new }
    ensures decided { decided_in setup.now trail.new.entries
        ≡ decided_in setup.now trail.old.entries }
    ensures env { AllBelow setup.now.size env.new }
    ensures many { length env.new ≡ length env.old }
    // It comes to the table of the plain search behind the decisions.
    ensures behind { IsReady setup.now walks.now groups.now (length env.old)
        → IsWaiting setup.now trail.old begun head
        → closed_behind setup.now (decided_in setup.now trail.old.entries)
        ≡ left_after setup.now result trail.new }
    ensures well { HasAllCells setup.now → IsWaiting setup.now trail.old begun head
        → result ≡ true → AreWellLeft setup.now trail.new }
{
    if begun {
        close(setup, trail, groups, env, head)
    } else {
        close_first(setup, trail, walks, groups, env)
    }
}
