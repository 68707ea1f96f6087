// The search: a cell is chosen, its values are tried in rising order, and where none is left the choice before it goes on.
ghost use Rattle.std.specs.Prelude.{◌≡◌, ◌-◌, ◌<◌, ◌≤◌, true, false, [], ◌∷◌, MatchBool, length};
ghost use Rattle.cell_driver.specs.Boards.{StandsAs};
ghost use Rattle.cell_driver.specs.Comings.{ComesInTime};
ghost use Rattle.plain_search.specs.Coming.{choice, to_come};
ghost use Rattle.mace_cells.specs.Choices.{IsUndecided};
ghost use Rattle.mace_cells.specs.Leaves.{LeavesOpen, choices_of};
ghost use Rattle.mace_cells.specs.Searches.{HasFound, IsTimed};
ghost use Rattle.mace_cells.specs.Stacked.{rest_of};
ghost use Rattle.mace_cells.specs.Standing.{IsStanding, place, beyond};
ghost use Rattle.mace_cells.specs.World.{cell_of, many_cells, IsRefuted};
ghost use Rattle.mace_search.specs.declared.answer.SearchAnswer.TheVariants.{Model};
ghost use Rattle.ladr_io.specs.Watch.{IsEarly};

use crate::board::{Board, Status};
use crate::watch::late;
use ladr_io::Clock;
use mace_cells::{Frame, Stack};
use mace_search::SearchAnswer;

// Gives the latest choice its next value, or takes it back where it has none.
fn revise<B: Board>(board: &mut B, frames: &mut Stack<Frame>, frame: Frame) -> bool
    requires standing { IsStanding (B.world board.old) (B.decided board.old) frames.old }
    requires latest { frames.old.list ≡ frame ∷ rest_of frames.old.list }
    ensures world { B.world board.new ≡ B.world board.old }
    ensures standing { IsStanding (B.world board.new) (B.decided board.new) frames.new }
    ensures comes { to_come (B.world board.old) false
        (choices_of (B.world board.old) frames.old.list) ≡ to_come (B.world board.old) result
        (choices_of (B.world board.old) frames.new.list) }
    ensures leaves { LeavesOpen (B.world board.old) false
        (choices_of (B.world board.old) frames.old.list) result
        (choices_of (B.world board.old) frames.new.list) }
    ensures rises { MatchBool result (beyond (many_cells (B.world board.old)) frames.old.list
        ≤ place (many_cells (B.world board.old)) frames.new.list) (frames.new.list
        ≡ rest_of frames.old.list) }
{
    board.undo();
    frames.pop();
    match board.next_value(frame.cell, u32::from(frame.value) + 1, frame.most) {
        None => false,
        Some(value) => {
            let cell = frame.cell;
            let most = frame.most;
            frames.push(Frame { cell, value, most });
            board.decide(cell, value);
            true
        }
    }
}

// Goes back to the latest choice that has a further value; there may be none.
fn retreat<B: Board>(board: &mut B, frames: &mut Stack<Frame>) -> bool
    requires standing { IsStanding (B.world board.old) (B.decided board.old) frames.old }
    ensures world { B.world board.new ≡ B.world board.old }
    ensures standing { IsStanding (B.world board.new) (B.decided board.new) frames.new }
    ensures comes { to_come (B.world board.old) false
        (choices_of (B.world board.old) frames.old.list) ≡ to_come (B.world board.old) result
        (choices_of (B.world board.old) frames.new.list) }
    ensures leaves { LeavesOpen (B.world board.old) false
        (choices_of (B.world board.old) frames.old.list) result
        (choices_of (B.world board.old) frames.new.list) }
    ensures rises { MatchBool result (beyond (many_cells (B.world board.old)) frames.old.list
        ≤ place (many_cells (B.world board.old)) frames.new.list) (frames.new.list ≡ []) }
{
    while let Some(frame) = frames.top() {
        if revise(board, frames, frame) {
            return true;
        }
    }
    false
}

// Decides the first value that a cell has left; there may be none.
fn choose<B: Board>(board: &mut B, frames: &mut Stack<Frame>, cell: u32) -> bool
    requires standing { IsStanding (B.world board.old) (B.decided board.old) frames.old }
    requires cell { cell < many_cells (B.world board.old) }
    requires room { length frames.old.list < many_cells (B.world board.old) }
    requires undecided { IsUndecided (B.decided board.old) (cell_of (B.world board.old) cell) }
    requires open { B.is_open board.old cell }
    requires closed { B.is_closed board.old }
    requires stands { StandsAs (B.world board.old) (B.decided board.old) (Status.Choose cell) }
    ensures world { B.world board.new ≡ B.world board.old }
    ensures standing { IsStanding (B.world board.new) (B.decided board.new) frames.new }
    ensures comes { to_come (B.world board.old) true
        (choices_of (B.world board.old) frames.old.list) ≡ choice ∷ to_come (B.world board.old)
        result (choices_of (B.world board.old) frames.new.list) }
    ensures leaves { LeavesOpen (B.world board.old) true
        (choices_of (B.world board.old) frames.old.list) result
        (choices_of (B.world board.old) frames.new.list) }
    ensures rises { MatchBool result (place (many_cells (B.world board.old)) frames.old.list
        < place (many_cells (B.world board.old)) frames.new.list) (frames.new.list
        ≡ frames.old.list) }
{
    let most = board.most(cell);
    match board.next_value(cell, 0, most) {
        None => false,
        Some(value) => {
            frames.push(Frame { cell, value, most });
            board.decide(cell, value);
            true
        }
    }
}

// Tries the values of a cell, and where it has none goes back.
fn step<B: Board>(board: &mut B, frames: &mut Stack<Frame>, cell: u32) -> bool
    requires standing { IsStanding (B.world board.old) (B.decided board.old) frames.old }
    requires cell { cell < many_cells (B.world board.old) }
    requires room { length frames.old.list < many_cells (B.world board.old) }
    requires undecided { IsUndecided (B.decided board.old) (cell_of (B.world board.old) cell) }
    requires open { B.is_open board.old cell }
    requires closed { B.is_closed board.old }
    requires stands { StandsAs (B.world board.old) (B.decided board.old) (Status.Choose cell) }
    ensures world { B.world board.new ≡ B.world board.old }
    ensures standing { IsStanding (B.world board.new) (B.decided board.new) frames.new }
    ensures comes { to_come (B.world board.old) true
        (choices_of (B.world board.old) frames.old.list) ≡ choice ∷ to_come (B.world board.old)
        result (choices_of (B.world board.old) frames.new.list) }
    ensures leaves { LeavesOpen (B.world board.old) true
        (choices_of (B.world board.old) frames.old.list) result
        (choices_of (B.world board.old) frames.new.list) }
    ensures rises { MatchBool result (place (many_cells (B.world board.old)) frames.old.list
        < place (many_cells (B.world board.old)) frames.new.list) (frames.new.list ≡ []) }
{
    if choose(board, frames, cell) {
        true
    } else {
        retreat(board, frames)
    }
}

// Where the decisions are refuted, goes back.
fn back<B: Board>(board: &mut B, frames: &mut Stack<Frame>) -> bool
    requires standing { IsStanding (B.world board.old) (B.decided board.old) frames.old }
    requires refuted { IsRefuted (B.world board.old) (B.decided board.old) }
    requires stands { StandsAs (B.world board.old) (B.decided board.old) Status.Refuted }
    ensures world { B.world board.new ≡ B.world board.old }
    ensures standing { IsStanding (B.world board.new) (B.decided board.new) frames.new }
    ensures comes { to_come (B.world board.old) true
        (choices_of (B.world board.old) frames.old.list) ≡ to_come (B.world board.old) result
        (choices_of (B.world board.old) frames.new.list) }
    ensures leaves { LeavesOpen (B.world board.old) true
        (choices_of (B.world board.old) frames.old.list) result
        (choices_of (B.world board.old) frames.new.list) }
    ensures rises { MatchBool result (place (many_cells (B.world board.old)) frames.old.list
        < place (many_cells (B.world board.old)) frames.new.list) (frames.new.list ≡ []) }
{
    retreat(board, frames)
}

// Follows the decisions until all cells have values, or none is left to try, or the time is over.
fn descend<B: Board, C: Clock>(
    board: &mut B,
    frames: &mut Stack<Frame>,
    stop: Option<u128>,
    clock: &mut C,
) -> SearchAnswer
    requires standing { IsStanding (B.world board.old) (B.decided board.old) frames.old }
    requires early { IsEarly stop (C.times clock.old) }
    ensures world { B.world board.new ≡ B.world board.old }
    ensures standing { IsStanding (B.world board.new) (B.decided board.new) frames.new }
    ensures comes { ComesInTime (B.world board.old) stop true
        (choices_of (B.world board.old) frames.old.list) result
        (choices_of (B.world board.old) frames.new.list) (C.times clock.old) (C.times clock.new) }
    ensures found { HasFound (B.world board.old) true
        (choices_of (B.world board.old) frames.old.list) (B.found board.new) result
        (choices_of (B.world board.old) frames.new.list) }
    ensures full { result ≡ Model → B.is_full board.new }
    ensures late { IsTimed stop result (C.times clock.new) }
{
    loop {
        match board.status() {
            Status::Settled => return SearchAnswer::Model,
            Status::Refuted => {
                if !back(board, frames) {
                    return SearchAnswer::Exhausted;
                }
            }
            Status::Choose(cell) => {
                if let Some(last) = late(stop, clock) {
                    return SearchAnswer::MaxSeconds(last);
                }
                if !step(board, frames, cell) {
                    return SearchAnswer::Exhausted;
                }
            }
        }
    }
}

// Where the decisions were followed to their end, goes back.
fn begin<B: Board>(board: &mut B, frames: &mut Stack<Frame>, live: bool) -> bool
    requires standing { IsStanding (B.world board.old) (B.decided board.old) frames.old }
    ensures world { B.world board.new ≡ B.world board.old }
    ensures standing { IsStanding (B.world board.new) (B.decided board.new) frames.new }
    ensures comes { to_come (B.world board.old) live
        (choices_of (B.world board.old) frames.old.list) ≡ to_come (B.world board.old) result
        (choices_of (B.world board.old) frames.new.list) }
    ensures leaves { LeavesOpen (B.world board.old) live
        (choices_of (B.world board.old) frames.old.list) result
        (choices_of (B.world board.old) frames.new.list) }
    ensures end { result ≡ false → frames.new.list ≡ [] }
{
    if live { true } else { retreat(board, frames) }
}

/// Goes on to the next model; `live` tells that the decisions are still being followed.
pub fn next_model<B: Board, C: Clock>(
    board: &mut B,
    frames: &mut Stack<Frame>,
    live: bool,
    stop: Option<u128>,
    clock: &mut C,
) -> SearchAnswer
    requires standing { IsStanding (B.world board.old) (B.decided board.old) frames.old }
    requires early { IsEarly stop (C.times clock.old) }
    ensures world { B.world board.new ≡ B.world board.old }
    ensures standing { IsStanding (B.world board.new) (B.decided board.new) frames.new }
    ensures comes { ComesInTime (B.world board.old) stop live
        (choices_of (B.world board.old) frames.old.list) result
        (choices_of (B.world board.old) frames.new.list) (C.times clock.old) (C.times clock.new) }
    ensures found { HasFound (B.world board.old) live
        (choices_of (B.world board.old) frames.old.list) (B.found board.new) result
        (choices_of (B.world board.old) frames.new.list) }
    ensures full { result ≡ Model → B.is_full board.new }
    ensures late { IsTimed stop result (C.times clock.new) }
{
    if begin(board, frames, live) {
        descend(board, frames, stop, clock)
    } else {
        SearchAnswer::Exhausted
    }
}
