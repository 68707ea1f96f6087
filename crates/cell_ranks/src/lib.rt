// Cells ranked by a score, and the first of those that are free and have a low index.
// `tournament.rt` has nodes of which each is won by one of its pair, behind them a place for each cell: what is put at
// a place is passed up as far as it changes the winner, and the winner of the first so many places is found along one
// path. `layout.rt` gives each cell its place, by rising index, so that the cells up to an index are the first so many.
// `ranks.rt` has both with the scores and the cells that are free; a cell whose score changes is taken out and put
// back.
// The contracts say which free cell is first in rank, whatever was closed and opened before.
#![tactic(auto)]

mod layout;
mod ranks;
mod tournament;

pub use ranks::Ranks;
