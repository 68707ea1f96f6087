// The command that searches for models of what an input states.
// `search.rt` is the story of a run: it reads the input, makes the clauses, and has the sizes searched and the last
// lines printed. `asked.rt` has a problem with its clauses and their Skolem symbols, counts cells and ground literals,
// begins a search, and makes the tables and the text of a model that it found. `plan.rt` has what is asked of the
// search by the words and by the input's options, `sizes.rt` goes through the sizes, `one_size.rt` skips one or
// searches it, `begin.rt` looks at the clock and at the room for its cells and ground literals, `models.rt` has its
// models found by `cell_search`. All that they print are items (`SearchItem`), and `printing.rt` is the one place that
// prints: an item's text, or the last lines. `lines.rt` makes the lines, and `ends.rt` has how a search ends, with its
// status.
// In `specs/`, `Story` says how a search goes and what it prints: in each size the models of the leaves that the plain
// search finds, in their order (`Done`), which are the models of what is stated (`Models`, `LeafModels`). `Finding` says
// what a run amounts to, `Shown` what stands in its output to those who asked for models, `Fronts` that a search that is
// cut off left a front of a whole output, and `OneEnd` that there is one whole output where no time is over. `laws.rt`
// states what stands in the output, whatever became of the run.
// `proofs/Standing` proves what `Shown` says of the lines that stand in an output: the output is made of blocks
// (`proofs/SearchBlocks`), each of whole lines, and no line of a block, nor one behind them, begins like another block,
// since no name of a symbol has a line's end in it.
#![tactic(auto)]

mod asked;
mod begin;
mod ends;
mod laws;
mod lines;
mod models;
mod one_size;
mod plan;
mod printing;
mod search;
mod sizes;

pub use ends::SearchEnd;
pub use laws::{leaves_are_models, one_end, searches_show, worked};
pub use plan::Plan;
pub use search::mace4;
