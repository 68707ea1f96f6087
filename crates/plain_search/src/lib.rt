// The plain search for models, which other searches are measured by: definitions and laws alone (`laws.rt`).
// It is the search as its rules tell it, with no trail, no ways through instances and no ranks: a partial table is a
// function from cells to the values that they have left (`specs/Lefts`), a ground clause tells nothing, a
// contradiction, or what it asks of a cell (`specs/Known`, `Closing`), and closure goes over all ground instances, pass
// by pass. `specs/Trying` chooses a cell and tries its values; what it finds are leaves, in their order.
// `order.rt` has the laws of order: closing has one result, whatever the order of its steps, and is the widest closed table
// (`specs/Orders`); which instances a new value makes another look at, and that one look is enough (`Waking`); what a search
// still has to do behind its choices, with its leaves and choices in their order (`Coming`); no two leaves are the same
// and each is a solution (`Parting`), and they cover all solutions (`Meeting`). `specs/Trying` also has the scores by which measures choose a cell.
// The laws are that closing loses no solution (`proofs/Sounding`, `Solved`) and ends where a pass changes nothing
// (`Stopping`), that leaves are models (`Leafing`, `Ending`), and that each solution extends a leaf where all values
// are tried (`Reaching`). `cell_search` gives these leaves, in this order.
#![tactic(auto)]

mod laws;
mod order;

pub use laws::{
    closing_is_sound, closure_is_closed, leaves_are_models, leaves_reach_all, worked_choices,
    worked_closures, worked_scores, worked_searches,
};
pub use order::{
    closing_has_one_result, leaves_differ, leaves_solve, looks_suffice, searches_go_on,
    tables_meet_solutions, worked_events, worked_orders,
};
