// Problems by cells: the laws that lead from what a file says to the search by cells and from its models back. There
// are laws alone (`laws.rt`).
// What a file says uses symbols with the kind and the number of arguments that the table has for them (`specs/Uses`,
// `Fitting`; the proof goes along the definition of a file, item by item), so the clauses of it do, and each term of
// theirs has a cell (`specs/Worlds`). A solution of the clauses is a countermodel of what is stated, and a model of its
// symbols can be made a solution; tables with the values of a renamed solution are the renamed interpretation.
#![tactic(auto)]

mod laws;

pub use laws::{cells_for_all, isomorphisms_are_carried, problems_fit, solutions_are_models};
