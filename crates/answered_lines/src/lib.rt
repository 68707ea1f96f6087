// Answers carried through derivations; there is no code in it.
// Read the definitions first. `specs/Steps` says what steps make of the answers of the clauses that they take: those of all
// parents of a rule, under one most general family, and those of a unit or a rule behind the clause's own. `specs/Lines` has
// derivations whose goals may ask for something and whose clauses carry answers, `specs/Refused` why a line is none,
// `specs/Answering` when an answer is true, and `specs/View` the lines of the code with their notes. Answers change nothing of
// what is derived: lines with answers are lines without, and lines of which none asks for something or has answers stay what
// they are (`specs/Laws`).
// What answers show: `refutations_show_answers` states that, in every interpretation, finite or infinite, whose Skolem symbols
// pick witnesses and that makes all of a problem but its goals true, some answer on the last line of a refutation is true under
// each assignment, or some goal whose line asks for nothing (`specs/Shows`). In `proofs/`, `Good` and `GoodSteps` carry through
// the steps that some literal is true wherever all answers fail, `GoodLines` through the lines; `UnansweredClauses` and
// `AskedRows` begin it with the clauses of a problem. `specs/Stays` says which elements and symbols answers may have,
// `specs/Moved` what lines with answers are with other numbers of their symbols.
#![tactic(auto)]

mod laws;

pub use laws::{
    answers_are_sound, answers_stay_in, conclusion_is_one_with, fault_is_one_with,
    input_clauses_hold, instances_conclude, lines_are_plain, matches_bring_answers,
    nothing_comes_of_none, plain_lines_stay, refused_is_none_with, refutations_are_moved_with,
    refutations_show_answers, unifier_concludes_with, worked,
};
