// Answers that a clause carries: terms for what a goal asks for.
// `answer.rt` has an answer with its copy and its instances, `several.rt` the answers of a clause: copies, instances, and
// each once. `numbering.rt` numbers the variables of a clause and its answers together, those of the literals first, and
// `measure.rt` tells whether both together are too large.
// `specs/AnswerTrees` says the same of trees: the terms of answers are literals behind a clause for all that numbers or
// measures them (`whole`). `laws.rt` has the law that the literals of a clause are numbered as if there were no answers,
// and some answers worked out.
#![tactic(auto)]

mod answer;
mod laws;
mod measure;
mod numbering;
mod several;

pub use answer::{Answer, apply_answer, is_same_answer};
pub use laws::{literals_stay, worked};
pub use measure::is_whole_too_large;
pub use numbering::numbered_with;
pub use several::{apply_answers, copy_answers, each_once};
