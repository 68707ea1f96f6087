// How large a clause may be, how large one is, and clauses known to keep to the limits.
// `specs/Sizes` says how large a clause is, and when it is too large to be processed. `limits.rt` has the limits, and
// `measure.rt` looks how large terms and clauses are, levels first, then symbols and variables, and no further than the
// number asked about: whether a clause is larger than the limits or than others, and what is left of a number behind
// its symbols. A `Measure` (`measured.rt`) has both numbers of a term that needs not be built, by those of its parts, each up
// to the greatest one.
// `numbering.rt` numbers the variables of a clause anew in place, where they are at most sixteen. A `SmallClause`
// (`small.rt`) is a clause that is known not to be too large: who has one can't have built another.
// That numbering variables leaves a clause as large as it was is a lemma for the crates above (`proofs/Numbered`).
#![tactic(auto)]

mod limits;
mod measure;
mod measured;
mod numbering;
mod small;

pub use limits::{MOST_CLAUSE_LEVELS, MOST_CLAUSE_SYMBOLS};
pub use measure::{
    clause_size, is_clause_deeper, is_deeper, is_larger, is_too_large, left_behind,
    left_behind_clause,
};
pub use measured::Measure;
pub use numbering::numbered_anew;
pub use small::SmallClause;
