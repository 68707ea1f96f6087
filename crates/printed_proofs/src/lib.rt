// What is printed reads back: laws of texts of proofs, up to that a check accepts printed refutations. Its only code
// walks over lines.
// The frame: a printed frame tells the problem's bytes, and printed proofs are the blocks of their text, whose lines
// are read as the proofs' (`specs/Printed`: what blocks they are).
// Symbols: a term which breaks no row behind the table of its symbols is read as the same formula behind a part of that
// table, in whatever order, but for the numbers of symbols; nothing is taken in that the table lacks
// (`specs/ReadBehind`).
// Refutations: their text, with the problem in its frame, is read as this problem and their lines but for the numbers
// of symbols, and each is a refutation in these too; proofs of a file's problem can be printed, in its symbols and
// Skolem symbols (`specs/Files`); a frame, blocks and a refutation are worked out. In `proofs/`, `Origins`: a file's
// formulas were read of terms with few levels; `Depths`: they are printed with no more; `FileSymbols`: the table with
// Skolem symbols; `FileTexts`: both together; `OwnLines`: formulas of a refutation's lines are the problem's;
// `LinesBehind`: the lines of all blocks; `Printing`: all together.
// Checks: the text of refutations offers a check these proofs, but for the numbers of symbols, and nothing else, and
// the check accepts all of them (`specs/Accepted`). In `proofs/`, `Unnoted`: nothing stands behind lines that are
// printed; `PlainRefutations`: refutations of such lines are refutations with answers.
// Numbers: what is kept in 64 bits is below 2^64, and a contract of a call that has it can say so (`specs/LineBounds`):
// `lines.rt` goes over a proof's lines, `words.rt` over their words, `clauses.rt` over the variables of clauses, no
// more than there are numbers of 64 bits, `heads.rt` has the five of a head.
#![tactic(auto)]

mod clauses;
mod heads;
mod laws;
mod lines;
mod words;

pub use heads::heads_are_short;
pub use laws::{
    files_can_be_printed, frames_are_read, printed_proofs_are_read,
    printed_refutations_are_accepted, printed_refutations_are_read, terms_are_read_behind, worked,
    worked_refutation,
};
pub use lines::{lines_are_bounded, lines_are_counted};
