// The law that a check accepts what a search for proofs writes where it has found some. There is no code in it.
// `laws.rt` states that a check accepts all that a run of `prover9` wrote which came to an end of its own and tells of
// a proof, and all that one wrote before memory was lacking, if a proof stands in it. `specs/Accepted` says what that
// is.
// In `proofs/`, `Signatures` says which symbols clauses of the problem may have, in which the lines of a derivation
// stay by `derivation_laws`; `Lines` shows that each line of a search can be a line of a printed proof, by
// `search_lines` and what is below 2^64, and `Words` that its words can be said; `Proofs` that the proofs of a state
// are printable refutations, `Closing` that the last lines hold no banner of a proof, and tell of one only where there
// is one; `Operators` and `Skolems` have the operators of clauses and the numbers of Skolem symbols; `Accepting` puts
// this together with the law of `printed_proofs` on checks.
#![tactic(auto)]

mod laws;

pub use laws::outputs_are_accepted;
