// A search for a proof of which it is told how many entries of its indexes it tested.
// `tests.rt` makes a problem of two hundred steps, whose search keeps some four hundred clauses and tests few entries of
// its two indexes up to the proof. Tests are proved with all that they stand on, so this one has a crate of its own.
#![tactic(auto)]

#[cfg(test)]
mod tests;
