// An index of terms against scans of all its entries, a sieve of marks, and packed terms. Tests are proved with all
// that they stand on, so these have a crate of their own.
// `tests.rt` has them: what an index of generated terms (`chance.rt`, `filling.rt`) finds, beside scans (`scans.rt`),
// and how many entries it tests; how many nodes its tree has; what a sieve of marks finds, and that a long walk is
// broken off (`marks.rt`); that packed terms come back, and what stands at the nodes of one (`packing.rt`).
#![tactic(auto)]

#[cfg(test)]
mod chance;
#[cfg(test)]
mod filling;
#[cfg(test)]
mod marks;
#[cfg(test)]
mod packing;
#[cfg(test)]
mod scans;
#[cfg(test)]
mod tests;
