// An entry of an index.
use crate::once::Told;
use packed_terms::PackedTerm;

/// An entry: a term under a number, and what is told of its variables.
#[derive(Drop)]
pub struct IndexEntry {
    pub number: u64,
    pub tree: PackedTerm,
    pub told: Told,
}
