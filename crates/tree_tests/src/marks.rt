// Numbers under lists of marks, and what is found of them.
use discrim_tree::MarkSieve;
use std::alloc::{AllocError, Global};
use std::test::Fail;

// Whether a retrieval has answered just these numbers.
fn are(found: Option<Vec<u64>>, numbers: &[u64]) -> bool {
    match found {
        None => false,
        Some(found) => found.as_slice() == numbers,
    }
}

// Whether a sieve finds just these numbers for some marks, within them and over them.
fn finds(
    alloc: Global,
    sieve: &MarkSieve,
    marks: &[u64],
    within: &[u64],
    over: &[u64],
) -> Result<bool, AllocError> {
    Ok(are(sieve.within(alloc, marks, 100)?, within) && are(sieve.over(alloc, marks, 100)?, over))
}

// Whether two nodes are too few for both walks.
fn is_broken_off(alloc: Global, sieve: &MarkSieve) -> Result<bool, AllocError> {
    Ok(sieve.within(alloc, &[1, 2, 5], 2)?.is_none() && sieve.over(alloc, &[2], 2)?.is_none())
}

// Whether lists of marks are found in a sieve that had none, and found no longer once they are taken out.
fn are_found(alloc: Global, sieve: &mut MarkSieve) -> Result<bool, AllocError> {
    for (marks, number) in [
        ([1, 2].as_slice(), 10),
        (&[1, 2, 5], 11),
        (&[2, 5], 12),
        (&[7], 13),
    ] {
        sieve.put(alloc, marks, number)?;
    }
    let all = finds(alloc, sieve, &[1, 2, 5], &[10, 11, 12], &[11])?
        && finds(alloc, sieve, &[2, 5, 6, 7], &[12, 13], &[])?
        && finds(alloc, sieve, &[2], &[], &[10, 11, 12])?
        && finds(alloc, sieve, &[2, 5], &[12], &[11, 12])?
        && is_broken_off(alloc, sieve)?;
    sieve.take(&[1, 2, 5], 11);
    Ok(
        all && finds(alloc, sieve, &[1, 2, 5], &[10, 12], &[])?
            && finds(alloc, sieve, &[5], &[], &[12])?,
    )
}

#[test]
fn lists_of_marks_are_found_unless_the_walk_is_too_long(rt: HostRuntime) -> Result<(), Fail> {
    let alloc = rt.alloc();
    let mut sieve = MarkSieve::new(alloc);
    let all = are_found(alloc, &mut sieve)?;
    assert!(rt; all);
    Ok(())
}
