// Searches whose clocks are heeded.
use crate::runs::{NO_FAULT, end_of};
use crate::texts::INVOLUTIONS;
use std::test::Fail;

const BOTH_OF_TWO: &[u8] =
    b"% Domain size 2.\ninterpretation(2, [number = 1,seconds = 0], [\n    function(f(_), [0,1])\n]).\ninterpretation(2, [number = 2,seconds = 0], [\n    function(f(_), [1,0])\n]).\n";

const BEGUN: &[u8] = b"% Domain size 2.\n";

const ECHOED: &[u8] = b"% Input 49\nformulas(assumptions).\nf(f(x)) = x.\nend_of_list.\n\n";

// The clock is read as a size begins, and before each choice of a cell, two at size 2; a reading of
// 1,000 is late behind a first one of 0. The clock of the last search for models goes back. A search for proofs reads it as it begins,
// and before it gives a clause.
#[test]
fn clocks_are_heeded(rt: HostRuntime) -> Result<(), Fail> {
    for (command, readings, status, front, rest) in [
        (
            "mace4 -t 0",
            &[7u64, 7] as &[u64],
            4,
            BEGUN,
            b"% Models=0.\n% Exit max_seconds 7 7.\n".as_slice(),
        ),
        (
            "mace4 -t 1",
            &[5, 6, 1005],
            4,
            BEGUN,
            b"% Models=0.\n% Exit max_seconds 5 1005.\n",
        ),
        (
            "mace4 -t 1 -m 9",
            &[0, 1, 2, 999, 1000],
            4,
            BOTH_OF_TWO,
            b"% Domain size 2 exhausted.\n% Domain size 3.\n% Models=2.\n% Exit max_seconds 0 1000.\n",
        ),
        (
            "mace4 -t 1 -m 9",
            &[0, 1, 2, 3, 4, 1001],
            4,
            BOTH_OF_TWO,
            b"% Domain size 2 exhausted.\n% Domain size 3.\n% Models=2.\n% Exit max_seconds 0 1001.\n",
        ),
        (
            "mace4 -t 1 -m 9 -N 2",
            &[1000, 5, 6, 7, 8],
            8,
            BOTH_OF_TWO,
            b"% Domain size 2 exhausted.\n% Models=2.\n% Exit all_models.\n",
        ),
        (
            "prover9 -t 1",
            &[3, 1003],
            4,
            ECHOED,
            b"% Given=0. Generated=0. Kept=1. Large=0. Proofs=0.\nSEARCH FAILED\n% Exit max_seconds 3 1003.\n",
        ),
        (
            "prover9 -t 1",
            &[3, 1002, 1003],
            2,
            ECHOED,
            b"% Given=1. Generated=2. Kept=1. Large=0. Proofs=0.\nSEARCH FAILED\n% Exit sos_empty.\n",
        ),
    ] {
        let run = end_of(rt.alloc(), command, INVOLUTIONS, NO_FAULT, readings)?;
        let mut output = front.to_vec(rt.alloc())?;
        output.extend_from_slice(rest)?;
        assert!(rt; run.is(status, b"", output.as_slice()));
    }
    Ok(())
}
