// Each call of the streams refused in turn.
use crate::runs::{Faults, NO_FAULT, end_of};
use crate::texts::{
    ACCEPTED, ALL_OF_THREE, CONCLUDED, INVOLUTION, INVOLUTIONS, MADE_TWO, PROVED, REPORT, SYLLOGISM,
};
use std::alloc::{AllocError, Global};
use std::test::Fail;

const NO_COMMAND: &[u8] = b"ladr: no such command\n";

const READ_FAULT: &[u8] = b"ladr: read fault\n";

// Whether each refused read ends a run so: what was to be read is left, and one line is written, or as much of it as the sink takes.
fn reads_are_refused(alloc: Global, command: &str, input: &[u8]) -> Result<bool, AllocError> {
    for (write, held) in [(1, b"".as_slice()), (2, b"l")] {
        let faults = Faults {
            read: 1,
            write,
            ..NO_FAULT
        };
        if !end_of(alloc, command, input, faults, &[])?.is(11, input, held) {
            return Ok(false);
        }
    }
    for taken in 0..input.len() + 1 {
        let faults = Faults {
            read: taken as u64 + 1,
            ..NO_FAULT
        };
        if !end_of(alloc, command, input, faults, &[])?.is(10, &input[taken..], READ_FAULT) {
            return Ok(false);
        }
    }
    Ok(true)
}

// Whether each refused write ends a run so: a front of the output is written, a byte of it or more a call, and this is left to be
// read. Where a call writes more, the calls end before the bytes do.
fn writes_are_refused(
    alloc: Global,
    command: &str,
    input: &[u8],
    by_seven: bool,
    left: &[u8],
    output: &[u8],
) -> Result<bool, AllocError> {
    for (earlier, _) in output.iter().enumerate() {
        let faults = Faults {
            read: 0,
            write: earlier as u64 + 1,
            by_seven,
        };
        let run = end_of(alloc, command, input, faults, &[])?;
        let most = earlier.saturating_mul(if by_seven { 7 } else { 1 });
        if by_seven && run.held.len() == output.len() {
            return Ok(output.len() <= most && run.is(0, left, output));
        }
        let written = run.held.as_slice();
        if written.len() < earlier || most < written.len() {
            return Ok(false);
        }
        if !output.starts_with(written) || !run.is(11, left, written) {
            return Ok(false);
        }
    }
    Ok(!by_seven)
}

// A run reads a byte a call and then its end, or nothing at all, and writes a byte a call: no later call is there to be refused.
#[test]
fn each_refused_call_ends_a_run(rt: HostRuntime) -> Result<(), Fail> {
    let alloc = rt.alloc();
    for (command, input, reads, status, output) in [
        ("check", PROVED, true, 0, ACCEPTED),
        ("clausetester", INVOLUTION, true, 0, REPORT),
        ("mace4 -n 3 -N 3 -m 10", INVOLUTIONS, true, 8, ALL_OF_THREE),
        ("prover9", SYLLOGISM, true, 0, CONCLUDED),
        ("made 2", INVOLUTIONS, false, 0, MADE_TWO),
        ("prover9 extra", SYLLOGISM, false, 9, NO_COMMAND),
        ("mace4 -n 0", INVOLUTIONS, false, 9, NO_COMMAND),
    ] {
        let (left, read) = if reads {
            (b"".as_slice(), input.len() as u64 + 2)
        } else {
            (input, 1)
        };
        if reads {
            assert!(rt; reads_are_refused(alloc, command, input)?);
        }
        assert!(rt; writes_are_refused(alloc, command, input, false, left, output)?);
        let faults = Faults {
            read,
            write: output.len() as u64 + 1,
            ..NO_FAULT
        };
        let run = end_of(alloc, command, input, faults, &[])?;
        assert!(rt; run.is(status, left, output));
    }
    assert!(rt; writes_are_refused(alloc, "prover9", SYLLOGISM, true, b"", CONCLUDED)?);
    Ok(())
}
