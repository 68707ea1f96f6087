// Runs over streams in memory, with one byte a read.
use ladr_io::{MemClock, MemSink, MemSource};
use ladr_top::run;
use model_tables::Tables;
use std::alloc::{AllocError, Global};

/// The read and the write that fail (none has number 0), and whether a write takes seven bytes or one.
#[derive(Clone, Copy)]
pub struct Faults {
    pub read: u64,
    pub write: u64,
    pub by_seven: bool,
}

/// No call fails, and a write takes one byte.
pub const NO_FAULT: Faults = Faults {
    read: 0,
    write: 0,
    by_seven: false,
};

/// How a run ended: its status, what its source has left, and what its sink holds.
#[derive(Drop)]
pub struct Ended {
    pub status: u8,
    pub left: Vec<u8>,
    pub held: Vec<u8>,
}

impl Ended {
    /// Whether it ended so.
    pub fn is(&self, status: u8, left: &[u8], held: &[u8]) -> bool {
        self.status == status && self.left.as_slice() == left && self.held.as_slice() == held
    }
}

/// A run with these faults, whose clock gives these readings.
pub fn end_of(
    alloc: Global,
    command: &str,
    input: &[u8],
    faults: Faults,
    readings: &[u64],
) -> Result<Ended, AllocError> {
    let mut words = Vec::new(alloc);
    for word in command.split(' ') {
        words.push(String::from_str(alloc, word)?)?;
    }
    let any = Tables::new(1, Vec::new(alloc));
    let mut source = MemSource::with_piece(input.to_vec(alloc)?, 1, vec![in alloc; faults.read]?);
    let piece = if faults.by_seven { 7 } else { 1 };
    let mut sink = MemSink::with_piece(alloc, piece, vec![in alloc; faults.write]?);
    let mut clock = MemClock::new(readings.to_vec(alloc)?);
    let exit = run(alloc, &words, &any, &mut source, &mut sink, &mut clock);
    Ok(Ended {
        status: exit.status,
        left: source.left().to_vec(alloc)?,
        held: sink.bytes().to_vec(alloc)?,
    })
}
