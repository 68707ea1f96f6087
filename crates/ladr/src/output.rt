// Standard output, or another writer, as a sink.
ghost use Rattle.std.specs.Prelude.{◌≡◌, ◌<◌, ◌≤◌, false, None, length, IfSome};
ghost use Rattle.ladr_io.specs.Streams.{Outflow};

use ladr_io::{Failed, Sink};
use std::io::{ErrorKind, Write};

/// A writer that counts its faults; contracts see nothing of its bytes.
#[derive(Drop)]
pub struct StandardOutput<W> {
    writer: W,
    // How many writes failed, at most the greatest u64.
    faults: u64,
    over: bool,
}

impl<W: Write> StandardOutput<W> {
    pub fn new(writer: W) -> StandardOutput<W>
        ensures faults { result.faults ≡ 0 }
        ensures over { result.over ≡ false }
    {
        StandardOutput {
            writer,
            faults: 0,
            over: false,
        }
    }
}

impl<W: Write> Sink for StandardOutput<W> {
    ghost outflow = { λ s. record { held = None; faults = s.faults; over = s.over } };

    fn write(&mut self, piece: &[u8]) -> Result<usize, Failed> {
        match write(&mut self.writer, piece) {
            Some(count) => Ok(count),
            None => {
                self.faults = self.faults.saturating_add(1);
                self.over = true;
                Err(Failed)
            }
        }
    }
}

// How many bytes a write takes, if it doesn't fail. One that a signal broke off is tried again, and one that takes
// nothing of a piece fails.
fn write<W: Write>(writer: &mut W, piece: &[u8]) -> Option<usize>
    ensures within { IfSome result (λ n. n ≤ length piece.now) }
    ensures takes_some { 0 < length piece.now → IfSome result (λ n. 0 < n) }
{
    for _ in 0..u64::MAX {
        match writer.write(piece) {
            Ok(count) if count > 0 || piece.is_empty() => return Some(count),
            Err(error) if error.kind() == ErrorKind::Interrupted => {}
            _ => break,
        }
    }
    None
}

#[cfg(test)]
mod tests {
    use super::*;
    use std::io;
    use std::test::Fail;

    // What the writes take, one after another: so many bytes, or an error.
    #[derive(Drop)]
    struct Accepting {
        writes: [Result<u8, ErrorKind>; 6],
        at: usize,
    }

    impl Write for Accepting {
        fn write(&mut self, buf: &[u8]) -> io::Result<usize> {
            if self.at >= self.writes.len() {
                return Ok(buf.len());
            }
            let write = self.writes[self.at];
            self.at += 1;
            match write {
                Ok(count) => Ok(buf.len().min(count as usize)),
                Err(kind) => Err(io::Error::from(kind)),
            }
        }

        fn flush(&mut self) -> io::Result<()> {
            Ok(())
        }
    }

    // It is asked again after a fault, as no caller may, to see what it counts.
    #[test]
    fn counts_each_fault_and_writes_on(rt: HostRuntime) -> Result<(), Fail> {
        let mut output = StandardOutput::new(Accepting {
            writes: [
                Ok(2),
                Err(ErrorKind::Interrupted),
                Ok(200),
                Ok(0),
                Err(ErrorKind::BrokenPipe),
                Ok(1),
            ],
            at: 0,
        });
        output.faults = u64::MAX - 1;
        for (write, faults) in [
            (Some(2), u64::MAX - 1),
            (Some(5), u64::MAX - 1),
            (None, u64::MAX),
            (None, u64::MAX),
            (Some(1), u64::MAX),
            (Some(5), u64::MAX),
        ] {
            output.over = false;
            assert_eq!(rt; output.write(b"lines").ok(), write);
            assert_eq!(rt; output.faults, faults);
        }
        Ok(())
    }
}
