// Standard input, or another reader, as a source.
ghost use Rattle.std.specs.Prelude.{◌≡◌, ◌≤◌, false, None, length, IfSome};
ghost use Rattle.ladr_io.specs.Streams.{Inflow};

use ladr_io::{Failed, Source};
use std::io::{ErrorKind, Read};

/// A reader that counts its faults; contracts see nothing of its bytes.
#[derive(Drop)]
pub struct StandardInput<R> {
    reader: R,
    // How many reads failed, at most the greatest u64.
    faults: u64,
    // The end was told, or a read failed.
    over: bool,
}

impl<R: Read> StandardInput<R> {
    pub fn new(reader: R) -> StandardInput<R>
        ensures faults { result.faults ≡ 0 }
        ensures over { result.over ≡ false }
    {
        StandardInput {
            reader,
            faults: 0,
            over: false,
        }
    }
}

impl<R: Read> Source for StandardInput<R> {
    ghost inflow = { λ s. record { left = None; faults = s.faults; over = s.over } };

    fn read(&mut self, buf: &mut [u8]) -> Result<usize, Failed> {
        match read(&mut self.reader, buf) {
            Some(count) => {
                self.over = count == 0 && !buf.is_empty();
                Ok(count)
            }
            None => {
                self.faults = self.faults.saturating_add(1);
                self.over = true;
                Err(Failed)
            }
        }
    }
}

// How many bytes a read gives, if it doesn't fail. One that a signal broke off is tried again.
fn read<R: Read>(reader: &mut R, buf: &mut [u8]) -> Option<usize>
    ensures { IfSome result (λ n. n ≤ length buf.new) }
{
    for _ in 0..u64::MAX {
        match reader.read(buf) {
            Ok(count) => return Some(count),
            Err(error) if error.kind() == ErrorKind::Interrupted => {}
            Err(_) => break,
        }
    }
    None
}

#[cfg(test)]
mod tests {
    use super::*;
    use std::io;
    use std::test::Fail;

    // What the reads give, one after another: so many bytes, or an error.
    #[derive(Drop)]
    struct Given {
        reads: [Result<u8, ErrorKind>; 6],
        at: usize,
    }

    impl Read for Given {
        fn read(&mut self, buf: &mut [u8]) -> io::Result<usize> {
            if self.at >= self.reads.len() {
                return Ok(0);
            }
            let read = self.reads[self.at];
            self.at += 1;
            match read {
                Ok(count) => Ok(buf.len().min(count as usize)),
                Err(kind) => Err(io::Error::from(kind)),
            }
        }
    }

    // It is asked again, as no caller may, to see what it counts.
    #[test]
    fn counts_each_fault_and_reads_on(rt: HostRuntime) -> Result<(), Fail> {
        let mut input = StandardInput::new(Given {
            reads: [
                Ok(3),
                Err(ErrorKind::Interrupted),
                Ok(200),
                Err(ErrorKind::PermissionDenied),
                Ok(1),
                Err(ErrorKind::Other),
            ],
            at: 0,
        });
        let mut buf = [0u8; 16];
        for (read, faults) in [
            (Some(3), 0),
            (Some(16), 0),
            (None, 1),
            (Some(1), 1),
            (None, 2),
            (Some(0), 2),
        ] {
            input.over = false;
            assert_eq!(rt; input.read(&mut buf).ok(), read);
            assert_eq!(rt; input.faults, faults);
        }
        Ok(())
    }
}
