// A whole piece written to a sink.
ghost use Rattle.std.specs.Prelude.{◌≡◌, false, OnOk, OnErr};
ghost use Rattle.ladr_io.specs.Streams.{Takes, TakesFront};

use crate::{Failed, Sink};

/// Writes the piece, in as many calls as the sink wants.
pub fn write_all<K: Sink>(sink: &mut K, piece: &[u8]) -> Result<(), Failed>
    requires { (K.outflow sink.old).over ≡ false }
    ensures whole { OnOk result (Takes (K.outflow sink.old) (K.outflow sink.new) piece.now) }
    ensures front { OnErr result (TakesFront (K.outflow sink.old) (K.outflow sink.new) piece.now) }
{
    let mut written = 0;
    while written < piece.len() {
        match sink.write(&piece[written..]) {
            Ok(count) => written += count,
            Err(failed) => return Err(failed),
        }
    }
    Ok(())
}
