// The lines that tell why a search ended.
ghost use Rattle.std.specs.Prelude.{◌≡◌, ◌++◌, OnOk, codes};
ghost use Rattle.std.specs.Fmt.{decimal};
ghost use Rattle.search_clock.specs.Lines.{exit_line, seconds_line};

use ladr_output::{decimal, text};
use std::alloc::AllocError;

/// It ended for this reason.
pub fn exit_line(out: &mut Vec<u8>, reason: &[u8]) -> Result<(), AllocError>
    ensures { OnOk result (out.new.items ≡ out.old.items ++ exit_line reason.now) }
{
    text(out, b"% Exit ")?;
    text(out, reason)?;
    text(out, b".\n")
}

// The clock's first reading.
fn first_reading(out: &mut Vec<u8>, first: u64) -> Result<(), AllocError>
    ensures { OnOk result (out.new.items ≡ out.old.items
        ++ (codes "% Exit max_seconds " ++ decimal first)) }
{
    text(out, b"% Exit max_seconds ")?;
    decimal(out, first)?;
    Ok(())
}

/// The time was over, by the clock's first reading and its last.
pub fn seconds_line(out: &mut Vec<u8>, first: u64, last: u64) -> Result<(), AllocError>
    ensures { OnOk result (out.new.items ≡ out.old.items ++ seconds_line first last) }
{
    first_reading(out, first)?;
    text(out, b" ")?;
    decimal(out, last)?;
    text(out, b".\n")?;
    Ok(())
}
