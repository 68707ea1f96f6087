// What the program itself prints.
ghost use Rattle.std.specs.Prelude.{◌≡◌, IfOk};
ghost use Rattle.ladr_top.specs.Words.{no_command_line};

use ladr_output::text;
use std::alloc::{AllocError, Global};

/// The line for words that are no command.
pub fn no_command(alloc: Global) -> Result<Vec<u8>, AllocError>
    ensures { IfOk result (λ v. v.items ≡ no_command_line) }
{
    let mut out = Vec::new(alloc);
    text(&mut out, b"ladr: no such command\n")?;
    Ok(out)
}
