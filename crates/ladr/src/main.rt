// The program: gives its words, its streams and the machine's clock to the one call that does all.
// `main.rt` hands them to `run` of `ladr_top`. `input.rt`, `output.rt` and `stopwatch.rt` make a source, a sink and a
// clock of what the process has; `words.rt` has its words; `one_element.rt` is an interpretation to hand in where any
// will do.
#![tactic(auto)]

ghost use Rattle.std.specs.Prelude.{◌≡◌};
ghost use Rattle.ladr_top.specs.Causes.{status_of};

mod input;
mod one_element;
mod output;
mod stopwatch;
mod words;

use input::StandardInput;
use ladr_top::{Cause, Exit, run};
use one_element::OneElement;
use output::StandardOutput;
use std::process::ExitCode;
use stopwatch::Stopwatch;
use words::words;

// Runs on what the process has.
fn exit(rt: HostRuntime) -> Exit
    ensures { result.status ≡ status_of result.cause }
{
    let Ok(words) = words(&rt) else {
        return Exit {
            status: 12,
            cause: Cause::Memory,
        };
    };
    let mut source = StandardInput::new(rt.stdin());
    let mut sink = StandardOutput::new(rt.stdout());
    let mut clock = Stopwatch::new(rt);
    run(
        rt.alloc(),
        &words,
        &OneElement,
        &mut source,
        &mut sink,
        &mut clock,
    )
}

fn main(rt: HostRuntime) -> ExitCode {
    ExitCode::from(exit(rt).status)
}
