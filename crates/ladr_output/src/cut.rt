// What cuts an output off.
ghost use Rattle.std.specs.Prelude.{◌≡◌};
ghost use Rattle.ladr_output.specs.declared.cut.Cut.TheVariants.{WriteFault, Memory};

use ladr_io::Failed;
use std::alloc::AllocError;

/// Why an output is cut off: a write failed, or memory was lacking.
#[derive(Clone, Copy)]
pub enum Cut {
    WriteFault,
    Memory,
}

impl From<Failed> for Cut {
    ghost from_gives = { λ _ cut. cut ≡ WriteFault };

    fn from(_failed: Failed) -> Cut {
        Cut::WriteFault
    }
}

impl From<AllocError> for Cut {
    ghost from_gives = { λ _ cut. cut ≡ Memory };

    fn from(_error: AllocError) -> Cut {
        Cut::Memory
    }
}
