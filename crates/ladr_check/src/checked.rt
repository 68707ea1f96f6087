// What a check answers of a text that is held in memory.
ghost use Rattle.std.specs.Prelude.{◌≡◌};

use crate::ends::CheckEnd;

/// How the check of a text ended. Nothing else makes such a value, so whoever has one had a text checked.
#[derive(Clone, Copy)]
pub struct Checked {
    pub(crate) end: CheckEnd,
}

impl Checked {
    /// The end.
    pub fn end(&self) -> CheckEnd
        ensures { result ≡ self.now.end }
    {
        self.end
    }
}
