// A conclusion.
ghost use Rattle.std.specs.Prelude.{◌≡◌, IfOk};
ghost use Rattle.std.specs.Option.{option_map};
ghost use Rattle.resolution.specs.View.{clause_of, judged_clause};

use clause_limits::SmallClause;
use derivation::First;
use inference::{Judged, LargeClause};
use std::alloc::{AllocError, Global};

/// The clause of a conclusion: built, with its variables numbered, exactly where it isn't too large.
#[derive(Drop)]
pub enum Concluded {
    Numbered(SmallClause),
    Large(LargeClause),
}

impl Concluded {
    /// What a rule comes to, without its parents, if that is a conclusion.
    pub fn of(alloc: Global, judged: Judged) -> Result<Option<Concluded>, AllocError>
        ensures { IfOk result (λ o. option_map clause_of o ≡ judged_clause judged.entry) }
    {
        match judged {
            Judged::Unfit => Ok(None),
            Judged::Apart => Ok(None),
            Judged::Small(clause) => Ok(Some(Concluded::Numbered(clause))),
            Judged::Large(clause) => Ok(Some(Concluded::Large(clause.kept(alloc)?))),
        }
    }
}

/// A clause that is concluded, with the first word of its line.
#[derive(Drop)]
pub struct Conclusion {
    pub clause: Concluded,
    pub first: First,
}
