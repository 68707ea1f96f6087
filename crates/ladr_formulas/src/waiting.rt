// Terms as read that are used up one behind the other.
ghost use Rattle.std.specs.Prelude.{◌≡◌, [], ◌∷◌, MatchOption, length};
ghost use Rattle.fol_core.specs.RawView.{raw_of};

use fol_core::{Raw, Raws};
use std::marker::Model;

// So many places at least are given back at once.
const ROOM: usize = 1024;

/// Terms as read; contracts see their trees in order. There may be millions of them: the places of those that were taken are
/// given back, half of what is left at a time.
#[derive(Drop)]
pub struct Waiting {
    // The next one stands last.
    items: Vec<Raw>,
}

impl Model for Waiting {
    ghost use Rattle.std.specs.Prelude.{List, reverse};
    ghost use Rattle.fol_core.specs.RawTree.{RawTree};
    ghost use Rattle.fol_core.specs.RawCodes.{coded_raws};

    ghost Value = { List RawTree };

    ghost coded = { coded_raws };

    ghost use Rattle.fol_core.specs.RawView.{raw_list};

    ghost view = { λ a. raw_list (reverse a.items.items) };
}

impl Waiting {
    /// Arguments, all of them.
    pub fn of(args: Raws) -> Waiting
        ensures { result ≡ args }
    {
        let mut items = args.into_items();
        items.reverse();
        Waiting { items }
    }

    /// The next one, which is taken.
    #[tactic(auto, using(crate::proofs::WaitingLemmas::last_first, crate::proofs::WaitingLemmas::none_last))]
    pub fn next(&mut self) -> Option<Raw>
        ensures { MatchOption result (self.old ≡ []) (λ raw. self.old ≡ raw_of raw ∷ self.new) }
    {
        let next = self.items.pop();
        let empty = self.items.capacity().saturating_sub(self.items.len());
        if empty > ROOM && empty > self.items.len() {
            self.items.shrink_to_fit();
        }
        next
    }
}

/// The one argument by value.
pub fn one(args: Raws) -> Raw
    requires { length args ≡ 1 }
    ensures { args ≡ raw_of result ∷ [] }
{
    let mut items = args.into_items();
    items.pop().unwrap()
}

/// Two arguments by value.
pub fn two(args: Raws) -> (Raw, Raw)
    requires { length args ≡ 2 }
    ensures { args ≡ raw_of result.0 ∷ raw_of result.1 ∷ [] }
{
    let mut items = args.into_items();
    let second = items.pop().unwrap();
    let first = items.pop().unwrap();
    (first, second)
}
