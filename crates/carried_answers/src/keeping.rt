// Answers behind the literals of a clause, each once.
ghost use Rattle.std.specs.Prelude.{◌≡◌, ◌↔◌, ◌<◌, ◌-◌, ◌++◌, List, IsTrue, length};
ghost use Rattle.answers.specs.AnswerTrees.{Answer, each_once};
ghost use Rattle.answers.specs.Packed.{packed};
ghost use Rattle.carried_answers.specs.Among.{IsAmong, Keeping};
ghost use Rattle.fol_core.specs.Literals.{ClauseTree};

use inference::Underway;
use shared_clauses::SharedClause;

// Whether a literal stands before, from a first place on.
fn is_among(whole: &SharedClause, first: usize, place: usize) -> bool
    requires { place < length whole.now }
    ensures { IsTrue result ↔ IsAmong whole.now first place }
{
    for earlier in first..place {
        if whole.are_same(earlier, place) {
            return true;
        }
    }
    false
}

// The literal at a place is left out if it stands before; the place of the next one.
fn keep_next(whole: &mut SharedClause, first: usize, place: usize) -> usize
    requires place { place < length whole.old }
    requires room { place < 18446744073709551615 }
    ensures kept { (c : ClauseTree) (us : List Answer) → first ≡ length c
        → Keeping c us whole.old place → Keeping c us whole.new result }
    ensures smaller { length whole.new - result < length whole.old - place }
{
    if is_among(whole, first, place) {
        whole.take_out(place as u64);
        return place;
    }
    place + 1
}

/// The answers from a place on, without those that stand before.
pub fn keep_once(whole: &mut SharedClause, first: usize)
    ensures { (c : ClauseTree) (us : List Answer) → whole.old ≡ c ++ packed us → first ≡ length c
        → whole.new ≡ c ++ packed (each_once us) }
{
    let mut place = first;
    'on: while place < whole.len() {
        place = keep_next(whole, first, place);
    }
}
