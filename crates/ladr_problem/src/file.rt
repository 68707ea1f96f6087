// The items of a file, one behind the other.
ghost use Rattle.std.specs.Prelude.{◌≡◌, ◌<◌, ◌^◌, ℕ, OnOk, IfErr, MatchOption, [], length, List};
ghost use Rattle.ladr_problem.specs.Items.{items_of, in_front, tokens_of};
ghost use Rattle.ladr_lex.specs.Cuts.{Piece, pieces_of};
ghost use Rattle.ladr_problem.specs.Draft.{sofar_of};
ghost use Rattle.ladr_problem.specs.File.{Outcome, File, problem, unreadable, start_at};
ghost use Rattle.ladr_lex.specs.declared.token.Token.{Token};
ghost use Rattle.ladr_problem.specs.Reading.{IsKept};
ghost use Rattle.ladr_problem.specs.Stops.{IsStop, by_refusal};

use crate::draft::Draft;
use crate::refusal::Refusal;
use crate::stop::RefusalAt;
use ladr_formulas::Mode;
use ladr_lex::{Text, Token, item_from};
use std::alloc::Global;

// Where a token of an item begins; behind the last one the input ends.
fn start_at(end: usize, tokens: &[Token], k: usize) -> usize
    ensures { result ≡ start_at end (pieces_of tokens.now) k }
{
    match tokens.get(k) {
        Some(token) => token.start(),
        None => end,
    }
}

// Where the first of some tokens begins, if there is one.
fn begin(tokens: &[Token]) -> Option<u64>
    ensures { MatchOption result (length tokens.now ≡ 0) (λ byte. (0 < length tokens.now)
        × ((end : ℕ) → byte ≡ start_at end (pieces_of tokens.now) 0)) }
{
    match tokens {
        [] => None,
        [first, ..] => Some(first.start() as u64),
    }
}

// The refusal of an item that begins at a byte, with its place.
fn by_refusal(end: usize, byte: u64, tokens: &[Token], why: Refusal) -> RefusalAt
    ensures { (old : List Token) → byte ≡ start_at end (pieces_of old) 0
        → IsKept old tokens.now why → result ≡ by_refusal end (pieces_of old) why }
{
    match why {
        Refusal::Bad(k) => RefusalAt::Unreadable(start_at(end, tokens, k) as u64),
        Refusal::Large(what) => RefusalAt::TooLarge(byte, what),
        Refusal::Misused(misuse) => RefusalAt::Misuse(byte, misuse),
        Refusal::Memory => RefusalAt::Memory,
    }
}

// Takes an item, if it has tokens.
fn take_item(
    alloc: Global,
    program: Mode,
    end: usize,
    tokens: &mut Vec<Token>,
    draft: &mut Draft,
) -> Result<(), RefusalAt>
    ensures ok { OnOk result ((items : List (List Piece)) (o : Outcome)
        → File program end (sofar_of draft.new) items o → File program end (sofar_of draft.old)
        (in_front (pieces_of tokens.old.items) items) o) }
    ensures stop { (items : List (List Piece)) → IfErr result (IsStop (File program end
        (sofar_of draft.old) (in_front (pieces_of tokens.old.items) items))) }
{
    match begin(tokens) {
        None => Ok(()),
        Some(byte) => match draft.take(alloc, program, byte, tokens) {
            Ok(()) => Ok(()),
            Err(why) => Err(by_refusal(end, byte, tokens, why)),
        },
    }
}

// Takes the items of a text, up to the first that is refused. The tokens of one item are held at a time.
fn take_items<'a>(
    alloc: Global,
    program: Mode,
    end: usize,
    text: &'a Text<'a>,
    draft: &mut Draft,
) -> Result<(), RefusalAt>
    requires { length text.now.bytes.now < 2 ^ 32 }
    ensures ok { OnOk result ((o : Outcome) → File program end (sofar_of draft.new) [] o
        → File program end (sofar_of draft.old) (items_of (tokens_of text.now)) o) }
    ensures stop { IfErr result (IsStop (File program end (sofar_of draft.old)
        (items_of (tokens_of text.now)))) }
{
    let mut item = Vec::new(alloc);
    let mut at = 0;
    while at < text.bytes.len() {
        at = item_from(&mut item, text, at)?;
        take_item(alloc, program, end, &mut item, draft)?;
    }
    Ok(())
}

/// Takes all items of a text, of a file that ends at a byte.
pub fn take_all<'a>(
    alloc: Global,
    program: Mode,
    end: usize,
    text: &'a Text<'a>,
    draft: &mut Draft,
) -> Result<(), RefusalAt>
    requires { length text.now.bytes.now < 2 ^ 32 }
    ensures ok { OnOk result (File program end (sofar_of draft.old)
        (items_of (tokens_of text.now)) (problem (sofar_of draft.new))) }
    ensures stop { IfErr result (IsStop (File program end (sofar_of draft.old)
        (items_of (tokens_of text.now)))) }
{
    take_items(alloc, program, end, text, draft)?;
    if draft.settings.list.is_some() {
        return Err(RefusalAt::Unreadable(end as u64));
    }
    if draft.settings.block.is_some() {
        return Err(RefusalAt::Unreadable(end as u64));
    }
    Ok(())
}
