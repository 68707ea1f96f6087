// Cuts a text into its tokens, item by item.
ghost use Rattle.std.specs.Prelude.{◌≡◌, ◌^◌, ◌<◌, false, length, slice_index, IfOk, OnOk};
ghost use Rattle.ladr_lex.specs.Cuts.{pieces_of};
ghost use Rattle.ladr_lex.specs.Item.{has_stop, CutsItem};
ghost use Rattle.ladr_lex.specs.Lexed.{Advances};

use crate::scan::{add, step};
use crate::token::{Text, Token};
use std::alloc::AllocError;

/// Puts the tokens of the item that begins at a byte in place of those that were there, and answers the byte behind them.
/// An item ends with its first full stop, or where the text ends.
pub fn item_from<'a>(
    item: &mut Vec<Token<'a>>,
    text: &'a Text<'a>,
    at: usize,
) -> Result<usize, AllocError>
    requires small { length text.now.bytes.now < 2 ^ 32 }
    requires place { at < length text.now.bytes.now }
    ensures { IfOk result (λ next. CutsItem text.now.start text.now.bytes.now
        (pieces_of item.new.items) at next) }
{
    item.clear();
    let end = stop_from(item, text, at)?;
    if end == text.bytes.len() {
        return Ok(end);
    }
    add(item, text, end, end + 1)?;
    Ok(end + 1)
}

// Adds the tokens from a place on up to the next full stop, and answers where that stands, or where the text ends.
#[inline(always)]
fn stop_from<'a>(
    found: &mut Vec<Token<'a>>,
    text: &'a Text<'a>,
    from: usize,
) -> Result<usize, AllocError>
    requires small { length text.now.bytes.now < 2 ^ 32 }
    requires place { from < length text.now.bytes.now }
    requires none { has_stop (pieces_of found.old.items) ≡ false }
    ensures cut { IfOk result (λ end. Advances text.now.start text.now.bytes.now found.old.items
        found.new.items from end) }
    ensures none { OnOk result (has_stop (pieces_of found.new.items) ≡ false) }
    ensures stop { IfOk result (λ end. end < length text.now.bytes.now
        → slice_index text.now.bytes.now end ≡ 46) }
{
    let mut at = from;
    while at < text.bytes.len() && text.bytes[at] != b'.' {
        at = step(found, text, at)?;
    }
    Ok(at)
}
