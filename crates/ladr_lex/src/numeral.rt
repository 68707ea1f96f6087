// Numerals: `0`, or digits without a leading `0`.
ghost use Rattle.std.specs.Prelude.{◌≡◌, ◌+◌, ◌-◌, ◌*◌};
ghost use Rattle.ladr_lex.specs.Numeral.{is_numeral, value, fitting, whole_number, limited_number_of};
ghost use Rattle.std.specs.List.{list_all};
ghost use Rattle.std.specs.Char.{is_ascii_digit};

/// Whether a symbol's text is a numeral.
pub fn is_numeral(text: &[u8]) -> bool
    ensures { result ≡ is_numeral text.now }
{
    match text {
        [] => false,
        [first, rest @ ..] => are_digits(text) && (*first != b'0' || rest.is_empty()),
    }
}

/// The number that digits write, unless it is above 18,446,744,073,709,551,615.
/// A byte that is no digit counts by how far it is above `0`.
pub fn value(text: &[u8]) -> Option<u64>
    ensures { result ≡ fitting (value text.now) }
{
    let mut sum = 0;
    for byte in text {
        match with_digit(sum, *byte) {
            Some(more) => sum = more,
            None => return None,
        }
    }
    Some(sum)
}

// The number with one more digit.
fn with_digit(sum: u64, byte: u8) -> Option<u64>
    ensures { result ≡ fitting (sum * 10 + (byte - 48)) }
{
    match sum.checked_mul(10) {
        Some(tens) => tens.checked_add(u64::from(byte.saturating_sub(b'0'))),
        None => None,
    }
}

/// The number of a numeral, if the text is one and its number is at most 18,446,744,073,709,551,615.
pub fn whole_number(text: &[u8]) -> Option<u64>
    ensures { result ≡ whole_number text.now }
{
    if is_numeral(text) { value(text) } else { None }
}

/// The number of a numeral; one above 4,294,967,295, or a text that is no numeral, reads as 4,294,967,295, which is above all
/// that the language allows.
pub fn number(text: &[u8]) -> u32
    ensures { result ≡ limited_number_of text.now }
{
    let most = u64::from(u32::MAX);
    whole_number(text).unwrap_or(most).min(most) as u32
}

fn are_digits(text: &[u8]) -> bool
    ensures { result ≡ list_all is_ascii_digit text.now }
{
    text.iter().all(|byte| byte.is_ascii_digit())
}
