// Heads in four bytes, where their numbers are small.
ghost use Rattle.std.specs.Prelude.{◌≡◌, IfSome};
ghost use Rattle.packed_terms.specs.Codes.{head_of, symbol_of};

use crate::head::Head;
use fol_core::EQ;

// The greatest number of sixteen bits.
const GREATEST: u64 = 0xffff;

// So many arguments at most have a kind.
const MOST_ARGUMENTS: usize = 0xfffd;

/// A head by its kind and its number: the kind is 0 for a variable, 1 for an element, and for a symbol that of its arguments
/// and 2 more.
#[derive(Clone, Copy)]
pub struct Code {
    pub kind: u16,
    pub number: u16,
}

// The number of the symbol of a code: the greatest number stands for that of equality.
fn symbol_of(number: u16) -> u64
    ensures { result ≡ symbol_of number }
{
    if number as u64 == GREATEST {
        return EQ.0;
    }
    number as u64
}

/// The head of a code.
pub fn head_of(code: Code) -> Head
    ensures { result ≡ head_of code }
{
    if code.kind == 0 {
        return Head::Variable(code.number as u64);
    }
    if code.kind == 1 {
        return Head::Element(code.number as u32);
    }
    Head::Symbol(symbol_of(code.number), (code.kind - 2) as usize)
}

// The code of a kind and a number, if there is room for the number.
fn small(kind: u16, number: u64) -> Option<Code>
    ensures kind { IfSome result (λ c. c.kind ≡ kind) }
    ensures number { IfSome result (λ c. c.number ≡ number) }
{
    if number > GREATEST {
        return None;
    }
    Some(Code {
        kind,
        number: number as u16,
    })
}

// The code of a symbol under a kind, if there is room for its number.
fn symbol_code(kind: u16, f: u64) -> Option<Code>
    ensures kind { IfSome result (λ c. c.kind ≡ kind) }
    ensures symbol { IfSome result (λ c. symbol_of c.number ≡ f) }
{
    if f == EQ.0 {
        return small(kind, GREATEST);
    }
    if f == GREATEST {
        return None;
    }
    small(kind, f)
}

/// The code of a head, if there is room for its numbers.
pub fn code_of(head: Head) -> Option<Code>
    ensures { IfSome result (λ c. head_of c ≡ head) }
{
    match head {
        Head::Variable(x) => small(0, x),
        Head::Element(k) => small(1, k as u64),
        Head::Symbol(f, count) => {
            if count > MOST_ARGUMENTS {
                return None;
            }
            symbol_code(count as u16 + 2, f)
        }
    }
}
