// The parts of an interpretation's text: its beginning, the entries and its end.
// The whole text is `entries_text` (`specs/ModelText`); a caller writes the parts one behind the other, and tells at each
// whether an entry stands before.
ghost use Rattle.std.specs.Prelude.{◌≡◌, ◌==◌, ◌++◌, [], codes, if◌then◌else◌, OnOk, IfOk};
ghost use Rattle.std.specs.Fmt.{decimal};
ghost use Rattle.model_tables.specs.ModelText.{numbers_text, further_places, places_text, kind_text, entry_text, text_beginning, entry_start, text_end};

use fol_core::Kind;
use std::alloc::{AllocError, Global};

/// The beginning of the text of an interpretation of this size, by a number of its own.
pub fn text_beginning(alloc: Global, size: u32, k: u64) -> Result<Vec<u8>, AllocError>
    ensures { IfOk result (λ text. text.items ≡ text_beginning size k) }
{
    let mut out = Vec::new(alloc);
    text(&mut out, b"interpretation(")?;
    number(&mut out, u64::from(size))?;
    text(&mut out, b", [number = ")?;
    number(&mut out, k)?;
    text(&mut out, b",seconds = 0], [")?;
    Ok(out)
}

/// Puts an entry behind what is there, as `function(f(_), [1,0])` in a line of its own.
pub fn put_entry(
    out: &mut Vec<u8>,
    before: bool,
    name: &[u8],
    arity: u64,
    kind: Kind,
    values: &[u32],
) -> Result<(), AllocError>
    ensures { OnOk result (out.new.items ≡ out.old.items ++ entry_start before
        ++ entry_text name.now arity kind values.now) }
{
    text(out, entry_start(before))?;
    text(out, word(kind))?;
    text(out, b"(")?;
    text(out, name)?;
    places(out, arity)?;
    text(out, b", [")?;
    numbers(out, values)?;
    text(out, b"])")
}

/// Puts the end of the text behind what is there.
pub fn put_end(out: &mut Vec<u8>, before: bool) -> Result<(), AllocError>
    ensures { OnOk result (out.new.items ≡ out.old.items ++ text_end before) }
{
    if before {
        text(out, b"\n")?;
    }
    text(out, b"]).\n")
}

// What an entry's line begins with, and what ends the line before it.
fn entry_start(before: bool) -> &'static [u8]
    ensures { result.now ≡ entry_start before }
{
    if before { b",\n    " } else { b"\n    " }
}

fn word(kind: Kind) -> &'static [u8]
    ensures { result.now ≡ kind_text kind }
{
    match kind {
        Kind::Function => b"function",
        Kind::Relation => b"relation",
    }
}

// `(_,_)` for two arguments, and nothing for none.
fn places(out: &mut Vec<u8>, arity: u64) -> Result<(), AllocError>
    ensures { OnOk result (out.new.items ≡ out.old.items ++ places_text arity) }
{
    if arity == 0 {
        return Ok(());
    }
    text(out, b"(_")?;
    further_places(out, arity - 1)?;
    text(out, b")")
}

fn further_places(out: &mut Vec<u8>, more: u64) -> Result<(), AllocError>
    ensures { OnOk result (out.new.items ≡ out.old.items ++ further_places more) }
{
    for _ in 0..more {
        text(out, b",_")?;
    }
    Ok(())
}

// Numbers with commas between them.
fn numbers(out: &mut Vec<u8>, values: &[u32]) -> Result<(), AllocError>
    ensures { OnOk result (out.new.items ≡ out.old.items ++ numbers_text values.now) }
{
    for (at, value) in values.iter().enumerate() {
        text(out, comma(at))?;
        number(out, u64::from(*value))?;
    }
    Ok(())
}

// What stands before a number at a place.
fn comma(at: usize) -> &'static [u8]
    ensures { result.now ≡ (if at == 0 then [] else codes ",") }
{
    if at == 0 { b"" } else { b"," }
}

// Puts bytes behind the text.
fn text(out: &mut Vec<u8>, bytes: &[u8]) -> Result<(), AllocError>
    ensures { OnOk result (out.new.items ≡ out.old.items ++ bytes.now) }
{
    out.extend_from_slice(bytes)
}

// Puts a number behind the text.
fn number(out: &mut Vec<u8>, n: u64) -> Result<(), AllocError>
    ensures { OnOk result (out.new.items ≡ out.old.items ++ decimal n) }
{
    let mut buffer = itoa::Buffer::new();
    out.extend_from_slice(buffer.format(n).as_bytes())
}
