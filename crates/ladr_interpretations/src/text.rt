// The text of an interpretation by names.
ghost use Rattle.std.specs.Prelude.{◌≡◌, ◌==◌, ◌++◌, not, length, map, OnOk, IfOk};
ghost use Rattle.ladr_interpretations.specs.NamedText.{table_text, named_text};
ghost use Rattle.model_tables.specs.ModelText.{entry_lines, lines_end};

use crate::named::Named;
use ladr_commands::TableEntry;
use model_tables::{put_end, put_entry, text_beginning};
use std::alloc::{AllocError, Global};

/// The text of an interpretation, by a number of its own: all entries, in the order read and with the names that were read.
pub fn named_text(alloc: Global, named: &Named, k: u64) -> Result<Vec<u8>, AllocError>
    ensures { IfOk result (λ text. text.items ≡ named_text named.now k) }
{
    let mut out = text_beginning(alloc, named.size(), k)?;
    put_entries(&mut out, named.entries())?;
    put_end(&mut out, !named.entries().is_empty())?;
    Ok(out)
}

// The lines of entries, without the end of the last.
fn put_entries(out: &mut Vec<u8>, entries: &[TableEntry]) -> Result<(), AllocError>
    ensures { OnOk result (out.new.items ++ lines_end (not (length entries.now == 0))
        ≡ out.old.items ++ entry_lines (map table_text entries.now)) }
{
    for (at, entry) in entries.iter().enumerate() {
        put_entry(
            out,
            at > 0,
            entry.name(),
            entry.arity(),
            entry.kind(),
            entry.values(),
        )?;
    }
    Ok(())
}
