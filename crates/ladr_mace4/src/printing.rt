// The one place that prints.
ghost use Rattle.std.specs.Prelude.{◌≡◌, [], false, IfOk};
ghost use Rattle.ladr_mace4.specs.Lines.{end_text};
ghost use Rattle.ladr_mace4.specs.ItemTexts.{IsItemText, IsPrinted};
ghost use Rattle.ladr_output.specs.Telling.{Tells, IsEnd};

use crate::asked::Asked;
use crate::ends::{SearchEnd, SearchOver};
use crate::lines;
use ladr_io::Sink;
use ladr_output::{Cut, ending, piece};
use model_tables::Tables;
use std::alloc::{AllocError, Global};

/// What is printed of a search before its last lines: a size begins, or is skipped; a model, by its
/// number; a size is exhausted.
#[derive(Drop)]
pub enum SearchItem<'a> {
    Begins(u32),
    Skips(u32),
    Shows(&'a Tables, u64),
    Exhausts(u32),
}

/// Prints an item of a search.
pub fn print_item<K: Sink>(
    alloc: Global,
    asked: &Asked,
    item: SearchItem,
    sink: &mut K,
) -> Result<(), Cut>
    requires { (K.outflow sink.old).over ≡ false }
    ensures { IsPrinted (IsItemText asked.now item.entry) (K.outflow sink.old)
        (K.outflow sink.new) result }
{
    piece(text_of(alloc, asked, item), sink)
}

// The text of an item.
fn text_of(alloc: Global, asked: &Asked, item: SearchItem) -> Result<Vec<u8>, AllocError>
    ensures { IfOk result (λ v. IsItemText asked.now item.entry v.items) }
{
    match item {
        SearchItem::Begins(n) => lines::size_line(alloc, u64::from(n)),
        SearchItem::Skips(n) => lines::skipped_line(alloc, u64::from(n)),
        SearchItem::Shows(tables, number) => asked.text(alloc, tables, number),
        SearchItem::Exhausts(n) => lines::exhausted_line(alloc, u64::from(n)),
    }
}

/// Prints the last lines of a search that is over, and hands on how it ended.
pub fn print_end<K: Sink>(alloc: Global, over: SearchOver, sink: &mut K) -> Result<SearchEnd, Cut>
    requires { (K.outflow sink.old).over ≡ false }
    ensures { Tells (λ u. u ≡ []) (IsEnd over.end (end_text over.printed over.end))
        (K.outflow sink.old) (K.outflow sink.new) result }
{
    ending(
        lines::end_text(alloc, over.printed, over.end),
        over.end,
        sink,
    )
}
