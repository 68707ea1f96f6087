// The lines of a proof.
ghost use Rattle.std.specs.Prelude.{◌<◌, ◌^◌, length};
ghost use Rattle.std.specs.List.{AllByRecursion};
ghost use Rattle.printed_proofs.specs.LineBounds.{IsBoundedContent, IsBoundedLine};

use crate::clauses::variables_are_few;
use crate::words::{number_is_short, words_are_bounded};
use derivation::{Content, Line};

/// The number of each line, and those of its words, are below 2 ^ 64, and its clause has no more variables than that.
pub fn lines_are_bounded(lines: &[Line])
    ensures { AllByRecursion IsBoundedLine lines.now }
{
    for line in lines {
        line_is_bounded(line);
    }
}

/// There are fewer lines than 2 ^ 63.
pub fn lines_are_counted(lines: &[Line])
    ensures { length lines.now < 2 ^ 63 }
{
    let _count = lines.len();
}

// One line.
fn line_is_bounded(line: &Line)
    ensures { IsBoundedLine line.now }
{
    number_is_short(line.number);
    words_are_bounded(&line.just);
    content_is_bounded(&line.content);
}

// A line's formula or clause.
fn content_is_bounded(content: &Content)
    ensures { IsBoundedContent content.now }
{
    match content {
        Content::Formula(_, _) => (),
        Content::Clause(clause) => variables_are_few(clause),
    }
}
