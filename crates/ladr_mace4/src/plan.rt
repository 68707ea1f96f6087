// What is asked of a search for models.
ghost use Rattle.std.specs.Prelude.{◌≡◌, ◌≤◌, IfSome, unwrap_or};
ghost use Rattle.ladr_options.specs.Ranges.{AreInRange, IsSize};
ghost use Rattle.ladr_mace4.specs.Plans.{plan_of, only_size, way_of};
ghost use Rattle.ladr_words.specs.Tasks.{HasRanges, IsFrom};

use ladr_options::Options;
use ladr_words::{ModelOptions, Task};
use mace_cells::{Candidates, CellMeasure, Way};
use search_clock::seconds_of;

/// What is asked of a search.
#[derive(Clone, Copy)]
pub struct Plan {
    /// The first size and the last, and the step from one to the next.
    pub start: u32,
    pub end: u32,
    pub step: u32,
    /// How many models are wanted.
    pub wanted: u64,
    /// After how many seconds to stop, if a time is set.
    pub seconds: Option<u64>,
    /// How much room the cells and ground literals may take; a meg has 65,536 of them.
    pub megs: u32,
    /// How cells are chosen, and up to which values they are tried.
    pub way: Way,
}

/// The plan by the words, and by the options of the input where the words set nothing.
pub fn search_plan(words: ModelOptions, options: &Options) -> Plan
    requires words { HasRanges (Task.Mace4 words) }
    requires options { AreInRange options.now }
    ensures plan { result ≡ plan_of words options.now }
    ensures start { 1 ≤ result.start }
    ensures end { result.end ≤ 200 }
    ensures step { IsSize result.step }
    ensures wanted { 1 ≤ result.wanted }
{
    let only = only_size(words, options);
    let start = size_or(words.start_size, options.start_size);
    let end = size_or(words.end_size, options.end_size);
    Plan {
        start: only.unwrap_or(start),
        end: only.unwrap_or(end),
        step: options.increment,
        wanted: words.max_models.unwrap_or(u64::from(options.max_models)),
        seconds: words.max_seconds.or(seconds_of(options)),
        megs: options.max_megs,
        way: way_of(options),
    }
}

// How the input's options let cells be chosen.
fn way_of(options: &Options) -> Way
    ensures { result ≡ way_of options.now }
{
    let candidates = match options.selection_order {
        0 => Candidates::All,
        1 => Candidates::LeastIndex,
        _ => Candidates::InUse,
    };
    let measure = match options.selection_measure {
        0 => CellMeasure::First,
        1 => CellMeasure::MostOccurrences,
        2 => CellMeasure::MostAssigned,
        3 => CellMeasure::MostContradicted,
        _ => CellMeasure::MostCrossed,
    };
    Way {
        candidates,
        measure,
        least_numbers: options.lnh,
    }
}

// The one size that the input asks for.
fn only_size(words: ModelOptions, options: &Options) -> Option<u32>
    requires { AreInRange options.now }
    ensures only { result ≡ only_size words options.now }
    ensures size { IfSome result IsSize }
{
    if words.start_size.is_some() || words.end_size.is_some() || options.domain_size == 0 {
        None
    } else {
        Some(options.domain_size)
    }
}

// The size of a word, or else another.
fn size_or(given: Option<u64>, other: u32) -> u32
    requires given { IsFrom 1 200 given }
    requires other { IsSize other }
    ensures same { result ≡ unwrap_or given other }
    ensures size { IsSize result }
{
    match given {
        Some(size) => size as u32,
        None => other,
    }
}
