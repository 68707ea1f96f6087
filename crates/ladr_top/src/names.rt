// What items of names add: the function does nothing, and its contract is the law.
ghost use Rattle.ladr_top.specs.Assumed.{NamesAreAssumed};

use ladr_distinct::distinct_means_different;

/// An item of names that is taken adds an assumption that holds exactly where their values differ pairwise.
pub fn names_are_assumed()
    ensures { NamesAreAssumed }
{
    distinct_means_different();
}
