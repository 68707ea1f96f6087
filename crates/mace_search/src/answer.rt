// What a search for a further model answers.

/// There is a further model, there is none, or the time is over by this reading of the clock.
#[derive(Clone, Copy)]
pub enum SearchAnswer {
    Model,
    Exhausted,
    MaxSeconds(u64),
}
