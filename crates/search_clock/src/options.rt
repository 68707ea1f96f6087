// The time that an input sets.
ghost use Rattle.std.specs.Prelude.{◌≡◌};
ghost use Rattle.search_clock.specs.Watching.{seconds_of};

use ladr_options::{NO_LIMIT, Options};

/// After how many seconds a search is to stop by an input's options, if they set a time.
pub fn seconds_of(options: &Options) -> Option<u64>
    ensures { result ≡ seconds_of options.now }
{
    if options.max_seconds == NO_LIMIT {
        None
    } else {
        Some(u64::from(options.max_seconds))
    }
}
