// The limits by their numbers: the function does nothing, and its contract is the law.
ghost use Rattle.ladr_top.specs.Limits.{AreLimits};

/// The limits that the definitions name are these numbers.
pub fn limits_are_told()
    ensures { AreLimits }
{}
