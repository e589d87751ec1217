// What the definitions of endings add up to.
ghost use Rattle.dkv_expiry.specs.Laws.{FirstIsLeast};

/// Among endings in rising order the first one up to a moment is the least of those up to it.
pub fn the_first_is_the_least()
    ensures { FirstIsLeast }
{}
