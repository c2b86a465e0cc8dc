// Why the rules are as they are: each theorem shows, by an account, what goes wrong with less.
ghost use Rattle.isolation.specs.Reasons.{EachHalfIsNeeded, ShortStampsMiss, FrozenIsOlder};

// Each half of the fit rule, by itself, passes a version whose reading breaks the snapshot.
pub fn each_half_is_needed()
    ensures { EachHalfIsNeeded }
{}

// With a stamp made from the written cards alone, a version fits whose reading breaks the snapshot.
pub fn short_stamps_miss()
    ensures { ShortStampsMiss }
{}

// What a transaction must be answered may be newer than all that was there when it opened.
pub fn frozen_is_older()
    ensures { FrozenIsOlder }
{}
