//! Amounts of which there may be none.
ghost use Rattle.std.specs.Prelude.{◌≡◌, ◌+◌, ◌*◌, ◌<◌, unsigned_abs};
ghost use Rattle.tallies.specs.Laws.{wide};
ghost use Rattle.tallies.specs.Kinds.{least_extend, least_size};

/// An amount, if there is one, and a number more. The tally's own extension asks for smaller amounts.
pub fn plus(amount: Option<i64>, more: i64) -> Option<i64>
    requires amount_small { least_size amount < 3 * wide }
    requires more_small { unsigned_abs more < wide }
    ensures value { result ≡ least_extend amount more }
    ensures small { least_size result < least_size amount + wide }
{
    Some(amount? + more)
}
