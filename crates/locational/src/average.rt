// The average locational price of a year.
ghost use Rattle.std.specs.Prelude.{◌≤◌};
ghost use Rattle.std.specs.Option.{SomeIff};
ghost use Rattle.locational.specs.Prices.{average_of};

// The most that all amounts come to, in cents.
pub const MAX_AMOUNTS: u64 = 100_000_000_000;

// All amounts over all demands, in thousandths of a cent per kW; zero without demand. `None` where the amounts are more
// than any method allots.
pub fn average(amounts: u64, demands: u64) -> Option<u64>
    ensures { SomeIff result (amounts ≤ 100000000000) (average_of amounts demands) }
{
    if amounts > MAX_AMOUNTS {
        return None;
    }
    Some((1000 * amounts).checked_div(demands).unwrap_or(0))
}
