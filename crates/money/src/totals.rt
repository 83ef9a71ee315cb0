// Totals that are held against a limit.
ghost use Rattle.std.specs.Prelude.{◌≤◌, sum};
ghost use Rattle.std.specs.Option.{SomeIff};

// What the numbers come to, where that is at most `limit`. A sum would go on past the first number that is too many.
pub(crate) fn total_within(numbers: &[u64], limit: u64) -> Option<u64>
    ensures { SomeIff result (sum numbers.now ≤ limit) (sum numbers.now) }
{
    let mut total = 0u64;
    for number in numbers {
        total = total.checked_add(*number).filter(|total| *total <= limit)?;
    }
    Some(total)
}
