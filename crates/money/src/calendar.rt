// The lengths of months in a regulatory year, which runs from July to June.
ghost use Rattle.std.specs.Prelude.{◌≡◌, ◌≤◌};
ghost use Rattle.std.specs.Option.{SomeIff};
ghost use Rattle.money.specs.Calendar.{days_in, days_in_february};

// The days of February in a calendar year.
fn days_in_february(year: u32) -> u8
    ensures { result ≡ days_in_february year }
{
    if year % 4 == 0 && (year % 100 != 0 || year % 400 == 0) {
        29
    } else {
        28
    }
}

// The days of a month, 1 for July to 12 for June, of the regulatory year that begins in July of `year`. February falls
// in the next calendar year.
pub fn days(year: u16, month: u8) -> Option<u8>
    ensures { SomeIff result ((1 ≤ month) × (month ≤ 12)) (days_in year month) }
{
    match month {
        1 | 2 | 4 | 6 | 7 | 9 | 11 => Some(31),
        3 | 5 | 10 | 12 => Some(30),
        8 => Some(days_in_february(u32::from(year) + 1)),
        _ => None,
    }
}
