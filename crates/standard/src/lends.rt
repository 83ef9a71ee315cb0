// What has a year to lend. A method takes its year by a type parameter with this bound, so that the lifetime of the
// loan stays out of the method's own type.
ghost use Rattle.std.specs.Prelude.{◌≡◌, ◌≤◌, length};
ghost use Rattle.year.specs.Holds.{contents};
ghost use Rattle.year.specs.declared.year.Year.{Year};

use year::filled::FilledYear;
use year::year::Year;

// The year is not the empty one.
pub trait Lends {
    ghost lent: { Self → Year };

    ghost pointed: { (s : Self) → 1 ≤ length (contents (lent s)).points };

    fn year(&self) -> &Year
        ensures { result.now ≡ lent self.now };
}

impl<'a> Lends for FilledYear<'a> {
    ghost lent = { λ y. y.year.now };

    ghost pointed = { λ y. y.pointed };

    fn year(&self) -> &Year {
        self.year
    }
}
