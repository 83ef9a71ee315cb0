// A year that is lent, and is not the empty one, so that its header is never refused.
ghost use Rattle.std.specs.Prelude.{◌≡◌, ◌≤◌, length, IfOk};
ghost use Rattle.std.specs.Result.{result_err};
ghost use Rattle.year.specs.Holds.{contents, empty_refusal};

use crate::year::Year;
use bits::refusal::Refusal;
use records::header::Header;

#[derive(Clone, Copy)]
pub struct FilledYear<'a> {
    pub year: &'a Year,
    ghost pointed: { 1 ≤ length (contents year.now).points },
}

impl<'a> FilledYear<'a> {
    // The year, unless it is the empty one.
    pub fn new(year: &'a Year) -> Result<FilledYear<'a>, Refusal>
        ensures refused { result_err result ≡ empty_refusal (contents year.now) }
        ensures lends { IfOk result (λ y. y.year.now ≡ year.now) }
    {
        if year.points().is_empty() {
            return Err(Refusal::EmptyYear);
        }
        Ok(FilledYear { year })
    }

    // The header, with the year, the counts and the amounts.
    pub fn header(&self) -> Header
        ensures { result ≡ (contents self.now.year.now).header }
    {
        self.year.held.header
    }
}
