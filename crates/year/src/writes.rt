// A year written as a file.
ghost use Rattle.std.specs.Prelude.{◌≡◌, length, None, MatchResult, OnOk};
ghost use Rattle.std.specs.Result.{result_err};
ghost use Rattle.bits.specs.Laid.{over};
ghost use Rattle.year.specs.Holds.{contents};
ghost use Rattle.year.specs.YearBytes.{year_bytes, write_refusal};
ghost use Rattle.year.specs.YearFile.{first_fault, year_of};

use crate::filled::FilledYear;
use crate::year::Year;
use bits::refusal::Refusal;
use yearfile::lay::{Lay, lay_all};
use yearfile::length::announced;

impl Year {
    // Writes the year's file at the start of a buffer, and answers how many bytes it takes.
    pub fn write(&self, buffer: &mut [u8]) -> Result<usize, Refusal>
        ensures refused { result_err result ≡ write_refusal (contents self.now) (length buffer.old) }
        ensures written { MatchResult result (λ n. (n ≡ length (year_bytes (contents self.now))) × (buffer.new ≡ over (year_bytes (contents self.now)) buffer.old)) (λ _. buffer.new ≡ buffer.old) }
        ensures back { OnOk result ((None ≡ first_fault (year_bytes (contents self.now))) × (year_of (year_bytes (contents self.now)) ≡ contents self.now)) }
    {
        let lists = &FilledYear::new(self)?.year.held;
        if buffer.len() < 27 + announced(&lists.header) {
            return Err(Refusal::BufferShort);
        }
        let past_header = lists.header.lay(buffer, 0);
        let past_points = lay_all(&lists.points, buffer, past_header);
        let past_elements = lay_all(&lists.elements, buffer, past_points);
        Ok(lay_all(&lists.uses, buffer, past_elements))
    }
}
