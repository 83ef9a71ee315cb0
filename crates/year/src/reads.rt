// A year made, and read from a file.
ghost use Rattle.std.specs.Prelude.{◌≡◌, IfOk, MatchResult, OnOk};
ghost use Rattle.std.specs.Result.{result_err};
ghost use Rattle.agreement.specs.Data.{YearData, empty_year};
ghost use Rattle.year.specs.Holds.{contents};
ghost use Rattle.year.specs.YearBytes.{year_bytes, Sound};
ghost use Rattle.year.specs.YearFile.{first_fault, year_of};

use crate::lists::Lists;
use crate::year::Year;
use bits::fault::Fault;
use std::alloc::{AllocError, Global};
use std::mem;

impl Year {
    // The empty year, with all the memory that it will ever want.
    pub fn new(heap: Global) -> Result<Year, AllocError>
        ensures { IfOk result (λ y. contents y ≡ empty_year) }
    {
        Ok(Year {
            held: Lists::new(heap)?,
            draft: Lists::new(heap)?,
        })
    }

    // Takes a file in, or says what is first wrong with it and stays as it was. What is taken in is just the files of
    // sound years, each of which has one form. The draft takes the file in and is checked before it takes the place of
    // what is held.
    pub fn read(&mut self, file: &[u8]) -> Result<(), Fault>
        ensures fault { result_err result ≡ first_fault file.now }
        ensures held { MatchResult result (λ _. contents self.new ≡ year_of file.now) (λ _. contents self.new ≡ contents self.old) }
        ensures form { OnOk result (Sound (year_of file.now) × (file.now ≡ year_bytes (year_of file.now))) }
        ensures found { (d : YearData) → Sound d → file.now ≡ year_bytes d → MatchResult result (λ _. contents self.new ≡ d) (λ _. ⊥) }
    {
        self.draft.fill(file)?;
        self.draft.check()?;
        mem::swap(&mut self.held, &mut self.draft);
        Ok(())
    }
}
