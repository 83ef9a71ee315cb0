// Lists made, and filled from the records of a file.
ghost use Rattle.std.specs.Prelude.{◌≡◌, ◌+◌, ◌^◌, ◌<◌, IfOk, IfErr, OnOk, Some};
ghost use Rattle.std.specs.Result.{result_err};
ghost use Rattle.agreement.specs.Agreement.{together_fault};
ghost use Rattle.agreement.specs.Data.{empty_year, Few};
ghost use Rattle.year.specs.Contents.{data_of, with};
ghost use Rattle.year.specs.YearFile.{first_fault, year_of};
ghost use Rattle.yearfile.specs.Told.{told, told_fault, place_of};

use crate::lists::Lists;
use agreement::agree::check;
use bits::fault::Fault;
use bits::row::Row;
use records::element::Element;
use records::header::Header;
use records::network_use::NetworkUse;
use records::point::Point;
use std::alloc::{AllocError, Global};
use yearfile::length::check_length;
use yearfile::record::Record;
use yearfile::stream::Records;

impl Lists {
    // Empty lists with room for the largest year.
    pub(crate) fn new(heap: Global) -> Result<Lists, AllocError>
        ensures { IfOk result (λ l. data_of l ≡ empty_year) }
    {
        Ok(Lists {
            header: Header::default(),
            points: Vec::with_capacity(heap, 64)?,
            elements: Vec::with_capacity(heap, 256)?,
            uses: Vec::with_capacity(heap, 4096)?,
        })
    }

    // Takes in the header and the records of a file, up to the first that is wrong by itself.
    pub(crate) fn fill(&mut self, file: &[u8]) -> Result<(), Fault>
        ensures fault { IfErr result (λ f. Some f ≡ first_fault file.now) }
        ensures filled { OnOk result (data_of self.new ≡ year_of file.now) }
        ensures few { OnOk result (Few (year_of file.now)) }
        ensures apart { OnOk result (together_fault (year_of file.now) ≡ first_fault file.now) }
    {
        let (header, rest) = Header::read(file)?;
        check_length(&header, rest)?;
        self.header = header;
        self.points.clear();
        self.elements.clear();
        self.uses.clear();
        for item in Records::new(&header, rest) {
            self.add(item)?;
        }
        Ok(())
    }

    // Takes in a record, unless a field of it is out of its range. Each arm is one call; a helper
    // would be handed the list, the bytes and the place, and its calls would be as long.
    fn add(&mut self, item: Record) -> Result<(), Fault>
        requires few { Few (with (data_of self.old) (told item)) }
        requires small { place_of (told item) + 1 < 2 ^ 16 }
        ensures fault { result_err result ≡ told_fault (told item.entry) }
        ensures added { OnOk result (data_of self.new ≡ with (data_of self.old) (told item.entry)) }
    {
        match item {
            Record::Point { bytes, place } => {
                self.points.push_reserved(Point::read(bytes, place + 1)?)
            }
            Record::Element { bytes, place } => self
                .elements
                .push_reserved(Element::read(bytes, place + 1)?),
            Record::Use { bytes, place } => {
                self.uses.push_reserved(NetworkUse::read(bytes, place + 1)?)
            }
        }
        Ok(())
    }

    // The first fault of the records together.
    pub(crate) fn check(&self) -> Result<(), Fault>
        requires { Few (data_of self.now) }
        ensures { result_err result ≡ together_fault (data_of self.now) }
    {
        check(&self.header, &self.points, &self.elements, &self.uses)
    }
}
