// The records of a file, told one at a time.
ghost use Rattle.std.specs.Prelude.{◌≡◌, ◌+◌, ◌^◌, ◌<◌, length};
ghost use Rattle.yearfile.specs.File.{announced, told_after};
ghost use Rattle.yearfile.specs.Told.{to_come, Tells};
ghost use Rattle.std.specs.Iterator.{at_most};
ghost use Rattle.std.specs.Slice.Iter.{iter_rest};

use crate::record::Record;
use crate::stream::Records;
use records::header::Header;

impl<'a> Records<'a> {
    // The records that a header announces, in the rest of its file.
    pub fn new(header: &Header, rest: &'a [u8]) -> Records<'a>
        requires whole { length rest.now ≡ announced header.now }
        requires counted { header.now.points + header.now.elements + header.now.uses < 2 ^ 16 }
        ensures { to_come result ≡ told_after header.now rest.now }
    {
        let (points, rest) = rest.split_at(15 * usize::from(header.points));
        let (elements, uses) = rest.split_at(9 * usize::from(header.elements));
        Records {
            points: points.as_chunks().0.iter(),
            elements: elements.as_chunks().0.iter(),
            uses: uses.as_chunks().0.iter(),
            place: 0,
        }
    }
}

impl<'a> Iterator for Records<'a> {
    type Item = Record<'a>;

    ghost remaining = { λ s. at_most (length (iter_rest s.points) + length (iter_rest s.elements) + length (iter_rest s.uses)) };

    ghost next_gives = { λ s r t. Tells s r t };

    fn next(&mut self) -> Option<Record<'a>> {
        let place = self.place;
        let record = if let Some(bytes) = self.points.next() {
            Record::Point { bytes, place }
        } else if let Some(bytes) = self.elements.next() {
            Record::Element { bytes, place }
        } else {
            let bytes = self.uses.next()?;
            Record::Use { bytes, place }
        };
        // Counted here, since a record is told with its place, whichever of the three iterators it came from.
        self.place += 1;
        Some(record)
    }
}
