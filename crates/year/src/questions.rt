// Questions about a year, which leave it as it was.
ghost use Rattle.std.specs.Prelude.{◌≡◌, length, IfOk, slice_index_or};
ghost use Rattle.std.specs.List.{slice_get};
ghost use Rattle.std.specs.Option.{ok_or};
ghost use Rattle.std.specs.Result.{result_err};
ghost use Rattle.agreement.specs.Together.{no_point, no_element, no_use};
ghost use Rattle.bits.specs.declared.refusal.Refusal.TheVariants.{ArgumentOutOfRange};
ghost use Rattle.year.specs.Holds.{contents, empty_refusal, place_refusal};

use crate::filled::FilledYear;
use crate::year::Year;
use bits::refusal::Refusal;
use records::element::Element;
use records::header::Header;
use records::network_use::NetworkUse;
use records::point::Point;

impl Year {
    // The points; the empty year has none.
    pub fn points(&self) -> &[Point]
        ensures { result.now ≡ (contents self.now).points }
    {
        &self.held.points
    }

    // The elements; the empty year has none.
    pub fn elements(&self) -> &[Element]
        ensures { result.now ≡ (contents self.now).elements }
    {
        &self.held.elements
    }

    // The uses; the empty year has none.
    pub fn uses(&self) -> &[NetworkUse]
        ensures { result.now ≡ (contents self.now).uses }
    {
        &self.held.uses
    }

    // The header, with the year, the counts and the amounts.
    pub fn header(&self) -> Result<Header, Refusal>
        ensures refused { result_err result ≡ empty_refusal (contents self.now) }
        ensures value { IfOk result (λ h. h ≡ (contents self.now).header) }
    {
        Ok(FilledYear::new(self)?.header())
    }

    // The point at a place.
    pub fn point(&self, place: usize) -> Result<Point, Refusal>
        ensures refused { result_err result ≡ place_refusal (contents self.now) (length (contents self.now).points) place }
        ensures value { IfOk result (λ p. p ≡ slice_index_or (contents self.now).points place no_point) }
    {
        record_at(FilledYear::new(self)?.year.points(), place)
    }

    // The element at a place.
    pub fn element(&self, place: usize) -> Result<Element, Refusal>
        ensures refused { result_err result ≡ place_refusal (contents self.now) (length (contents self.now).elements) place }
        ensures value { IfOk result (λ e. e ≡ slice_index_or (contents self.now).elements place no_element) }
    {
        record_at(FilledYear::new(self)?.year.elements(), place)
    }

    // The use at a place.
    pub fn network_use(&self, place: usize) -> Result<NetworkUse, Refusal>
        ensures refused { result_err result ≡ place_refusal (contents self.now) (length (contents self.now).uses) place }
        ensures value { IfOk result (λ u. u ≡ slice_index_or (contents self.now).uses place no_use) }
    {
        record_at(FilledYear::new(self)?.year.uses(), place)
    }
}

// The record at a place of a list.
fn record_at<T: Copy>(records: &[T], place: usize) -> Result<T, Refusal>
    ensures { result ≡ ok_or (slice_get records.now place) ArgumentOutOfRange }
{
    records
        .get(place)
        .copied()
        .ok_or(Refusal::ArgumentOutOfRange)
}
