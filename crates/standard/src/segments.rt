// The elements of a year, one after the other, each with its uses.
ghost use Rattle.std.specs.Prelude.{ℕ, ◌+◌, ◌<◌, ◌≤◌, length, sum};
ghost use Rattle.standard.specs.Allotted.{demands, uses_of};
ghost use Rattle.standard.specs.Order.{Placed, Rises, rises-prop};

use crate::portions::{Portion, Portions};
use records::element::Element;
use records::network_use::NetworkUse;

// An element with its portion of all costs, and its uses.
#[derive(Drop)]
pub(crate) struct Segment<'a> {
    pub(crate) element: Portion<'a, Element>,
    pub(crate) uses: &'a [NetworkUse],
    ghost light: { sum (demands uses.now) ≤ 10000000 },
    ghost placed: { Placed 64 uses.now },
}

// The segments that are still to come, from the element at a place on, and the uses from its first use on.
#[derive(Drop)]
pub(crate) struct Segments<'a> {
    pub(crate) elements: Portions<'a, Element>,
    pub(crate) uses: &'a [NetworkUse],
    // The element's place, by which its uses are known; an `enumerate` would hide what the facts below speak of.
    pub(crate) place: usize,
    ghost few: { place + length elements.items.now ≤ 65536 },
    ghost rises: { Rises place uses.now } by { rises-prop place uses.now },
    ghost light: { (e : ℕ) → place ≤ e → e < place + length elements.items.now → sum (demands (uses_of e uses.now)) ≤ 10000000 },
    ghost placed: { (e : ℕ) → place ≤ e → Placed 64 (uses_of e uses.now) },
}
