// A walk over the elements of a year and their uses, and what points have of the parts of the elements.
ghost use Rattle.std.specs.Prelude.{◌≡◌, ℕ, ◌+◌, ◌<◌, ◌≤◌, length, slice_index};
ghost use Rattle.std.specs.List.{prefix_len};
ghost use Rattle.std.specs.Iterator.{YieldsFirstBy, item_count};
ghost use Rattle.standard.specs.Order.{own};
ghost use Rattle.standard.specs.Segments.{loaded, left, segments_in, of_segment};
ghost use Rattle.year.specs.Holds.{contents};

use crate::pool::Pool;
use crate::portions::Portions;
use crate::rules::Rule;
use crate::segments::{Segment, Segments};
use records::network_use::NetworkUse;
use year::year::Year;

// How many uses at the front are of the element at a place.
fn own_uses(uses: &[NetworkUse], element: usize) -> usize
    ensures is { result ≡ prefix_len (own element) uses.now }
    ensures fits { result ≤ length uses.now }
{
    uses.iter()
        .take_while(|used| usize::from(used.element) == element)
        .count()
}

impl<'a> Segments<'a> {
    pub(crate) fn new(year: &'a Year) -> Segments<'a>
        ensures { left result ≡ segments_in (contents year.now) }
    {
        Segments {
            elements: Portions::new(year.elements()),
            uses: year.uses(),
            place: 0,
        }
    }
}

impl<'a> Iterator for Segments<'a> {
    type Item = Segment<'a>;

    ghost next_gives = { YieldsFirstBy loaded left };

    ghost remaining = { item_count left };

    fn next(&mut self) -> Option<Segment<'a>> {
        let element = self.elements.next()?;
        let (uses, later) = self.uses.split_at(own_uses(self.uses, self.place));
        self.uses = later;
        self.place += 1;
        Some(Segment { element, uses })
    }
}

// The rule and the pool are two arguments throughout: a pair of them would be made and taken apart at once.
impl<'a> Segment<'a> {
    // What the point at a place has of the element's part. Only its own uses cost divisions; beside them the others are
    // added up.
    pub(crate) fn amount<R: Rule>(&self, rule: &R, pool: Pool, place: usize) -> u64
        ensures { result ≡ of_segment (R.reduced rule.now) pool.cents place (loaded self.now) }
    {
        let uses = self.uses;
        if !uses.iter().any(|used| usize::from(used.point) == place) {
            return 0;
        }
        Portions::new(uses)
            .filter(|used| usize::from(used.item.point) == place)
            .map(|used| used.share(self.element.part(rule, pool)))
            .sum()
    }

    // Adds to the amount of each point what it has of the element's part. It is one share for each use; an array made place
    // by place would want a walk for each point.
    pub(crate) fn add_amounts<R: Rule>(&self, rule: &R, pool: Pool, amounts: &mut [u64; 64])
        requires room { (p : ℕ) → p < 64 → slice_index amounts.old p ≤ 100000000000 }
        ensures { (p : ℕ) → p < 64 → slice_index amounts.new p ≡ slice_index amounts.old p + of_segment (R.reduced rule.now) pool.cents p (loaded self.now) }
    {
        let part = self.element.part(rule, pool);
        for used in Portions::new(self.uses) {
            amounts[usize::from(used.item.point)] += used.share(part);
        }
    }
}
