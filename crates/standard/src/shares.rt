// An amount that is shared over items, portion by portion.
ghost use Rattle.std.specs.Prelude.{◌≡◌, ◌≤◌, map, sum};
ghost use Rattle.std.specs.Iterator.{YieldsFirstBy, item_count};
ghost use Rattle.money.specs.Sharing.{share_of};
ghost use Rattle.standard.specs.Portions.{portion, portions, to_come, reduced_part};

use crate::pool::Pool;
use crate::portions::{Portion, Portions};
use crate::rules::Rule;
use crate::weighs::Weighs;
use money::sharing::share;
use records::element::Element;

impl<'a, T: Weighs> Portion<'a, T> {
    // The item's share of a pool.
    pub(crate) fn share(&self, pool: Pool) -> u64
        ensures { result ≡ share_of pool.cents self.now.before (T.weight self.now.item.now) self.now.total }
    {
        share(pool.cents, self.before, self.item.weight(), self.total).unwrap()
    }
}

impl<'a> Portion<'a, Element> {
    // The element's part of a pool: what a rule makes of its share. It is shared over the uses in its turn.
    pub(crate) fn part<R: Rule>(&self, rule: &R, pool: Pool) -> Pool
        ensures { result.cents ≡ reduced_part (R.reduced rule.now) pool.cents (portion self.now) }
    {
        Pool {
            cents: rule.reduce(self.share(pool), self.item),
        }
    }
}

impl<'a, T: Weighs> Portions<'a, T> {
    pub(crate) fn new(items: &'a [T]) -> Portions<'a, T>
        requires { sum (map T.weight items.now) ≤ 10000000 }
        ensures { to_come result ≡ portions T.weight (sum (map T.weight items.now)) 0 items.now }
    {
        Portions {
            items,
            before: 0,
            total: items.iter().map(|item| item.weight()).sum(),
        }
    }
}

impl<'a, T: Weighs> Iterator for Portions<'a, T> {
    type Item = Portion<'a, T>;

    ghost next_gives = { YieldsFirstBy portion to_come };

    ghost remaining = { item_count to_come };

    fn next(&mut self) -> Option<Portion<'a, T>> {
        let (item, items) = self.items.split_first()?;
        let portion = Portion {
            item,
            before: self.before,
            total: self.total,
        };
        self.items = items;
        self.before += item.weight();
        Some(portion)
    }
}
