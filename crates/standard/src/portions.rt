// Items by which an amount is shared, one after the other, with running totals of what they weigh.
ghost use Rattle.std.specs.Prelude.{◌+◌, ◌≤◌, map, sum};

use crate::weighs::Weighs;

// An item, with what the items before it weigh and what all items weigh.
#[derive(Drop)]
pub(crate) struct Portion<'a, T: Weighs> {
    pub(crate) item: &'a T,
    pub(crate) before: u64,
    pub(crate) total: u64,
    ghost within: { before + T.weight item.now ≤ total },
    ghost light: { total ≤ 10000000 },
}

// The portions that are still to come.
#[derive(Drop)]
pub(crate) struct Portions<'a, T: Weighs> {
    pub(crate) items: &'a [T],
    pub(crate) before: u64,
    pub(crate) total: u64,
    ghost within: { before + sum (map T.weight items.now) ≤ total },
    ghost light: { total ≤ 10000000 },
}
