// An amount shared over weights, in order, by running totals, so that no cent is lost or made.
ghost use Rattle.std.specs.Prelude.{◌+◌, ◌≤◌, sum};
ghost use Rattle.std.specs.Option.{SomeIff};
ghost use Rattle.money.specs.Sharing.{Sharable, share_of, shares_of, Shared};

use crate::totals::total_within;

// The largest amount that is shared, in cents.
pub const MAX_AMOUNT: u64 = 100_000_000_000;

// The most that all weights come to.
pub const MAX_WEIGHT: u64 = 10_000_000;

// The share of one item: `before` is what the items before it weigh, and `total` what all of them weigh.
pub fn share(amount: u64, before: u64, weight: u64, total: u64) -> Option<u64>
    ensures { SomeIff result (Sharable amount total × (before + weight ≤ total)) (share_of amount before weight total) }
{
    let after = before.checked_add(weight)?;
    if amount > MAX_AMOUNT || total > MAX_WEIGHT || after > total {
        return None;
    }
    // What goes to the first items, which weigh so much together.
    let due_to = |weight: u64| (amount * weight).checked_div(total).unwrap_or(0);
    Some(due_to(after) - due_to(before))
}

// The shares of all items, in the order of their weights.
pub fn shares<const N: usize>(amount: u64, weights: [u64; N]) -> Option<[u64; N]>
    ensures value { SomeIff result (Sharable amount (sum weights.entry)) (shares_of amount weights.entry) }
    ensures law { Shared amount weights.entry (shares_of amount weights.entry) }
{
    let total = total_within(&weights, MAX_WEIGHT)?;
    if amount > MAX_AMOUNT {
        return None;
    }
    // Each weight gives way to its share. A `map` is no plainer: its closure would change `before`, and `?` cannot leave
    // a closure.
    let mut shares = weights;
    let mut before = 0;
    for place in &mut shares {
        let weight = *place;
        *place = share(amount, before, weight, total)?;
        before += weight;
    }
    Some(shares)
}
