// An allocation method: for each pool, the amount of every point and the part of every element.
ghost use Rattle.std.specs.Prelude.{◌≡◌, ℕ, ◌≤◌, List, length, sum};
ghost use Rattle.std.specs.Result.{result_unwrap_or};
ghost use Rattle.methods.specs.Asked.{asked, asked_all};

use bits::refusal::Refusal;
use std::array;

// The largest pool that is allotted, in cents.
pub const MAX_POOL: u64 = 100_000_000_000;

// The ghost members say what a method means, for each pool: the list of amounts by point and the list of parts by
// element. The laws say what holds of every method, and are all that generic code may use. A point's amount and an element's
// part are asked alike, but each has a law of its own and a method answers it in a way of its own.
pub trait Method {
    ghost points: { Self → ℕ };

    ghost elements: { Self → ℕ };

    ghost amounts: { Self → ℕ → List ℕ };

    ghost parts: { Self → ℕ → List ℕ };

    // How many points there are.
    fn points(&self) -> usize
        ensures { result ≡ points self.now };

    // How many elements there are.
    fn elements(&self) -> usize
        ensures { result ≡ elements self.now };

    // What the point at a place is allotted of the pool.
    fn amount(&self, pool: u64, place: usize) -> Result<u64, Refusal>
        ensures { result ≡ asked (points self.now) pool place (amounts self.now pool) };

    // The part of the pool that falls to the element at a place.
    fn part(&self, pool: u64, place: usize) -> Result<u64, Refusal>
        ensures { result ≡ asked (elements self.now) pool place (parts self.now pool) };

    // The amounts of all points by place, and zero past the last point.
    fn amounts(&self, pool: u64) -> Result<[u64; 64], Refusal>
        ensures { result ≡ asked_all pool (amounts self.now pool) }
    {
        if pool > MAX_POOL {
            return Err(Refusal::ArgumentOutOfRange);
        }
        // Past the last point stands zero, and no amount is asked for.
        let count = self.points();
        Ok(array::from_fn(
            |place|
                ensures { result ≡ result_unwrap_or (asked count pool place (amounts self.entry.now pool)) 0 }
            {
                if place < count {
                    self.amount(pool, place).unwrap_or(0)
                } else {
                    0
                }
            },
        ))
    }

    // One point to 64.
    ghost some: { (m : Self) → 1 ≤ points m };

    ghost few: { (m : Self) → points m ≤ 64 };

    // An amount for each point, and a part for each element.
    ghost allotted: { (m : Self) (pool : ℕ) → length (amounts m pool) ≡ points m };

    ghost parted: { (m : Self) (pool : ℕ) → length (parts m pool) ≡ elements m };

    // All amounts together are at most the pool, and so are all parts.
    ghost within: { (m : Self) (pool : ℕ) → pool ≤ 100000000000 → sum (amounts m pool) ≤ pool };

    ghost bounded: { (m : Self) (pool : ℕ) → pool ≤ 100000000000 → sum (parts m pool) ≤ pool };
}
