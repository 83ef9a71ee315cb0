// What a year's points come to, by place.
ghost use Rattle.std.specs.Prelude.{◌≡◌, ℕ, Some, cond, length, map, MatchOption, nat_lt, slice_get};
ghost use Rattle.std.specs.List.{range_with_len};
ghost use Rattle.methods.specs.Asked.{padded};
ghost use Rattle.records.specs.declared.point.Point.{Point};
ghost use Rattle.year.specs.Holds.{contents};

use records::point::Point;
use std::array;
use year::filled::FilledYear;

// What is told of each point, and none past the last point.
pub(crate) fn by_place<T: Copy, F: Fn(usize, Point) -> T>(
    year: &FilledYear,
    none: T,
    told: F,
) -> [T; 64]
    requires { (k : ℕ) (p : Point) → slice_get (contents year.now.year.now).points k ≡ Some p → F.pre told k p }
    ensures { (f : ℕ → T) → ((k : ℕ) (p : Point) (r : T) → slice_get (contents year.now.year.now).points k ≡ Some p → F.post told k p r → r ≡ f k) → result ≡ map (λ k. cond (nat_lt k (length (contents year.now.year.now).points)) (f k) none) (range_with_len 0 64) }
{
    let points = year.year.points();
    array::from_fn(
        |place|
            requires { (p : Point) → slice_get points.now place ≡ Some p → F.pre told place p }
            ensures { MatchOption (slice_get points.entry.now place) (result ≡ none) (λ p. F.post told place p result) }
        {
            match points.get(place) {
                Some(point) => told(place, *point),
                None => none,
            }
        },
    )
}

// A figure of each point, and zero past the last point.
pub(crate) fn column<F: Fn(Point) -> u32>(year: &FilledYear, figure: F) -> [u64; 64]
    requires { F.IsAlwaysCallable figure }
    ensures { (f : Point → ℕ) → ((p : Point) (r : ℕ) → F.post figure p r → r ≡ f p) → result ≡ padded (map f (contents year.now.year.now).points) }
{
    by_place(year, 0, |_, point| u64::from(figure(point)))
}
