// Prices under the side constraint.
ghost use Rattle.std.specs.Prelude.{◌≡◌, ◌≤◌, IfOk, if◌then◌else◌};
ghost use Rattle.std.specs.Result.{result_err};
ghost use Rattle.locational.specs.Prices.{ratio_of, lower_bound, upper_bound, constrained, within_bounds, point_price, price_refusal, Moved};

use bits::refusal::Refusal;

// The largest locational price, in thousandths of a cent per kW.
pub const MAX_PRICE: u64 = 100_000_000;

// The largest ratio of two averages, in ten-thousandths.
const MAX_RATIO: u128 = 100_000;

// Two percentage points, in ten-thousandths.
const MARGIN: u64 = 200;

// How far the prices of a year may move: how its average stands to that of the last opened year.
#[derive(Clone, Copy)]
pub struct SideConstraint {
    // Zero where there was none: by the rules an average of zero sets no bound either.
    last_average: u64,
    // This average to the last one, in ten-thousandths; zero without a last average.
    ratio: u64,
    ghost capped: { ratio ≤ 100000 },
}

impl SideConstraint {
    // What the averages of a year and of the last opened year allow; the last is zero where there was none.
    pub fn new(average: u64, last_average: u64) -> SideConstraint
        ensures last { result.last_average ≡ last_average }
        ensures ratio { result.ratio ≡ ratio_of average last_average }
    {
        let ratio = (10_000 * u128::from(average))
            .checked_div(u128::from(last_average))
            .unwrap_or(0)
            .min(MAX_RATIO) as u64;
        SideConstraint {
            last_average,
            ratio,
        }
    }

    // A price, or the bound nearest to it where there is a prior price to go by.
    fn constrain(&self, price: u128, prior: u64) -> u128
        ensures { result ≡ (if constrained prior self.now.last_average then within_bounds (lower_bound prior self.now.ratio) (upper_bound prior self.now.ratio) price else price) }
    {
        if prior == 0 || self.last_average == 0 {
            return price;
        }
        let bound = |ratio: u64| u128::from(prior) * u128::from(ratio) / 10_000;
        price.clamp(
            bound(self.ratio.saturating_sub(MARGIN)),
            bound(self.ratio + MARGIN),
        )
    }

    // The price of a point for its amount and its demand, moved to the nearest bound where it lies outside; above
    // the limit it is refused. By 128-bit arithmetic it answers for all numbers.
    pub fn price(&self, amount: u64, demand: u64, prior: u64) -> Result<u64, Refusal>
        ensures refused { result_err result ≡ price_refusal (point_price amount demand prior self.now.last_average self.now.ratio) }
        ensures value { IfOk result (λ price. price ≡ point_price amount demand prior self.now.last_average self.now.ratio) }
        ensures moved { IfOk result (λ price. Moved amount demand prior self.now.last_average self.now.ratio price) }
    {
        if demand == 0 {
            return Ok(0);
        }
        let price = self.constrain(1000 * u128::from(amount) / u128::from(demand), prior);
        match u64::try_from(price) {
            Ok(price) if price <= MAX_PRICE => Ok(price),
            _ => Err(Refusal::PriceOverLimit),
        }
    }
}
