// The totals of a year, held against their limits: the faults 6 and 7.
ghost use Rattle.std.specs.Prelude.{◌≡◌, ℕ, ◌^◌, ◌<◌, ◌≤◌, length, slice_index_or};
ghost use Rattle.std.specs.Result.{result_err};
ghost use Rattle.bits.specs.Faults.{year_fault};
ghost use Rattle.agreement.specs.Totals.{entry_cost_of, exit_cost_of, network_cost, total_demand, total_energy};
ghost use Rattle.agreement.specs.Together.{no_use, overused_fault, unless};

use crate::totals::PointTotals;
use bits::fault::Fault;
use bits::refusal::Refusal;
use records::element::Element;
use records::network_use::NetworkUse;
use records::point::Point;

// The most that the uses of one element come to, in kW.
const MAX_USE: u64 = 10_000_000;

// At most 64 points are required: this crate stands below the checked year, whose type guarantees it.
pub fn point_totals(points: &[Point]) -> PointTotals
    requires { length points.now ≤ 64 }
    ensures entry { result.entry_cost ≡ entry_cost_of points.now }
    ensures exit { result.exit_cost ≡ exit_cost_of points.now }
    ensures demand { result.demand ≡ total_demand points.now }
    ensures energy { result.energy ≡ total_energy points.now }
    ensures small { (result.entry_cost ≤ 2 ^ 38) × (result.exit_cost ≤ 2 ^ 38) }
{
    PointTotals {
        entry_cost: points.iter().map(|point| u64::from(point.entry_cost)).sum(),
        exit_cost: points.iter().map(|point| u64::from(point.exit_cost)).sum(),
        demand: points
            .iter()
            .map(|point| u64::from(point.contract_demand))
            .sum(),
        energy: points.iter().map(|point| u64::from(point.energy)).sum(),
    }
}

pub fn network_cost_of(elements: &[Element]) -> u64
    requires { length elements.now ≤ 256 }
    ensures value { result ≡ network_cost elements.now }
    ensures small { result ≤ 2 ^ 40 }
{
    elements.iter().map(|element| u64::from(element.cost)).sum()
}

// Refuses the year where what is asked of a total does not hold.
pub(crate) fn check_total(holds: bool, refusal: Refusal) -> Result<(), Fault>
    ensures { result_err result ≡ unless holds (year_fault refusal 0) }
{
    if holds {
        Ok(())
    } else {
        Err(Fault::year(refusal, 0))
    }
}

// Holds the uses of each element against their limit.
pub(crate) fn check_used(uses: &[NetworkUse], elements: usize) -> Result<(), Fault>
    requires few { elements ≤ 256 }
    requires named { (k : ℕ) → k < length uses.now → (slice_index_or uses.now k no_use).element < elements }
    ensures { result_err result ≡ overused_fault elements uses.now }
{
    // An array by place, since nothing is taken from the heap: a total for each element that a year has room for.
    let mut used = [0u64; 256];
    for network_use in uses {
        let total = &mut used[usize::from(network_use.element)];
        *total += u64::from(network_use.demand);
        check_total(*total <= MAX_USE, Refusal::TotalOverLimit)?;
    }
    Ok(())
}
