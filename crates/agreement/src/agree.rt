// The records of a year held against each other, by rising number of the fault.
ghost use Rattle.std.specs.Prelude.{◌≡◌};
ghost use Rattle.std.specs.Result.{result_err};
ghost use Rattle.agreement.specs.Agreement.{together_fault};
ghost use Rattle.agreement.specs.Data.{year_data, Few};

use crate::checks::{check_identifiers, check_uses};
use crate::sums::{check_total, check_used, network_cost_of, point_totals};
use bits::fault::Fault;
use bits::refusal::Refusal;
use records::element::Element;
use records::header::Header;
use records::network_use::NetworkUse;
use records::point::Point;

const MAX_COST: u64 = 10_000_000;

const MAX_DEMAND: u64 = 10_000_000;

const MAX_ENERGY: u64 = 50_000_000;

// The first fault of the records together.
pub fn check(
    header: &Header,
    points: &[Point],
    elements: &[Element],
    uses: &[NetworkUse],
) -> Result<(), Fault>
    requires { Few (year_data header.now points.now elements.now uses.now) }
    ensures { result_err result ≡ together_fault (year_data header.now points.now elements.now uses.now) }
{
    check_identifiers(points)?;
    check_uses(uses, points.len(), elements.len())?;
    let totals = point_totals(points);
    let network = network_cost_of(elements);
    let common = header.common_cost;
    let cost = totals.entry_cost + totals.exit_cost + network + u64::from(common);
    check_total(cost <= MAX_COST, Refusal::TotalOverLimit)?;
    check_total(totals.demand <= MAX_DEMAND, Refusal::TotalOverLimit)?;
    check_total(totals.energy <= MAX_ENERGY, Refusal::TotalOverLimit)?;
    check_used(uses, elements.len())?;
    check_total(cost > 0, Refusal::TotalZero)?;
    check_total(totals.energy > 0, Refusal::TotalZero)
}
