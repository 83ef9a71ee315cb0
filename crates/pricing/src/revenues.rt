// The revenue of a year, by what it is charged for.
ghost use Rattle.std.specs.Prelude.{◌≡◌, ◌≤◌, unsigned_abs};
ghost use Rattle.pricing.specs.Pricing.{n1_of};
ghost use Rattle.pricing.specs.Revenues.{results, entry_result, exit_result, l1_of, locational_revenue, rest_of, rest, common_revenue};
ghost use Rattle.pricing.specs.Signs.{not_below_zero, below_zero};
ghost use Rattle.year.specs.Holds.{contents};

use agreement::sums::{network_cost_of, point_totals};
use money::sharing::shares;
use year::filled::FilledYear;

#[derive(Clone, Copy)]
pub(crate) struct Revenues {
    pub(crate) entry: u64,
    pub(crate) exit: u64,
    pub(crate) locational: u64,
    // What the year adds to the non-locational revenue.
    pub(crate) rest: i64,
    pub(crate) common: u64,
    ghost shares: { (entry ≤ 100000000000) × (exit ≤ 100000000000) },
    ghost revenues: { (locational ≤ 100000000000) × (common ≤ 100000000000) },
    ghost small: { unsigned_abs rest ≤ 200000000000 },
}

// The amount, or zero where it is below zero.
pub(crate) fn not_below_zero(cents: i64) -> u64
    ensures { result ≡ not_below_zero cents }
{
    u64::try_from(cents).unwrap_or(0)
}

// The amount where it is below zero, else zero.
fn below_zero(cents: i64) -> i64
    ensures { result ≡ below_zero cents }
{
    cents.min(0)
}

// Half of the shared network's result, less the locational residue.
fn l1_of(half: u64, residue: i64) -> i64
    requires half { half ≤ 100000000000 }
    requires residue { unsigned_abs residue ≤ 10000000000 }
    ensures { result ≡ l1_of half residue }
{
    // By `as`: cents that fit, though no `From` says so.
    half as i64 - residue
}

// The other half, with what the locational half lacks and less the other residue.
fn rest_of(other_half: u64, l1: i64, residue: i64) -> i64
    requires half { other_half ≤ 100000000000 }
    requires l1 { unsigned_abs l1 ≤ 1000000000000 }
    requires residue { unsigned_abs residue ≤ 10000000000 }
    ensures { result ≡ rest_of other_half l1 residue }
{
    other_half as i64 + below_zero(l1) - residue
}

// What M − C comes to for entry, exit, the shared network and common services.
#[tactic(auto, unfolding(crate::specs::Revenues::results))]
fn results(year: &FilledYear) -> [u64; 4]
    ensures { result ≡ results (contents year.now.year.now) }
{
    let header = year.header();
    let totals = point_totals(year.year.points());
    let costs = [
        totals.entry_cost,
        totals.exit_cost,
        network_cost_of(year.year.elements()),
        u64::from(header.common_cost),
    ];
    shares(header.allowed_revenue - header.common_operating_cost, costs).unwrap()
}

impl Revenues {
    #[tactic(auto, using(crate::proofs::Results::figured), unfolding(crate::specs::Revenues::l1, crate::specs::Revenues::common_revenue))]
    pub(crate) fn of(year: &FilledYear) -> Revenues
        ensures entry { result.entry ≡ entry_result (contents year.now.year.now) }
        ensures exit { result.exit ≡ exit_result (contents year.now.year.now) }
        ensures locational { result.locational ≡ locational_revenue (contents year.now.year.now) }
        ensures rest { result.rest ≡ rest (contents year.now.year.now) }
        ensures common { result.common ≡ common_revenue (contents year.now.year.now) }
    {
        let header = year.header();
        let [entry, exit, network, common] = results(year);
        let l0 = network / 2;
        let l1 = l1_of(l0, header.locational_residue);
        Revenues {
            entry,
            exit,
            locational: not_below_zero(l1),
            rest: rest_of(network - l0, l1, header.other_residue),
            common: common + header.common_operating_cost,
        }
    }

    // What is left for the non-locational revenue, with the outstanding amount and after all locational charges.
    pub(crate) fn n1(&self, brought_in: i64, charges: u64) -> i64
        requires outstanding { unsigned_abs brought_in ≤ 1000000000000 }
        requires charges { charges ≤ 100000000000000 }
        ensures { result ≡ n1_of self.now.rest brought_in self.now.locational charges }
    {
        self.rest + brought_in + self.locational as i64 - charges as i64
    }
}
