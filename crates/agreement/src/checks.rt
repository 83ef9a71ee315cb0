// Records of a year held against each other: the faults 4 and 5.
ghost use Rattle.std.specs.Prelude.{◌≡◌, ⊤, ◌+◌, ◌^◌, ◌<◌, ◌≤◌, ◌&&◌, true, length, nat_lt};
ghost use Rattle.std.specs.Option.{option_copied, option_map, option_map_or, MatchOption};
ghost use Rattle.std.specs.Result.{result_err};
ghost use Rattle.bits.specs.Faults.{year_fault};
ghost use Rattle.agreement.specs.Together.{free, rank, repeated_fault, misplaced_fault};

use bits::fault::Fault;
use bits::refusal::Refusal;
use records::network_use::NetworkUse;
use records::point::Point;

// Refuses the year at the place found in a list, if there is one: `before` records stand before that list.
fn refuse_at(place: Option<usize>, before: usize, refusal: Refusal) -> Result<(), Fault>
    requires { MatchOption place ⊤ (λ i. before + i + 1 < 2 ^ 16) }
    ensures { result_err result ≡ option_map (λ i. year_fault refusal (before + i + 1)) place }
{
    place.map_or(
        Ok(()),
        |i| Err(Fault::year(refusal, (before + i + 1) as u16)),
    )
}

// Whether no point has this identifier.
fn is_free(identifier: u16, points: &[Point]) -> bool
    ensures { result ≡ free identifier points.now }
{
    points.iter().all(|point| point.identifier != identifier)
}

// At most 64 points are required: this crate stands below the checked year, whose type guarantees it.
pub(crate) fn check_identifiers(points: &[Point]) -> Result<(), Fault>
    requires { length points.now ≤ 64 }
    ensures { result_err result ≡ repeated_fault points.now }
{
    let repeated = points
        .iter()
        .enumerate()
        .position(|(i, point)| !is_free(point.identifier, &points[..i]));
    refuse_at(repeated, 0, Refusal::IdentifierRepeated)
}

// The order of uses: by element, then by point.
fn rises(before: NetworkUse, after: NetworkUse) -> bool
    ensures { result ≡ nat_lt (rank before) (rank after) }
{
    (before.element, before.point) < (after.element, after.point)
}

// Whether a use names an element and a point that are there, and rises above the one before it, if there is one.
fn is_placed(used: &NetworkUse, before: Option<&NetworkUse>, points: usize, elements: usize) -> bool
    ensures { result ≡ (nat_lt used.now.element elements && nat_lt used.now.point points && option_map_or (λ b. nat_lt (rank b) (rank used.now)) (option_copied before.entry) true) }
{
    usize::from(used.element) < elements
        && usize::from(used.point) < points
        && before.is_none_or(|&before| rises(before, *used))
}

pub(crate) fn check_uses(uses: &[NetworkUse], points: usize, elements: usize) -> Result<(), Fault>
    requires { (length uses.now ≤ 4096) × ((points ≤ 64) × (elements ≤ 256)) }
    ensures { result_err result ≡ misplaced_fault points elements uses.now }
{
    let misplaced = uses.iter().enumerate().position(|(i, used)| {
        let before = uses[..i].last();
        !is_placed(used, before, points, elements)
    });
    refuse_at(misplaced, points + elements, Refusal::UseMisplaced)
}
