// The records of a year, in room that is reserved once and for all.
ghost use Rattle.std.specs.Prelude.{◌≤◌, vec_capacity};

use records::element::Element;
use records::header::Header;
use records::network_use::NetworkUse;
use records::point::Point;

#[derive(Drop)]
pub(crate) struct Lists {
    pub(crate) header: Header,
    pub(crate) points: Vec<Point>,
    pub(crate) elements: Vec<Element>,
    pub(crate) uses: Vec<NetworkUse>,
    ghost room_for_points: { 64 ≤ vec_capacity points },
    ghost room_for_elements: { 256 ≤ vec_capacity elements },
    ghost room_for_uses: { 4096 ≤ vec_capacity uses },
}
