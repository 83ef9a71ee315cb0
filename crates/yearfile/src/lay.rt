// What has bytes of its own, laid into a buffer one after another.
ghost use Rattle.std.specs.Prelude.{◌≡◌, ℕ, ◌+◌, ◌≤◌, List, length};
ghost use Rattle.std.specs.List.{AllByRecursion, flat_map};
ghost use Rattle.bits.specs.Forms.{InRange};
ghost use Rattle.records.specs.Elements.{element_bytes, element_form};
ghost use Rattle.records.specs.Headers.{header_bytes, HeaderIn};
ghost use Rattle.records.specs.Points.{point_bytes, point_form};
ghost use Rattle.records.specs.Uses.{use_bytes, use_form};
ghost use Rattle.yearfile.specs.Bytes.{laid_at};

use crate::rows::lay;
use records::element::Element;
use records::header::Header;
use records::network_use::NetworkUse;
use records::point::Point;

// What has bytes of its own.
pub trait Lay {
    ghost bytes: { Self → List ℕ };

    ghost ranged: { Self → Type 0 };

    // Lays the bytes into the buffer from `at` on, and answers where they end.
    fn lay(&self, buffer: &mut [u8], at: usize) -> usize
        requires ranged { ranged self.now }
        requires room { at + length (bytes self.now) ≤ length buffer.old }
        ensures after { buffer.new ≡ laid_at at (bytes self.now) buffer.old }
        ensures end { result ≡ at + length (bytes self.now) };
}

// Records, each laid by the one function for all kinds. One impl for all of them is refused: the numbers of a `Row` stand neither
// in this trait nor in a type.
impl Lay for Header {
    ghost bytes = { λ x. header_bytes x };

    ghost ranged = { λ x. HeaderIn x };

    #[tactic(auto, unfolding(records::specs::Headers::header_form))]
    fn lay(&self, buffer: &mut [u8], at: usize) -> usize {
        lay(self, buffer, at)
    }
}

impl Lay for Point {
    ghost bytes = { λ x. point_bytes x };

    ghost ranged = { λ x. InRange point_form x };

    fn lay(&self, buffer: &mut [u8], at: usize) -> usize {
        lay(self, buffer, at)
    }
}

impl Lay for Element {
    ghost bytes = { λ x. element_bytes x };

    ghost ranged = { λ x. InRange element_form x };

    fn lay(&self, buffer: &mut [u8], at: usize) -> usize {
        lay(self, buffer, at)
    }
}

impl Lay for NetworkUse {
    ghost bytes = { λ x. use_bytes x };

    ghost ranged = { λ x. InRange use_form x };

    fn lay(&self, buffer: &mut [u8], at: usize) -> usize {
        lay(self, buffer, at)
    }
}

// Lays items one after another from `at` on, and answers where they end.
pub fn lay_all<T: Lay>(items: &[T], buffer: &mut [u8], at: usize) -> usize
    requires ranged { AllByRecursion T.ranged items.now }
    requires room { at + length (flat_map T.bytes items.now) ≤ length buffer.old }
    ensures after { buffer.new ≡ laid_at at (flat_map T.bytes items.now) buffer.old }
    ensures end { result ≡ at + length (flat_map T.bytes items.now) }
{
    let mut end = at;
    for item in items {
        end = item.lay(buffer, end);
    }
    end
}
