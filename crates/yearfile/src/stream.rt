// What is left of the records of a file: points, then elements, then uses.
ghost use Rattle.std.specs.Prelude.{◌+◌, ◌^◌, ◌<◌, length};
ghost use Rattle.std.specs.Slice.Iter.{iter_rest};

use std::slice::Iter;

#[derive(Drop)]
pub struct Records<'a> {
    pub(crate) points: Iter<'a, [u8; 15]>,
    pub(crate) elements: Iter<'a, [u8; 9]>,
    pub(crate) uses: Iter<'a, [u8; 5]>,
    // The place of the next record.
    pub(crate) place: u16,
    ghost counted: { place + length (iter_rest points) + length (iter_rest elements) + length (iter_rest uses) < 2 ^ 16 },
}
