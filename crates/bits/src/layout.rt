// The fields of a kind of record, one after the other: `N` of them.
ghost use Rattle.std.specs.Prelude.{◌≡◌, IsTrue, length};
ghost use Rattle.bits.specs.Layout.{narrow};

use crate::field::Field;

#[derive(Clone, Copy)]
pub struct Layout<const N: usize> {
    pub fields: [Field; N],
    ghost count: { length fields ≡ N },
    ghost narrow: { IsTrue (narrow fields) },
}
