// A writer of bits into `N` bytes, the most significant of each byte first.
ghost use Rattle.std.specs.Prelude.{◌≡◌, ◌^◌, ◌<◌, ◌≤◌, length};

#[derive(Drop)]
pub struct Writer<const N: usize> {
    // The bytes, of which the first `whole` are written, and the next one's first `used` bits, as a number. An array, since
    // nothing is taken from the heap.
    pub(crate) bytes: [u8; N],
    pub(crate) whole: usize,
    pub(crate) part: u16,
    pub(crate) used: u32,
    ghost len: { length bytes ≡ N },
    ghost bound: { whole ≤ N },
    ghost within: { used < 8 },
    ghost small: { part < 2 ^ used },
}
