// A record of any kind laid into a buffer.
ghost use Rattle.std.specs.Prelude.{◌≡◌, ◌+◌, ◌≤◌, length};
ghost use Rattle.bits.specs.Forms.{record_bytes, InRange};
ghost use Rattle.yearfile.specs.Bytes.{laid_at};

use bits::row::Row;

// Lays a record into the buffer from `at` on, and answers where it ends.
pub fn lay<T: Row<N, M>, const N: usize, const M: usize>(
    item: &T,
    buffer: &mut [u8],
    at: usize,
) -> usize
    requires ranged { InRange T.form item.now }
    requires room { at + length (record_bytes T.form item.now) ≤ length buffer.old }
    ensures after { buffer.new ≡ laid_at at (record_bytes T.form item.now) buffer.old }
    ensures end { result ≡ at + length (record_bytes T.form item.now) }
{
    at + item.write(&mut buffer[at..], 0).unwrap()
}
