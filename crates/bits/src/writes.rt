// What a writer is given.
ghost use Rattle.std.specs.Prelude.{◌≡◌, ℕ, ◌+◌, ◌-◌, ◌*◌, ◌/◌, ◌%◌, ◌^◌, ◌<◌, ◌≤◌, List, [], ◌++◌, length};
ghost use Rattle.bits.specs.Bits.{bits_of, bytes_of};
ghost use Rattle.bits.specs.Written.{written};

use crate::writer::Writer;

impl<const N: usize> Writer<N> {
    pub fn new() -> Writer<N>
        ensures { written result ≡ [] }
    {
        Writer {
            bytes: [0; N],
            whole: 0,
            part: 0,
            used: 0,
        }
    }

    // Writes the next `count` bits, which all lie in one byte.
    fn piece(&mut self, value: u16, count: u32)
        requires small { value < 2 ^ count }
        requires within { self.old.used + count ≤ 8 }
        requires room { self.old.whole < N }
        ensures { written self.new ≡ written self.old ++ bits_of count value }
    {
        self.part = (self.part << count) + value;
        self.used += count;
        if self.used == 8 {
            self.bytes[self.whole] = self.part as u8;
            self.whole += 1;
            self.part = 0;
            self.used = 0;
        }
    }

    // Writes the lowest `width` bits of `value`, byte by byte.
    pub fn put(&mut self, value: u64, width: u32)
        requires width { width ≤ 64 }
        requires room { length (written self.old) + width ≤ 8 * N }
        ensures { written self.new ≡ written self.old ++ bits_of width value }
    {
        // A step fills the byte at hand, so what is left is no count of steps.
        let mut left = width;
        while left > 0 {
            let count = left.min(8 - self.used);
            left -= count;
            self.piece(((value >> left) % (1 << count)) as u16, count);
        }
    }

    // The bytes, once they are all written.
    pub fn finish(self) -> [u8; N]
        requires { length (written self) ≡ 8 * N }
        ensures { result ≡ bytes_of N (written self.entry) }
    {
        self.bytes
    }
}
