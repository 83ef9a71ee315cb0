// What a reader gives.
ghost use Rattle.std.specs.Prelude.{◌≡◌, ℕ, ◌+◌, ◌-◌, ◌*◌, ◌/◌, ◌%◌, ◌^◌, ◌<◌, ◌≤◌, length, take, drop};
ghost use Rattle.bits.specs.Bits.{bits, number};
ghost use Rattle.bits.specs.Ahead.{ahead};

use crate::reader::Reader;

impl<'a> Reader<'a> {
    pub fn new(bytes: &'a [u8]) -> Reader<'a>
        ensures { ahead result ≡ bits bytes.now }
    {
        Reader {
            rest: bytes,
            used: 0,
        }
    }

    // The number in the next `count` bits, which all lie in one byte.
    fn piece(&mut self, count: u32) -> u64
        requires some { 0 < count }
        requires within { self.old.used + count ≤ 8 }
        requires room { count ≤ length (ahead self.old) }
        ensures value { result ≡ number (take count (ahead self.old)) }
        ensures small { result < 2 ^ count }
        ensures after { ahead self.new ≡ drop count (ahead self.old) }
    {
        let (first, tail) = self.rest.split_first().unwrap();
        let low = 8 - self.used - count;
        let value = (u64::from(*first) >> low) % (1 << count);
        if low == 0 {
            self.rest = tail;
            self.used = 0;
        } else {
            self.used += count;
        }
        value
    }

    // The number in the next `width` bits, taken byte by byte.
    pub fn take(&mut self, width: u32) -> u64
        requires width { width ≤ 64 }
        requires room { width ≤ length (ahead self.old) }
        ensures value { result ≡ number (take width (ahead self.old)) }
        ensures small { result < 2 ^ width }
        ensures after { ahead self.new ≡ drop width (ahead self.old) }
    {
        let mut value = 0;
        // A step takes as many bits as the byte at hand has, so what is left is no count of steps.
        let mut left = width;
        while left > 0 {
            let count = left.min(8 - self.used);
            value = (value << count) + self.piece(count);
            left -= count;
        }
        value
    }
}
