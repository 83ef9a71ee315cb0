// Rows of fields: the values that bytes hold, the first value out of its range, and the bytes of given values.
// The value of a signed field is handled as 64 bits in two's complement.
ghost use Rattle.std.specs.Prelude.{◌≡◌, ℕ, ◌+◌, ◌-◌, ◌*◌, ◌%◌, ◌^◌, ◌<◌, ◌≤◌, length, slice_index, IfOk, OnOk};
ghost use Rattle.std.specs.Result.{result_err};
ghost use Rattle.bits.specs.Bits.{bits, bytes_of};
ghost use Rattle.bits.specs.Layout.{plain, free, only, signed, meaning, keeps, values_in, packed, span, first_bad, AllKeep, Narrow};
ghost use Rattle.bits.specs.Laid.{room_fault, laid};

use crate::fault::Fault;
use crate::field::{Field, Range};
use crate::layout::Layout;
use crate::reader::Reader;
use crate::refusal::Refusal;
use crate::writer::Writer;

impl Field {
    // A field from `low` to `high`.
    pub fn plain(width: u32, low: u64, high: u64) -> Field
        ensures { result ≡ plain width low high }
    {
        Field {
            width,
            range: Range::Plain { low, high },
        }
    }

    // A field of any value.
    pub fn free(width: u32) -> Field
        requires { width ≤ 63 }
        ensures { result ≡ free width }
    {
        Field::plain(width, 0, (1 << width) - 1)
    }

    // A field with one value.
    pub fn only(width: u32, value: u64) -> Field
        ensures { result ≡ only width value }
    {
        Field::plain(width, value, value)
    }

    // A field in two's complement, from -limit to limit.
    pub fn signed(width: u32, limit: u64) -> Field
        ensures { result ≡ signed width limit }
    {
        Field {
            width,
            range: Range::Signed { limit },
        }
    }

    // What `bits`, a number of the field's width, stands for.
    fn meaning(self, bits: u64) -> u64
        requires narrow { self.width ≤ 63 }
        requires sign { 1 ≤ self.width }
        requires small { bits < 2 ^ self.width }
        ensures { result ≡ meaning self.range self.width bits }
    {
        match self.range {
            Range::Plain { .. } => bits,
            Range::Signed { .. } if bits < 1 << (self.width - 1) => bits,
            Range::Signed { .. } => bits + (u64::MAX - ((1 << self.width) - 1)),
        }
    }

    // Whether a value keeps the field's range.
    fn keeps(self, value: u64) -> bool
        requires narrow { self.width ≤ 63 }
        requires sign { 1 ≤ self.width }
        ensures { result ≡ keeps self value }
    {
        let within = match self.range {
            Range::Plain { low, high } => low <= value && value <= high,
            Range::Signed { limit } => value <= limit || u64::MAX - value < limit,
        };
        self.meaning(value % (1 << self.width)) == value && within
    }
}

// Rows of any length: where it is known only at a call, no type says that the fields are narrow and as many as the values.

// The values that bytes hold in a row of fields.
pub fn decode<const N: usize>(fields: &[Field], bytes: &[u8]) -> [u64; N]
    requires narrow { Narrow fields.now }
    requires count { length fields.now ≡ N }
    requires room { span fields.now ≤ 8 * length bytes.now }
    ensures { result ≡ values_in fields.now (bits bytes.now) }
{
    let mut bits = Reader::new(bytes);
    let mut values = [0; N];
    // By `map` the closure would read on, and want clauses of its own for its field and for what is left to read.
    for (i, field) in fields.iter().enumerate() {
        values[i] = field.meaning(bits.take(field.width));
    }
    values
}

// Holds the values of a record against their ranges.
pub fn check(fields: &[Field], values: &[u64], record: u16) -> Result<(), Fault>
    requires narrow { Narrow fields.now }
    requires count { length fields.now ≡ length values.now }
    requires few { length fields.now < 256 }
    ensures fault { result_err result ≡ first_bad «record» 1 fields.now values.now }
    ensures kept { OnOk result (AllKeep fields.now values.now) }
{
    for (i, (field, value)) in fields.iter().zip(values).enumerate() {
        if !field.keeps(*value) {
            return Err(Fault::outside(record, i as u8 + 1));
        }
    }
    Ok(())
}

// The bytes of a row of values.
pub fn encode<const M: usize>(fields: &[Field], values: &[u64]) -> [u8; M]
    requires narrow { Narrow fields.now }
    requires count { length fields.now ≡ length values.now }
    requires whole { span fields.now ≡ 8 * M }
    requires small { M < 2 ^ 32 }
    ensures { result ≡ bytes_of M (packed fields.now values.now) }
{
    let mut bits = Writer::new();
    for (field, value) in fields.iter().zip(values) {
        bits.put(*value, field.width);
    }
    bits.finish()
}

// The same over a layout, whose fields are narrow and as many as the values by its type. Inlined, so that a layout which hangs
// on no value is a table of constants.
impl<const N: usize> Layout<N> {
    // The values that bytes hold.
    #[inline(always)]
    pub fn decode(&self, bytes: &[u8]) -> [u64; N]
        requires { span self.now.fields ≤ 8 * length bytes.now }
        ensures value { result ≡ values_in self.now.fields (bits bytes.now) }
        ensures eight { (k : ℕ) → slice_index bytes.now k < 2 ^ 8 }
    {
        decode(&self.fields, bytes)
    }

    // Holds the values of a record against their ranges.
    #[inline(always)]
    pub fn check(&self, values: &[u64; N], record: u16) -> Result<(), Fault>
        requires { N < 256 }
        ensures fault { result_err result ≡ first_bad «record» 1 self.now.fields values.now }
        ensures kept { OnOk result (AllKeep self.now.fields values.now) }
    {
        check(&self.fields, values, record)
    }

    // The bytes of a row of values.
    #[inline(always)]
    pub fn encode<const M: usize>(&self, values: &[u64; N]) -> [u8; M]
        requires whole { span self.now.fields ≡ 8 * M }
        requires small { M < 2 ^ 32 }
        ensures { result ≡ bytes_of M (packed self.now.fields values.now) }
    {
        encode(&self.fields, values)
    }
}

// Lays bytes at the front of a buffer, and answers how many.
pub fn lay_front(bytes: &[u8], buffer: &mut [u8]) -> Result<usize, Fault>
    ensures fault { result_err result ≡ room_fault (length bytes.now) (length buffer.old) }
    ensures count { IfOk result (λ n. n ≡ length bytes.now) }
    ensures after { buffer.new ≡ laid result bytes.now buffer.old }
{
    if buffer.len() < bytes.len() {
        return Err(Fault::bits(Refusal::BufferShort));
    }
    buffer[0..bytes.len()].copy_from_slice(bytes);
    Ok(bytes.len())
}
