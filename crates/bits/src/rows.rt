// Whole rows of fields of any length, read from bytes and written to a buffer. No type says of them what a `Layout` says.
ghost use Rattle.std.specs.Prelude.{◌≡◌, ℕ, ◌*◌, ◌^◌, ◌<◌, ◌≤◌, length, IfOk, OnOk};
ghost use Rattle.std.specs.Result.{result_err};
ghost use Rattle.bits.specs.Bits.{bits, bytes_of};
ghost use Rattle.bits.specs.Layout.{values_in, packed, span, first_bad, AllKeep, Narrow};
ghost use Rattle.bits.specs.Laid.{row_refusal, laid};

use crate::fault::Fault;
use crate::field::Field;
use crate::fields::{check, decode, encode, lay_front};

// The values of a record, or the fault of the first that breaks its range.
pub fn read_row<const N: usize>(
    fields: &[Field],
    bytes: &[u8],
    record: u16,
) -> Result<[u64; N], Fault>
    requires narrow { Narrow fields.now }
    requires count { length fields.now ≡ N }
    requires few { N < 256 }
    requires room { span fields.now ≤ 8 * length bytes.now }
    ensures fault { result_err result ≡ first_bad «record» 1 fields.now (values_in fields.now (bits bytes.now)) }
    ensures value { IfOk result (λ vs. vs ≡ values_in fields.now (bits bytes.now)) }
    ensures kept { IfOk result (λ vs. AllKeep fields.now vs) }
{
    let values: [u64; N] = decode(fields, bytes);
    check(fields, &values, record)?;
    Ok(values)
}

// Writes a record at the front of a buffer, each value held against its range first, and answers how many bytes.
pub fn write_row<const M: usize>(
    fields: &[Field],
    values: &[u64],
    buffer: &mut [u8],
    record: u16,
) -> Result<usize, Fault>
    requires narrow { Narrow fields.now }
    requires count { length fields.now ≡ length values.now }
    requires few { length fields.now < 256 }
    requires whole { span fields.now ≡ 8 * M }
    requires small { M < 2 ^ 32 }
    ensures fault { result_err result ≡ row_refusal «record» M fields.now values.now (length buffer.old) }
    ensures count { IfOk result (λ n. n ≡ M) }
    ensures after { buffer.new ≡ laid result (bytes_of M (packed fields.now values.now)) buffer.old }
    ensures kept { OnOk result (AllKeep fields.now values.now) }
{
    check(fields, values, record)?;
    let bytes: [u8; M] = encode(fields, values);
    lay_front(&bytes, buffer)
}
