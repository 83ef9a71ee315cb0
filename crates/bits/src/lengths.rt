// How many bytes there are to read: the faults of the bit layer.
ghost use Rattle.std.specs.Prelude.{◌≡◌, length, take, drop, IfOk};
ghost use Rattle.std.specs.Result.{result_err};
ghost use Rattle.bits.specs.Faults.{short_of, wrong_length};

use crate::fault::Fault;
use crate::refusal::Refusal;

// The first bytes, as many as a record takes, and the rest.
pub fn leading<const N: usize>(bytes: &[u8]) -> Result<(&[u8; N], &[u8]), Fault>
    ensures fault { result_err result ≡ short_of N (length bytes.now) }
    ensures value { IfOk result (λ p. (p.0.now ≡ take N bytes.now) × (p.1.now ≡ drop N bytes.now)) }
{
    bytes
        .split_first_chunk::<N>()
        .ok_or(Fault::bits(Refusal::FileShort))
}

// Whether there are so many bytes and no more.
pub fn exactly(bytes: &[u8], size: usize) -> Result<(), Fault>
    ensures { result_err result ≡ wrong_length size (length bytes.now) }
{
    if bytes.len() < size {
        return Err(Fault::bits(Refusal::FileShort));
    }
    if bytes.len() > size {
        return Err(Fault::bits(Refusal::TrailingBytes));
    }
    Ok(())
}
