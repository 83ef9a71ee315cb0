// Kinds of records, read from bytes and written to a buffer.
ghost use Rattle.std.specs.Prelude.{◌≡◌, ℕ, length, IfOk, Some, None, Ok, MatchResult, OnOk};
ghost use Rattle.std.specs.Result.{result_err};
ghost use Rattle.bits.specs.Forms.{Form, record_of, record_fault, record_bytes, record_refusal, InRange};
ghost use Rattle.bits.specs.Laid.{laid};
ghost use Rattle.bits.specs.Rows.{Stands, Lawful, Sized, Kept};

use crate::fault::Fault;
use crate::fields::lay_front;
use crate::layout::Layout;

// A kind of record, of `N` fields in `M` bytes. The form says what its bytes mean.
pub trait Row<const N: usize, const M: usize> {
    ghost form: { Form Self };

    // The fields of a record with these values: a range may hang on them.
    fn layout(values: &[u64; N]) -> Layout<N>
        ensures { Stands form values.now result.fields };

    fn values(&self) -> [u64; N]
        ensures value { result ≡ form.values self.now }
        ensures limits { Kept form result → form.limits self.now };

    // The record with values that keep their ranges, so that no cast to the size of a field loses anything.
    fn named(values: &[u64; N]) -> Self
        requires { Kept form values.now }
        ensures { result ≡ form.named values.now };

    // The record in these bytes, or the fault of the first field that breaks its range.
    final fn read(bytes: &[u8; M], record: u16) -> Result<Self, Fault>
        ensures fault { result_err result ≡ record_fault form «record» bytes.now }
        ensures value { IfOk result (λ x. x ≡ record_of form bytes.now) }
        ensures exact { MatchResult result (λ x. InRange form x × (bytes.now ≡ record_bytes form x)) (λ f. record_fault form «record» bytes.now ≡ Some f) }
        ensures found { (x : Self) → InRange form x → bytes.now ≡ record_bytes form x → result ≡ Ok x }
    {
        let values = Self::layout(&[0; N]).decode(bytes);
        Self::layout(&values).check(&values, record)?;
        Ok(Self::named(&values))
    }

    // Writes the record at the front of a buffer, and answers how many bytes.
    final fn write(&self, buffer: &mut [u8], record: u16) -> Result<usize, Fault>
        ensures fault { result_err result ≡ record_refusal form «record» self.now (length buffer.old) }
        ensures count { IfOk result (λ n. n ≡ M) }
        ensures after { buffer.new ≡ laid result (record_bytes form self.now) buffer.old }
        ensures back { OnOk result (InRange form self.now × (record_fault form «record» (record_bytes form self.now) ≡ None) × (record_of form (record_bytes form self.now) ≡ self.now)) }
    {
        let values = self.values();
        let layout = Self::layout(&values);
        layout.check(&values, record)?;
        lay_front(&layout.encode::<M>(&values), buffer)
    }

    ghost sized: { Sized form N M };

    ghost lawful: { Lawful form };
}
