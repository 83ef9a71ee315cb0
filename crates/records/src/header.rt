// The header of a year file, its first 27 bytes.
#![tactic(auto, unfolding(crate::specs::Headers::header_form))]

ghost use Rattle.std.specs.Prelude.{◌≡◌, ℕ, List, ◌++◌, length, drop, IfOk, Some, None, MatchResult, OnOk};
ghost use Rattle.std.specs.Result.{result_err};
ghost use Rattle.bits.specs.Laid.{laid};
ghost use Rattle.records.specs.Headers.{header_form, header_of, header_fault, header_bytes, header_refusal, HeaderIn};
ghost use Rattle.records.specs.Laws.{header_lawful, header_sized};

use bits::fault::Fault;
use bits::field::Field;
use bits::layout::Layout;
use bits::lengths::leading;
use bits::row::Row;

#[derive(Clone, Copy, Debug, Default, PartialEq, Eq)]
pub struct Header {
    pub year: u16,
    pub points: u16,
    pub elements: u16,
    pub uses: u16,
    pub allowed_revenue: u64,
    pub common_operating_cost: u64,
    pub locational_residue: i64,
    pub other_residue: i64,
    pub common_cost: u32,
}

const REVENUE: u64 = 100_000_000_000;

const RESIDUE: u64 = 10_000_000_000;

impl Row<11, 27> for Header {
    ghost form = { header_form };

    ghost sized = { header_sized };

    ghost lawful = { header_lawful };

    // The common operating cost is at most the allowed revenue.
    fn layout(values: &[u64; 11]) -> Layout<11> {
        let allowed = values[6];
        Layout {
            fields: [
                Field::only(4, 1),
                Field::plain(14, 2000, 2999),
                Field::plain(7, 1, 64),
                Field::plain(9, 0, 256),
                Field::plain(13, 0, 4096),
                Field::only(1, 0),
                Field::plain(37, 0, REVENUE),
                Field::plain(37, 0, allowed),
                Field::signed(35, RESIDUE),
                Field::signed(35, RESIDUE),
                Field::free(24),
            ],
        }
    }

    fn values(&self) -> [u64; 11] {
        [
            1,
            u64::from(self.year),
            u64::from(self.points),
            u64::from(self.elements),
            u64::from(self.uses),
            0,
            self.allowed_revenue,
            self.common_operating_cost,
            self.locational_residue.cast_unsigned(),
            self.other_residue.cast_unsigned(),
            u64::from(self.common_cost),
        ]
    }

    fn named(values: &[u64; 11]) -> Header {
        let [
            _,
            year,
            points,
            elements,
            uses,
            _,
            allowed,
            common,
            locational,
            other,
            cost,
        ] = *values;
        Header {
            year: year as u16,
            points: points as u16,
            elements: elements as u16,
            uses: uses as u16,
            allowed_revenue: allowed,
            common_operating_cost: common,
            locational_residue: locational.cast_signed(),
            other_residue: other.cast_signed(),
            common_cost: cost as u32,
        }
    }
}

impl Header {
    // The header of a file, and the rest of the file.
    pub fn read(file: &[u8]) -> Result<(Header, &[u8]), Fault>
        ensures fault { result_err result ≡ header_fault file.now }
        ensures value { IfOk result (λ p. (p.0 ≡ header_of file.now) × (p.1.now ≡ drop 27 file.now)) }
        ensures exact { MatchResult result (λ p. HeaderIn p.0 × (file.now ≡ header_bytes p.0 ++ p.1.now)) (λ f. header_fault file.now ≡ Some f) }
        ensures found { (h : Header) (rest : List ℕ) → HeaderIn h → file.now ≡ header_bytes h ++ rest → MatchResult result (λ p. (p.0 ≡ h) × (p.1.now ≡ rest)) (λ _. ⊥) }
    {
        let (bytes, rest) = leading::<27>(file)?;
        let header: Header = Row::read(bytes, 0)?;
        Ok((header, rest))
    }

    // Writes the header, which is record 0 and so has a name of its own for it, at the front of a buffer, and answers how
    // many bytes.
    pub fn write(&self, buffer: &mut [u8]) -> Result<usize, Fault>
        ensures fault { result_err result ≡ header_refusal self.now (length buffer.old) }
        ensures count { IfOk result (λ n. n ≡ 27) }
        ensures after { buffer.new ≡ laid result (header_bytes self.now) buffer.old }
        ensures back { OnOk result (HeaderIn self.now × (header_fault (header_bytes self.now) ≡ None) × (header_of (header_bytes self.now) ≡ self.now)) }
    {
        Row::write(self, buffer, 0)
    }
}
