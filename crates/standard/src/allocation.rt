// The standard and the modified method over a year, as one type over the rule by which they differ.
ghost use Rattle.std.specs.Prelude.{◌≡◌, length, IfOk};
ghost use Rattle.std.specs.Result.{result_err};
ghost use Rattle.year.specs.Holds.{contents, empty_refusal};
ghost use Rattle.standard.specs.Allotted.{parts_in, amounts_in};
ghost use Rattle.standard.specs.Exchange.{amounts_length, amounts_sum};
ghost use Rattle.standard.specs.Parting.{parts-length, parts-sum};
ghost use Rattle.std.proofs.Common.{arith};

use crate::lends::Lends;
use crate::pool::Pool;
use crate::portions::Portions;
use crate::rules::Rule;
use crate::segments::Segments;
use bits::refusal::Refusal;
use methods::method::Method;
use year::filled::FilledYear;
use year::year::Year;

#[derive(Drop)]
pub struct Allocation<Y, R> {
    year: Y,
    rule: R,
}

impl<'a, R: Rule + Drop> Allocation<FilledYear<'a>, R> {
    // The method that a rule makes of a year; the empty year is refused.
    pub fn new(year: &'a Year, rule: R) -> Result<Allocation<FilledYear<'a>, R>, Refusal>
        ensures refused { result_err result ≡ empty_refusal (contents year.now) }
        ensures value { IfOk result (λ m. (m.year.year.now ≡ year.now) × (m.rule ≡ rule)) }
    {
        Ok(Allocation {
            year: FilledYear::new(year)?,
            rule,
        })
    }
}

impl<Y: Lends, R: Rule> Method for Allocation<Y, R> {
    ghost points = { λ m. length (contents (Y.Lends.lent m.year)).points };

    ghost elements = { λ m. length (contents (Y.Lends.lent m.year)).elements };

    ghost amounts = { λ m pool. amounts_in (R.Rule.reduced m.rule) (contents (Y.Lends.lent m.year)) pool };

    ghost parts = { λ m pool. parts_in (R.Rule.reduced m.rule) (contents (Y.Lends.lent m.year)) pool };

    ghost some = { λ m. Y.Lends.pointed m.year };

    ghost few = { λ m. (Y.Lends.lent m.year).few.0 };

    ghost allotted = { λ m pool.
        let d = contents (Y.Lends.lent m.year) in
        amounts_length (length d.points) d.uses (parts_in (R.Rule.reduced m.rule) d pool) };

    ghost parted = { λ m pool. parts-length (R.Rule.reduced m.rule) (contents (Y.Lends.lent m.year)).elements pool };

    ghost within = { λ m pool small.
        let d = contents (Y.Lends.lent m.year) in
        let f = R.Rule.reduced m.rule in
        omega (arith, amounts_sum (length d.points) d.uses (parts_in f d pool), parts-sum f d.elements pool (R.Rule.less m.rule)) };

    ghost bounded = { λ m pool small. parts-sum (R.Rule.reduced m.rule) (contents (Y.Lends.lent m.year)).elements pool (R.Rule.less m.rule) };

    fn points(&self) -> usize {
        self.year.year().points().len()
    }

    fn elements(&self) -> usize {
        self.year.year().elements().len()
    }

    fn amount(&self, pool: u64, place: usize) -> Result<u64, Refusal> {
        let year = self.year.year();
        let pool = Pool::new(pool)?;
        if place >= year.points().len() {
            return Err(Refusal::ArgumentOutOfRange);
        }
        Ok(
            Segments::new(year)
                .map(|segment| segment.amount(&self.rule, pool, place))
                .sum(),
        )
    }

    fn part(&self, pool: u64, place: usize) -> Result<u64, Refusal> {
        let elements = self.year.year().elements();
        let pool = Pool::new(pool)?;
        if place >= elements.len() {
            return Err(Refusal::ArgumentOutOfRange);
        }
        let element = Portions::new(elements).nth(place).unwrap();
        Ok(element.part(&self.rule, pool).cents)
    }

    fn amounts(&self, pool: u64) -> Result<[u64; 64], Refusal> {
        let pool = Pool::new(pool)?;
        let mut amounts = [0; 64];
        for segment in Segments::new(self.year.year()) {
            segment.add_amounts(&self.rule, pool, &mut amounts);
        }
        Ok(amounts)
    }
}
