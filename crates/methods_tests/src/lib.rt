// Tests of what every method answers, of the discount, and of the whole list of amounts.
#![tactic(auto)]

#[cfg(test)]
mod quarters;

#[cfg(test)]
mod tests {
    use crate::quarters::Quarters;
    use bits::refusal::Refusal;
    use methods::discount::{Discount, MAX_FIGURE};
    use methods::method::{MAX_POOL, Method};
    use std::process::Abort;
    use std::test::Fail;

    const REFUSED: Result<u64, Refusal> = Err(Refusal::ArgumentOutOfRange);

    // The amounts at the first two places and past them, and the parts likewise.
    fn check_answers<M: Method>(
        rt: &impl Abort,
        method: &M,
        pool: u64,
        amounts: [Result<u64, Refusal>; 3],
        parts: [Result<u64, Refusal>; 2],
    ) {
        for (place, amount) in amounts.iter().enumerate() {
            assert_eq!(rt; method.amount(pool, place), *amount);
        }
        for (place, part) in parts.iter().enumerate() {
            assert_eq!(rt; method.part(pool, place), *part);
        }
        assert_eq!(rt; method.amount(pool, usize::MAX), REFUSED);
    }

    #[test]
    fn pools_and_places(rt: HostRuntime) {
        let method = Quarters;
        assert_eq!(rt; method.points(), 2);
        assert_eq!(rt; method.elements(), 1);
        check_answers(&rt, &method, 0, [Ok(0), Ok(0), REFUSED], [Ok(0), REFUSED]);
        check_answers(
            &rt,
            &method,
            103,
            [Ok(51), Ok(25), REFUSED],
            [Ok(103), REFUSED],
        );
        check_answers(
            &rt,
            &method,
            MAX_POOL,
            [Ok(50_000_000_000), Ok(25_000_000_000), REFUSED],
            [Ok(MAX_POOL), REFUSED],
        );
        check_answers(
            &rt,
            &method,
            MAX_POOL + 1,
            [REFUSED, REFUSED, REFUSED],
            [REFUSED, REFUSED],
        );
    }

    #[test]
    fn all_amounts(rt: HostRuntime) -> Result<(), Fail> {
        let mut amounts = [0; 64];
        amounts[0] = 51;
        amounts[1] = 25;
        assert_eq!(rt; Quarters.amounts(103), Ok(amounts));
        assert_eq!(rt; Quarters.amounts(0), Ok([0; 64]));
        assert_eq!(rt;
            Quarters.amounts(MAX_POOL + 1),
            Err(Refusal::ArgumentOutOfRange)
        );
        let mut discount = Discount::new(Quarters);
        assert_eq!(rt; discount.amounts(103), Ok(amounts));
        discount.agree(0, 11)?;
        discount.agree(1, 26)?;
        amounts[0] = 40;
        amounts[1] = 0;
        assert_eq!(rt; discount.amounts(103), Ok(amounts));
        assert_eq!(rt;
            discount.amounts(MAX_POOL + 1),
            Err(Refusal::ArgumentOutOfRange)
        );
        Ok(())
    }

    #[test]
    fn figures(rt: HostRuntime) -> Result<(), Fail> {
        let mut discount = Discount::new(Quarters);
        assert_eq!(rt; discount.points(), 2);
        assert_eq!(rt; discount.elements(), 1);
        check_answers(
            &rt,
            &discount,
            100,
            [Ok(50), Ok(25), REFUSED],
            [Ok(100), REFUSED],
        );
        discount.agree(0, 10)?;
        discount.agree(1, 26)?;
        check_answers(
            &rt,
            &discount,
            100,
            [Ok(40), Ok(0), REFUSED],
            [Ok(100), REFUSED],
        );
        discount.agree(0, 0)?;
        discount.agree(1, MAX_FIGURE)?;
        check_answers(
            &rt,
            &discount,
            100,
            [Ok(50), Ok(0), REFUSED],
            [Ok(100), REFUSED],
        );
        check_answers(
            &rt,
            &discount,
            MAX_POOL + 1,
            [REFUSED, REFUSED, REFUSED],
            [REFUSED, REFUSED],
        );
        Ok(())
    }

    #[test]
    fn refused_figures_change_nothing(rt: HostRuntime) -> Result<(), Fail> {
        let mut discount = Discount::new(Quarters);
        discount.agree(0, 10)?;
        let refused = Err(Refusal::ArgumentOutOfRange);
        assert_eq!(rt; discount.agree(0, MAX_FIGURE + 1), refused);
        assert_eq!(rt; discount.agree(2, 0), refused);
        assert_eq!(rt; discount.agree(64, 0), refused);
        check_answers(
            &rt,
            &discount,
            100,
            [Ok(40), Ok(25), REFUSED],
            [Ok(100), REFUSED],
        );
        Ok(())
    }

    #[test]
    fn discount_over_discount(rt: HostRuntime) -> Result<(), Fail> {
        let mut inner = Discount::new(Quarters);
        inner.agree(0, 10)?;
        inner.agree(1, 5)?;
        let mut outer = Discount::new(inner);
        outer.agree(0, 15)?;
        outer.agree(1, 21)?;
        check_answers(
            &rt,
            &outer,
            100,
            [Ok(25), Ok(0), REFUSED],
            [Ok(100), REFUSED],
        );
        Ok(())
    }
}
