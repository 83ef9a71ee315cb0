// Tests over years: what the standard method, the modified one and a discount allot.
#![tactic(auto)]

#[cfg(test)]
mod tests {
    use bits::refusal::Refusal;
    use methods::discount::Discount;
    use methods::method::{MAX_POOL, Method};
    use standard::allocation::Allocation;
    use standard::rules::{Modified, Standard};
    use std::alloc::Global;
    use std::process::Abort;
    use std::test::Fail;
    use year::year::Year;

    // Three points and one element, which is used by the second and the third point.
    const WORKED: &[u8; 91] = b"\
        \x11\xfa\xc1\x80\x40\x04\x00\x00\x7a\x12\x00\x00\x00\x61\xa8\x00\x00\x00\x00\x00\x00\x00\x00\x00\x00\x00\x64\
        \x00\x0b\x00\x00\x64\x00\x00\x00\x00\x00\x00\x00\x00\x00\x00\
        \x00\x0c\x00\x00\x00\x00\x00\xc8\x00\x03\xe8\x00\x05\xdc\x00\
        \x00\x0d\x00\x00\x00\x00\x00\x64\x00\x01\xf4\x00\x03\xe8\x00\
        \x00\x01\xf4\x00\x07\xd0\x00\x05\xdc\
        \x00\x04\x00\x0f\xa0\
        \x00\x08\x00\x07\xd0";

    // Two generators and four loads, with shares that leave cents over.
    const WITH_REMAINDERS: &[u8; 146] = b"\
        \x11\xfa\xc3\x00\x40\x08\x00\x7a\x0b\x17\x40\x00\x14\xfb\x18\x00\x00\x00\x00\x00\x00\x00\x00\x00\x00\x02\xee\
        \x00\x65\x00\x04\x09\x00\x00\x00\x00\x00\x00\x00\x00\x00\x00\
        \x00\x66\x00\x02\xd8\x00\x00\x00\x00\x00\x00\x00\x00\x00\x00\
        \x00\xc9\x00\x00\x00\x00\x08\x23\x02\x71\x00\x00\x00\x28\x00\
        \x00\xca\x00\x00\x00\x00\x05\x7e\x04\x93\xe0\x00\x00\x4b\x00\
        \x00\xcb\x00\x00\x00\x00\x0a\x49\x01\x86\xa0\x00\x00\x19\x00\
        \x00\xcc\x00\x00\x00\x00\x03\x52\x06\x1a\x80\x00\x00\x64\x00\
        \x00\x83\x1f\x02\x49\xf0\x01\xe0\x78\
        \x00\x08\x09\xc4\x00\
        \x00\x0c\x12\x4f\x80\
        \x00\x10\x06\x1a\x80\
        \x00\x14\x18\x6a\x00";

    // Two generators and four loads, whose figures divide without a remainder.
    const EXACT: &[u8; 146] = b"\
        \x11\xf8\xc3\x00\x40\x08\x01\xad\x27\x48\x00\x01\x7d\x78\x40\x00\x00\x00\x00\x00\x00\x00\x00\x00\x00\x4e\x20\
        \x00\x01\x00\x0d\xac\x00\x00\x00\x00\x00\x00\x00\x00\x00\x00\
        \x00\x02\x00\x05\xdc\x00\x00\x00\x00\x00\x00\x00\x00\x00\x00\
        \x00\x03\x00\x00\x00\x00\x0f\xa0\x00\x9c\x40\x00\xf4\x24\x00\
        \x00\x04\x00\x00\x00\x00\x03\x20\x00\x1f\x40\x00\x30\xd4\x00\
        \x00\x05\x00\x00\x00\x00\x0d\xac\x00\x88\xb8\x00\xc3\x50\x00\
        \x00\x06\x00\x00\x00\x00\x06\xa4\x00\x42\x68\x00\x61\xa8\x00\
        \x00\xfd\xe8\x01\x86\xa0\x00\xea\x60\
        \x00\x08\x02\x71\x00\
        \x00\x0c\x00\x7d\x00\
        \x00\x10\x02\x22\xe0\
        \x00\x14\x01\x09\xa0";

    const REFUSED: Result<u64, Refusal> = Err(Refusal::ArgumentOutOfRange);

    fn year_of(heap: Global, file: &[u8]) -> Result<Year, Fail> {
        let mut year = Year::new(heap)?;
        year.read(file)?;
        Ok(year)
    }

    // Holds a method's amounts and parts against those that are due, one by one and all at once, and asks for the first place
    // past the end.
    fn check_method<M: Method>(
        rt: &impl Abort,
        method: &M,
        pool: u64,
        amounts: &[u64],
        parts: &[u64],
    ) -> Result<(), Fail> {
        assert_eq!(rt; method.points(), amounts.len());
        assert_eq!(rt; method.elements(), parts.len());
        for (place, amount) in amounts.iter().enumerate() {
            assert_eq!(rt; method.amount(pool, place), Ok(*amount));
        }
        for (place, part) in parts.iter().enumerate() {
            assert_eq!(rt; method.part(pool, place), Ok(*part));
        }
        let all = method.amounts(pool)?;
        for (one, amount) in all.iter().zip(amounts.iter()) {
            assert_eq!(rt; *one, *amount);
        }
        assert_eq!(rt; method.amount(pool, amounts.len()), REFUSED);
        assert_eq!(rt; method.part(pool, parts.len()), REFUSED);
        Ok(())
    }

    #[test]
    fn worked_year_standard(rt: HostRuntime) -> Result<(), Fail> {
        let year = year_of(rt.alloc(), WORKED)?;
        let method = Allocation::new(&year, Standard)?;
        check_method(&rt, &method, 225_000, &[0, 150_000, 75_000], &[225_000])?;
        check_method(&rt, &method, 0, &[0, 0, 0], &[0])?;
        let due = [0, 66_666_666_666, 33_333_333_334];
        check_method(&rt, &method, MAX_POOL, &due, &[MAX_POOL])?;
        assert_eq!(rt; method.amount(MAX_POOL + 1, 1), REFUSED);
        assert_eq!(rt; method.part(MAX_POOL + 1, 0), REFUSED);
        Ok(())
    }

    #[test]
    fn worked_year_modified(rt: HostRuntime) -> Result<(), Fail> {
        let year = year_of(rt.alloc(), WORKED)?;
        let method = Allocation::new(&year, Modified)?;
        check_method(&rt, &method, 225_000, &[0, 112_500, 56_250], &[168_750])
    }

    #[test]
    fn worked_year_discounted(rt: HostRuntime) -> Result<(), Fail> {
        let year = year_of(rt.alloc(), WORKED)?;
        let mut discount = Discount::new(Allocation::new(&year, Standard)?);
        check_method(&rt, &discount, 225_000, &[0, 150_000, 75_000], &[225_000])?;
        discount.agree(1, 10_000)?;
        discount.agree(2, 80_000)?;
        assert_eq!(rt; discount.agree(3, 0), Err(Refusal::ArgumentOutOfRange));
        check_method(&rt, &discount, 225_000, &[0, 140_000, 0], &[225_000])
    }

    #[test]
    fn shares_with_remainders(rt: HostRuntime) -> Result<(), Fail> {
        let year = year_of(rt.alloc(), WITH_REMAINDERS)?;
        let pool = 97_638_021;
        let method = Allocation::new(&year, Standard)?;
        let due = [0, 0, 16_273_003, 30_511_882, 10_170_627, 40_682_509];
        check_method(&rt, &method, pool, &due, &[pool])?;
        let method = Allocation::new(&year, Modified)?;
        let due = [0, 0, 13_343_862, 25_019_743, 8_339_914, 33_359_658];
        check_method(&rt, &method, pool, &due, &[80_063_177])
    }

    #[test]
    fn exact_shares(rt: HostRuntime) -> Result<(), Fail> {
        let year = year_of(rt.alloc(), EXACT)?;
        let pool = 260_000_000;
        let method = Allocation::new(&year, Standard)?;
        let due = [0, 0, 104_000_000, 20_800_000, 91_000_000, 44_200_000];
        check_method(&rt, &method, pool, &due, &[pool])?;
        let method = Allocation::new(&year, Modified)?;
        let due = [0, 0, 62_400_000, 12_480_000, 54_600_000, 26_520_000];
        check_method(&rt, &method, pool, &due, &[156_000_000])
    }

    #[test]
    fn empty_year(rt: HostRuntime) -> Result<(), Fail> {
        let year = Year::new(rt.alloc())?;
        assert_eq!(rt;
            Allocation::new(&year, Standard).err(),
            Some(Refusal::EmptyYear)
        );
        assert_eq!(rt;
            Allocation::new(&year, Modified).err(),
            Some(Refusal::EmptyYear)
        );
        Ok(())
    }
}
