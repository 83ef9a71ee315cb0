// Figures for the arithmetic of money that were worked out elsewhere: published pricing examples of two network owners,
// with dollars turned into cents and asset values into thousands of dollars, and both limits of each range.
#![tactic(auto)]

#[cfg(test)]
mod tests {
    use money::calendar::days;
    use money::instalments::{MAX_CHARGE, instalment};
    use money::postage::{MAX_ENERGY, MAX_REVENUE, charge, postage};
    use money::sharing::{MAX_AMOUNT, MAX_WEIGHT, share, shares};
    use std::test::Fail;

    // Revenue over entry, exit, shared network and common services, and then over the entry and the exit points.
    #[test]
    fn service_categories(rt: HostRuntime) {
        assert_eq!(rt;
            shares(250_443_400, [1_761, 6_972, 33_567, 750]),
            Some([10_244_618, 40_559_614, 195_276_042, 4_363_126])
        );
        assert_eq!(rt;
            shares(10_244_618, [1_033, 728]),
            Some([6_009_477, 4_235_141])
        );
        assert_eq!(rt;
            shares(40_559_614, [2_083, 1_406, 2_633, 850]),
            Some([12_117_853, 8_179_406, 15_317_479, 4_944_876])
        );
    }

    // The same for an owner whose figures divide without a remainder.
    #[test]
    fn even_categories(rt: HostRuntime) {
        assert_eq!(rt;
            shares(800_000_000, [5_000, 10_000, 65_000, 20_000]),
            Some([40_000_000, 80_000_000, 520_000_000, 160_000_000])
        );
        assert_eq!(rt;
            shares(40_000_000, [3_500, 1_500]),
            Some([28_000_000, 12_000_000])
        );
        assert_eq!(rt;
            shares(80_000_000, [4_000, 800, 3_500, 1_700]),
            Some([32_000_000, 6_400_000, 28_000_000, 13_600_000])
        );
        assert_eq!(rt;
            shares(1_163_500, [40, 20, 10, 20, 10]),
            Some([465_400, 232_700, 116_350, 232_700, 116_350])
        );
    }

    #[test]
    fn limits_of_sharing(rt: HostRuntime) {
        assert_eq!(rt;
            shares(MAX_AMOUNT, [MAX_WEIGHT - 1, 1]),
            Some([99_999_990_000, 10_000])
        );
        assert_eq!(rt; shares(MAX_AMOUNT + 1, [1, 1]), None);
        assert_eq!(rt; shares(1, [MAX_WEIGHT, 1]), None);
        assert_eq!(rt; shares(1, [u64::MAX, u64::MAX]), None);
        assert_eq!(rt; shares(7, [0, 0, 0]), Some([0, 0, 0]));
        assert_eq!(rt; share(100, 2, 1, 3), Some(34));
        assert_eq!(rt; share(100, 2, 2, 3), None);
        assert_eq!(rt; share(100, 0, 0, 0), Some(0));
    }

    #[test]
    fn instalments(rt: HostRuntime) -> Result<(), Fail> {
        let mut total = 0u64;
        for month in 1..13u8 {
            let line = instalment(100, month).ok_or("a month")?;
            total = total.saturating_add(line);
        }
        assert_eq!(rt; total, 100);
        assert_eq!(rt; instalment(100, 0), None);
        assert_eq!(rt; instalment(100, 13), None);
        assert_eq!(rt; instalment(MAX_CHARGE, 1), Some(166_666_666_666));
        assert_eq!(rt; instalment(MAX_CHARGE + 1, 1), None);
        Ok(())
    }

    // A common revenue over the energy of four loads, and the limits of a spread.
    #[test]
    fn spreads(rt: HostRuntime) {
        assert_eq!(rt;
            postage(9_863_126, &[160, 300, 100, 400]),
            Some((10_274_089, 3))
        );
        assert_eq!(rt; charge(10_274_089, 160), Some(1_643_854));
        assert_eq!(rt; charge(10_274_089, 400), Some(4_109_635));
        assert_eq!(rt;
            postage(MAX_REVENUE, &[0, 1]),
            Some((2_000_000_000_000_000, 0))
        );
        assert_eq!(rt; postage(MAX_REVENUE, &[MAX_ENERGY]), Some((40_000_000, 0)));
        assert_eq!(rt; postage(MAX_REVENUE + 1, &[1]), None);
        assert_eq!(rt; postage(1, &[MAX_ENERGY, 1]), None);
        assert_eq!(rt; postage(1, &[0, 0]), None);
        assert_eq!(rt; charge(u64::MAX, 2), None);
    }

    // The lengths of July to June, and February in years of every kind.
    #[test]
    fn month_lengths(rt: HostRuntime) {
        let lengths: [u8; 12] = [31, 31, 30, 31, 30, 31, 31, 28, 31, 30, 31, 30];
        for (month, length) in (1..=12).zip(lengths) {
            assert_eq!(rt; days(2026, month), Some(length));
        }
        let februaries: [(u16, u8); 8] = [
            (2027, 29),
            (2028, 28),
            (2098, 28),
            (2099, 28),
            (2100, 28),
            (2398, 28),
            (2399, 29),
            (2999, 28),
        ];
        for (year, length) in februaries {
            assert_eq!(rt; days(year, 8), Some(length));
        }
        assert_eq!(rt; days(2026, 0), None);
        assert_eq!(rt; days(2026, 13), None);
        assert_eq!(rt; days(65_535, 8), Some(29));
    }
}
