// Year files read, refused and written: the worked year with bytes changed, every shorter file, both sides of each limit,
// and the largest year.
#![tactic(auto)]

#[cfg(test)]
mod tests {
    use bits::fault::Fault;
    use bits::refusal::Refusal;
    use bits::row::Row;
    use records::element::Element;
    use records::header::Header;
    use records::network_use::NetworkUse;
    use records::point::Point;
    use std::alloc::Global;
    use std::process::Abort;
    use std::test::Fail;
    use year::year::Year;

    const WORKED: &[u8; 91] = b"\
        \x11\xfa\xc1\x80\x40\x04\x00\x00\x7a\x12\x00\x00\x00\x61\xa8\x00\x00\x00\x00\x00\x00\x00\x00\x00\x00\x00\x64\
        \x00\x0b\x00\x00\x64\x00\x00\x00\x00\x00\x00\x00\x00\x00\x00\
        \x00\x0c\x00\x00\x00\x00\x00\xc8\x00\x03\xe8\x00\x05\xdc\x00\
        \x00\x0d\x00\x00\x00\x00\x00\x64\x00\x01\xf4\x00\x03\xe8\x00\
        \x00\x01\xf4\x00\x07\xd0\x00\x05\xdc\
        \x00\x04\x00\x0f\xa0\
        \x00\x08\x00\x07\xd0";

    // The worked file with some bytes changed.
    fn changed(changes: &[(usize, u8)]) -> [u8; 91] {
        let mut file = *WORKED;
        for &(at, byte) in changes {
            if let Some(place) = file.get_mut(at) {
                *place = byte;
            }
        }
        file
    }

    // A year that holds the worked file.
    fn worked(rt: &impl Abort, heap: Global) -> Result<Year, Fail> {
        let mut year = Year::new(heap)?;
        assert_eq!(rt; year.read(WORKED), Ok(()));
        Ok(year)
    }

    // Holds what a year says of a changed file against the fault that is due, and looks whether it stayed as it was.
    fn refuses(rt: &impl Abort, year: &mut Year, changes: &[(usize, u8)], fault: Fault) {
        assert_eq!(rt; year.read(&changed(changes)), Err(fault));
        let mut back = [0u8; 91];
        assert_eq!(rt; year.write(&mut back), Ok(91));
        assert!(rt; back == *WORKED);
    }

    // A field out of its range, in the header.
    #[test]
    fn header_fields(rt: HostRuntime) -> Result<(), Fail> {
        let mut year = worked(&rt, rt.alloc())?;
        // a bill's kind
        refuses(&rt, &mut year, &[(0, 33)], Fault::outside(0, 1));
        // the year 1999, and 3000
        refuses(&rt, &mut year, &[(1, 243)], Fault::outside(0, 2));
        refuses(
            &rt,
            &mut year,
            &[(0, 18), (1, 238), (2, 1)],
            Fault::outside(0, 2),
        );
        // the spare bit
        refuses(&rt, &mut year, &[(5, 5)], Fault::outside(0, 6));
        // the allowed revenue, one cent over its limit
        refuses(
            &rt,
            &mut year,
            &[(6, 186), (7, 67), (8, 183), (9, 64), (10, 8)],
            Fault::outside(0, 7),
        );
        // a common operating cost one cent over the allowed revenue
        refuses(
            &rt,
            &mut year,
            &[(12, 3), (13, 208), (14, 144), (15, 64)],
            Fault::outside(0, 8),
        );
        // each residue, one cent out of its range at either end
        refuses(
            &rt,
            &mut year,
            &[(15, 45), (16, 95), (17, 160), (18, 223), (19, 248)],
            Fault::outside(0, 9),
        );
        refuses(
            &rt,
            &mut year,
            &[(15, 18), (16, 160), (17, 95), (18, 32), (19, 8)],
            Fault::outside(0, 9),
        );
        refuses(
            &rt,
            &mut year,
            &[(19, 5), (20, 171), (21, 244), (22, 27), (23, 255)],
            Fault::outside(0, 10),
        );
        refuses(
            &rt,
            &mut year,
            &[(19, 2), (20, 84), (21, 11), (22, 228), (23, 1)],
            Fault::outside(0, 10),
        );
        Ok(())
    }

    // A field out of its range, in a record; it comes before what the records say together.
    #[test]
    fn record_fields(rt: HostRuntime) -> Result<(), Fail> {
        let mut year = worked(&rt, rt.alloc())?;
        // an identifier of zero, and spare bits
        refuses(&rt, &mut year, &[(43, 0)], Fault::outside(2, 1));
        refuses(&rt, &mut year, &[(41, 1)], Fault::outside(1, 6));
        // a cost one over its limit; a rating of zero, and one over its limit; a peak one over its limit
        refuses(
            &rt,
            &mut year,
            &[(72, 152), (73, 150), (74, 129)],
            Fault::outside(4, 1),
        );
        refuses(&rt, &mut year, &[(76, 0), (77, 0)], Fault::outside(4, 2));
        refuses(
            &rt,
            &mut year,
            &[(75, 152), (76, 150), (77, 129)],
            Fault::outside(4, 2),
        );
        refuses(
            &rt,
            &mut year,
            &[(78, 152), (79, 150), (80, 129)],
            Fault::outside(4, 3),
        );
        // spare bits of a use, alone and with an identifier repeated
        refuses(&rt, &mut year, &[(90, 209)], Fault::outside(6, 4));
        refuses(&rt, &mut year, &[(58, 11), (90, 209)], Fault::outside(6, 4));
        Ok(())
    }

    // What the records say together, by rising number.
    #[test]
    fn records_together(rt: HostRuntime) -> Result<(), Fail> {
        let mut year = worked(&rt, rt.alloc())?;
        let over = Fault::year(Refusal::TotalOverLimit, 0);
        let zero = Fault::year(Refusal::TotalZero, 0);
        refuses(
            &rt,
            &mut year,
            &[(58, 11)],
            Fault::year(Refusal::IdentifierRepeated, 3),
        );
        refuses(
            &rt,
            &mut year,
            &[(58, 11), (81, 1)],
            Fault::year(Refusal::IdentifierRepeated, 3),
        );
        refuses(
            &rt,
            &mut year,
            &[(87, 4)],
            Fault::year(Refusal::UseMisplaced, 6),
        );
        refuses(
            &rt,
            &mut year,
            &[(81, 1)],
            Fault::year(Refusal::UseMisplaced, 5),
        );
        refuses(
            &rt,
            &mut year,
            &[(87, 12)],
            Fault::year(Refusal::UseMisplaced, 6),
        );
        refuses(
            &rt,
            &mut year,
            &[(24, 152), (25, 150), (26, 129), (81, 1)],
            Fault::year(Refusal::UseMisplaced, 5),
        );
        // the costs, by a point's cost and by the common one; the uses of an element; all demands; all energy
        refuses(&rt, &mut year, &[(29, 152), (30, 150), (31, 129)], over);
        refuses(&rt, &mut year, &[(24, 152), (25, 146), (26, 253)], over);
        refuses(
            &rt,
            &mut year,
            &[(82, 6), (83, 98), (84, 82), (85, 52)],
            over,
        );
        refuses(&rt, &mut year, &[(35, 152), (36, 144), (37, 165)], over);
        refuses(
            &rt,
            &mut year,
            &[(38, 190), (39, 178), (40, 92), (41, 64)],
            over,
        );
        // no energy; no cost; no cost and too much energy
        refuses(&rt, &mut year, &[(54, 0), (55, 0), (69, 0), (70, 0)], zero);
        refuses(
            &rt,
            &mut year,
            &[(26, 0), (31, 0), (49, 0), (64, 0), (73, 0), (74, 0)],
            zero,
        );
        refuses(
            &rt,
            &mut year,
            &[
                (26, 0),
                (31, 0),
                (38, 190),
                (39, 178),
                (40, 92),
                (41, 64),
                (49, 0),
                (64, 0),
                (73, 0),
                (74, 0),
            ],
            over,
        );
        Ok(())
    }

    // The limits themselves are allowed.
    #[test]
    fn limits_met(rt: HostRuntime) -> Result<(), Fail> {
        let mut year = Year::new(rt.alloc())?;
        assert_eq!(rt;
            year.read(&changed(&[(15, 45), (16, 95), (17, 160), (18, 224)])),
            Ok(())
        );
        assert_eq!(rt;
            year.read(&changed(&[(19, 2), (20, 84), (21, 11), (22, 228)])),
            Ok(())
        );
        assert_eq!(rt;
            year.read(&changed(&[(82, 6), (83, 98), (84, 82), (85, 48)])),
            Ok(())
        );
        assert_eq!(rt;
            year.read(&changed(&[(35, 152), (36, 144), (37, 164)])),
            Ok(())
        );
        assert_eq!(rt;
            year.read(&changed(&[(38, 190), (39, 178), (40, 92)])),
            Ok(())
        );
        assert_eq!(rt;
            year.read(&changed(&[(24, 152), (25, 146), (26, 252)])),
            Ok(())
        );
        Ok(())
    }

    // Every shorter file, and one byte more. A bad header field comes after the length of the header, and before that of the
    // whole file.
    #[test]
    fn lengths(rt: HostRuntime) -> Result<(), Fail> {
        let mut year = worked(&rt, rt.alloc())?;
        let file = *WORKED;
        for length in 0..91usize {
            assert_eq!(rt;
                year.read(&file[0..length]),
                Err(Fault::bits(Refusal::FileShort))
            );
        }
        assert_eq!(rt;
            year.read(&changed(&[(0, 33)])[0..26]),
            Err(Fault::bits(Refusal::FileShort))
        );
        let mut longer = [0u8; 92];
        longer[0..91].copy_from_slice(WORKED);
        assert_eq!(rt;
            year.read(&longer),
            Err(Fault::bits(Refusal::TrailingBytes))
        );
        longer[0] = 33;
        assert_eq!(rt; year.read(&longer), Err(Fault::outside(0, 1)));
        assert_eq!(rt; year.points().len(), 3);
        Ok(())
    }

    #[test]
    fn questions(rt: HostRuntime) -> Result<(), Fail> {
        let empty = Year::new(rt.alloc())?;
        let mut buffer = [7u8; 92];
        assert_eq!(rt; empty.point(0), Err(Refusal::EmptyYear));
        assert_eq!(rt; empty.write(&mut buffer), Err(Refusal::EmptyYear));
        let year = worked(&rt, rt.alloc())?;
        let second = Point {
            identifier: 12,
            entry_cost: 0,
            exit_cost: 200,
            contract_demand: 1_000,
            energy: 6_000,
        };
        assert_eq!(rt; year.point(1), Ok(second));
        assert_eq!(rt; year.point(3), Err(Refusal::ArgumentOutOfRange));
        assert!(rt; matches!(year.element(1), Err(Refusal::ArgumentOutOfRange)));
        assert!(rt; matches!(year.network_use(2), Err(Refusal::ArgumentOutOfRange)));
        assert_eq!(rt; year.write(&mut buffer[0..90]), Err(Refusal::BufferShort));
        assert!(rt; buffer == [7u8; 92]);
        assert_eq!(rt; year.write(&mut buffer), Ok(91));
        assert_eq!(rt; buffer[91], 7);
        Ok(())
    }

    // Adds a record to a file.
    fn add<T: Row<N, M>, const N: usize, const M: usize>(
        file: &mut Vec<u8>,
        record: &T,
    ) -> Result<(), Fail> {
        let mut bytes = [0; M];
        record.write(&mut bytes, 0)?;
        file.extend_from_slice(&bytes)?;
        Ok(())
    }

    // The file of the largest year, with every total at its limit.
    fn largest(heap: Global) -> Result<Vec<u8>, Fail> {
        let mut file = Vec::new(heap);
        add(
            &mut file,
            &Header {
                year: 2999,
                points: 64,
                elements: 256,
                uses: 4096,
                allowed_revenue: 100_000_000_000,
                common_operating_cost: 100_000_000_000,
                locational_residue: -10_000_000_000,
                other_residue: 10_000_000_000,
                common_cost: 64,
            },
        )?;
        for p in 0..64 {
            add(
                &mut file,
                &Point {
                    identifier: 65_535 - p,
                    entry_cost: 78_125,
                    exit_cost: 0,
                    contract_demand: 156_250,
                    energy: 781_250,
                },
            )?;
        }
        for _ in 0..256 {
            add(
                &mut file,
                &Element {
                    cost: 19_531,
                    rating: 10_000_000,
                    peak: 10_000_000,
                },
            )?;
        }
        for u in 0..4096 {
            add(
                &mut file,
                &NetworkUse {
                    element: u / 16,
                    point: u % 16,
                    demand: 625_000,
                },
            )?;
        }
        Ok(file)
    }

    #[test]
    fn largest_year(rt: HostRuntime) -> Result<(), Fail> {
        let file = largest(rt.alloc())?;
        assert_eq!(rt; file.len(), 23_771);
        let mut year = Year::new(rt.alloc())?;
        assert_eq!(rt; year.read(&file), Ok(()));
        let mut back = vec![in rt.alloc(); 0u8; 23_771]?;
        assert_eq!(rt; year.write(&mut back), Ok(23_771));
        assert!(rt; back == file);
        Ok(())
    }
}
