// The records of a worked year file and of its bills to the byte, the faults of damaged ones, and the limits of each
// field.
#![tactic(auto)]

ghost use Rattle.std.specs.Prelude.{◌<◌};

#[cfg(test)]
mod bytes;

#[cfg(test)]
mod tests {
    use crate::bytes::*;
    use bits::fault::Fault;
    use bits::refusal::Refusal;
    use bits::row::Row;
    use records::bill::Bill;
    use records::element::Element;
    use records::header::Header;
    use records::network_use::NetworkUse;
    use records::point::Point;
    use std::process::Abort;
    use std::test::Fail;

    // A header and a bill have a `read` and a `write` of their own, so they are tried by functions of their own.
    fn header_again(rt: &impl Abort, bytes: &[u8; 27]) -> Result<Header, Fail> {
        let (header, rest) = Header::read(bytes)?;
        assert_eq!(rt; rest.len(), 0);
        let mut buffer = [0xff; 28];
        assert_eq!(rt; header.write(&mut buffer), Ok(27));
        assert_eq!(rt; &buffer[0..27], &bytes[0..27]);
        assert_eq!(rt; buffer[27], 0xff);
        Ok(header)
    }

    // The record in these bytes, which it is written as again, and no byte more.
    fn again<T: Row<N, M> + Drop, const N: usize, const M: usize>(
        rt: &impl Abort,
        bytes: &[u8; M],
        record: u16,
    ) -> Result<T, Fail>
        requires { M < 64 }
    {
        let item = T::read(bytes, record)?;
        let mut buffer = [0xff; 64];
        assert_eq!(rt; item.write(&mut buffer[0..M + 1], record), Ok(M));
        assert_eq!(rt; &buffer[0..M], bytes.as_slice());
        assert_eq!(rt; buffer[M], 0xff);
        Ok(item)
    }

    fn bill_again(rt: &impl Abort, bytes: &[u8; 41]) -> Result<Bill, Fail> {
        let bill = Bill::read(bytes)?;
        let mut buffer = [0xff; 42];
        assert_eq!(rt; bill.write(&mut buffer), Ok(41));
        assert_eq!(rt; &buffer[0..41], &bytes[0..41]);
        assert_eq!(rt; buffer[41], 0xff);
        Ok(bill)
    }

    #[test]
    fn year_file(rt: HostRuntime) -> Result<(), Fail> {
        let header = Header {
            year: 2027,
            points: 3,
            elements: 1,
            uses: 2,
            allowed_revenue: 1_000_000,
            common_operating_cost: 100_000,
            locational_residue: 0,
            other_residue: 0,
            common_cost: 100,
        };
        assert_eq!(rt; header_again(&rt, HEADER)?, header);
        let point = Point {
            identifier: 12,
            entry_cost: 0,
            exit_cost: 200,
            contract_demand: 1_000,
            energy: 6_000,
        };
        assert_eq!(rt; again::<Point, 6, 15>(&rt, POINTS[0], 1)?.entry_cost, 100);
        assert_eq!(rt; again::<Point, 6, 15>(&rt, POINTS[1], 1)?, point);
        assert_eq!(rt; again::<Point, 6, 15>(&rt, POINTS[2], 1)?.identifier, 13);
        let element = Element {
            cost: 500,
            rating: 2_000,
            peak: 1_500,
        };
        assert_eq!(rt; again::<Element, 3, 9>(&rt, ELEMENT, 4)?, element);
        let network_use = NetworkUse {
            element: 0,
            point: 1,
            demand: 1_000,
        };
        assert_eq!(rt; again::<NetworkUse, 4, 5>(&rt, USES[0], 5)?, network_use);
        assert_eq!(rt; again::<NetworkUse, 4, 5>(&rt, USES[1], 5)?.demand, 500);
        Ok(())
    }

    #[test]
    fn july_bills(rt: HostRuntime) -> Result<(), Fail> {
        assert_eq!(rt; bill_again(&rt, JULY[0])?.total, 7_500);
        let bill = Bill {
            year: 2027,
            month: 1,
            days: 31,
            identifier: 12,
            entry: 0,
            exit: 15_000,
            locational: 12_500,
            non_locational: 11_250,
            common: 9_500,
            excess: 0,
            total: 48_250,
        };
        assert_eq!(rt; bill_again(&rt, JULY[1])?, bill);
        assert_eq!(rt; bill_again(&rt, JULY[2])?.total, 27_583);
        Ok(())
    }

    #[test]
    fn damaged_records(rt: HostRuntime) {
        for (bytes, field) in DAMAGED_HEADERS {
            assert_eq!(rt; Header::read(bytes).err(), Some(Fault::outside(0, field)));
        }
        for (bytes, field) in DAMAGED_POINTS {
            assert_eq!(rt; Point::read(bytes, 2).err(), Some(Fault::outside(2, field)));
        }
        for (bytes, field) in DAMAGED_ELEMENTS {
            assert_eq!(rt;
                Element::read(bytes, 4).err(),
                Some(Fault::outside(4, field))
            );
        }
        for (bytes, field) in DAMAGED_USES {
            assert_eq!(rt;
                NetworkUse::read(bytes, 6).err(),
                Some(Fault::outside(6, field))
            );
        }
        for (bytes, field) in DAMAGED_BILLS {
            assert_eq!(rt; Bill::read(bytes).err(), Some(Fault::outside(0, field)));
        }
    }

    #[test]
    fn limits_of_fields(rt: HostRuntime) -> Result<(), Fail> {
        for bytes in HEADER_LIMITS {
            header_again(&rt, bytes)?;
        }
        for bytes in POINT_LIMITS {
            again::<Point, 6, 15>(&rt, bytes, 1)?;
        }
        for bytes in ELEMENT_LIMITS {
            again::<Element, 3, 9>(&rt, bytes, 4)?;
        }
        for bytes in USE_LIMITS {
            again::<NetworkUse, 4, 5>(&rt, bytes, 5)?;
        }
        for bytes in BILL_LIMITS {
            bill_again(&rt, bytes)?;
        }
        assert_eq!(rt;
            header_again(&rt, HEADER_LIMITS[0])?.locational_residue,
            -10_000_000_000
        );
        assert_eq!(rt;
            header_again(&rt, HEADER_LIMITS[1])?.other_residue,
            10_000_000_000
        );
        assert_eq!(rt; header_again(&rt, HEADER_LIMITS[2])?.other_residue, -1);
        Ok(())
    }

    fn short_header(bytes: &[u8; 27]) -> Option<Fault> {
        Header::read(&bytes[0..26]).err()
    }

    fn short_bill(bytes: &[u8; 41]) -> Option<Fault> {
        Bill::read(&bytes[0..40]).err()
    }

    // A length that is wrong comes before any field.
    #[test]
    fn lengths(rt: HostRuntime) {
        assert_eq!(rt; short_header(HEADER), Some(Fault::bits(Refusal::FileShort)));
        assert_eq!(rt; short_bill(JULY[1]), Some(Fault::bits(Refusal::FileShort)));
        assert_eq!(rt;
            Bill::read(&[0; 40]).err(),
            Some(Fault::bits(Refusal::FileShort))
        );
        assert_eq!(rt;
            Bill::read(&[0; 42]).err(),
            Some(Fault::bits(Refusal::TrailingBytes))
        );
        assert_eq!(rt; Fault::bits(Refusal::FileShort).refusal.number(), 1);
        assert_eq!(rt; Fault::bits(Refusal::TrailingBytes).refusal.number(), 2);
    }

    // Refused at a field, also where the buffer is too short, which then stays as it was. One for each kind, as two of the
    // three write by a function of their own.
    fn bill_refused(rt: &impl Abort, bill: Bill, field: u8) {
        let mut buffer = [7; 40];
        assert_eq!(rt; bill.write(&mut buffer), Err(Fault::outside(0, field)));
        assert_eq!(rt; buffer, [7; 40]);
    }

    fn header_refused(rt: &impl Abort, header: Header, field: u8) {
        let mut buffer = [7; 27];
        assert_eq!(rt; header.write(&mut buffer), Err(Fault::outside(0, field)));
        assert_eq!(rt; buffer, [7; 27]);
    }

    fn use_refused(rt: &impl Abort, network_use: NetworkUse, field: u8) {
        let mut buffer = [7; 5];
        assert_eq!(rt;
            network_use.write(&mut buffer, 5),
            Err(Fault::outside(5, field))
        );
        assert_eq!(rt; buffer, [7; 5]);
    }

    // A value that is out of range or too wide.
    #[test]
    fn writing_refused(rt: HostRuntime) -> Result<(), Fail> {
        let most = (1 << 40) - 1;
        let bill = bill_again(&rt, JULY[1])?;
        bill_refused(&rt, Bill { days: 30, ..bill }, 4);
        bill_refused(
            &rt,
            Bill {
                entry: 1 << 40,
                ..bill
            },
            6,
        );
        bill_refused(
            &rt,
            Bill {
                total: 48_251,
                ..bill
            },
            12,
        );
        bill_refused(
            &rt,
            Bill {
                entry: u64::MAX,
                exit: u64::MAX,
                ..bill
            },
            6,
        );
        bill_refused(
            &rt,
            Bill {
                entry: most,
                exit: most,
                total: 2 * most + 33_250,
                ..bill
            },
            12,
        );
        let header = header_again(&rt, HEADER)?;
        header_refused(
            &rt,
            Header {
                points: 65,
                ..header
            },
            3,
        );
        header_refused(
            &rt,
            Header {
                common_operating_cost: 1_000_001,
                ..header
            },
            8,
        );
        header_refused(
            &rt,
            Header {
                other_residue: i64::MIN,
                ..header
            },
            10,
        );
        header_refused(
            &rt,
            Header {
                common_cost: 1 << 24,
                ..header
            },
            11,
        );
        let network_use = again::<NetworkUse, 4, 5>(&rt, USES[0], 5)?;
        use_refused(
            &rt,
            NetworkUse {
                element: 256,
                ..network_use
            },
            1,
        );
        use_refused(
            &rt,
            NetworkUse {
                point: 64,
                ..network_use
            },
            2,
        );
        Ok(())
    }

    #[test]
    fn buffers_too_short(rt: HostRuntime) -> Result<(), Fail> {
        let mut buffer = [7; 40];
        assert_eq!(rt;
            bill_again(&rt, JULY[1])?.write(&mut buffer),
            Err(Fault::bits(Refusal::BufferShort))
        );
        assert_eq!(rt; buffer, [7; 40]);
        assert_eq!(rt; Fault::bits(Refusal::BufferShort).refusal.number(), 9);
        Ok(())
    }
}
