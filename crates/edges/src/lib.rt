// Tests of the leaves at the edges of their ranges and at each refusal. The contracts say all of this and more; these run it.
#![tactic(auto)]

#[cfg(test)]
mod tests {
    use hourly::cell::Cell;
    use hourly::plain::{PlainCell, PlainDeliveries, PlainRecord};
    use hourly::record::HourRecord;
    use pricing::Pricing;
    use pricing::ladder::Ladder;
    use pricing::price::Price;
    use pricing::regulating::Regulating;
    use refusals::Tells;
    use sharing::running::Running;
    use sheet::balanced::Balanced;
    use sheet::settle_hour;
    use std::test::Fail;

    const CLEARED: PlainCell = PlainCell {
        position: 0,
        regulating: 0,
        tenths: 0,
        metered: false,
        reading: 0,
        last: 0,
    };

    const METERED: PlainCell = PlainCell {
        metered: true,
        ..CLEARED
    };

    #[test]
    fn halves_go_away_from_zero(rt: HostRuntime) {
        assert_eq!(rt; units::round_tenths(15), 2);
        assert_eq!(rt; units::round_tenths(-15), -2);
        assert_eq!(rt; units::round_tenths(14), 1);
        assert_eq!(rt; units::round_tenths(-4), 0);
        assert_eq!(rt; units::round_tenths(-5), -1);
        assert_eq!(rt; units::round_tenths(i64::MAX), 922_337_203_685_477_581);
        assert_eq!(rt; units::round_tenths(i64::MIN), -922_337_203_685_477_581);
    }

    #[test]
    fn any_divisor_but_zero(rt: HostRuntime) {
        assert_eq!(rt; units::nearest(5, 2), Some(3));
        assert_eq!(rt; units::nearest(-5, 2), Some(-3));
        assert_eq!(rt; units::nearest(10, 3), Some(3));
        assert_eq!(rt; units::nearest(i64::MIN, 1), Some(i64::MIN));
        assert_eq!(rt; units::nearest(i64::MAX, u64::MAX), Some(0));
        assert_eq!(rt; units::nearest(i64::MIN, u64::MAX), Some(-1));
        assert_eq!(rt; units::nearest(1, 0), None);
    }

    #[test]
    fn tenths_have_limits(rt: HostRuntime) {
        assert_eq!(rt;
            units::tenths_at(2_000_000, -99_999),
            Some(-199_998_000_000)
        );
        assert_eq!(rt; units::tenths_at(2_000_001, 1), None);
        assert_eq!(rt; units::tenths_at(-2_000_001, 1), None);
        assert_eq!(rt; units::tenths_at(1, 100_000), None);
        assert_eq!(rt; units::tenths_at(1, i64::MIN), None);
    }

    // Whether a plain cell is sound: its position is kept.
    fn kept(cell: PlainCell) -> bool {
        Cell::from_plain(&cell).position == cell.position
    }

    fn at(position: i64) -> PlainCell {
        PlainCell {
            position,
            ..CLEARED
        }
    }

    #[test]
    fn cells_have_bounds(rt: HostRuntime) {
        assert!(rt; kept(at(499_999)) && kept(at(-499_999)));
        assert!(rt; !kept(at(500_000)) && !kept(at(-500_000)));
        assert!(rt;
            kept(PlainCell {
                regulating: -999_998,
                ..at(1)
            })
        );
        assert!(rt;
            !kept(PlainCell {
                regulating: 999_999,
                ..at(1)
            })
        );
        assert!(rt;
            kept(PlainCell {
                tenths: 99_998_800_002,
                ..at(1)
            })
        );
        assert!(rt;
            !kept(PlainCell {
                tenths: -99_998_800_003,
                ..at(1)
            })
        );
        assert!(rt;
            kept(PlainCell {
                metered: true,
                reading: -499_999,
                ..at(1)
            })
        );
        assert!(rt;
            !kept(PlainCell {
                metered: true,
                reading: 500_000,
                ..at(1)
            })
        );
    }

    #[test]
    fn cells_without_a_reading(rt: HostRuntime) {
        assert!(rt;
            !kept(PlainCell {
                reading: 1,
                ..at(1)
            })
        );
        assert!(rt;
            kept(PlainCell {
                last: 630_000_000_000,
                ..at(1)
            })
        );
        assert!(rt;
            !kept(PlainCell {
                last: -630_000_000_001,
                ..at(1)
            })
        );
        assert_eq!(rt; at(-7).position(), -7);
        assert_eq!(rt; at(500_000).position(), 0);
        assert_eq!(rt; Cell::from_plain(&METERED).reading, Some(0));
        assert_eq!(rt; Cell::from_plain(&CLEARED).reading, None);
    }

    // Whether upward deliveries are kept beside none downward.
    fn kept_upward(kwh: u64, total: i64, extreme: i64) -> bool {
        let upward = PlainDeliveries {
            kwh,
            total,
            delivered: true,
            extreme,
        };
        let record = PlainRecord {
            upward,
            ..PlainRecord::default()
        };
        HourRecord::from_plain(&record).upward.kwh == kwh
    }

    fn kept_downward(kwh: u64, total: i64, extreme: i64) -> bool {
        let downward = PlainDeliveries {
            kwh,
            total,
            delivered: true,
            extreme,
        };
        let record = PlainRecord {
            downward,
            ..PlainRecord::default()
        };
        HourRecord::from_plain(&record).downward.kwh == kwh
    }

    #[test]
    fn records_have_bounds(rt: HostRuntime) {
        assert!(rt; kept_upward(499_999, 0, 99_999) && !kept_upward(500_000, 0, 99_999));
        assert!(rt; kept_upward(1, -99_999, -99_999) && !kept_upward(1, -100_000, 99_999));
        assert!(rt; !kept_upward(1, 0, 100_000));
        assert!(rt; kept_upward(10, 50, 5) && !kept_upward(10, 51, 5));
        assert!(rt; kept_downward(10, 50, 5) && !kept_downward(10, 49, 5));
    }

    // The downward kWh and the lowest price after a second delivery to an hour with 100 kWh at 700 downward.
    fn delivered_downward(kwh: i64, price: i64) -> Option<(u64, Option<i64>)> {
        let first = HourRecord::default().deliver(-100, 700)?;
        let second = first.deliver(kwh, price)?;
        Some((second.downward.kwh, second.downward.extreme))
    }

    #[test]
    fn deliveries_have_limits(rt: HostRuntime) {
        assert_eq!(rt; delivered_downward(-50, -20), Some((150, Some(-20))));
        assert_eq!(rt; delivered_downward(-50, 800), Some((150, Some(700))));
        assert_eq!(rt; delivered_downward(499_999, 99_999), Some((100, Some(700))));
        assert_eq!(rt;
            delivered_downward(-499_899, 99_999),
            Some((499_999, Some(700)))
        );
        assert_eq!(rt; delivered_downward(-499_900, 0), None);
        assert_eq!(rt; delivered_downward(500_000, 0), None);
        assert_eq!(rt; delivered_downward(0, 1), None);
        assert_eq!(rt; delivered_downward(1, 100_000), None);
        assert_eq!(rt; delivered_downward(i64::MIN, -99_999), None);
    }

    #[test]
    fn ladder_rungs(rt: HostRuntime) {
        let hour = HourRecord::default();
        assert_eq!(rt; long(&Ladder, 0, &hour), Ok(3_000));
        assert_eq!(rt; long(&Ladder, -50_000, &hour), Ok(3_000));
        assert_eq!(rt; long(&Ladder, -50_001, &hour), Ok(4_500));
        assert_eq!(rt; long(&Ladder, -200_001, &hour), Ok(6_000));
        assert_eq!(rt; long(&Ladder, -500_001, &hour), Ok(9_000));
        assert_eq!(rt; long(&Ladder, 1, &hour), Ok(1_200));
        assert_eq!(rt; long(&Ladder, 200_000, &hour), Ok(600));
        assert_eq!(rt; long(&Ladder, 500_000, &hour), Ok(0));
        assert_eq!(rt; long(&Ladder, 500_001, &hour), Ok(-500));
    }

    // The long price, or number and place of the refusal.
    fn long<P: Pricing>(rule: &P, system: i64, hour: &HourRecord) -> Result<i64, (u8, i64)> {
        rule.prices(system, hour)
            .map(|prices| prices.long)
            .map_err(|refusal| (refusal.number(), refusal.place()))
    }

    #[test]
    fn system_imbalance_limits(rt: HostRuntime) -> Result<(), Fail> {
        let hour = HourRecord::default();
        let Some(default) = Price::new(-99_999) else {
            return Err(Fail::new("a price in range"));
        };
        let rule = Regulating { default };
        assert_eq!(rt; long(&rule, 10_000_000_000, &hour), Ok(-99_999));
        assert_eq!(rt;
            long(&rule, 10_000_000_001, &hour),
            Err((4, 10_000_000_001))
        );
        assert_eq!(rt; long(&Ladder, -10_000_000_000, &hour), Ok(9_000));
        assert_eq!(rt;
            long(&Ladder, -10_000_000_001, &hour),
            Err((4, -10_000_000_001))
        );
        assert_eq!(rt; default.value(), -99_999);
        assert!(rt; Price::new(100_000).is_none() && Price::new(-100_000).is_none());
        Ok(())
    }

    // Number and place of the refusal that an hour's sheet carries.
    fn refused(hour: i64, cells: &[PlainCell]) -> Option<(u8, i64)> {
        told(&settle_hour(hour, cells, &PlainRecord::default(), &Ladder, &Running))
    }

    fn told(sheet: &Balanced) -> Option<(u8, i64)> {
        let refusal = sheet.refusal()?;
        Some((refusal.number(), refusal.place()))
    }

    #[test]
    fn sheets_refuse(rt: HostRuntime) {
        assert_eq!(rt; refused(1, &[]), Some((11, 0)));
        assert_eq!(rt; refused(1, &[METERED; 20]), None);
        assert_eq!(rt; refused(0, &[METERED; 21]), Some((11, 0)));
        assert_eq!(rt; refused(0, &[CLEARED; 2]), Some((3, 0)));
        assert_eq!(rt; refused(25, &[CLEARED; 2]), Some((3, 25)));
        assert_eq!(rt;
            refused(24, &[METERED, CLEARED, CLEARED]),
            Some((10, 2_402))
        );
        assert_eq!(rt; refused(1, &[CLEARED, METERED]), Some((10, 101)));
    }

    #[test]
    fn a_refused_sheet_is_empty(rt: HostRuntime) {
        let sheet = settle_hour(
            3,
            &[CLEARED, METERED],
            &PlainRecord::default(),
            &Ladder,
            &Running,
        );
        assert_eq!(rt; sheet.totals().parties, 0);
        assert_eq!(rt; sheet.totals().remainder, 0);
        assert_eq!(rt; sheet.totals().operator, 0);
        assert!(rt; sheet.line(1).is_none());
        assert_eq!(rt; sheet.amount(1), None);
    }

    #[test]
    fn amounts_by_party(rt: HostRuntime) {
        let short = PlainCell {
            position: 1_000,
            reading: 900,
            ..METERED
        };
        let long = PlainCell {
            position: -1_000,
            reading: -1_050,
            ..METERED
        };
        let sheet = settle_hour(
            24,
            &[short, long],
            &PlainRecord::default(),
            &Ladder,
            &Running,
        );
        assert_eq!(rt; sheet.amount(0), None);
        assert_eq!(rt; sheet.amount(1), Some(-9_231));
        assert_eq!(rt; sheet.amount(2), Some(9_231));
        assert_eq!(rt; sheet.amount(3), None);
    }
}
