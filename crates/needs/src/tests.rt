// The worked figures of the rules, trades not yet written, days that do not count, the edges of each range, and where there is no answer.
use super::trade::Trade;
use super::{need, need_with};
use cover::hour::HourPrices;
use cover::prices::ParametricPrices;
use entries::entry::DayState;
use hourly::plain::PlainCell;

// A cell with a position alone.
fn at(position: i64) -> PlainCell {
    PlainCell {
        position,
        ..PlainCell::default()
    }
}

// The need of a party whose only position is in an hour of a single day.
fn alone(hour: usize, position: i64) -> Option<i64> {
    let mut cells = [PlainCell::default(); 24];
    if 1 <= hour && hour <= 24 {
        cells[hour - 1] = at(position);
    }
    need(&ParametricPrices::in_use(), &[DayState::Open], &cells)
}

#[test]
fn a_trade_in_hour_10(rt: HostRuntime) {
    assert_eq!(rt; alone(10, 1_000), Some(450_000));
    assert_eq!(rt; alone(10, -1_000), Some(90_000));
    assert_eq!(rt; alone(10, 500), Some(225_000));
}

#[test]
fn hours_where_prices_change(rt: HostRuntime) {
    assert_eq!(rt; alone(1, 1), Some(240));
    assert_eq!(rt; alone(6, -1), Some(60));
    assert_eq!(rt; alone(7, 1), Some(360));
    assert_eq!(rt; alone(8, -1), Some(70));
    assert_eq!(rt; alone(9, 1), Some(450));
    assert_eq!(rt; alone(20, -1), Some(90));
    assert_eq!(rt; alone(21, 1), Some(300));
    assert_eq!(rt; alone(24, -1), Some(70));
}

#[test]
fn positions_are_read_through_the_check(rt: HostRuntime) {
    assert_eq!(rt; alone(1, 499_999), Some(119_999_760));
    assert_eq!(rt; alone(1, -499_999), Some(29_999_940));
    assert_eq!(rt; alone(1, 500_000), Some(0));
    assert_eq!(rt; alone(1, i64::MIN), Some(0));
}

#[test]
fn days_that_do_not_count(rt: HostRuntime) {
    let prices = ParametricPrices::in_use();
    let mut cells = [PlainCell::default(); 48];
    cells[23] = at(10);
    cells[24] = at(-10);
    assert_eq!(rt;
        need(&prices, &[DayState::Open, DayState::Open], &cells),
        Some(3_600)
    );
    assert_eq!(rt;
        need(&prices, &[DayState::Open, DayState::Closed], &cells),
        Some(3_600)
    );
    assert_eq!(rt;
        need(&prices, &[DayState::Closed, DayState::Daily], &cells),
        Some(3_000)
    );
    assert_eq!(rt;
        need(&prices, &[DayState::Monthly, DayState::Open], &cells),
        Some(600)
    );
    assert_eq!(rt;
        need(&prices, &[DayState::Final, DayState::Final], &cells),
        Some(0)
    );
}

#[test]
fn sizes_that_do_not_fit(rt: HostRuntime) {
    let prices = ParametricPrices::in_use();
    let none = Trade {
        start: 0,
        end: 0,
        kwh: 0,
    };
    assert_eq!(rt; need(&prices, &[], &[]), None);
    assert_eq!(rt;
        need(&prices, &[DayState::Open], &[PlainCell::default(); 23]),
        None
    );
    assert_eq!(rt;
        need(&prices, &[DayState::Open], &[PlainCell::default(); 25]),
        None
    );
    assert_eq!(rt;
        need(
            &prices,
            &[DayState::Open; 62],
            &[PlainCell::default(); 1_488]
        ),
        Some(0)
    );
    assert_eq!(rt;
        need(
            &prices,
            &[DayState::Open; 63],
            &[PlainCell::default(); 1_512]
        ),
        None
    );
    assert_eq!(rt; need_with(&prices, &[], &[], &none), None);
    assert_eq!(rt;
        need_with(
            &prices,
            &[DayState::Open],
            &[PlainCell::default(); 23],
            &none
        ),
        None
    );
    assert_eq!(rt;
        need_with(
            &prices,
            &[DayState::Open; 63],
            &[PlainCell::default(); 1_512],
            &none
        ),
        None
    );
}

// The need after a trade of a party that has sold 1,000 kWh in hour 10 of the first of two days, which are in these states.
fn after(states: [DayState; 2], start: usize, end: usize, kwh: i64) -> Option<i64> {
    let mut cells = [PlainCell::default(); 48];
    cells[9] = at(1_000);
    need_with(
        &ParametricPrices::in_use(),
        &states,
        &cells,
        &Trade { start, end, kwh },
    )
}

const BOTH: [DayState; 2] = [DayState::Open, DayState::Open];

#[test]
fn a_sale_bought_back(rt: HostRuntime) {
    assert_eq!(rt; after(BOTH, 9, 10, 0), Some(450_000));
    assert_eq!(rt; after(BOTH, 9, 10, -500), Some(225_000));
    assert_eq!(rt; after(BOTH, 9, 10, -1_000), Some(0));
    assert_eq!(rt; after(BOTH, 9, 10, -1_500), Some(45_000));
}

#[test]
fn where_a_trade_counts(rt: HostRuntime) {
    assert_eq!(rt; after(BOTH, 8, 10, 1), Some(450_900));
    assert_eq!(rt; after(BOTH, 10, 12, 1), Some(450_900));
    assert_eq!(rt; after(BOTH, 9, 9, 1), Some(450_000));
    assert_eq!(rt; after(BOTH, 10, 9, 1), Some(450_000));
    assert_eq!(rt; after(BOTH, 24, 25, 1), Some(450_240));
    assert_eq!(rt; after(BOTH, 47, 48, -1), Some(450_070));
    assert_eq!(rt; after(BOTH, 48, 49, 1), Some(450_000));
    assert_eq!(rt; after(BOTH, 47, usize::MAX, 1), Some(450_300));
}

#[test]
fn a_trade_on_days_that_do_not_count(rt: HostRuntime) {
    assert_eq!(rt;
        after([DayState::Open, DayState::Closed], 24, 25, 1),
        Some(450_240)
    );
    assert_eq!(rt;
        after([DayState::Open, DayState::Daily], 24, 25, 1),
        Some(450_000)
    );
    assert_eq!(rt;
        after([DayState::Daily, DayState::Open], 9, 25, 1),
        Some(240)
    );
}

#[test]
fn trades_out_of_range(rt: HostRuntime) {
    assert_eq!(rt; after(BOTH, 24, 25, 499_000), Some(120_210_000));
    assert_eq!(rt; after(BOTH, 24, 25, -499_000), Some(30_390_000));
    assert_eq!(rt; after(BOTH, 24, 25, 499_001), None);
    assert_eq!(rt; after(BOTH, 24, 25, -499_001), None);
    assert_eq!(rt; after(BOTH, 24, 25, i64::MIN), None);
}

// The need of 1 kWh sold in each of the first hours, at a short price of 11.
fn at_eleven(hours: usize) -> Option<i64> {
    let prices = ParametricPrices::new([HourPrices { short: 11, long: 0 }; 24])?;
    let mut cells = [PlainCell::default(); 24];
    for (i, cell) in cells.iter_mut().enumerate() {
        if i < hours {
            *cell = at(1);
        }
    }
    need(&prices, &[DayState::Open], &cells)
}

#[test]
fn the_sum_is_rounded_up_once(rt: HostRuntime) {
    assert_eq!(rt; at_eleven(0), Some(0));
    assert_eq!(rt; at_eleven(1), Some(2));
    assert_eq!(rt; at_eleven(2), Some(3));
    assert_eq!(rt; at_eleven(10), Some(11));
}
