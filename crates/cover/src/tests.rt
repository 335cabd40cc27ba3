// The worked figures of the rules, days that do not count, the edges of each range and each refusal.
use super::hour::HourPrices;
use super::need;
use super::prices::ParametricPrices;
use hourly::plain::PlainCell;

// A cell with a position alone.
fn at(position: i64) -> PlainCell {
    PlainCell {
        position,
        ..PlainCell::default()
    }
}

// The need of a party whose only position is in an hour of a single day.
fn alone(hour: usize, position: i64) -> Option<i64> {
    let mut cells = [PlainCell::default(); 24];
    if 1 <= hour && hour <= 24 {
        cells[hour - 1] = at(position);
    }
    need(&ParametricPrices::in_use(), &[true], &cells)
}

#[test]
fn a_trade_in_hour_10(rt: HostRuntime) {
    assert_eq!(rt; alone(10, 1_000), Some(450_000));
    assert_eq!(rt; alone(10, -1_000), Some(90_000));
    assert_eq!(rt; alone(10, 500), Some(225_000));
}

#[test]
fn hours_where_prices_change(rt: HostRuntime) {
    assert_eq!(rt; alone(1, 1), Some(240));
    assert_eq!(rt; alone(6, -1), Some(60));
    assert_eq!(rt; alone(7, 1), Some(360));
    assert_eq!(rt; alone(8, -1), Some(70));
    assert_eq!(rt; alone(9, 1), Some(450));
    assert_eq!(rt; alone(20, -1), Some(90));
    assert_eq!(rt; alone(21, 1), Some(300));
    assert_eq!(rt; alone(24, -1), Some(70));
}

#[test]
fn positions_are_read_through_the_check(rt: HostRuntime) {
    assert_eq!(rt; alone(1, 499_999), Some(119_999_760));
    assert_eq!(rt; alone(1, -499_999), Some(29_999_940));
    assert_eq!(rt; alone(1, 500_000), Some(0));
    assert_eq!(rt; alone(1, i64::MIN), Some(0));
}

#[test]
fn days_that_do_not_count(rt: HostRuntime) {
    let prices = ParametricPrices::in_use();
    let mut cells = [PlainCell::default(); 48];
    cells[23] = at(10);
    cells[24] = at(-10);
    assert_eq!(rt; need(&prices, &[true, true], &cells), Some(3_600));
    assert_eq!(rt; need(&prices, &[true, false], &cells), Some(3_000));
    assert_eq!(rt; need(&prices, &[false, true], &cells), Some(600));
    assert_eq!(rt; need(&prices, &[false, false], &cells), Some(0));
}

#[test]
fn sizes_that_do_not_fit(rt: HostRuntime) {
    let prices = ParametricPrices::in_use();
    assert_eq!(rt; need::<bool>(&prices, &[], &[]), None);
    assert_eq!(rt; need(&prices, &[true], &[PlainCell::default(); 23]), None);
    assert_eq!(rt; need(&prices, &[true], &[PlainCell::default(); 25]), None);
    assert_eq!(rt;
        need(&prices, &[true; 62], &[PlainCell::default(); 1_488]),
        Some(0)
    );
    assert_eq!(rt;
        need(&prices, &[true; 63], &[PlainCell::default(); 1_512]),
        None
    );
}

// The need of 1 kWh sold in each of the first hours, at a short price of 11.
fn at_eleven(hours: usize) -> Option<i64> {
    let prices = ParametricPrices::new([HourPrices { short: 11, long: 0 }; 24])?;
    let mut cells = [PlainCell::default(); 24];
    for (i, cell) in cells.iter_mut().enumerate() {
        if i < hours {
            *cell = at(1);
        }
    }
    need(&prices, &[true], &cells)
}

#[test]
fn the_sum_is_rounded_up_once(rt: HostRuntime) {
    assert_eq!(rt; at_eleven(0), Some(0));
    assert_eq!(rt; at_eleven(1), Some(2));
    assert_eq!(rt; at_eleven(2), Some(3));
    assert_eq!(rt; at_eleven(10), Some(11));
}

// Whether there is a table with these prices in the last hour.
fn admitted(short: u64, long: u64) -> bool {
    let mut hours = [HourPrices { short: 0, long: 0 }; 24];
    hours[23] = HourPrices { short, long };
    ParametricPrices::new(hours).is_some()
}

#[test]
fn prices_in_range(rt: HostRuntime) {
    assert!(rt; admitted(99_999, 99_999));
    assert!(rt; !admitted(100_000, 0));
    assert!(rt; !admitted(0, 100_000));
}
