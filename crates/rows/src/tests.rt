// The edges of the ranges, and rows of cells and records as they are changed.
use super::changes::{Delivery, Reading, Shift};
use super::{Change, change_cells, clear_cells, clear_records};
use hourly::plain::{PlainCell, PlainDeliveries, PlainRecord};

const CELL: PlainCell = PlainCell {
    position: 499_999,
    regulating: 10,
    tenths: -7,
    metered: false,
    reading: 0,
    last: 5,
};

// Beyond its limit, so that it counts as cleared.
const BEYOND: PlainCell = PlainCell {
    position: 500_000,
    ..CELL
};

#[test]
fn ranges(rt: HostRuntime) {
    assert!(rt; Shift::new(499_000).is_some());
    assert!(rt; Shift::new(-499_001).is_none());
    assert!(rt; Reading::new(-499_999).is_some());
    assert!(rt; Reading::new(500_000).is_none());
    assert!(rt; Delivery::new(-499_000, -99_999).is_some());
    assert!(rt; Delivery::new(499_001, 0).is_none());
    assert!(rt; Delivery::new(0, 100_000).is_none());
}

#[test]
fn a_position_may_pass_its_limit(rt: HostRuntime) {
    let mut row = [CELL, BEYOND];
    if let Some(shift) = Shift::new(499_000) {
        change_cells(&mut row, &shift);
    }
    assert_eq!(rt; row[0].position, 998_999);
    assert_eq!(rt; row[0].last, 5);
    assert_eq!(rt; row[1].position, 499_000);
    assert_eq!(rt; row[1].last, 0);
}

#[test]
fn a_reading_of_zero_is_a_reading(rt: HostRuntime) {
    let mut row = [CELL];
    if let Some(reading) = Reading::new(0) {
        change_cells(&mut row, &reading);
    }
    assert!(rt; row[0].metered);
    assert_eq!(rt; row[0].reading, 0);
    assert_eq!(rt; row[0].position, 499_999);
}

#[test]
fn a_delivery_downward(rt: HostRuntime) {
    let mut row = [CELL];
    if let Some(delivery) = Delivery::new(-499_000, 99_999) {
        change_cells(&mut row, &delivery);
    }
    assert_eq!(rt; row[0].regulating, -498_990);
    assert_eq!(rt; row[0].tenths, -49_899_501_007);
}

#[test]
fn clearing(rt: HostRuntime) {
    let mut row = [CELL, BEYOND];
    clear_cells(&mut row);
    assert_eq!(rt; row, [PlainCell::default(); 2]);
    let some = PlainDeliveries {
        kwh: 3,
        total: 3,
        delivered: true,
        extreme: 1,
    };
    let mut records = [PlainRecord {
        upward: some,
        downward: some,
    }];
    clear_records(&mut records);
    assert_eq!(rt; records, [PlainRecord::default()]);
}
