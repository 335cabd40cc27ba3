// The edges of the ranges, and which refusal comes first where several conditions hold.
use super::entry::{DayState, Entry, Sizes};
use super::refusal::Refusal;
use super::{check_fields, next_state};
use refusals::Tells;

fn told(number: u8, place: i64, answer: Result<(), Refusal>) -> bool {
    match answer {
        Err(refusal) => refusal.number() == number && refusal.place() == place,
        Ok(()) => number == 0,
    }
}

fn trade(kwh: i64, price: i64) -> Result<(), Refusal> {
    check_fields(
        &Sizes {
            parties: 3,
            days: 2,
        },
        &Entry::Market {
            day: 2,
            from: 1,
            to: 24,
            seller: 3,
            buyer: 1,
            kwh,
            price,
        },
    )
}

fn registration(
    day: i64,
    from: i64,
    to: i64,
    seller: i64,
    buyer: i64,
    kwh: i64,
) -> Result<(), Refusal> {
    check_fields(
        &Sizes {
            parties: 3,
            days: 2,
        },
        &Entry::Register {
            day,
            from,
            to,
            seller,
            buyer,
            kwh,
        },
    )
}

#[test]
fn trades(rt: HostRuntime) {
    assert!(rt; told(0, 0, trade(499_000, -99_999)));
    assert!(rt; told(4, 499_100, trade(499_100, 0)));
    assert!(rt; told(4, 1_050, trade(1_050, 1)));
    assert!(rt; told(4, 900, trade(900, 1)));
    assert!(rt; told(4, 0, trade(1_000, 0)));
    assert!(rt; told(4, -100_000, trade(1_000, -100_000)));
}

#[test]
fn order(rt: HostRuntime) {
    assert!(rt; told(1, -4, registration(9, 0, 25, 2, -4, 0)));
    assert!(rt; told(1, 4, registration(9, 0, 25, 4, -4, 0)));
    assert!(rt; told(2, 0, registration(0, 0, 25, 3, 3, 0)));
    assert!(rt; told(3, 1, registration(2, 1, 25, 3, 3, 0)));
    assert!(rt; told(3, 7, registration(2, 7, 6, 3, 3, 0)));
    assert!(rt; told(4, 499_001, registration(2, 7, 7, 3, 3, 499_001)));
    assert!(rt; told(5, 3, registration(2, 7, 7, 3, 3, 499_000)));
}

#[test]
fn states(rt: HostRuntime) {
    let stage = Entry::Evaluate { day: 1, stage: 2 };
    assert!(rt;
        match next_state(DayState::Monthly, &stage) {
            Ok(_) => false,
            Err(refusal) => told(6, 3, Err(refusal)),
        }
    );
    assert!(rt;
        match next_state(DayState::Daily, &stage) {
            Ok(next) => next.number() == 3,
            Err(_) => false,
        }
    );
    assert_eq!(rt;
        Refusal::ReadingMissing {
            hour: 24,
            party: 20,
        }
        .place(),
        2_420
    );
}
