// A short run with a refusal in it, and runs that are refused whole.
use super::run;
use book::pages::Pages;
use entries::entry::Entry;
use entries::reply::{Receipt, Reply};
use hourly::plain::{PlainCell, PlainDeliveries, PlainRecord};
use pricing::ladder::Ladder;
use refusals::Tells;
use sharing::running::Running;

// Numbers that a book must clear.
const CELL: PlainCell = PlainCell {
    position: 7,
    regulating: 7,
    tenths: 7,
    metered: true,
    reading: 7,
    last: 7,
};

const RECORD: PlainRecord = PlainRecord {
    upward: PlainDeliveries {
        kwh: 7,
        total: 7,
        delivered: true,
        extreme: 7,
    },
    downward: PlainDeliveries {
        kwh: 7,
        total: 7,
        delivered: true,
        extreme: 7,
    },
};

// A reply that no entry of these runs has.
const UNUSED: Reply = Ok(Receipt::Paid {
    payments: [0; 20],
    operator: 0,
});

const SALE: Entry = Entry::Register {
    day: 1,
    from: 10,
    to: 10,
    seller: 1,
    buyer: 2,
    kwh: 1_000,
};

const ENTRIES: [Entry; 6] = [
    Entry::Deposit {
        party: 1,
        haler: 500_000,
    },
    SALE,
    Entry::Deposit {
        party: 2,
        haler: 100_000,
    },
    SALE,
    Entry::Close { day: 1 },
    SALE,
];

// 0 for an accepted entry, the number of its refusal for a refused one, 99 for a place that was not written.
fn code(reply: &Reply) -> u8 {
    match reply {
        Ok(Receipt::Accepted) => 0,
        Err(refusal) => refusal.number(),
        Ok(Receipt::Paid { .. }) => 99,
    }
}

// The number of the refusal of the whole run, or 0.
fn ran(
    cells: &mut [PlainCell],
    records: &mut [PlainRecord],
    parties: i64,
    replies: &mut [Reply],
) -> u8 {
    match run(
        Pages { cells, records },
        parties,
        1,
        Ladder,
        Running,
        &ENTRIES,
        replies,
    ) {
        Ok(_) => 0,
        Err(returned) => returned.refusal.number(),
    }
}

#[test]
fn replies_at_their_places(rt: HostRuntime) {
    let mut cells = [CELL; 48];
    let mut records = [RECORD; 24];
    let mut replies = [UNUSED; 7];
    assert_eq!(rt; ran(&mut cells, &mut records, 2, &mut replies), 0);
    assert_eq!(rt; code(&replies[0]), 0);
    assert_eq!(rt; code(&replies[1]), 9);
    assert_eq!(rt; code(&replies[2]), 0);
    assert_eq!(rt; code(&replies[3]), 0);
    assert_eq!(rt; code(&replies[4]), 0);
    assert_eq!(rt; code(&replies[5]), 6);
    assert_eq!(rt; code(&replies[6]), 99);
    assert_eq!(rt; cells[9].position, 1_000);
    assert_eq!(rt; cells[33].position, -1_000);
    assert_eq!(rt; cells[10].position, 0);
}

#[test]
fn refused_whole(rt: HostRuntime) {
    let mut cells = [CELL; 48];
    let mut records = [RECORD; 24];
    let mut few = [UNUSED; 5];
    let mut replies = [UNUSED; 6];
    assert_eq!(rt; ran(&mut cells, &mut records, 3, &mut replies), 11);
    assert_eq!(rt; ran(&mut cells, &mut records, 2, &mut few), 11);
    assert_eq!(rt; code(&few[0]), 99);
    assert_eq!(rt; code(&replies[0]), 99);
    assert_eq!(rt; cells[0].position, 7);
    assert_eq!(rt; ran(&mut cells, &mut records, 2, &mut replies), 0);
}
