// Cash at its limit of 10^17 halers. No journal that anybody would read comes there: it takes 100,000 deposits.
use super::{deposit, market, withdraw};
use book::book::Book;
use book::pages::Pages;
use entries::reply::Reply;
use hourly::plain::{PlainCell, PlainRecord};
use pricing::ladder::Ladder;
use refusals::Tells;
use sharing::running::Running;
use std::test::Fail;

// Whether a reply is the refusal of this number and place; 0 where it is accepted.
fn told(number: u8, place: i64, reply: Reply) -> bool {
    match reply {
        Err(refusal) => refusal.number() == number && refusal.place() == place,
        _ => number == 0,
    }
}

// How many of so many deposits of 10^12 halers are accepted.
fn filled(book: &mut Book<'_, Ladder, Running>, deposits: u32) -> u32 {
    let mut accepted: u32 = 0;
    for _ in 0..deposits {
        if told(0, 0, deposit(book, 1, 1_000_000_000_000)) {
            accepted = accepted.saturating_add(1);
        }
    }
    accepted
}

#[test]
fn cash_at_its_limit(rt: HostRuntime) -> Result<(), Fail> {
    let mut cells = [PlainCell::default(); 48];
    let mut records = [PlainRecord::default(); 24];
    let pages = Pages {
        cells: &mut cells,
        records: &mut records,
    };
    let Ok(mut book) = Book::open(pages, 2, 1, Ladder, Running) else {
        assert!(rt; false);
        return Ok(());
    };
    assert_eq!(rt; filled(&mut book, 100_001), 100_000);
    assert!(rt; told(8, 1, deposit(&mut book, 1, 1)));
    // The seller's cash would pass, and the buyer is not covered: 8 comes first.
    assert!(rt; told(8, 1, market(&mut book, 1, 1, 1, 1, 2, 1_000, 500)));
    // At a negative price it is the buyer's cash that would pass.
    assert!(rt; told(8, 1, market(&mut book, 1, 1, 1, 2, 1, 1_000, -500)));
    assert!(rt; told(0, 0, withdraw(&mut book, 1, 1)));
    assert!(rt; told(8, 1, deposit(&mut book, 1, 2)));
    assert!(rt; told(0, 0, deposit(&mut book, 1, 1)));
    Ok(())
}
