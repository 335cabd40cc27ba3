// The line call at the edges of what it answers, a journal's book, and an input from byte to byte.
use super::{Input, Journal};
use book::pages::Pages;
use hourly::plain::{PlainCell, PlainDeliveries, PlainRecord};
use refusals::Tells;

// Numbers that a book must clear.
const CELL: PlainCell = PlainCell {
    position: 7,
    regulating: 7,
    tenths: 7,
    metered: true,
    reading: 7,
    last: 7,
};

const RECORD: PlainRecord = PlainRecord {
    upward: PlainDeliveries {
        kwh: 7,
        total: 7,
        delivered: true,
        extreme: 7,
    },
    downward: PlainDeliveries {
        kwh: 7,
        total: 7,
        delivered: true,
        extreme: 7,
    },
};

fn wrote(out: &[u8], len: Option<usize>, text: &[u8]) -> bool {
    match len {
        Some(n) => n <= out.len() && &out[0..n] == text,
        None => false,
    }
}

// Whether a line is answered by this text.
fn answers(journal: &mut Journal, number: i64, line: &[u8], text: &[u8]) -> bool {
    let mut out = [7u8; 4096];
    let len = journal.answer_line(&mut out, number, line);
    wrote(&out, len, text)
}

// How many bytes were answered, as these came in.
fn fed(input: &mut Input, out: &mut [u8], bytes: &[u8]) -> usize {
    let mut all: usize = 0;
    for b in bytes {
        all = all.saturating_add(input.take_byte(out, *b).unwrap_or(1));
    }
    all
}

// The number of the refusal to start a journal, or 0.
fn refused(cells: &mut [PlainCell], records: &mut [PlainRecord], parties: i64, days: i64) -> u8 {
    match Journal::start(Pages { cells, records }, parties, days) {
        Ok(_) => 0,
        Err(returned) => returned.refusal.number(),
    }
}

#[test]
fn starts(rt: HostRuntime) {
    let mut cells = [CELL; 48];
    let mut records = [RECORD; 24];
    assert_eq!(rt; refused(&mut cells, &mut records, 2, 1), 0);
    assert_eq!(rt; refused(&mut cells, &mut records, 1, 1), 11);
    assert_eq!(rt; refused(&mut cells, &mut records, 1, 2), 11);
    assert_eq!(rt; refused(&mut cells, &mut records, 0, 1), 11);
    assert_eq!(rt; refused(&mut cells, &mut records, 2, -1), 11);
    assert_eq!(rt; cells[0].position, 7);
}

#[test]
fn lines(rt: HostRuntime) {
    let mut cells = [CELL; 48];
    let mut records = [RECORD; 24];
    let pages = Pages {
        cells: &mut cells,
        records: &mut records,
    };
    let Ok(mut journal) = Journal::start(pages, 2, 1) else {
        panic!(rt; "no journal");
    };
    let mut out = [7u8; 4096];
    assert_eq!(rt; journal.answer_line(&mut out, 1, b""), Some(0));
    assert_eq!(rt; journal.answer_line(&mut out, 0, b""), None);
    assert_eq!(rt; journal.answer_line(&mut out, 1_000_000_000, b"(a)"), None);
    let mut short = [7u8; 4095];
    assert_eq!(rt; journal.answer_line(&mut short, 1, b""), None);
    assert!(rt;
        answers(
            &mut journal,
            999_999_999,
            b"(show (party 1))",
            b"(no (line 999999999) (layer 3) (number 13) (place 0))\n",
        )
    );
    assert!(rt;
        answers(
            &mut journal,
            2,
            b"(show (party 01))",
            b"(no (line 2) (layer 2) (number 33) (place 14))\n",
        )
    );
    assert!(rt;
        answers(
            &mut journal,
            3,
            &[b'a'; 201],
            b"(no (line 3) (layer 1) (number 23) (place 201))\n",
        )
    );
}

#[test]
fn books(rt: HostRuntime) {
    let mut cells = [CELL; 48];
    let mut records = [RECORD; 24];
    let pages = Pages {
        cells: &mut cells,
        records: &mut records,
    };
    let Ok(mut journal) = Journal::start(pages, 2, 1) else {
        panic!(rt; "no journal");
    };
    assert!(rt;
        answers(
            &mut journal,
            1,
            b"(book (parties 3) (days 1) (pricing 3) (default 0) (sharing 1))",
            b"(no (line 1) (layer 3) (number 11) (place 0))\n",
        )
    );
    assert!(rt;
        answers(
            &mut journal,
            2,
            b"(book (parties 1) (days 2) (pricing 3) (default 0) (sharing 1))",
            b"(no (line 2) (layer 3) (number 11) (place 0))\n",
        )
    );
    assert!(rt;
        answers(
            &mut journal,
            3,
            b"(book (parties 1) (days 1) (pricing 2) (default 100000) (sharing 3))",
            b"(no (line 3) (layer 3) (number 4) (place 100000))\n",
        )
    );
    assert!(rt;
        answers(
            &mut journal,
            4,
            b"(book (parties 1) (days 1) (pricing 2) (default 0) (sharing 1))",
            b"(ok (line 4))\n",
        )
    );
    assert!(rt;
        answers(
            &mut journal,
            5,
            b"(book (parties 0) (days 1) (pricing 2) (default 0) (sharing 1))",
            b"(no (line 5) (layer 3) (number 13) (place 0))\n",
        )
    );
    assert!(rt; answers(&mut journal, 6, b"(close (day 1))", b"(ok (line 6))\n"));
}

#[test]
fn bytes(rt: HostRuntime) {
    let mut cells = [CELL; 48];
    let mut records = [RECORD; 24];
    let pages = Pages {
        cells: &mut cells,
        records: &mut records,
    };
    let Ok(journal) = Journal::start(pages, 2, 1) else {
        panic!(rt; "no journal");
    };
    let mut out = [7u8; 4096];
    let mut input = Input::new(journal);
    let mut short = [7u8; 4095];
    assert_eq!(rt; input.take_byte(&mut short, b'('), None);
    assert_eq!(rt; input.take_byte(&mut out, b'\n'), Some(0));
    assert_eq!(rt; fed(&mut input, &mut out, &[b'('; 300]), 0);
    let n = input.take_byte(&mut out, b'\n');
    assert!(rt;
        wrote(
            &out,
            n,
            b"(no (line 2) (layer 1) (number 23) (place 201))\n",
        )
    );
    assert_eq!(rt; input.take_byte(&mut out, b'('), Some(0));
    let (n, _) = input.finish(&mut out);
    assert!(rt; wrote(&out, n, b"(no (line 3) (layer 1) (number 22) (place 2))\n"));
}

// The example journal of the rules, up to its evaluation.
#[test]
fn example(rt: HostRuntime) {
    let mut cells = [CELL; 48];
    let mut records = [RECORD; 24];
    let pages = Pages {
        cells: &mut cells,
        records: &mut records,
    };
    let Ok(mut journal) = Journal::start(pages, 2, 1) else {
        panic!(rt; "no journal");
    };
    assert!(rt;
        answers(
            &mut journal,
            1,
            b"(book (parties 2) (days 1) (pricing 2) (default 0) (sharing 1))",
            b"(ok (line 1))\n",
        )
    );
    assert!(rt;
        answers(
            &mut journal,
            2,
            b"(register (day 1) (from 10) (to 10) (seller 1) (buyer 2) (kwh 1000))",
            b"(no (line 2) (layer 3) (number 9) (place 1))\n",
        )
    );
    assert!(rt; answers(&mut journal, 3, b"(close (day 1))", b"(ok (line 3))\n"));
    assert!(rt;
        answers(
            &mut journal,
            4,
            b"(meter (day 1) (from 1) (to 24) (party 1) (kwh 900))",
            b"(ok (line 4))\n",
        )
    );
    assert!(rt;
        answers(
            &mut journal,
            5,
            b"(meter (day 1) (from 1) (to 24) (party 2) (kwh -1050))",
            b"(ok (line 5))\n",
        )
    );
    assert!(rt;
        answers(
            &mut journal,
            6,
            b"(show (party 2))",
            b"(show (line 6) (party 2) (balance 0) (need 0))\n",
        )
    );
}
