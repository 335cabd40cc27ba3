// Answers the lines of standard input on standard output (docs/RULES.md, "The line call" and "Answers").
#![tactic(auto)]

use book::pages::Pages;
use hourly::plain::{PlainCell, PlainRecord};
use keeping::Journal;
use std::io;
use std::io::{BufWriter, Write};

// The most parties and days of the book.
const PARTIES: i64 = 8;

const DAYS: i64 = 4;

// The hour records and the cells of such a book.
const RECORDS: usize = DAYS as usize * 24;

const CELLS: usize = PARTIES as usize * RECORDS;

fn main(rt: HostRuntime) -> io::Result<()> {
    let mut out = BufWriter::new(rt.alloc(), rt.stdout())?;
    let mut cells = [PlainCell::default(); CELLS];
    let mut records = [PlainRecord::default(); RECORDS];
    let pages = Pages {
        cells: &mut cells,
        records: &mut records,
    };
    let Ok(journal) = Journal::start(pages, PARTIES, DAYS) else {
        unreachable()
    };
    journal::answer_input_kept(journal, &mut rt.stdin(), &mut out)?;
    out.flush()
}
