// Opening a book (docs/RULES.md, "Parties, days and pages").
ghost use Rattle.std.specs.Prelude.{◌≡◌, true, length};
ghost use Rattle.book.specs.Opening.{Opens, openable, sizes_of};
ghost use Rattle.book.specs.Books.{held};
ghost use Rattle.book.specs.Posting.{opened};

use super::account::Account;
use super::book::{Book, Ledger};
use super::pages::Pages;
use entries::entry::{DayState, Sizes};
use entries::refusal::Refusal;
use rows::{clear_cells, clear_records};

// What comes back of a refused opening: the pages, as they were.
#[derive(Drop)]
pub struct Returned<'a> {
    pub refusal: Refusal,
    pub pages: Pages<'a>,
}

// Whether a book of so many parties and days can be opened on pages of so many cells and records.
pub fn openable(parties: i64, days: i64, cells: usize, records: usize) -> bool
    ensures { result ≡ openable parties days cells records }
{
    if !(1..=20).contains(&parties) || !(1..=62).contains(&days) {
        return false;
    }
    let hours = days as usize * 24;
    cells == parties as usize * hours && records == hours
}

impl<'a> Ledger<'a> {
    // A ledger of so many parties and days on these pages, all cleared. Apart from `open`, since a public function has no proof file of its own.
    fn opened(pages: Pages<'a>, parties: i64, days: i64) -> Ledger<'a>
        requires { openable parties days (length pages.cells.now) (length pages.records.now) ≡ true }
        ensures { result ≡ opened (sizes_of parties days) }
    {
        clear_cells(pages.cells);
        clear_records(pages.records);
        Ledger {
            pages,
            sizes: Sizes {
                parties: parties as u8,
                days: days as u8,
            },
            accounts: [Account::default(); 20],
            states: [DayState::Open; 62],
            operator: 0,
        }
    }
}

impl<'a, P: Drop, S: Drop> Book<'a, P, S> {
    // A book of so many parties and days on these pages, all cleared; 11, with the pages as they were, unless there are 1 to 20 parties and
    // 1 to 62 days, and exactly their cells and hour records.
    pub fn open(
        pages: Pages<'a>,
        parties: i64,
        days: i64,
        pricing: P,
        sharing: S,
    ) -> Result<Book<'a, P, S>, Returned<'a>>
        ensures { Opens pages.entry.cells.now pages.entry.records.now parties days pricing sharing result }
    {
        if !openable(parties, days, pages.cells.len(), pages.records.len()) {
            let refusal = Refusal::WrongSize;
            return Err(Returned { refusal, pages });
        }
        let ledger = Ledger::opened(pages, parties, days);
        Ok(Book {
            ledger,
            pricing,
            sharing,
        })
    }
}

impl<P, S> Book<'_, P, S> {
    // How many parties and days the book has.
    pub fn sizes(&self) -> Sizes
        ensures { result ≡ (held self.now).sizes }
    {
        self.ledger.sizes
    }
}
