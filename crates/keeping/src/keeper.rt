// A journal: its limits, and a book once it has one (docs/RULES.md, "The line call").
ghost use Rattle.keeping.specs.Starting.{Starts};

use book::book::Book;
use book::open::{Returned, openable};
use book::pages::Pages;
use entries::entry::Sizes;
use entries::refusal::Refusal;
use rules::choice::{ChosenPricing, ChosenSharing};

#[derive(Drop)]
pub(crate) enum Stage<'a> {
    // No book yet, and the pages for one.
    Empty(Pages<'a>),
    Opened(Book<'a, ChosenPricing, ChosenSharing>),
}

#[derive(Drop)]
pub struct Journal<'a> {
    pub(crate) limits: Sizes,
    pub(crate) stage: Stage<'a>,
}

impl<'a> Journal<'a> {
    // A journal that has no book yet and opens none of more parties or days than these. 11, with the pages as they were, unless the limits are
    // 1 to 20 parties and 1 to 62 days, and the pages have exactly the cells and hour records of such a book.
    pub fn start(pages: Pages<'a>, parties: i64, days: i64) -> Result<Journal<'a>, Returned<'a>>
        ensures { Starts pages.entry.cells.now pages.entry.records.now parties days result }
    {
        if !openable(parties, days, pages.cells.len(), pages.records.len()) {
            let refusal = Refusal::WrongSize;
            return Err(Returned { refusal, pages });
        }
        Ok(Journal {
            limits: Sizes {
                parties: parties as u8,
                days: days as u8,
            },
            stage: Stage::Empty(pages),
        })
    }
}
