// A book over whole lists of entries: what holds whatever they are, and a call that enters such a list (docs/RULES.md, "Parties, days and pages" to "Cover").
#![tactic(auto)]

ghost use Rattle.std.specs.Prelude.{◌≡◌, ◌≤◌, length};
ghost use Rattle.book.specs.Books.{held, terms_by};
ghost use Rattle.runs.specs.Runs.{AfterHolds, LawsHold, Ran, WholeCash, ran, replied};

use book::book::Book;
use book::open::Returned;
use book::pages::Pages;
use entries::entry::Entry;
use entries::refusal::Refusal;
use entries::reply::Reply;
use pricing::Pricing;
use sharing::Sharing;

// Enters a list of entries, and writes each reply at the place of its entry. By an index: of what is written through a `zip` of `iter_mut` nothing is known.
fn enter_all<P: Pricing, S: Sharing>(
    book: &mut Book<'_, P, S>,
    entries: &[Entry],
    replies: &mut [Reply],
)
    requires { length entries.now ≤ length replies.old }
    ensures held { held book.new ≡ ran (terms_by P.Pricing.map S.Sharing.map book.old) (held book.old) entries.now }
    ensures replies { replies.new ≡ replied (terms_by P.Pricing.map S.Sharing.map book.old) (held book.old) entries.now replies.old }
    ensures pricing { book.new.pricing ≡ book.old.pricing }
    ensures sharing { book.new.sharing ≡ book.old.sharing }
{
    for (i, entry) in entries.iter().enumerate() {
        replies[i] = book.enter(entry);
    }
}

// The refusal, or the run. Its contract is that of `run`: a public function has no proof file of its own.
fn refused_or_run<'a, P: Pricing + Drop, S: Sharing + Drop>(
    pages: Pages<'a>,
    parties: i64,
    days: i64,
    pricing: P,
    sharing: S,
    entries: &[Entry],
    replies: &mut [Reply],
) -> Result<Book<'a, P, S>, Returned<'a>>
    ensures ran { Ran pages.entry.cells.now pages.entry.records.now parties days pricing sharing (P.Pricing.map pricing) (S.Sharing.map sharing) entries.now replies.old replies.new result }
    ensures laws { LawsHold }
    ensures after { AfterHolds }
    ensures cash { WholeCash }
{
    if entries.len() > replies.len() {
        let refusal = Refusal::WrongSize;
        return Err(Returned { refusal, pages });
    }
    let mut book = Book::open(pages, parties, days, pricing, sharing)?;
    enter_all(&mut book, entries, replies);
    Ok(book)
}

// Opens a book on these pages and enters a list of entries, of any kinds in any order; each reply is written at the place of its entry.
// 11, with nothing altered, where the book cannot be opened or there are fewer places than entries. With this stand the laws of any book and any entries, what an
// accepted entry makes of each figure, and that the cash of a market trade loses no tenth.
pub fn run<'a, P: Pricing + Drop, S: Sharing + Drop>(
    pages: Pages<'a>,
    parties: i64,
    days: i64,
    pricing: P,
    sharing: S,
    entries: &[Entry],
    replies: &mut [Reply],
) -> Result<Book<'a, P, S>, Returned<'a>>
    ensures ran { Ran pages.entry.cells.now pages.entry.records.now parties days pricing sharing (P.Pricing.map pricing) (S.Sharing.map sharing) entries.now replies.old replies.new result }
    ensures laws { LawsHold }
    ensures after { AfterHolds }
    ensures cash { WholeCash }
{
    refused_or_run(pages, parties, days, pricing, sharing, entries, replies)
}

#[cfg(test)]
mod tests;
