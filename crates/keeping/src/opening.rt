// The opening of a journal's book (docs/RULES.md, "book and show").
ghost use Rattle.std.specs.Prelude.{◌≡◌, ◌&&◌, length, IfOk};
ghost use Rattle.entries.specs.Fields.{between, first_of};
ghost use Rattle.rules.specs.Choice.{chosen, rules_checks, rules_chosen};
ghost use Rattle.book.specs.Books.{held};
ghost use Rattle.book.specs.Held.{sized};
ghost use Rattle.book.specs.Opening.{sizes_of};
ghost use Rattle.book.specs.Posting.{opened};
ghost use Rattle.keeping.specs.Entered.{Fitting, FittingOpening, opening_on, roomy, ruled_by, sizes_in};

mod call;

use crate::refusal::Refusal;
use book::book::Book;
use book::pages::Pages;
use entries::entry::Sizes;
use entries::refusal::Refusal as BookRefusal;
use rules::choice::{ChosenPricing, ChosenSharing, Rules};
use words::Form;

// What a `book` asks for.
#[derive(Clone, Copy)]
struct Opening {
    sizes: Sizes,
    rules: Rules,
}

// Whether the pages have the cells and the records of a book of these sizes.
fn roomy(sizes: &Sizes, pages: &Pages<'_>) -> bool
    ensures { result ≡ roomy sizes.now (length pages.now.cells.now) (length pages.now.records.now) }
{
    let hours = sizes.days as usize * 24;
    sizes.parties as usize * hours <= pages.cells.len() && hours <= pages.records.len()
}

// Whether so many parties and days are 1 to the limits, and no more than a book can have.
fn allowed(limits: &Sizes, parties: i64, days: i64) -> bool
    ensures { result ≡ ((between 1 limits.now.parties parties && between 1 limits.now.days days) && sized (sizes_of parties days)) }
{
    if parties < 1 || parties > i64::from(limits.parties) {
        return false;
    }
    if days < 1 || days > i64::from(limits.days) {
        return false;
    }
    parties <= 20 && days <= 62
}

// The sizes of the book that a `book` asks for.
fn sizes_of(
    limits: &Sizes,
    pages: &Pages<'_>,
    parties: i64,
    days: i64,
) -> Result<Sizes, BookRefusal>
    ensures sizes { result ≡ sizes_in limits.now (length pages.now.cells.now) (length pages.now.records.now) parties days }
    ensures fitting { IfOk result (Fitting (length pages.now.cells.now) (length pages.now.records.now)) }
{
    if !allowed(limits, parties, days) {
        return Err(BookRefusal::WrongSize);
    }
    let sizes = Sizes {
        parties: parties as u8,
        days: days as u8,
    };
    if !roomy(&sizes, pages) {
        return Err(BookRefusal::WrongSize);
    }
    Ok(sizes)
}

// An opening of these sizes, with the rules of these numbers.
fn ruled(sizes: Sizes, pricing: i64, default: i64, sharing: i64) -> Result<Opening, Refusal>
    ensures opening { result ≡ ruled_by sizes (chosen (first_of (rules_checks pricing default sharing)) (rules_chosen pricing default sharing)) }
    ensures sizes { IfOk result (λ o. o.sizes ≡ sizes) }
{
    let rules = rules::choose(pricing, default, sharing)?;
    Ok(Opening { sizes, rules })
}

// The opening that a form asks of a journal without a book.
#[tactic(auto, using(crate::proofs::Fitting::fitting_opening))]
fn asked(limits: &Sizes, pages: &Pages<'_>, form: &Form) -> Result<Opening, Refusal>
    ensures opening { result ≡ opening_on limits.now (length pages.now.cells.now) (length pages.now.records.now) form.now }
    ensures fitting { FittingOpening (length pages.now.cells.now) (length pages.now.records.now) result }
{
    match form {
        Form::Book {
            parties,
            days,
            pricing,
            default,
            sharing,
        } => {
            let sizes = sizes_of(limits, pages, *parties, *days)?;
            ruled(sizes, *pricing, *default, *sharing)
        }
        Form::Entry(_) | Form::Show { party: _ } => Err(Refusal::NotOpened),
    }
}

// A book on the first parts of the pages.
fn open_on<'a>(pages: Pages<'a>, opening: &Opening) -> Book<'a, ChosenPricing, ChosenSharing>
    requires { Fitting (length pages.cells.now) (length pages.records.now) opening.now.sizes }
    ensures held { held result ≡ opened opening.now.sizes }
    ensures pricing { result.pricing ≡ opening.now.rules.pricing }
    ensures sharing { result.sharing ≡ opening.now.rules.sharing }
{
    let Opening { sizes, rules } = *opening;
    let Pages { cells, records } = pages;
    let hours = sizes.days as usize * 24;
    let count = sizes.parties as usize * hours;
    let pages = Pages {
        cells: &mut cells[..count],
        records: &mut records[..hours],
    };
    match Book::open(
        pages,
        i64::from(sizes.parties),
        i64::from(sizes.days),
        rules.pricing,
        rules.sharing,
    ) {
        Ok(book) => book,
        Err(_) => unreachable(),
    }
}
