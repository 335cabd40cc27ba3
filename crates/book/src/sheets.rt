// The sheet of an hour of a book (docs/RULES.md, "One hour, evaluated").
ghost use Rattle.std.specs.Prelude.{◌≡◌, ◌-◌, ◌<◌, ◌≤◌, map, length, take, MatchResult, Some, None};
ghost use Rattle.hourly.specs.Cells.{read};
ghost use Rattle.hourly.specs.Records.{record_read};
ghost use Rattle.sheet.specs.Gathering.{facts, gather_refusal, rows_gathered};
ghost use Rattle.sheet.specs.Sheets.{hour_facts};
ghost use Rattle.book.specs.Standing.{index};
ghost use Rattle.book.specs.HourSheets.{hour_gather_refusal, gathered_facts, hour_cells, listed, unknown_hour};
ghost use Rattle.book.specs.Held.{standing_on};
ghost use Rattle.book.specs.Books.{held, terms_by};

use crate::book::{Book, Ledger};
use crate::index;
use hourly::plain::{PlainCell, PlainRecord};
use pricing::Pricing;
use sharing::Sharing;
use sheet::gathered::Gathered;
use sheet::row::SheetRefusal;

// The first cells of some.
fn first_cells(cells: &[PlainCell], count: usize) -> &[PlainCell]
    requires { count ≤ length cells.now }
    ensures { result.now ≡ take count cells.now }
{
    &cells[0..count]
}

// The sheet of an hour from the cells of its parties.
fn sheet_from(hour: i64, cells: &[PlainCell], parties: usize, lying: &PlainRecord) -> Gathered
    requires { parties ≤ length cells.now }
    ensures refusal { result.refusal ≡ gather_refusal hour (map read (take parties cells.now)) }
    ensures rows { (facts result).rows ≡ rows_gathered hour (map read (take parties cells.now)) }
    ensures deliveries { (facts result).deliveries ≡ record_read lying.now }
{
    Gathered::gather(hour, first_cells(cells, parties), lying)
}

impl Ledger<'_> {
    // The cells of an hour, one for each party in order.
    // `array::from_fn` was tried: it says that some state of the closure gave each value, and not that the ledger which it borrows stayed the same.
    fn hour_cells(&self, day: usize, hour: usize) -> [PlainCell; 20]
        requires { (day < self.now.sizes.days) × (hour < 24) }
        ensures { map read (take self.now.sizes.parties result) ≡ listed self.now.sizes.parties (λ p. (standing_on self.now).cell p day hour) }
    {
        let mut cells = [PlainCell::default(); 20];
        for party in 0..self.sizes.parties as usize {
            cells[party] = self.pages.cells[self.row_at(party, day) + hour];
        }
        cells
    }
}

impl<P: Pricing, S: Sharing> Book<'_, P, S> {
    // The sheet of an hour of the book.
    fn gather_hour(&self, day: i64, hour: i64) -> Gathered
        requires { (index day < self.now.ledger.sizes.days) × (index hour < 24) }
        ensures refusal { result.refusal ≡ gather_refusal hour (hour_cells (terms_by P.Pricing.map S.Sharing.map self.now) (standing_on (held self.now)) day hour) }
        ensures facts { facts result ≡ hour_facts hour (hour_cells (terms_by P.Pricing.map S.Sharing.map self.now) (standing_on (held self.now)) day hour) ((standing_on (held self.now)).deliveries (index day) (index hour)) }
    {
        let ledger = &self.ledger;
        let cells = ledger.hour_cells(index(day), index(hour));
        let lying = ledger.pages.records[ledger.hour_at(day, hour)];
        sheet_from(hour, &cells, ledger.sizes.parties as usize, &lying)
    }

    // Refuses a day or an hour that the book does not have.
    fn check_hour(&self, day: i64, hour: i64) -> Result<(), SheetRefusal>
        ensures { MatchResult result (λ _. (unknown_hour (terms_by P.Pricing.map S.Sharing.map self.now) (held self.now) day hour ≡ None) × (index day < self.now.ledger.sizes.days) × (index hour < 24)) (λ e. unknown_hour (terms_by P.Pricing.map S.Sharing.map self.now) (held self.now) day hour ≡ Some e) }
    {
        let sizes = self.ledger.sizes();
        if !(1..=i64::from(sizes.days)).contains(&day) {
            return Err(SheetRefusal::Day { day });
        }
        if !(1..=24).contains(&hour) {
            return Err(SheetRefusal::Hour { hour });
        }
        Ok(())
    }

    // The sheet of an hour, or one that met a refusal. Its contract is that of `gather`: a public function has no proof file of its own.
    fn sheet_of(&self, day: i64, hour: i64) -> Gathered
        ensures refusal { result.refusal ≡ hour_gather_refusal (terms_by P.Pricing.map S.Sharing.map self.now) (held self.now) day hour }
        ensures facts { facts result ≡ gathered_facts (terms_by P.Pricing.map S.Sharing.map self.now) (held self.now) day hour }
    {
        match self.check_hour(day, hour) {
            Ok(()) => self.gather_hour(day, hour),
            Err(refusal) => Gathered::refused(refusal),
        }
    }

    // The sheet of an hour, gathered in whatever state its day is; it alters nothing.
    pub fn gather(&self, day: i64, hour: i64) -> Gathered
        ensures refusal { result.refusal ≡ hour_gather_refusal (terms_by P.Pricing.map S.Sharing.map self.now) (held self.now) day hour }
        ensures facts { facts result ≡ gathered_facts (terms_by P.Pricing.map S.Sharing.map self.now) (held self.now) day hour }
    {
        self.sheet_of(day, hour)
    }
}
