// What a book lies on: the pages that its opener lent (docs/RULES.md, "Parties, days and pages").
use hourly::plain::{PlainCell, PlainRecord};

// The cells, party by party, of each party day by day, of each day hour by hour; and the hour records, day by day.
#[derive(Drop)]
pub struct Pages<'a> {
    pub cells: &'a mut [PlainCell],
    pub records: &'a mut [PlainRecord],
}
