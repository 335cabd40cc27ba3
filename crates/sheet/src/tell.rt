// What a balanced sheet tells: only it tells amounts.
ghost use Rattle.std.specs.Prelude.{◌≡◌, ◌-◌, ◌<◌, ◌&&◌, pos, if◌then◌else◌, Some, None, nat_le, slice_index_or};
ghost use Rattle.sheet.specs.Sheets.{line_at, totals};

use super::balanced::Balanced;
use super::line::{Line, Totals};
use super::price_for;
use super::row::SheetRefusal;

// The line of the party at a place counted from 0.
fn line_of(sheet: &Balanced, at: usize) -> Line
    requires { at < 20 }
    ensures { result ≡ line_at sheet.now at }
{
    let row = sheet.priced.gathered.rows[at];
    let imbalance = sheet.priced.imbalances[at];
    Line {
        position: row.position,
        regulating: row.regulating,
        tenths: row.tenths,
        reading: row.reading,
        imbalance,
        price: price_for(&sheet.priced.prices, imbalance),
        first: sheet.priced.firsts[at],
        part: sheet.parts[at],
        amount: sheet.amounts[at],
    }
}

impl Balanced {
    // The place of a party, counted from 0; none for a number that is not a party's.
    fn place(&self, party: usize) -> Option<usize>
        ensures { result ≡ (if nat_le 1 party && nat_le party self.now.priced.gathered.count then Some (party - 1) else None) }
    {
        if party < 1 || party > self.priced.gathered.count {
            return None;
        }
        Some(party - 1)
    }

    // The refusal that gathering met, if any, carried on to here.
    pub fn refusal(&self) -> Option<SheetRefusal>
        ensures { result ≡ self.now.priced.gathered.refusal }
    {
        self.priced.gathered.refusal
    }

    // A party's line; none for a number that is not a party's.
    pub fn line(&self, party: usize) -> Option<Line>
        ensures { result ≡ (if nat_le 1 party && nat_le party self.now.priced.gathered.count then Some (line_at self.now (party - 1)) else None) }
    {
        let at = self.place(party)?;
        Some(line_of(self, at))
    }

    // A party's amount in halers; none for a number that is not a party's.
    pub fn amount(&self, party: usize) -> Option<i64>
        ensures { result ≡ (if nat_le 1 party && nat_le party self.now.priced.gathered.count then Some (slice_index_or self.now.amounts (party - 1) (pos 0)) else None) }
    {
        let at = self.place(party)?;
        Some(self.amounts[at])
    }

    // The hour as a whole.
    pub fn totals(&self) -> Totals
        ensures { result ≡ totals self.now }
    {
        Totals {
            parties: self.priced.gathered.count,
            system: self.priced.system,
            prices: self.priced.prices,
            remainder: self.remainder,
            weight: self.weight,
            operator: self.operator,
        }
    }
}
