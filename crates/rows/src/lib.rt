// What entries do to the cells of a row, and pages cleared (docs/RULES.md, "Cells", "Hour records", "Entries").
#![tactic(auto)]

ghost use Rattle.std.specs.Prelude.{◌≡◌, ◌≤◌, ◌&&◌, map, length, replicate, ◌+ℤ◌, ◌*ℤ◌, if◌then◌else◌, Some, None, nat_le, unsigned_abs};
ghost use Rattle.std.specs.Option.{option_map};
ghost use Rattle.hourly.specs.Cells.{CellFigures, blank, figures, plain};
ghost use Rattle.hourly.specs.Records.{no_deliveries, record_plain};
ghost use Rattle.rows.specs.Changes.{metered, regulated, relaid, shifted};
ghost use Rattle.rows.specs.declared.changes.Delivery.{Delivery};
ghost use Rattle.rows.specs.declared.changes.Reading.{Reading};
ghost use Rattle.rows.specs.declared.changes.Shift.{Shift};

pub mod changes;
#[cfg(test)]
mod tests;

use changes::{Delivery, Reading, Shift};
use hourly::cell::Cell;
use hourly::plain::{PlainCell, PlainRecord};
use units::limited::Limited;

// What is done to every cell of a row, laid down as plain numbers.
pub trait Change {
    ghost change: { Self → CellFigures → CellFigures };

    fn of(&self, cell: &Cell) -> PlainCell
        ensures { result ≡ plain (change self.now (figures cell.now)) };
}

// A plain cell changed.
fn changed<C: Change>(cell: &PlainCell, change: &C) -> PlainCell
    ensures { result ≡ relaid (C.Change.change change.now) cell.now }
{
    change.of(&Cell::from_plain(cell))
}

// Changes each cell in turn. Its contract is that of `change_cells`: a public function has no proof file of its own.
fn change_each<C: Change>(row: &mut [PlainCell], change: &C)
    ensures { row.new ≡ map (relaid (C.Change.change change.now)) row.old }
{
    for cell in row.iter_mut() {
        *cell = changed(cell, change);
    }
}

// Changes every cell of a row.
pub fn change_cells<C: Change>(row: &mut [PlainCell], change: &C)
    ensures { row.new ≡ map (relaid (C.Change.change change.now)) row.old }
{
    change_each(row, change);
}

impl Shift {
    // kWh added to positions, or none beyond ±499,000.
    pub fn new(kwh: i64) -> Option<Shift>
        ensures { option_map (λ (s : Shift). s.0.value) result ≡ (if nat_le (unsigned_abs kwh) 499000 then Some kwh else None) }
    {
        Some(Shift(Limited::new(kwh)?))
    }
}

// Written over the plain numbers, here and below: a struct update beside a sum gets no proof.
impl Change for Shift {
    ghost change = { λ s. shifted s.0.value };

    fn of(&self, cell: &Cell) -> PlainCell {
        let mut plain = cell.to_plain();
        plain.position = cell.position + self.0.value();
        plain
    }
}

impl Reading {
    // A reading, or none beyond ±499,999.
    pub fn new(kwh: i64) -> Option<Reading>
        ensures { option_map (λ (s : Reading). s.0.value) result ≡ (if nat_le (unsigned_abs kwh) 499999 then Some kwh else None) }
    {
        Some(Reading(Limited::new(kwh)?))
    }
}

impl Change for Reading {
    ghost change = { λ s. metered s.0.value };

    fn of(&self, cell: &Cell) -> PlainCell {
        let mut plain = cell.to_plain();
        plain.metered = true;
        plain.reading = self.0.value();
        plain
    }
}

impl Delivery {
    // A delivery, or none beyond ±499,000 kWh or ±99,999 CZK/MWh.
    pub fn new(kwh: i64, price: i64) -> Option<Delivery>
        ensures kwh { option_map (λ (d : Delivery). d.kwh.value) result ≡ (if nat_le (unsigned_abs kwh) 499000 && nat_le (unsigned_abs price) 99999 then Some kwh else None) }
        ensures price { option_map (λ (d : Delivery). d.price.value) result ≡ (if nat_le (unsigned_abs kwh) 499000 && nat_le (unsigned_abs price) 99999 then Some price else None) }
    {
        Some(Delivery {
            kwh: Limited::new(kwh)?,
            price: Limited::new(price)?,
        })
    }

    // Its tenths.
    fn tenths(&self) -> i64
        ensures value { result ≡ self.now.kwh.value *ℤ self.now.price.value }
        ensures few { unsigned_abs result ≤ 49899501000 }
    {
        units::tenths_at(self.kwh.value(), self.price.value()).unwrap()
    }

    // A cell after it.
    fn delivered_to(&self, cell: &Cell) -> PlainCell
        ensures { result ≡ plain (regulated self.now.kwh.value self.now.price.value (figures cell.now)) }
    {
        let mut plain = cell.to_plain();
        plain.regulating = cell.regulating + self.kwh.value();
        plain.tenths = cell.tenths + self.tenths();
        plain
    }
}

impl Change for Delivery {
    ghost change = { λ d. regulated d.kwh.value d.price.value };

    fn of(&self, cell: &Cell) -> PlainCell {
        self.delivered_to(cell)
    }
}

// Clears cells.
pub fn clear_cells(cells: &mut [PlainCell])
    ensures { cells.new ≡ replicate (length cells.old) blank }
{
    cells.fill(PlainCell::default());
}

// Clears hour records.
pub fn clear_records(records: &mut [PlainRecord])
    ensures { records.new ≡ replicate (length records.old) (record_plain no_deliveries) }
{
    records.fill(PlainRecord::default());
}
