// A party's hour and the record of an hour's regulating deliveries: types of which no value is out of bounds, and the plain numbers that they lie as on a page.
#![tactic(auto)]

ghost use Rattle.std.specs.Prelude.{◌≡◌, ◌+◌, ◌≤◌, true, ℤ, pos, ◌*ℤ◌, if◌then◌else◌, Some, None, unsigned_abs};
ghost use Rattle.std.specs.Option.{option_map};
ghost use Rattle.hourly.specs.declared.deliveries.Deliveries.{Deliveries};
ghost use Rattle.hourly.specs.Bounds.{within, deliveries_ok};
ghost use Rattle.hourly.specs.Cells.{cleared, figures, sound, read, plain};
ghost use Rattle.hourly.specs.Records.{deliverable, delivered, no_deliveries, nothing, takes, with_delivery, record_figures, record_sound, record_read, record_plain, deliveries_figures, deliveries_given, deliveries_sound, deliveries_plain, extreme_of};

pub mod cell;
pub mod deliveries;
pub mod direction;
pub mod plain;
pub mod record;

use cell::Cell;
use deliveries::Deliveries;
use direction::Direction;
use plain::{PlainCell, PlainDeliveries, PlainRecord};
use record::HourRecord;
use std::marker::PhantomData;

// Whether a number lies within ±limit.
pub fn lies_within(limit: u64, z: i64) -> bool
    ensures { result ≡ within limit z }
{
    z.unsigned_abs() <= limit
}

impl PlainCell {
    // Whether these are the plain numbers of some cell. In two steps, since one chain of five tests gets no proof.
    fn is_sound(&self) -> bool
        ensures { result ≡ sound self.now }
    {
        if !lies_within(499_999, self.position)
            || !lies_within(999_998, self.regulating)
            || !lies_within(99_998_800_002, self.tenths)
        {
            return false;
        }
        let reading_limit = if self.metered { 499_999 } else { 0 };
        lies_within(reading_limit, self.reading) && lies_within(630_000_000_000, self.last)
    }

    // The position of the cell that they stand for.
    pub fn position(&self) -> i64
        ensures value { result ≡ (read self.now).position }
        ensures placed { unsigned_abs result ≤ 499999 }
    {
        Cell::from_plain(self).position
    }
}

// By hand, as that of deliveries: no derive writes it for a struct with a ghost field.
impl Default for Cell {
    ghost is_default = { λ c. figures c ≡ cleared };

    fn default() -> Cell {
        Cell {
            position: 0,
            regulating: 0,
            tenths: 0,
            reading: None,
            last: 0,
        }
    }
}

// Methods and no `From`: what is not sound is cleared, and a clause of each says that the two undo each other.
impl Cell {
    // The cell that plain numbers stand for: the cleared one where they are not sound.
    pub fn from_plain(p: &PlainCell) -> Cell
        ensures value { figures result ≡ read p.now }
        ensures back { sound p.now ≡ true → plain (figures result) ≡ p.now }
    {
        if !p.is_sound() {
            return Cell::default();
        }
        // `then_some` gets no proof beside the five bounds
        let reading = if p.metered { Some(p.reading) } else { None };
        Cell {
            position: p.position,
            regulating: p.regulating,
            tenths: p.tenths,
            reading,
            last: p.last,
        }
    }

    // The plain numbers of a cell.
    pub fn to_plain(&self) -> PlainCell
        ensures value { result ≡ plain (figures self.now) }
        ensures back { read result ≡ figures self.now }
    {
        PlainCell {
            position: self.position,
            regulating: self.regulating,
            tenths: self.tenths,
            metered: self.reading.is_some(),
            reading: self.reading.unwrap_or(0),
            last: self.last,
        }
    }
}

// The tenths of a magnitude of kWh at a price.
fn delivery_tenths(kwh: u64, price: i64) -> i64
    requires { (kwh ≤ 499999) × (unsigned_abs price ≤ 99999) }
    ensures value { result ≡ pos kwh *ℤ price }
    ensures bound { unsigned_abs result ≤ 49999400001 }
{
    units::tenths_at(kwh as i64, price).unwrap()
}

// Whether deliveries with an extreme price are within the bounds of a direction.
fn some_sound<D: Direction>(kwh: u64, total: i64, extreme: i64) -> bool
    ensures { result ≡ deliveries_ok D.upward kwh total (Some extreme) }
{
    if kwh < 1 || kwh > 499_999 || !lies_within(99_999, extreme) {
        return false;
    }
    lies_within(99_999 * kwh, total) && D::admits(total, delivery_tenths(kwh, extreme))
}

// Whether plain numbers are those of some deliveries of a direction.
fn deliveries_sound<D: Direction>(p: &PlainDeliveries) -> bool
    ensures { result ≡ deliveries_sound D.upward p.now }
{
    if p.delivered {
        some_sound::<D>(p.kwh, p.total, p.extreme)
    } else {
        *p == PlainDeliveries::default()
    }
}

impl<D: Direction> Default for Deliveries<D> {
    ghost is_default = { λ d. deliveries_figures d ≡ nothing };

    fn default() -> Deliveries<D> {
        Deliveries {
            kwh: 0,
            total: 0,
            extreme: None,
            direction: PhantomData,
        }
    }
}

impl<D: Direction> Deliveries<D> {
    // The deliveries that plain numbers give, or none where they are not sound.
    pub fn from_plain(p: &PlainDeliveries) -> Option<Deliveries<D>>
        ensures { option_map deliveries_figures result ≡ (if deliveries_sound D.upward p.now then Some (deliveries_given p.now) else None) }
    {
        if !deliveries_sound::<D>(p) {
            return None;
        }
        Some(Deliveries {
            kwh: p.kwh,
            total: p.total,
            extreme: p.delivered.then_some(p.extreme),
            direction: PhantomData,
        })
    }

    // The plain numbers of deliveries.
    pub fn to_plain(&self) -> PlainDeliveries
        ensures value { result ≡ deliveries_plain (deliveries_figures self.now) }
        ensures sound { deliveries_sound D.upward result ≡ true }
        ensures back { deliveries_given result ≡ deliveries_figures self.now }
    {
        PlainDeliveries {
            kwh: self.kwh,
            total: self.total,
            delivered: self.extreme.is_some(),
            extreme: self.extreme.unwrap_or(0),
        }
    }

    // The extreme price after a delivery.
    fn extreme_after(&self, price: i64) -> i64
        ensures { result ≡ extreme_of D.upward self.now.extreme price }
    {
        self.extreme
            .map_or(price, |former| D::extreme(former, price))
    }

    // The deliveries after one more, which their total has room for.
    fn with_delivery(&self, kwh: u64, price: i64) -> Deliveries<D>
        requires some { 1 ≤ kwh }
        requires room { self.now.kwh + kwh ≤ 499999 }
        requires price { unsigned_abs price ≤ 99999 }
        ensures { deliveries_figures result ≡ with_delivery D.upward (deliveries_figures self.now) kwh price }
    {
        Deliveries {
            kwh: self.kwh + kwh,
            total: self.total + delivery_tenths(kwh, price),
            extreme: Some(self.extreme_after(price)),
            direction: PhantomData,
        }
    }

    // The deliveries after one more, or none where there is no room for that.
    pub fn deliver(&self, kwh: u64, price: i64) -> Option<Deliveries<D>>
        ensures { option_map deliveries_figures result ≡ (if takes (deliveries_figures self.now) kwh price then Some (with_delivery D.upward (deliveries_figures self.now) kwh price) else None) }
    {
        if kwh < 1 || kwh > 499_999 || self.kwh > 499_999 - kwh || !lies_within(99_999, price) {
            return None;
        }
        Some(self.with_delivery(kwh, price))
    }
}

// Methods and no `From`, as those of a cell.
impl HourRecord {
    // The record that plain numbers stand for: the cleared one where they are not sound.
    pub fn from_plain(p: &PlainRecord) -> HourRecord
        ensures value { record_figures result ≡ record_read p.now }
        ensures back { record_sound p.now ≡ true → record_plain (record_figures result) ≡ p.now }
    {
        let upward = Deliveries::from_plain(&p.upward);
        let downward = Deliveries::from_plain(&p.downward);
        match (upward, downward) {
            (Some(upward), Some(downward)) => HourRecord { upward, downward },
            _ => HourRecord::default(),
        }
    }

    // The plain numbers of a record.
    pub fn to_plain(&self) -> PlainRecord
        ensures value { result ≡ record_plain (record_figures self.now) }
        ensures back { record_read result ≡ record_figures self.now }
    {
        PlainRecord {
            upward: self.upward.to_plain(),
            downward: self.downward.to_plain(),
        }
    }

    // The record after one more delivery, which is downward if its kWh are negative; none where it has no room for that.
    pub fn deliver(&self, kwh: i64, price: i64) -> Option<HourRecord>
        ensures { option_map record_figures result ≡ (if deliverable (record_figures self.now) kwh price then Some (delivered (record_figures self.now) kwh price) else None) }
    {
        if kwh < 0 {
            self.downward
                .deliver(kwh.unsigned_abs(), price)
                .map(|downward| HourRecord { downward, ..*self })
        } else {
            self.upward
                .deliver(kwh.unsigned_abs(), price)
                .map(|upward| HourRecord { upward, ..*self })
        }
    }
}
