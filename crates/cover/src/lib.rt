// Cover (docs/RULES.md, "Cover"): parametric prices, and what a party needs for the positions of its days, also after a trade that is not yet written.
#![tactic(auto)]

ghost use Rattle.std.specs.Prelude.{◌≡◌, ◌+◌, ◌*◌, ◌<◌, ◌≤◌, true, ◌&&◌, length, pos, ◌+ℤ◌, if◌then◌else◌, Some, None, slice_index_or, unsigned_abs};
ghost use Rattle.std.specs.Option.{option_map};
ghost use Rattle.hourly.specs.Cells.{blank, read};
ghost use Rattle.cover.specs.Prices.{exposure, in_range, in_use, pair_in_range, prices};
ghost use Rattle.cover.specs.Need.{RoundedUp, added, day_tenths, fits, need_of, need_with, position_with, price_at, rounded_up, tenths_of, tenths_with, tradable};

use days::Counts;
use hour::HourPrices;
use hourly::cell::Cell;
use hourly::plain::PlainCell;
use prices::ParametricPrices;
use trade::Trade;

pub mod days;
pub mod hour;
pub mod prices;
pub mod trade;

// A trade of at most 499,000 kWh an hour.
#[derive(Clone, Copy)]
struct Tradable {
    trade: Trade,
    ghost modest: { unsigned_abs trade.kwh ≤ 499000 },
}

impl Tradable {
    // The trade, or none where it is of more.
    fn new(trade: &Trade) -> Option<Tradable>
        ensures { option_map (λ (t : Tradable). t.trade) result ≡ (if tradable trade.now.kwh then Some trade.now else None) }
    {
        if trade.kwh.unsigned_abs() > 499_000 {
            return None;
        }
        Some(Tradable { trade: *trade })
    }

    // A trade of nothing.
    fn none() -> Tradable
        ensures { result.trade.kwh ≡ pos 0 }
    {
        Tradable {
            trade: Trade::default(),
        }
    }

    // What it adds at a place of a party's cells.
    fn added(&self, place: usize) -> i64
        ensures value { result ≡ added self.now.trade.start self.now.trade.end self.now.trade.kwh place }
        ensures bound { unsigned_abs result ≤ 499000 }
    {
        let Trade { start, end, kwh } = self.trade;
        if (start..end).contains(&place) {
            kwh
        } else {
            0
        }
    }

    // The position of the cell at a place after it.
    fn position(&self, cell: &PlainCell, place: usize) -> i64
        ensures value { result ≡ (read cell.now).position +ℤ added self.now.trade.start self.now.trade.end self.now.trade.kwh place }
        ensures placed { unsigned_abs result ≤ 998999 }
    {
        Cell::from_plain(cell).position + self.added(place)
    }
}

impl ParametricPrices {
    // What a position exposes a party to in an hour, in tenths; the first hour is hour 0.
    fn exposure(&self, hour: usize, position: i64) -> u64
        requires there { hour < 24 }
        requires placed { unsigned_abs position ≤ 998999 }
        ensures value { result ≡ exposure (price_at self.now.hours hour) position }
        ensures bound { result ≤ 99898901001 }
    {
        let HourPrices { short, long } = self.hours[hour];
        let price = if position < 0 { long } else { short };
        position.unsigned_abs() * price
    }

    // The tenths of a day after a trade; its cells are the party's from place `first` on.
    fn day_tenths(&self, cells: &[PlainCell], first: usize, trade: &Tradable) -> u64
        requires few { first < 1488 }
        requires whole { length cells.now ≡ 24 }
        ensures value { result ≡ day_tenths self.now.hours 24 (λ h. (read (slice_index_or cells.now h blank)).position +ℤ added trade.now.trade.start trade.now.trade.end trade.now.trade.kwh (first + h)) }
        ensures bound { result ≤ 2397573624024 }
    {
        cells
            .iter()
            .enumerate()
            .map(|(hour, cell)| self.exposure(hour, trade.position(cell, first + hour)))
            .sum()
    }

    // The tenths of all days that count, after a trade.
    fn tenths<D: Counts>(&self, days: &[D], cells: &[PlainCell], trade: &Tradable) -> u64
        requires { fits (length days.now) (length cells.now) ≡ true }
        ensures value { result ≡ tenths_with D.counts D.past self.now.hours days.now cells.now trade.now.trade.start trade.now.trade.end trade.now.trade.kwh }
        ensures bound { result ≤ 148649564689488 }
    {
        // A day's cells are taken by their places: over a zip with `chunks_exact` no proof is found that each chunk has 24.
        days.iter()
            .enumerate()
            .filter(|(_, day)| day.counts())
            .map(|(day, _)| self.day_tenths(&cells[day * 24..day * 24 + 24], day * 24, trade))
            .sum()
    }
}

// Tenths in halers, rounded up.
fn halers(tenths: u64) -> i64
    requires { tenths ≤ 148649564689488 }
    ensures value { result ≡ pos (rounded_up tenths) }
    ensures least { RoundedUp tenths (rounded_up tenths) }
{
    tenths.div_ceil(10) as i64
}

// There are 1 to 62 days, and 24 cells for each.
fn fits(days: usize, cells: usize) -> bool
    ensures { result ≡ fits days cells }
{
    (1..=62).contains(&days) && cells == days * 24
}

// Both prices of an hour are at most 99,999.
fn pair_in_range(pair: &HourPrices) -> bool
    ensures { result ≡ pair_in_range pair.now }
{
    pair.short <= 99_999 && pair.long <= 99_999
}

// No price of a table is above 99,999.
fn in_range(hours: &[HourPrices; 24]) -> bool
    ensures { result ≡ in_range hours.now }
{
    hours.iter().all(pair_in_range)
}

// The prices of an hour.
fn pair(short: u64, long: u64) -> HourPrices
    ensures { result ≡ prices short long }
{
    HourPrices { short, long }
}

impl ParametricPrices {
    // The table of these prices, hour 1 first, or none where one is above 99,999.
    pub fn new(hours: [HourPrices; 24]) -> Option<ParametricPrices>
        ensures { option_map (λ (p : ParametricPrices). p.hours) result ≡ (if in_range hours then Some hours else None) }
    {
        if !in_range(&hours) {
            return None;
        }
        Some(ParametricPrices { hours })
    }

    // The table in use.
    pub fn in_use() -> ParametricPrices
        ensures { result.hours ≡ in_use }
    {
        let night = pair(2_400, 600);
        let morning = pair(3_600, 700);
        let day = pair(4_500, 900);
        let evening = pair(3_000, 700);
        let hours = [
            night, night, night, night, night, night, morning, morning, day, day, day, day, day,
            day, day, day, day, day, day, day, evening, evening, evening, evening,
        ];
        ParametricPrices { hours }
    }
}

// What a party needs after a trade, or none where the cells are not those of its days. Inlined, so that where there is no trade no hour is asked for it.
#[inline(always)]
fn need_after<D: Counts>(
    prices: &ParametricPrices,
    days: &[D],
    cells: &[PlainCell],
    trade: &Tradable,
) -> Option<i64>
    ensures value { result ≡ (if fits (length days.now) (length cells.now) then Some (pos (need_with D.counts D.past prices.now.hours days.now cells.now trade.now.trade.start trade.now.trade.end trade.now.trade.kwh)) else None) }
    ensures least { fits (length days.now) (length cells.now) ≡ true → RoundedUp (tenths_with D.counts D.past prices.now.hours days.now cells.now trade.now.trade.start trade.now.trade.end trade.now.trade.kwh) (need_with D.counts D.past prices.now.hours days.now cells.now trade.now.trade.start trade.now.trade.end trade.now.trade.kwh) }
    ensures bound { fits (length days.now) (length cells.now) ≡ true → need_with D.counts D.past prices.now.hours days.now cells.now trade.now.trade.start trade.now.trade.end trade.now.trade.kwh ≤ 14864956468949 }
{
    if !fits(days.len(), cells.len()) {
        return None;
    }
    Some(halers(prices.tenths(days, cells, trade)))
}

// What it needs after a trade of nothing. Its contract is that of `need`: a public function has no proof file of its own.
fn need_now<D: Counts>(prices: &ParametricPrices, days: &[D], cells: &[PlainCell]) -> Option<i64>
    ensures value { result ≡ (if fits (length days.now) (length cells.now) then Some (pos (need_of D.counts D.past prices.now.hours days.now cells.now)) else None) }
    ensures least { fits (length days.now) (length cells.now) ≡ true → RoundedUp (tenths_of D.counts D.past prices.now.hours days.now cells.now) (need_of D.counts D.past prices.now.hours days.now cells.now) }
    ensures bound { fits (length days.now) (length cells.now) ≡ true → need_of D.counts D.past prices.now.hours days.now cells.now ≤ 7439910720149 }
{
    need_after(prices, days, cells, &Tradable::none())
}

// What a party needs, or none where the cells are not those of its days.
pub fn need<D: Counts>(prices: &ParametricPrices, days: &[D], cells: &[PlainCell]) -> Option<i64>
    ensures value { result ≡ (if fits (length days.now) (length cells.now) then Some (pos (need_of D.counts D.past prices.now.hours days.now cells.now)) else None) }
    ensures least { fits (length days.now) (length cells.now) ≡ true → RoundedUp (tenths_of D.counts D.past prices.now.hours days.now cells.now) (need_of D.counts D.past prices.now.hours days.now cells.now) }
    ensures bound { fits (length days.now) (length cells.now) ≡ true → need_of D.counts D.past prices.now.hours days.now cells.now ≤ 7439910720149 }
{
    need_now(prices, days, cells)
}

// What a party needs after a trade, or none where the cells are not those of its days or the trade is of more than 499,000 kWh.
pub fn need_with<D: Counts>(
    prices: &ParametricPrices,
    days: &[D],
    cells: &[PlainCell],
    trade: &Trade,
) -> Option<i64>
    ensures value { result ≡ (if fits (length days.now) (length cells.now) && tradable trade.now.kwh then Some (pos (need_with D.counts D.past prices.now.hours days.now cells.now trade.now.start trade.now.end trade.now.kwh)) else None) }
    ensures least { fits (length days.now) (length cells.now) && tradable trade.now.kwh ≡ true → RoundedUp (tenths_with D.counts D.past prices.now.hours days.now cells.now trade.now.start trade.now.end trade.now.kwh) (need_with D.counts D.past prices.now.hours days.now cells.now trade.now.start trade.now.end trade.now.kwh) }
    ensures bound { fits (length days.now) (length cells.now) && tradable trade.now.kwh ≡ true → need_with D.counts D.past prices.now.hours days.now cells.now trade.now.start trade.now.end trade.now.kwh ≤ 14864956468949 }
{
    let trade = Tradable::new(trade)?;
    need_after(prices, days, cells, &trade)
}

#[cfg(test)]
mod tests;
