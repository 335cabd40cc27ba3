// Cover (docs/RULES.md, "Cover"): what a party needs for the positions of its days, by their states, also after a trade that is not yet written.
#![tactic(auto)]

ghost use Rattle.std.specs.Prelude.{◌≡◌, ◌≤◌, true, ◌&&◌, length, pos, if◌then◌else◌, Some, None};
ghost use Rattle.cover.specs.Need.{fits};
ghost use Rattle.needs.specs.Need.{Needs, need_of, need_with, tenths_of, tenths_with, tradable};

use cover::prices::ParametricPrices;
use entries::entry::DayState;
use hourly::plain::PlainCell;
use trade::Trade;

// The trades that a need is asked after.
pub mod trade {
    pub use cover::trade::Trade;
}

// What a party needs, or none where the cells are not those of its days.
pub fn need(prices: &ParametricPrices, states: &[DayState], cells: &[PlainCell]) -> Option<i64>
    ensures value { result ≡ (if fits (length states.now) (length cells.now) then Some (pos (need_of prices.now.hours states.now cells.now)) else None) }
    ensures least { Needs (tenths_of prices.now.hours states.now cells.now) result }
    ensures bound { fits (length states.now) (length cells.now) ≡ true → need_of prices.now.hours states.now cells.now ≤ 7439910720149 }
{
    cover::need(prices, states, cells)
}

// What a party needs after a trade, or none where the cells are not those of its days or the trade is of more than 499,000 kWh.
pub fn need_with(
    prices: &ParametricPrices,
    states: &[DayState],
    cells: &[PlainCell],
    trade: &Trade,
) -> Option<i64>
    ensures value { result ≡ (if fits (length states.now) (length cells.now) && tradable trade.now.kwh then Some (pos (need_with prices.now.hours states.now cells.now trade.now.start trade.now.end trade.now.kwh)) else None) }
    ensures least { Needs (tenths_with prices.now.hours states.now cells.now trade.now.start trade.now.end trade.now.kwh) result }
    ensures bound { fits (length states.now) (length cells.now) && tradable trade.now.kwh ≡ true → need_with prices.now.hours states.now cells.now trade.now.start trade.now.end trade.now.kwh ≤ 14864956468949 }
{
    cover::need_with(prices, states, cells, trade)
}

#[cfg(test)]
mod tests;
