// The checks of an entry's fields, in the order of the table of refusals.
ghost use Rattle.std.specs.Prelude.{◌≡◌, not, ◌&&◌, [], ◌∷◌, ◌++◌, map, pos, int_le};
ghost use Rattle.entries.specs.Fields.{between, checked, day_check, day_of, field_checks, hour_check, hour_checks, market_kwh, market_price, parties_of, party_check, range_check, regulating_kwh, trader_checks, traders_check, value_checks};
ghost use Rattle.entries.specs.declared.refusal.Refusal.TheVariants.{OutOfRange};

use super::entry::{Entry, Sizes};
use super::refusal::Refusal;

// The most halers that one deposit or withdrawal moves.
const MOST_HALERS: i64 = 1_000_000_000_000;
// The most kWh of one trade or delivery in an hour, in magnitude.
const MOST_KWH: i64 = 499_000;
// The most kWh of a reading, in magnitude.
const MOST_READ: i64 = 499_999;
// The highest price in CZK/MWh, in magnitude.
const MOST_PRICE: i64 = 99_999;

// A check that is met by a condition.
fn require(met: bool, refusal: Refusal) -> Result<(), Refusal>
    ensures { result ≡ checked (record { fails = not met; refusal = refusal } ∷ []) }
{
    if met { Ok(()) } else { Err(refusal) }
}

fn between(least: i64, most: i64, number: i64) -> bool
    ensures { result ≡ (int_le least number && int_le number most) }
{
    (least..=most).contains(&number)
}

fn market_kwh(kwh: i64) -> bool
    ensures { result ≡ market_kwh kwh }
{
    between(1_000, MOST_KWH, kwh) && kwh.unsigned_abs() % 100 == 0
}

fn market_price(price: i64) -> bool
    ensures { result ≡ market_price price }
{
    between(-MOST_PRICE, MOST_PRICE, price) && price != 0
}

fn regulating_kwh(kwh: i64) -> bool
    ensures { result ≡ regulating_kwh kwh }
{
    between(-MOST_KWH, MOST_KWH, kwh) && kwh != 0
}

// Row 1 of the table of one party.
pub fn check_party(sizes: &Sizes, party: i64) -> Result<(), Refusal>
    ensures { result ≡ checked (party_check sizes.now party ∷ []) }
{
    let last = i64::from(sizes.parties);
    require(between(1, last, party), Refusal::UnknownParty { party })
}

fn check_traders_known(sizes: &Sizes, seller: i64, buyer: i64) -> Result<(), Refusal>
    ensures { result ≡ checked (party_check sizes.now seller ∷ party_check sizes.now buyer ∷ []) }
{
    check_party(sizes, seller)?;
    check_party(sizes, buyer)
}

fn check_hour(hour: i64) -> Result<(), Refusal>
    ensures { result ≡ checked (hour_check hour ∷ []) }
{
    require(between(1, 24, hour), Refusal::HourOrRange { from: hour })
}

fn check_range(from: i64, to: i64) -> Result<(), Refusal>
    ensures { result ≡ checked (range_check from to ∷ []) }
{
    let ranged = 1 <= from && from <= to && to <= 24;
    require(ranged, Refusal::HourOrRange { from })
}

fn check_value(in_range: bool, given: i64) -> Result<(), Refusal>
    ensures { result ≡ checked (record { fails = not in_range; refusal = OutOfRange given } ∷ []) }
{
    require(in_range, Refusal::OutOfRange { given })
}

fn check_apart(seller: i64, buyer: i64) -> Result<(), Refusal>
    ensures { result ≡ checked (traders_check seller buyer ∷ []) }
{
    require(seller != buyer, Refusal::SellerIsBuyer { party: seller })
}

// Row 1.
fn check_parties(sizes: &Sizes, entry: &Entry) -> Result<(), Refusal>
    ensures { result ≡ checked (map (party_check sizes.now) (parties_of entry.now)) }
{
    match entry {
        Entry::Deposit { party, .. }
        | Entry::Withdraw { party, .. }
        | Entry::Regulate { party, .. }
        | Entry::Meter { party, .. } => check_party(sizes, *party),
        Entry::Register { seller, buyer, .. } | Entry::Market { seller, buyer, .. } => {
            check_traders_known(sizes, *seller, *buyer)
        }
        Entry::Close { .. } | Entry::Evaluate { .. } => Ok(()),
    }
}

// Row 2.
fn check_day(sizes: &Sizes, entry: &Entry) -> Result<(), Refusal>
    ensures { result ≡ checked (map (day_check sizes.now) (day_of entry.now)) }
{
    match entry.day() {
        Some(day) => {
            let last = i64::from(sizes.days);
            require(between(1, last, day), Refusal::UnknownDay { day })
        }
        None => Ok(()),
    }
}

// Row 3.
fn check_hours(entry: &Entry) -> Result<(), Refusal>
    ensures { result ≡ checked (hour_checks entry.now) }
{
    match entry {
        Entry::Register { from, to, .. }
        | Entry::Market { from, to, .. }
        | Entry::Meter { from, to, .. } => check_range(*from, *to),
        Entry::Regulate { hour, .. } => check_hour(*hour),
        Entry::Deposit { .. }
        | Entry::Withdraw { .. }
        | Entry::Close { .. }
        | Entry::Evaluate { .. } => Ok(()),
    }
}

// Row 4.
fn check_values(entry: &Entry) -> Result<(), Refusal>
    ensures { result ≡ checked (value_checks entry.now) }
{
    match entry {
        Entry::Deposit { haler, .. } | Entry::Withdraw { haler, .. } => {
            check_value(between(1, MOST_HALERS, *haler), *haler)
        }
        Entry::Register { kwh, .. } => check_value(between(1, MOST_KWH, *kwh), *kwh),
        Entry::Market { kwh, price, .. } => {
            check_value(market_kwh(*kwh), *kwh)?;
            check_value(market_price(*price), *price)
        }
        Entry::Regulate { kwh, price, .. } => {
            check_value(regulating_kwh(*kwh), *kwh)?;
            check_value(between(-MOST_PRICE, MOST_PRICE, *price), *price)
        }
        Entry::Meter { kwh, .. } => check_value(between(-MOST_READ, MOST_READ, *kwh), *kwh),
        Entry::Evaluate { stage, .. } => check_value(between(1, 3, *stage), *stage),
        Entry::Close { .. } => Ok(()),
    }
}

// Row 5.
fn check_traders(entry: &Entry) -> Result<(), Refusal>
    ensures { result ≡ checked (trader_checks entry.now) }
{
    match entry {
        Entry::Register { seller, buyer, .. } | Entry::Market { seller, buyer, .. } => {
            check_apart(*seller, *buyer)
        }
        _ => Ok(()),
    }
}

// Rows 4 and 5.
#[tactic(auto, using(crate::proofs::Passed::stops, crate::proofs::Passed::goes_on))]
fn check_values_and_traders(entry: &Entry) -> Result<(), Refusal>
    ensures { result ≡ checked (value_checks entry.now ++ trader_checks entry.now) }
{
    check_values(entry)?;
    check_traders(entry)
}

// The first refusal that the entry's fields meet, if any.
#[tactic(auto, using(crate::proofs::Passed::stops, crate::proofs::Passed::goes_on))]
pub fn check_fields(sizes: &Sizes, entry: &Entry) -> Result<(), Refusal>
    ensures { result ≡ checked (field_checks sizes.now entry.now) }
{
    check_parties(sizes, entry)?;
    check_day(sizes, entry)?;
    check_hours(entry)?;
    check_values_and_traders(entry)
}
