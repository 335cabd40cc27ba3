// What refuses an entry: the rows of the table of refusals, in their order (docs/RULES.md, "Refusals").
ghost use Rattle.std.specs.Prelude.{◌≡◌, ℕ, ◌+◌, ◌-◌, ◌*◌, ◌<◌, ◌≤◌, [], ◌∷◌, length, position, take, drop, zip, ℤ, pos, ◌+ℤ◌, neg_ℤ, IfSome, ◌≢◌, unsigned_abs};
ghost use Rattle.std.specs.Option.{option_map};
ghost use Rattle.hourly.specs.Bounds.{within};
ghost use Rattle.hourly.specs.Cells.{read};
ghost use Rattle.hourly.specs.Records.{deliverable, record_read};
ghost use Rattle.needs.specs.Need.{need_with};
ghost use Rattle.cover.specs.Prices.{in_use};
ghost use Rattle.entries.specs.Fields.{checked, verdict};
ghost use Rattle.entries.specs.Sane.{Numbered, Sane};
ghost use Rattle.book.specs.Standing.{index};
ghost use Rattle.book.specs.Effects.{paid, side, sold};
ghost use Rattle.book.specs.Checks.{admitted_check, beyond_of, kwh_checks, cash_after, cash_check, cash_checks, cover_check, cover_checks, state_check, state_checks, need_after, passes_cover, first};
ghost use Rattle.book.specs.Sales.{beyond_in, cells_of, over, sale_of, states_of, trade_of};
ghost use Rattle.book.specs.Held.{standing_on};
ghost use Rattle.book.specs.Posting.{refusal_on};
ghost use Rattle.book.specs.Books.{held, terms_by};

mod entering;

use crate::book::{Book, Ledger};
use crate::{hours, index, market_cash, minus};
use cover::prices::ParametricPrices;
use entries::entry::Entry;
use entries::refusal::Refusal;
use entries::{check_fields, next_state};
use hourly::lies_within;
use hourly::plain::{PlainCell, PlainRecord};
use hourly::record::HourRecord;
use needs::trade::Trade;
use needs::{need, need_with};
use pricing::Pricing;
use sharing::Sharing;

// The halers of a party that a sum goes to, 0 for any other.
fn side(party: i64, halers: i64, of: usize) -> i64
    ensures value { result ≡ side party halers of }
    ensures few { unsigned_abs result ≤ unsigned_abs halers }
{
    if of == index(party) { halers } else { 0 }
}

// What a sale for a price adds to the cash of a party.
fn sale_cash(seller: i64, buyer: i64, halers: i64, of: usize) -> i64
    requires { unsigned_abs halers ≤ 119758802400 }
    ensures value { result ≡ side seller halers of +ℤ side buyer (neg_ℤ halers) of }
    ensures few { unsigned_abs result ≤ 1000000000000 }
{
    side(seller, halers, of) + side(buyer, -halers, of)
}

// Whether a position has room for kWh more.
fn takes(position: i64, kwh: i64) -> bool
    requires { (unsigned_abs position ≤ 499999) × (unsigned_abs kwh ≤ 499000) }
    ensures { result ≡ within 499999 (position +ℤ kwh) }
{
    lies_within(499_999, position + kwh)
}

// Whether a cell's position has room for kWh more.
fn has_room(cell: &PlainCell, kwh: i64) -> bool
    requires { unsigned_abs kwh ≤ 499000 }
    ensures { result ≡ within 499999 ((read cell.now).position +ℤ kwh) }
{
    takes(cell.position(), kwh)
}

// Whether a sale in one hour would take a position beyond its limit.
fn beyond(seller: &PlainCell, buyer: &PlainCell, kwh: i64) -> bool
    requires { unsigned_abs kwh ≤ 499000 }
    ensures { result ≡ over kwh seller.now buyer.now }
{
    if !has_room(seller, kwh) {
        return true;
    }
    !has_room(buyer, minus(kwh))
}

// A sale in a range of hours: where the rows of seller and buyer start, its first hour and how many it has, and kWh. That of an entry which sells nothing has no hours,
// so that whatever goes over them finds nothing: no `Option` is asked first.
#[derive(Clone, Copy, Default)]
struct Sale {
    seller: usize,
    buyer: usize,
    from: usize,
    hours: usize,
    kwh: i64,
}

// Some cells that lie side by side.
fn hours_of(cells: &[PlainCell], start: usize, count: usize) -> &[PlainCell]
    requires { start + count ≤ length cells.now }
    ensures { result.now ≡ take count (drop start cells.now) }
{
    &cells[start..start + count]
}

// The first place at which a sale would take a position beyond its limit.
fn first_in(sellers: &[PlainCell], buyers: &[PlainCell], kwh: i64) -> Option<usize>
    requires kwh { unsigned_abs kwh ≤ 499000 }
    requires same { length sellers.now ≡ length buyers.now }
    ensures value { result ≡ position (λ pair. over kwh pair.0 pair.1) (zip sellers.now buyers.now) }
    ensures within { IfSome result (λ (place : ℕ). place < length sellers.now) }
{
    sellers
        .iter()
        .zip(buyers)
        .position(|(seller, buyer)| beyond(seller, buyer, kwh))
}

// The first hour in which a sale would take a position beyond its limit.
fn first_beyond(cells: &[PlainCell], sale: &Sale) -> Option<usize>
    requires kwh { unsigned_abs sale.now.kwh ≤ 499000 }
    requires seller { sale.now.seller + (sale.now.from + sale.now.hours) ≤ length cells.now }
    requires buyer { sale.now.buyer + (sale.now.from + sale.now.hours) ≤ length cells.now }
    ensures value { result ≡ first (beyond_in cells.now sale.now) sale.now.from sale.now.hours }
    ensures within { IfSome result (λ (hour : ℕ). hour < sale.now.from + sale.now.hours) }
{
    let sellers = hours_of(cells, sale.seller + sale.from, sale.hours);
    let buyers = hours_of(cells, sale.buyer + sale.from, sale.hours);
    first_in(sellers, buyers, sale.kwh).map(|hour| sale.from + hour)
}

// Whether a record has room for a delivery.
fn has_room_for(lying: &PlainRecord, kwh: i64, price: i64) -> bool
    ensures { result ≡ deliverable (record_read lying.now) kwh price }
{
    HourRecord::from_plain(lying).deliver(kwh, price).is_some()
}

// The kWh that a sale adds to the position of a party.
fn sold(seller: i64, buyer: i64, kwh: i64, of: usize) -> i64
    requires kwh_bound { unsigned_abs kwh ≤ 499000 }
    requires seller_nonzero { ((unsigned_abs seller ≢ unsigned_abs buyer)) × ((1 ≤ unsigned_abs seller) × (1 ≤ unsigned_abs buyer)) }
    ensures value { result ≡ sold seller buyer kwh of }
    ensures few { unsigned_abs result ≤ 499000 }
{
    if of == index(seller) {
        return kwh;
    }
    side(buyer, minus(kwh), of)
}

// That an entry is `Sane` is said of it and of the ledger's sizes together: a type that kept it would hold the sizes too, and each clause would then say that they are
// the ledger's. kWh are numbers with their bound in a clause, since of a `Limited` the same kWh the other way would have to be made and asked anew.
impl Ledger<'_> {
    // What an entry adds to the cash of a party.
    fn paid(&self, entry: &Entry, of: usize) -> i64
        requires { Sane self.now.sizes entry.now }
        ensures value { result ≡ paid entry.now of }
        ensures few { unsigned_abs result ≤ 1000000000000 }
    {
        match *entry {
            Entry::Deposit { party, haler } => side(party, haler, of),
            Entry::Withdraw { party, haler } => side(party, -haler, of),
            Entry::Market {
                from,
                to,
                seller,
                buyer,
                kwh,
                price,
                ..
            } => sale_cash(seller, buyer, market_cash(from, to, kwh, price), of),
            _ => 0,
        }
    }

    // Where the sale of an entry lies on the page of cells.
    fn sale_of(&self, entry: &Entry) -> Sale
        requires { Sane self.now.sizes entry.now }
        ensures value { result ≡ sale_of self.now.sizes entry.now }
        ensures kwh { unsigned_abs result.kwh ≤ 499000 }
        ensures seller { result.seller + (result.from + result.hours) ≤ length self.now.cells }
        ensures buyer { result.buyer + (result.from + result.hours) ≤ length self.now.cells }
    {
        match entry {
            Entry::Register {
                day,
                from,
                to,
                seller,
                buyer,
                kwh,
            }
            | Entry::Market {
                day,
                from,
                to,
                seller,
                buyer,
                kwh,
                ..
            } => Sale {
                seller: self.row_at(index(*seller), index(*day)),
                buyer: self.row_at(index(*buyer), index(*day)),
                from: index(*from),
                hours: hours(*from, *to) as usize,
                kwh: *kwh,
            },
            _ => Sale::default(),
        }
    }

    // What an entry trades of a party, as a run of the party's own cells.
    fn trade_of(&self, entry: &Entry, of: usize) -> Trade
        requires { Sane self.now.sizes entry.now }
        ensures value { result ≡ trade_of entry.now of }
        ensures few { unsigned_abs result.kwh ≤ 499000 }
    {
        match entry {
            Entry::Register {
                day,
                from,
                to,
                seller,
                buyer,
                kwh,
            }
            | Entry::Market {
                day,
                from,
                to,
                seller,
                buyer,
                kwh,
                ..
            } => {
                let start = self.hour_at(*day, *from);
                let end = start + hours(*from, *to) as usize;
                Trade {
                    start,
                    end,
                    kwh: sold(*seller, *buyer, *kwh, of),
                }
            }
            _ => Trade::default(),
        }
    }

    // Whether the state of a day admits an entry, by the table of states.
    fn check_table(&self, entry: &Entry, day: i64) -> Result<(), Refusal>
        ensures { result ≡ checked (state_check (standing_on self.now) entry.now day ∷ []) }
    {
        next_state(self.state(index(day)), entry)?;
        Ok(())
    }

    // Row 6 on its day. No state admits an evaluation yet.
    fn check_admitted(&self, entry: &Entry, day: i64) -> Result<(), Refusal>
        ensures { result ≡ checked (admitted_check (standing_on self.now) entry.now day ∷ []) }
    {
        if let Entry::Evaluate { .. } = entry {
            let state = self.state(index(day));
            return Err(Refusal::NotAdmitted { state });
        }
        self.check_table(entry, day)
    }

    // Row 6 of the table of refusals.
    fn check_state(&self, entry: &Entry) -> Result<(), Refusal>
        ensures { result ≡ checked (state_checks (standing_on self.now) entry.now) }
    {
        match entry.day() {
            Some(day) => self.check_admitted(entry, day),
            None => Ok(()),
        }
    }

    // Whether the record of an hour has room for a delivery.
    fn has_place(&self, day: i64, hour: i64, kwh: i64, price: i64) -> bool
        requires known { (Numbered self.now.sizes.days day) × (Numbered 24 hour) }
        ensures { result ≡ deliverable ((standing_on self.now).deliveries (index day) (index hour)) kwh price }
    {
        let at = self.hour_at(day, hour);
        let lying = self.pages.records[at];
        has_room_for(&lying, kwh, price)
    }

    // The first hour, by its number, in which the sale of an entry would take a position beyond its limit.
    fn beyond_hour(&self, entry: &Entry) -> Option<i64>
        requires { Sane self.now.sizes entry.now }
        ensures { result ≡ option_map (λ (t : ℕ). pos (t + 1)) (beyond_of (standing_on self.now) entry.now) }
    {
        let sale = self.sale_of(entry);
        let cells = &*self.pages.cells;
        first_beyond(cells, &sale).map(|hour| hour as i64 + 1)
    }

    // Row 7.
    fn check_kwh(&self, entry: &Entry) -> Result<(), Refusal>
        requires { Sane self.now.sizes entry.now }
        ensures { result ≡ checked (kwh_checks (standing_on self.now) entry.now) }
    {
        if let Entry::Regulate {
            day,
            hour,
            kwh,
            price,
            ..
        } = *entry
        {
            if !self.has_place(day, hour, kwh, price) {
                return Err(Refusal::KwhBeyond { hour });
            }
        }
        match self.beyond_hour(entry) {
            Some(hour) => Err(Refusal::KwhBeyond { hour }),
            None => Ok(()),
        }
    }

    // A party's cash after an entry.
    fn cash_after(&self, entry: &Entry, of: usize) -> i64
        requires { Sane self.now.sizes entry.now }
        ensures value { result ≡ cash_after (standing_on self.now) entry.now of }
        ensures few { unsigned_abs result ≤ 100001000000000000 }
    {
        self.account(of).cash + self.paid(entry, of)
    }

    // Whether an entry would take a party's cash beyond its limit.
    fn cash_beyond(&self, entry: &Entry, party: i64) -> bool
        requires { Sane self.now.sizes entry.now }
        ensures { result ≡ (cash_check (standing_on self.now) entry.now party).fails }
    {
        !lies_within(
            100_000_000_000_000_000,
            self.cash_after(entry, index(party)),
        )
    }

    // Row 8 of one party.
    fn check_cash_of(&self, entry: &Entry, party: i64) -> Result<(), Refusal>
        requires { Sane self.now.sizes entry.now }
        ensures { result ≡ checked (cash_check (standing_on self.now) entry.now party ∷ []) }
    {
        if self.cash_beyond(entry, party) {
            return Err(Refusal::CashBeyond { party });
        }
        Ok(())
    }

    // Row 8.
    fn check_cash(&self, entry: &Entry) -> Result<(), Refusal>
        requires { Sane self.now.sizes entry.now }
        ensures { result ≡ checked (cash_checks (standing_on self.now) entry.now) }
    {
        match entry {
            Entry::Deposit { party, .. } | Entry::Withdraw { party, .. } => {
                self.check_cash_of(entry, *party)
            }
            Entry::Market { seller, buyer, .. } => {
                self.check_cash_of(entry, *seller)?;
                self.check_cash_of(entry, *buyer)
            }
            _ => Ok(()),
        }
    }

    // What a party needs after a trade.
    fn need_with_trade(&self, party: usize, trade: &Trade) -> i64
        requires known { party < self.now.sizes.parties }
        requires few { unsigned_abs trade.now.kwh ≤ 499000 }
        ensures long { length (states_of self.now) ≡ self.now.sizes.days }
        ensures value { result ≡ pos (need_with in_use (states_of self.now) (cells_of self.now party) trade.now.start trade.now.end trade.now.kwh) }
    {
        let prices = ParametricPrices::in_use();
        need_with(&prices, self.day_states(), self.cells_of(party), trade).unwrap()
    }

    // A party's balance after an entry.
    fn balance_after(&self, entry: &Entry, party: usize) -> i64
        requires sane { Sane self.now.sizes entry.now }
        ensures value { result ≡ cash_after (standing_on self.now) entry.now party +ℤ ((standing_on self.now).account party).settled }
    {
        self.cash_after(entry, party) + self.account(party).settled
    }
}

impl<P: Pricing, S: Sharing> Book<'_, P, S> {
    // What a party needs after an entry.
    fn need_after(&self, entry: &Entry, party: usize) -> i64
        requires sane { Sane self.now.ledger.sizes entry.now }
        requires known { party < self.now.ledger.sizes.parties }
        ensures value { result ≡ pos (need_after (terms_by P.Pricing.map S.Sharing.map self.now) (standing_on (held self.now)) entry.now party) }
    {
        let trade = self.ledger.trade_of(entry, party);
        self.ledger.need_with_trade(party, &trade)
    }

    // Whether an entry leaves a party covered.
    fn leaves_covered(&self, entry: &Entry, party: usize) -> bool
        requires sane { Sane self.now.ledger.sizes entry.now }
        requires known { party < self.now.ledger.sizes.parties }
        ensures { result ≡ passes_cover (terms_by P.Pricing.map S.Sharing.map self.now) (standing_on (held self.now)) entry.now party }
    {
        self.need_after(entry, party) <= self.ledger.balance_after(entry, party)
    }

    // Whether an entry leaves a party without cover.
    fn uncovered(&self, entry: &Entry, party: i64) -> bool
        requires sane { Sane self.now.ledger.sizes entry.now }
        requires known { Numbered self.now.ledger.sizes.parties party }
        ensures { result ≡ (cover_check (terms_by P.Pricing.map S.Sharing.map self.now) (standing_on (held self.now)) entry.now party).fails }
    {
        !self.leaves_covered(entry, index(party))
    }

    // Row 9 of one party.
    fn check_cover_of(&self, entry: &Entry, party: i64) -> Result<(), Refusal>
        requires sane { Sane self.now.ledger.sizes entry.now }
        requires known { Numbered self.now.ledger.sizes.parties party }
        ensures { result ≡ checked (cover_check (terms_by P.Pricing.map S.Sharing.map self.now) (standing_on (held self.now)) entry.now party ∷ []) }
    {
        if self.uncovered(entry, party) {
            return Err(Refusal::NotCovered { party });
        }
        Ok(())
    }

    // Row 9 of the table of refusals.
    fn check_cover(&self, entry: &Entry) -> Result<(), Refusal>
        requires { Sane self.now.ledger.sizes entry.now }
        ensures { result ≡ checked (cover_checks (terms_by P.Pricing.map S.Sharing.map self.now) (standing_on (held self.now)) entry.now) }
    {
        match entry {
            Entry::Withdraw { party, .. } => self.check_cover_of(entry, *party),
            Entry::Register { seller, buyer, .. } | Entry::Market { seller, buyer, .. } => {
                self.check_cover_of(entry, *seller)?;
                self.check_cover_of(entry, *buyer)
            }
            _ => Ok(()),
        }
    }

    // The first refusal of the table that an entry meets, if any.
    fn check(&self, entry: &Entry) -> Result<(), Refusal>
        ensures { result ≡ verdict (refusal_on (terms_by P.Pricing.map S.Sharing.map self.now) (held self.now) entry.now) }
    {
        let sizes = self.ledger.sizes();
        check_fields(&sizes, entry)?;
        self.ledger.check_state(entry)?;
        self.ledger.check_kwh(entry)?;
        self.ledger.check_cash(entry)?;
        self.check_cover(entry)
    }
}
