// The book of a market area (docs/RULES.md, "Parties, days and pages" to "Which state admits what", "Cover").
#![tactic(auto)]

ghost use Rattle.std.specs.Prelude.{◌≡◌, ◌+◌, ◌-◌, ◌*◌, ◌/◌, ◌<◌, ◌≤◌, true, length, neg_ℤ, slice_index_or, slice_set, unsigned_abs};
ghost use Rattle.std.specs.Option.{unwrap_or};
ghost use Rattle.hourly.specs.Bounds.{within};
ghost use Rattle.hourly.specs.Records.{deliverable, delivered, no_deliveries, record_plain, record_read};
ghost use Rattle.rows.specs.Changes.{metered, regulated, relaid, shifted};
ghost use Rattle.entries.specs.declared.entry.Entry.TheVariants.{Regulate};
ghost use Rattle.entries.specs.Sane.{Numbered, Ranged, Sane};
ghost use Rattle.entries.specs.States.{after};
ghost use Rattle.book.specs.Standing.{hours, index};
ghost use Rattle.book.specs.Effects.{market_cash};
ghost use Rattle.book.specs.Sales.{cells_of, states_of};
ghost use Rattle.book.specs.Held.{Fits, account_read, cell_at, row_at, standing_on};
ghost use Rattle.book.specs.Posting.{Room, changed, credited, in_row, moved_on, posted, recorded, sale, with_accounts, with_cash, with_cells, with_records, with_states};

pub mod account;
pub mod book;
mod checks;
pub mod open;
pub mod pages;
mod sheets;
pub mod statement;
mod statements;

use account::Account;
use book::Ledger;
use entries::entry::{DayState, Entry, Sizes};
use entries::next_state;
use hourly::lies_within;
use hourly::plain::{PlainCell, PlainRecord};
use hourly::record::HourRecord;
use pages::Pages;
use rows::changes::{Delivery, Reading, Shift};
use rows::{Change, change_cells};

// Where the party, day or hour of a number is counted: number 1 at 0.
fn index(number: i64) -> usize
    ensures { result ≡ index number }
{
    number.unsigned_abs().saturating_sub(1) as usize
}

// The same kWh or halers the other way.
fn minus(number: i64) -> i64
    requires { unsigned_abs number ≤ 1000000000000 }
    ensures { result ≡ neg_ℤ number }
{
    -number
}

// An account whose numbers are in bounds, or one without money.
fn read_account(account: &Account) -> Account
    ensures value { result ≡ account_read account.now }
    ensures cash { unsigned_abs result.cash ≤ 100000000000000000 }
    ensures settled { unsigned_abs result.settled ≤ 937440000000000 }
{
    let sound = lies_within(100_000_000_000_000_000, account.cash)
        && lies_within(937_440_000_000_000, account.settled);
    if sound { *account } else { Account::default() }
}

// The hours of a range, both ends included.
fn hours(from: i64, to: i64) -> u64
    requires { (unsigned_abs from ≤ unsigned_abs to) × ((1 ≤ unsigned_abs from) × (unsigned_abs to ≤ 24)) }
    ensures value { result ≡ hours from to }
    ensures few { result ≤ 24 }
{
    to.unsigned_abs() + 1 - from.unsigned_abs()
}

// Tens of kWh over some hours.
fn tens(hours: u64, kwh: u64) -> u64
    requires { (hours ≤ 24) × (kwh ≤ 499000) }
    ensures value { result ≡ hours * kwh / 10 }
    ensures few { result ≤ 1197600 }
{
    hours * kwh / 10
}

// The halers that a market trade moves from buyer to seller.
fn market_cash(from: i64, to: i64, kwh: i64, price: i64) -> i64
    requires range { (unsigned_abs from ≤ unsigned_abs to) × ((1 ≤ unsigned_abs from) × (unsigned_abs to ≤ 24)) }
    requires amount { (unsigned_abs kwh ≤ 499000) × (unsigned_abs price ≤ 99999) }
    ensures value { result ≡ market_cash from to kwh price }
    ensures few { unsigned_abs result ≤ 119758802400 }
{
    let moved = tens(hours(from, to), kwh.unsigned_abs());
    units::tenths_at(moved as i64, price).unwrap()
}

// The state of a day after an entry: as it was where it does not admit the entry.
fn state_after(state: DayState, entry: &Entry) -> DayState
    ensures { result ≡ unwrap_or (after state entry.now) state }
{
    match next_state(state, entry) {
        Ok(next) => next,
        Err(_) => state,
    }
}

// A record after a delivery that it has room for.
fn delivered(lying: &PlainRecord, kwh: i64, price: i64) -> PlainRecord
    requires { deliverable (record_read lying.now) kwh price ≡ true }
    ensures { result ≡ record_plain (delivered (record_read lying.now) kwh price) }
{
    HourRecord::from_plain(lying)
        .deliver(kwh, price)
        .unwrap()
        .to_plain()
}

// An account with halers more.
fn with_cash(account: &Account, halers: i64) -> Account
    requires { (unsigned_abs account.now.cash ≤ 100000000000000000) × (unsigned_abs halers ≤ 1000000000000) }
    ensures { result ≡ with_cash halers account.now }
{
    Account {
        cash: account.cash + halers,
        settled: account.settled,
    }
}

impl Pages<'_> {
    // Changes the cells of one run.
    fn change<C: Change>(&mut self, start: usize, count: usize, change: &C)
        requires { start + count ≤ length self.old.cells.now }
        ensures cells { self.new.cells.now ≡ changed (relaid (C.Change.change change.now)) start count self.old.cells.now }
        ensures long { length self.new.cells.now ≡ length self.old.cells.now }
        ensures records { self.new.records.now ≡ self.old.records.now }
    {
        change_cells(&mut self.cells[start..start + count], change);
    }

    // Adds a delivery to a record that has room for it.
    fn deliver(&mut self, at: usize, kwh: i64, price: i64)
        requires inside { at < length self.old.records.now }
        requires room { deliverable (record_read (slice_index_or self.old.records.now at (record_plain no_deliveries))) kwh price ≡ true }
        ensures cells { self.new.cells.now ≡ self.old.cells.now }
        ensures records { self.new.records.now ≡ slice_set self.old.records.now at (record_plain (delivered (record_read (slice_index_or self.old.records.now at (record_plain no_deliveries))) kwh price)) }
    {
        self.records[at] = delivered(&self.records[at], kwh, price);
    }
}

impl Ledger<'_> {
    // How many parties and days there are; every page has its size.
    fn sizes(&self) -> Sizes
        ensures value { result ≡ self.now.sizes }
        ensures fits { Fits self.now }
    {
        self.sizes
    }

    // Where an hour of a day lies among those of a party, or among the records.
    fn hour_at(&self, day: i64, hour: i64) -> usize
        requires { (index day < self.now.sizes.days) × (index hour < 24) }
        ensures value { result ≡ index day * 24 + index hour }
        ensures few { result < 1488 }
        ensures inside { result < length self.now.records }
    {
        // read, so that its bounds are known
        let _ = &self.sizes;
        index(day) * 24 + index(hour)
    }

    // Where the cells of a party begin.
    fn party_at(&self, party: usize) -> usize
        requires { party < self.now.sizes.parties }
        ensures value { result ≡ party * (self.now.sizes.days * 24) }
        ensures inside { result + self.now.sizes.days * 24 ≤ length self.now.cells }
        ensures few { result + self.now.sizes.days * 24 ≤ 29760 }
    {
        party * (self.sizes.days as usize * 24)
    }

    // Where a party's row of a day begins.
    fn row_at(&self, party: usize, day: usize) -> usize
        requires { (party < self.now.sizes.parties) × (day < self.now.sizes.days) }
        ensures value { result ≡ row_at self.now.sizes party day }
        ensures inside { result + 24 ≤ length self.now.cells }
        ensures few { result + 24 ≤ 29760 }
    {
        self.party_at(party) + day * 24
    }

    // Where an hour of a party's day lies on the page of cells.
    fn place_at(&self, party: i64, day: i64, hour: i64) -> usize
        requires { (Numbered self.now.sizes.parties party) × ((Numbered self.now.sizes.days day) × (Numbered 24 hour)) }
        ensures value { result ≡ cell_at self.now.sizes (index party) (index day) (index hour) }
        ensures inside { result + (25 - unsigned_abs hour) ≤ length self.now.cells }
    {
        self.row_at(index(party), index(day)) + index(hour)
    }

    // The account of a party.
    fn account(&self, of: usize) -> Account
        ensures value { result ≡ (standing_on self.now).account of }
        ensures cash { unsigned_abs result.cash ≤ 100000000000000000 }
        ensures settled { unsigned_abs result.settled ≤ 937440000000000 }
    {
        match self.accounts.get(of) {
            Some(account) => read_account(account),
            None => Account::default(),
        }
    }

    // The state of a day.
    fn state(&self, day: usize) -> DayState
        ensures { result ≡ (standing_on self.now).state day }
    {
        self.states.get(day).copied().unwrap_or(DayState::Open)
    }

    // The cells of a party, day by day.
    fn cells_of(&self, party: usize) -> &[PlainCell]
        requires known { party < self.now.sizes.parties }
        ensures value { result.now ≡ cells_of self.now party }
        ensures size { length result.now ≡ self.now.sizes.days * 24 }
    {
        let start = self.party_at(party);
        &self.pages.cells[start..start + self.sizes.days as usize * 24]
    }

    // The states of the book's days.
    fn day_states(&self) -> &[DayState]
        ensures value { result.now ≡ states_of self.now }
        ensures size { length result.now ≡ self.now.sizes.days }
        ensures few { (1 ≤ length result.now) × (length result.now ≤ 62) }
    {
        &self.states[0..self.sizes.days as usize]
    }
}

// Parties, days, hours, kWh and prices come as an entry has them, here and in what the checks ask: a struct of them would be made only to be taken apart in each of these.
impl Ledger<'_> {
    // Adds halers to the cash of a party.
    fn credit(&mut self, party: i64, halers: i64)
        requires known { Numbered self.old.sizes.parties party }
        requires few { unsigned_abs halers ≤ 1000000000000 }
        ensures { self.new ≡ with_accounts self.old (credited party halers self.old.accounts) }
    {
        let at = index(party);
        let account = self.account(at);
        self.accounts[at] = with_cash(&account, halers);
    }

    // Moves a day on by an entry.
    fn move_on(&mut self, entry: &Entry, day: i64)
        requires { Numbered self.old.sizes.days day }
        ensures { self.new ≡ with_states self.old (moved_on self.old entry.now day) }
    {
        let at = index(day);
        let state = self.states[at];
        self.states[at] = state_after(state, entry);
    }

    // Adds a delivery to the record of its hour.
    fn deliver(&mut self, day: i64, hour: i64, kwh: i64, price: i64)
        requires known { (Numbered self.old.sizes.days day) × (Numbered 24 hour) }
        requires room { deliverable ((standing_on self.old).deliveries (index day) (index hour)) kwh price ≡ true }
        ensures { self.new ≡ with_records self.old (recorded self.old day hour kwh price) }
    {
        let at = self.hour_at(day, hour);
        self.pages.deliver(at, kwh, price);
    }

    // Changes some hours of a party's row of a day.
    fn change_hours<C: Change>(&mut self, party: i64, day: i64, from: i64, to: i64, change: &C)
        requires known { (Numbered self.old.sizes.parties party) × ((Numbered self.old.sizes.days day) × (Ranged from to)) }
        ensures written { self.new ≡ with_cells self.old (in_row self.old party day from to (C.Change.change change.now) self.old.cells) }
    {
        let start = self.place_at(party, day, from);
        self.pages.change(start, hours(from, to) as usize, change);
    }

    // Moves kWh of some hours from the buyer's position to the seller's.
    fn sell(&mut self, day: i64, from: i64, to: i64, seller: i64, buyer: i64, kwh: i64)
        requires known { (Numbered self.old.sizes.parties seller) × ((Numbered self.old.sizes.parties buyer) × ((Numbered self.old.sizes.days day) × (Ranged from to))) }
        requires few { unsigned_abs kwh ≤ 499000 }
        ensures { self.new ≡ with_cells self.old (sale self.old day from to seller buyer kwh) }
    {
        let sold = Shift::new(kwh).unwrap();
        let bought = Shift::new(minus(kwh)).unwrap();
        self.change_hours(seller, day, from, to, &sold);
        self.change_hours(buyer, day, from, to, &bought);
    }

    // Moves halers from the buyer's cash to the seller's.
    fn pay(&mut self, seller: i64, buyer: i64, halers: i64)
        requires known { (Numbered self.old.sizes.parties seller) × (Numbered self.old.sizes.parties buyer) }
        requires few { unsigned_abs halers ≤ 1000000000000 }
        ensures { self.new ≡ with_accounts self.old (credited buyer (neg_ℤ halers) (credited seller halers self.old.accounts)) }
    {
        self.credit(seller, halers);
        self.credit(buyer, minus(halers));
    }

    // Adds a delivery to the cell and to the record of its hour.
    fn write_delivery(&mut self, day: i64, hour: i64, party: i64, kwh: i64, price: i64)
        requires known { (Numbered self.old.sizes.parties party) × ((Numbered self.old.sizes.days day) × (Numbered 24 hour)) }
        requires few { (unsigned_abs kwh ≤ 499000) × (unsigned_abs price ≤ 99999) }
        requires room { deliverable ((standing_on self.old).deliveries (index day) (index hour)) kwh price ≡ true }
        ensures { self.new ≡ posted self.old (Regulate day hour party kwh price) }
    {
        let delivery = Delivery::new(kwh, price).unwrap();
        self.change_hours(party, day, hour, hour, &delivery);
        self.deliver(day, hour, kwh, price);
    }

    // Writes an entry that has passed every check.
    fn write(&mut self, entry: &Entry)
        requires sane { Sane self.old.sizes entry.now }
        requires room { Room self.old entry.now }
        ensures { self.new ≡ posted self.old entry.now }
    {
        match *entry {
            Entry::Deposit { party, haler } => self.credit(party, haler),
            Entry::Withdraw { party, haler } => self.credit(party, minus(haler)),
            Entry::Register {
                day,
                from,
                to,
                seller,
                buyer,
                kwh,
            } => self.sell(day, from, to, seller, buyer, kwh),
            Entry::Market {
                day,
                from,
                to,
                seller,
                buyer,
                kwh,
                price,
            } => {
                self.sell(day, from, to, seller, buyer, kwh);
                self.pay(seller, buyer, market_cash(from, to, kwh, price));
            }
            Entry::Close { day } => self.move_on(entry, day),
            Entry::Regulate {
                day,
                hour,
                party,
                kwh,
                price,
            } => self.write_delivery(day, hour, party, kwh, price),
            Entry::Meter {
                day,
                from,
                to,
                party,
                kwh,
            } => {
                let reading = Reading::new(kwh).unwrap();
                self.change_hours(party, day, from, to, &reading);
            }
            Entry::Evaluate { .. } => {}
        }
    }
}
