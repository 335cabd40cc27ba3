// Pricing: imbalances, the system imbalance, both prices by the rule, and first amounts.
ghost use Rattle.std.specs.Prelude.{◌≡◌, ◌≤◌, map, unsigned_abs};
ghost use Rattle.units.specs.Sums.{page};
ghost use Rattle.pricing.specs.Prices.{Bounded};
ghost use Rattle.hourly.specs.Records.{record_figures};
ghost use Rattle.sheet.specs.Evaluation.{first_amount, first_amounts, imbalance, prices_of, system_imbalance, tenths_of};
ghost use Rattle.sheet.specs.Gathering.{facts};
ghost use Rattle.std.proofs.Common.{rules};

use super::gathered::Gathered;
use super::priced::Priced;
use super::row::Row;
use super::{Column, Figure, figures_of, price_for, totalled};
use hourly::record::HourRecord;
use pricing::Pricing;
use pricing::prices::Prices;

// The imbalance of a row.
fn imbalance_of(row: &Row) -> i64
    ensures value { result ≡ imbalance row.now }
    ensures within { unsigned_abs result ≤ 1999996 }
{
    row.reading - row.position - row.regulating
}

// The column of imbalances.
#[derive(Clone, Copy)]
struct Imbalances;

impl Figure for Imbalances {
    ghost figure = { λ s r. imbalance r };

    ghost limit = { 1999996 };

    ghost small = { Prim.search rules };

    fn of(&self, row: &Row) -> i64 {
        imbalance_of(row)
    }
}

// The column of first amounts at an hour's prices.
#[derive(Clone, Copy)]
struct FirstAmounts {
    prices: Prices,
    ghost long: { unsigned_abs prices.long ≤ 99999 },
    ghost short: { unsigned_abs prices.short ≤ 99999 },
}

impl FirstAmounts {
    // A party's tenths: its imbalance at its price, and its regulating tenths.
    fn tenths_of(&self, row: &Row) -> i64
        ensures value { result ≡ tenths_of self.now.prices row.now }
        ensures within { unsigned_abs result ≤ 299996400006 }
    {
        let imbalance = imbalance_of(row);
        imbalance * price_for(&self.prices, imbalance) + row.tenths
    }
}

impl Figure for FirstAmounts {
    ghost figure = { λ s r. first_amount s.prices r };

    ghost limit = { 30000000000 };

    ghost small = { Prim.search rules };

    fn of(&self, row: &Row) -> i64 {
        units::round_tenths(self.tenths_of(row))
    }
}

// Both prices by a rule, which does not refuse: no hour's system imbalance passes its limit.
fn prices_by<P: Pricing>(rule: &P, system: i64, deliveries: &HourRecord) -> Prices
    requires { unsigned_abs system ≤ 39999920 }
    ensures value { result ≡ P.map rule.now system (record_figures deliveries.now) }
    ensures bounded { Bounded result }
{
    match rule.prices(system, deliveries) {
        Ok(prices) => prices,
        Err(_) => unreachable(),
    }
}

// The steps of pricing. Its contract is that of `price`: a public function has no proof file of its own, so that a wrong body of it is refused by what it promises.
fn price_sheet<P: Pricing>(sheet: Gathered, rule: &P) -> Priced
    ensures gathered { result.gathered ≡ sheet }
    ensures imbalances { result.imbalances ≡ page (map imbalance (facts sheet).rows) }
    ensures system { result.system ≡ system_imbalance (facts sheet).rows }
    ensures prices { result.prices ≡ prices_of (P.Pricing.map rule.now) (facts sheet) }
    ensures firsts { result.firsts ≡ page (first_amounts (P.Pricing.map rule.now) (facts sheet)) }
{
    let Column { figures, total } = totalled(&Imbalances, &sheet);
    let prices = prices_by(rule, total, &sheet.deliveries);
    let firsts = figures_of(&FirstAmounts { prices }, &sheet);
    Priced {
        gathered: sheet,
        imbalances: figures,
        system: total,
        prices,
        firsts,
    }
}

impl Gathered {
    // Prices the sheet by a rule.
    pub fn price<P: Pricing>(self, rule: &P) -> Priced
        ensures gathered { result.gathered ≡ self }
        ensures imbalances { result.imbalances ≡ page (map imbalance (facts self).rows) }
        ensures system { result.system ≡ system_imbalance (facts self).rows }
        ensures prices { result.prices ≡ prices_of (P.Pricing.map rule.now) (facts self) }
        ensures firsts { result.firsts ≡ page (first_amounts (P.Pricing.map rule.now) (facts self)) }
    {
        price_sheet(self, rule)
    }
}
