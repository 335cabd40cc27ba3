// Pricing rules (docs/RULES.md, "Pricing rules"): a rule stands for one map from system imbalance and hour record to long and short price.
#![tactic(auto)]

ghost use Rattle.std.specs.Prelude.{◌≡◌, if◌then◌else◌, Ok, Err, nat_le, unsigned_abs};
ghost use Rattle.hourly.specs.Records.{record_figures};
ghost use Rattle.pricing.specs.Prices.{PriceMap, PricedWithin, answered, told};
ghost use Rattle.pricing.specs.Rules.{both};

pub mod ladder;
pub mod price;
pub mod prices;
pub mod regulating;

use hourly::record::HourRecord;
use prices::{Prices, PricingRefusal};
use refusals::{Tells, Told};

// A pricing rule. Equal inputs get equal prices, since the answer is the map's, and answering alters nothing, since the rule is only lent.
pub trait Pricing {
    ghost map: { Self → PriceMap };

    fn prices(&self, system: i64, hour: &HourRecord) -> Result<Prices, PricingRefusal>
        ensures { result ≡ answered (map self.now) system (record_figures hour.now) };

    ghost bounded: { (s : Self) → PricedWithin (map s) };
}

impl Tells for PricingRefusal {
    ghost told = { told };

    fn told(&self) -> Told {
        match self {
            PricingRefusal::SystemImbalance { kwh } => Told {
                number: 4,
                place: *kwh,
            },
        }
    }
}

impl Prices {
    // One price for both sides.
    pub fn both(price: i64) -> Prices
        ensures { result ≡ both price }
    {
        Prices {
            long: price,
            short: price,
        }
    }
}

// A system imbalance that every rule prices.
fn admit(system: i64) -> Result<u64, PricingRefusal>
    ensures { result ≡ (if nat_le (unsigned_abs system) 10000000000 then Ok (unsigned_abs system) else Err (PricingRefusal.SystemImbalance system)) }
{
    let kwh = system.unsigned_abs();
    if kwh > 10_000_000_000 {
        return Err(PricingRefusal::SystemImbalance { kwh: system });
    }
    Ok(kwh)
}
