// The regulating rule: prices by the regulating deliveries of the direction that the system asks for.
ghost use Rattle.std.specs.Prelude.{◌≡◌};
ghost use Rattle.pricing.specs.Rules.{by_deliveries, regulating};
ghost use Rattle.pricing.specs.Regulated.{regulating_bounded};

use super::price::Price;
use super::prices::{Prices, PricingRefusal};
use super::{Pricing, admit};
use hourly::deliveries::Deliveries;
use hourly::direction::Direction;
use hourly::record::HourRecord;
use std::cmp::Ordering;

// The default is both prices of an hour without a delivery in that direction.
#[derive(Clone, Copy)]
pub struct Regulating {
    pub default: Price,
}

impl Regulating {
    // The prices by the deliveries of one direction.
    fn prices_by<D: Direction>(&self, system: i64, deliveries: &Deliveries<D>) -> Prices
        ensures { result ≡ by_deliveries self.now.default.value system deliveries.now.kwh deliveries.now.total deliveries.now.extreme }
    {
        let average = units::nearest(deliveries.total, deliveries.kwh);
        let (Some(main), Some(average)) = (deliveries.extreme, average) else {
            return Prices::both(self.default.value());
        };
        match system.cmp(&0) {
            Ordering::Less => Prices {
                long: average,
                short: main,
            },
            Ordering::Equal => Prices::both(main),
            Ordering::Greater => Prices {
                long: main,
                short: average,
            },
        }
    }
}

impl Pricing for Regulating {
    ghost map = { λ s. regulating s.default.value };

    ghost bounded = { λ s. regulating_bounded s.default.value s.default.limited };

    fn prices(&self, system: i64, hour: &HourRecord) -> Result<Prices, PricingRefusal> {
        admit(system)?;
        if system <= 0 {
            Ok(self.prices_by(system, &hour.upward))
        } else {
            Ok(self.prices_by(system, &hour.downward))
        }
    }
}
