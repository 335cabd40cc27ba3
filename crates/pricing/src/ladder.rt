// The ladder: one price for both sides, by the size and the sign of the system imbalance.
ghost use Rattle.std.specs.Prelude.{◌≡◌, ◌≤◌, pos, neg_ℤ, if◌then◌else◌};
ghost use Rattle.pricing.specs.Rules.{ladder, rung};
ghost use Rattle.std.proofs.Common.{rules};

use super::prices::{Prices, PricingRefusal};
use super::{Pricing, admit};
use hourly::record::HourRecord;

#[derive(Clone, Copy)]
pub struct Ladder;

// The price for a magnitude of kWh that the system lacks, or has too much.
fn rung_price(kwh: u64, lacks: bool) -> i64
    ensures { result ≡ (if lacks then rung kwh (pos 3000) (pos 4500) (pos 6000) (pos 9000) else rung kwh (pos 1200) (pos 600) (pos 0) (neg_ℤ (pos 500))) }
{
    let (lack, surplus) = match kwh {
        0..=50_000 => (3_000, 1_200),
        50_001..=200_000 => (4_500, 600),
        200_001..=500_000 => (6_000, 0),
        _ => (9_000, -500),
    };
    if lacks { lack } else { surplus }
}

impl Pricing for Ladder {
    ghost map = { λ s. ladder };

    ghost bounded = { Prim.search rules };

    fn prices(&self, system: i64, hour: &HourRecord) -> Result<Prices, PricingRefusal> {
        let kwh = admit(system)?;
        Ok(Prices::both(rung_price(kwh, system <= 0)))
    }
}
