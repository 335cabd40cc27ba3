ghost use Rattle.std.specs.Prelude.{◌≡◌, true};
ghost use Rattle.cover.specs.Prices.{in_range};

use super::hour::HourPrices;

// The parametric prices of the 24 hours, hour 1 first. No table exists with a price above 99,999.
#[derive(Clone, Copy)]
pub struct ParametricPrices {
    pub hours: [HourPrices; 24],
    ghost priced: { in_range hours ≡ true },
}
