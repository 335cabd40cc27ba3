// The two prices of an hour in CZK/MWh: for a positive imbalance the long one, for a negative one the short one.
#[derive(Clone, Copy, PartialEq, Eq, Debug)]
pub struct Prices {
    pub long: i64,
    pub short: i64,
}

// Why a pricing rule gives no prices.
#[derive(Clone, Copy, PartialEq, Eq, Debug)]
pub enum PricingRefusal {
    SystemImbalance { kwh: i64 },
}
