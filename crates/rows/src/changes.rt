// What entries do to a cell, each within the range that its entry has.
use units::limited::Limited;

// kWh added to a position. None exists beyond ±499,000.
#[derive(Clone, Copy)]
pub struct Shift(pub(crate) Limited<499_000>);

// A reading in kWh. None exists beyond ±499,999.
#[derive(Clone, Copy)]
pub struct Reading(pub(crate) Limited<499_999>);

// A regulating delivery: kWh, within ±499,000, and its price in CZK/MWh, within ±99,999.
#[derive(Clone, Copy)]
pub struct Delivery {
    pub(crate) kwh: Limited<499_000>,
    pub(crate) price: Limited<99_999>,
}
