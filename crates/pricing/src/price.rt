use units::limited::Limited;

// A price in CZK/MWh. None exists beyond ±99,999.
pub type Price = Limited<99_999>;
