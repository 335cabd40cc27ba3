use super::deliveries::Deliveries;
use super::direction::{Downward, Upward};

// The hour record (docs/RULES.md, "Hour records"). None exists with deliveries outside their bounds.
#[derive(Clone, Copy, Default)]
pub struct HourRecord {
    pub upward: Deliveries<Upward>,
    pub downward: Deliveries<Downward>,
}
