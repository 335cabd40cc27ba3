// Why a sharing rule refuses (docs/RULES.md, "Refusals").
ghost use Rattle.sharing.specs.Limits.{told};

use refusals::{Tells, Told};

#[derive(Clone, Copy, PartialEq, Eq, Debug)]
pub enum SharingRefusal {
    // The remainder is beyond ±600,000,000,000 halers.
    Remainder { halers: i64 },
    // There are over 20 weights.
    Count { weights: i64 },
    // A weight, the first such, lies outside 0 to 499,999 kWh.
    Weight { kwh: i64 },
}

impl Tells for SharingRefusal {
    ghost told = { told };

    fn told(&self) -> Told {
        let place = match self {
            SharingRefusal::Remainder { halers } => *halers,
            SharingRefusal::Count { weights } => *weights,
            SharingRefusal::Weight { kwh } => *kwh,
        };
        Told { number: 4, place }
    }
}
