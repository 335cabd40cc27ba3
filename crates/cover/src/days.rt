ghost use Rattle.std.specs.Prelude.{◌≡◌, Bool, false};
ghost use Rattle.entries.specs.declared.entry.DayState.TheVariants.{Open};
ghost use Rattle.cover.specs.Days.{counted};

use entries::entry::DayState;

// What says whether a day counts.
pub trait Counts {
    ghost counts: { Self → Bool };

    // Stands in clauses for the days past the last one.
    ghost past: { Self };

    fn counts(&self) -> bool
        ensures { result ≡ counts self.now };
}

impl Counts for bool {
    ghost counts = { λ it. it };

    ghost past = { false };

    fn counts(&self) -> bool {
        *self
    }
}

impl Counts for DayState {
    ghost counts = { counted };

    ghost past = { Open };

    fn counts(&self) -> bool {
        matches!(self, DayState::Open | DayState::Closed)
    }
}
