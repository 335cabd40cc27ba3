// The entries of a book, the states of a day, and the refusals that need no more than these (docs/RULES.md, "Entries", "Which state admits what", "Refusals").
#![tactic(auto)]

ghost use Rattle.std.specs.Prelude.{◌≡◌};
ghost use Rattle.std.specs.Option.{option_to_list};
ghost use Rattle.entries.specs.Fields.{day_of};
ghost use Rattle.entries.specs.Refusals.{told};
ghost use Rattle.entries.specs.States.{number_of, moved};

pub mod entry;
mod fields;
pub mod refusal;
pub mod reply;
#[cfg(test)]
mod tests;

use entry::{DayState, Entry};
pub use fields::{check_fields, check_party};
use refusal::Refusal;
use refusals::{Tells, Told};

impl DayState {
    pub fn number(&self) -> u8
        ensures { result ≡ number_of self.now }
    {
        *self as u8
    }
}

impl Entry {
    // The day that the entry names, if any.
    pub fn day(&self) -> Option<i64>
        ensures { option_to_list result ≡ day_of self.now }
    {
        match self {
            Entry::Register { day, .. }
            | Entry::Market { day, .. }
            | Entry::Close { day }
            | Entry::Regulate { day, .. }
            | Entry::Meter { day, .. }
            | Entry::Evaluate { day, .. } => Some(*day),
            Entry::Deposit { .. } | Entry::Withdraw { .. } => None,
        }
    }
}

impl Tells for Refusal {
    ghost told = { told };

    fn told(&self) -> Told {
        let (number, place) = match self {
            Refusal::UnknownParty { party } => (1, *party),
            Refusal::UnknownDay { day } => (2, *day),
            Refusal::HourOrRange { from } => (3, *from),
            Refusal::OutOfRange { given } => (4, *given),
            Refusal::SellerIsBuyer { party } => (5, *party),
            Refusal::NotAdmitted { state } => (6, i64::from(state.number())),
            Refusal::KwhBeyond { hour } => (7, *hour),
            Refusal::CashBeyond { party } => (8, *party),
            Refusal::NotCovered { party } => (9, *party),
            Refusal::ReadingMissing { hour, party } => {
                (10, i64::from(*hour) * 100 + i64::from(*party))
            }
            Refusal::WrongSize => (11, 0),
        };
        Told { number, place }
    }
}

// The state of the day after the entry, or the refusal of an entry that the state does not admit. An entry that names no day leaves the state as it is.
pub fn next_state(state: DayState, entry: &Entry) -> Result<DayState, Refusal>
    ensures { result ≡ moved state entry.now }
{
    match (state, entry) {
        (_, Entry::Deposit { .. } | Entry::Withdraw { .. }) => Ok(state),
        (DayState::Open, Entry::Register { .. } | Entry::Market { .. }) => Ok(DayState::Open),
        (DayState::Open, Entry::Close { .. }) => Ok(DayState::Closed),
        (DayState::Closed, Entry::Regulate { .. }) => Ok(DayState::Closed),
        (DayState::Closed | DayState::Daily | DayState::Monthly, Entry::Meter { .. }) => Ok(state),
        (DayState::Closed, Entry::Evaluate { stage: 1, .. }) => Ok(DayState::Daily),
        (DayState::Daily, Entry::Evaluate { stage: 2, .. }) => Ok(DayState::Monthly),
        (DayState::Monthly, Entry::Evaluate { stage: 3, .. }) => Ok(DayState::Final),
        _ => Err(Refusal::NotAdmitted { state }),
    }
}
