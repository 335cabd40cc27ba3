// Why the book refuses (docs/RULES.md, "Refusals", layer 3), each case with what its place is made of.
use super::entry::DayState;

#[derive(Clone, Copy)]
pub enum Refusal {
    UnknownParty { party: i64 },
    UnknownDay { day: i64 },
    // The single hour given, or where the range starts.
    HourOrRange { from: i64 },
    // A field other than party, day and hour.
    OutOfRange { given: i64 },
    SellerIsBuyer { party: i64 },
    NotAdmitted { state: DayState },
    // A position, or an hour's total kWh in one direction.
    KwhBeyond { hour: i64 },
    CashBeyond { party: i64 },
    NotCovered { party: i64 },
    ReadingMissing { hour: u8, party: u8 },
    // The number of parties or days, or the size of a page.
    WrongSize,
}
