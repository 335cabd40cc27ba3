// What a book replies to an entry (docs/RULES.md, "Answers").
use super::refusal::Refusal;

// What an accepted entry is answered with.
#[derive(Clone, Copy)]
pub enum Receipt {
    Accepted,
    // An evaluation: each party's payment, 0 past the last party, and the operator's new total.
    Paid { payments: [i64; 20], operator: i64 },
}

pub type Reply = Result<Receipt, Refusal>;
