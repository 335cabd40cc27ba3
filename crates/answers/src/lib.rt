// The answers to the lines of a journal and their text (docs/RULES.md, "Answers").
#![tactic(auto)]

#[cfg(test)]
mod tests;
mod writer;

pub use writer::{ANSWER_BYTES, answerable, write};

// What the line of a journal is answered.
#[derive(Clone, Copy, Debug, PartialEq, Eq)]
pub enum Answer {
    // The entry was accepted.
    Accepted,
    // The line was refused: the layer that refused it, the refusal's number and its place.
    Refused {
        layer: u8,
        number: u8,
        place: i64,
    },
    // An evaluation paid: the halers of the first `parties` of 20 parties, and the operator's new total. The count stands beside the
    // array since any count may be told, and the kit's list without heap (`ArrayVec`) is not `Copy`.
    Paid {
        parties: usize,
        payments: [i64; 20],
        operator: i64,
    },
    // A party's statement, in halers.
    Statement {
        party: i64,
        balance: i64,
        need: i64,
    },
}
