// Layer 2, words: a line's head, field names and numbers, as a typed form (docs/RULES.md, "The journal's form" and "Refusals").
#![tactic(auto)]

mod faults;
mod form;
mod reading;
#[cfg(test)]
mod tests;

pub use self::faults::{Told, WordFault};
pub use self::form::Form;
pub use self::reading::read;
