// A journal that keeps a book: each line of its input is read layer by layer and answered (docs/RULES.md, "The journal's form" and "Answers").
#![tactic(auto)]

mod keeper;
mod opening;
mod refusal;
#[cfg(test)]
mod tests;

pub use keeper::Journal;
pub use refusal::Refusal;

// The input of such a journal.
pub type Input<'a> = journal::Input<Journal<'a>>;
