// A journal: each line of its input is read layer by layer and answered (docs/RULES.md, "The journal's form" and "Answers").
#![tactic(auto)]

mod call;
mod input;
mod kept;
mod refusal;
mod stream;
mod subject;
#[cfg(test)]
mod tests;
mod unopened;

pub use call::Answering;
pub use input::Input;
pub use kept::Keeping;
pub use refusal::{Refusal, refused};
pub use stream::{answer_input, answer_input_kept};
pub use unopened::{Unopened, answer_line};
