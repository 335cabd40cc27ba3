// A journal that keeps no book: a form is refused as one that comes before an accepted book.
ghost use Rattle.std.specs.Prelude.{◌≡◌};
ghost use Rattle.journal.specs.Told.{refused_as};
ghost use Rattle.journal.specs.Answered.{Entered, Answered, LineCall};
ghost use Rattle.journal.specs.Cutting.{answered_cut};

use crate::kept::Keeping;
use crate::refusal::{Refusal, refused};
use answers::Answer;

#[derive(Clone, Copy)]
pub struct Unopened;

impl Keeping for Unopened {
    ghost kept = { Unit {0} };

    ghost view = { λ _. tt };

    ghost answered = { λ _ line a _. Answered line a };

    ghost cut = { λ _ _ line a. answered_cut line a };

    fn answer_to_kept(&mut self, line: &[u8]) -> Answer {
        enter(line).unwrap_or_else(|refusal| refused(refusal.told()))
    }
}

// The layers in their order. Until a journal keeps a book, every form comes before an accepted one.
fn enter(line: &[u8]) -> Result<Answer, Refusal>
    ensures { Entered line.now result }
{
    let _form = words::read(line)?;
    Err(Refusal::NotOpened)
}

// The line call of such a journal.
pub fn answer_line(out: &mut [u8], number: i64, line: &[u8]) -> Option<usize>
    ensures { LineCall out.old number line.now result out.new }
{
    Unopened.answer_line_kept(out, number, line)
}
