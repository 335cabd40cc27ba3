// The line call, said of what is kept from line to line.
ghost use Rattle.std.specs.Prelude.{◌≡◌, ℕ, ◌<◌, List, length, take};
ghost use Rattle.answers.specs.declared.Answer.{Answer as GivenAnswer};
ghost use Rattle.answers.specs.Writing.{Answerable};
ghost use Rattle.journal.specs.Calling.{LineCall};

use crate::call::Answering;
use crate::subject::{WhatIsKept, call_line};
use answers::Answer;

// What answers the lines of a journal by what it keeps, where that is less than it is: what no answer shows, as the pages that a journal was lent, is left out.
// A trait beside `Answering`, since no clause speaks of all ways to see what answers: such a clause would not lie in `Type 0`.
pub trait Keeping {
    // What is kept of it from line to line, without what no answer shows.
    ghost kept: { Type 0 };

    ghost view: { Self → kept };

    // What it answers to a line that is not empty, and what it keeps afterwards.
    ghost answered: { kept → List ℕ → GivenAnswer → kept → Type 0 };

    // Answers a line that is not empty.
    fn answer_to_kept(&mut self, line: &[u8]) -> Answer
        ensures { answered (view self.old) line.now result (view self.new) };

    // The line call of `Answering`, said of what is kept.
    final fn answer_line_kept(&mut self, out: &mut [u8], number: i64, line: &[u8]) -> Option<usize>
        ensures call { LineCall answered (view self.old) out.old number line.now result (view self.new) out.new }
        ensures refused { (Answerable (length out.old) number → ⊥) → self.new ≡ self.old }
        ensures empty { length line.now ≡ 0 → self.new ≡ self.old }
    {
        call_kept(self, out, number, line)
    }

    // A line of over 200 bytes is answered as its first 201 are.
    ghost cut: { (v w : kept) (line : List ℕ) (a : GivenAnswer) → 200 < length line → answered v (take 201 line) a w → answered v line a w };
}

// It is an `Answering` by that.
impl<J: Keeping> Answering for J {
    ghost answered = { λ j line a k. J.answered (J.view j) line a (J.view k) };

    ghost cut = { λ j k. J.cut (J.view j) (J.view k) };

    fn answer_to(&mut self, line: &[u8]) -> Answer {
        self.answer_to_kept(line)
    }
}

// The line call, said of what is kept.
fn call_kept<J: Keeping>(keeping: &mut J, out: &mut [u8], number: i64, line: &[u8]) -> Option<usize>
    ensures call { LineCall J.answered (J.view keeping.old) out.old number line.now result (J.view keeping.new) out.new }
    ensures refused { (Answerable (length out.old) number → ⊥) → keeping.new ≡ keeping.old }
    ensures empty { length line.now ≡ 0 → keeping.new ≡ keeping.old }
{
    call_line::<WhatIsKept, J>(keeping, out, number, line)
}
