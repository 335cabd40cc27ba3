// The line call: one line in, its answer out.
ghost use Rattle.std.specs.Prelude.{ℕ, ◌<◌, List, length, take};
ghost use Rattle.answers.specs.declared.Answer.{Answer as GivenAnswer};
ghost use Rattle.journal.specs.Calling.{LineCall};

use crate::subject::{Itself, call_line};
use answers::Answer;

// What answers the lines of a journal, and may be changed by them.
pub trait Answering {
    // What it answers to a line that is not empty, and what it is afterwards.
    ghost answered: { Self → List ℕ → GivenAnswer → Self → Type 0 };

    // Answers a line that is not empty.
    fn answer_to(&mut self, line: &[u8]) -> Answer
        ensures { answered self.old line.now result self.new };

    // The answer to a line, written at the buffer's start, and its length; an empty line gets none. None, with nothing written or
    // changed, where the buffer is under 4,096 bytes or the line's number is outside 1 to 999,999,999.
    final fn answer_line(&mut self, out: &mut [u8], number: i64, line: &[u8]) -> Option<usize>
        ensures { LineCall answered self.old out.old number line.now result self.new out.new }
    {
        call_itself(self, out, number, line)
    }

    // A line of over 200 bytes is answered as its first 201 are.
    ghost cut: { (j k : Self) (line : List ℕ) (a : GivenAnswer) → 200 < length line → answered j (take 201 line) a k → answered j line a k };
}

// The line call, said of what answers.
fn call_itself<J: Answering>(
    answering: &mut J,
    out: &mut [u8],
    number: i64,
    line: &[u8],
) -> Option<usize>
    ensures { LineCall J.answered answering.old out.old number line.now result answering.new out.new }
{
    call_line::<Itself, J>(answering, out, number, line)
}
