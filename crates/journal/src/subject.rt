// Whom the promises on a line and an input speak of: what answers, or what it keeps. But for `write_answer`, what runs is one code for both, proved once.
ghost use Rattle.std.specs.Prelude.{◌≡◌, ℕ, ◌<◌, List, length, take};
ghost use Rattle.answers.specs.declared.Answer.{Answer as GivenAnswer};
ghost use Rattle.answers.specs.Writing.{Answerable};
ghost use Rattle.journal.specs.Calling.{LineCall};

use crate::call::Answering;
use crate::kept::Keeping;

pub(crate) trait Subject<J> {
    ghost kept: { Type 0 };

    ghost view: { J → kept };

    ghost answered: { kept → List ℕ → GivenAnswer → kept → Type 0 };

    // Answers a line that is not empty, and writes what it was answered.
    fn write_answer(answering: &mut J, out: &mut [u8], number: i64, line: &[u8]) -> Option<usize>
        requires answerable { Answerable (length out.old) number }
        requires some { 0 < length line.now }
        ensures { LineCall answered (view answering.old) out.old number line.now result (view answering.new) out.new };

    ghost cut: { (v w : kept) (line : List ℕ) (a : GivenAnswer) → 200 < length line → answered v (take 201 line) a w → answered v line a w };
}

pub(crate) struct Itself;

pub(crate) struct WhatIsKept;

// Neither `write_answer` is inlined: room for an answer is cleared at the head, which an empty line need not wait for. And neither calls the other, since an
// answer that is handed on is copied once more.
impl<J: Answering> Subject<J> for Itself {
    ghost kept = { J };

    ghost view = { λ j. j };

    ghost answered = { J.answered };

    ghost cut = { J.cut };

    #[inline(never)]
    fn write_answer(answering: &mut J, out: &mut [u8], number: i64, line: &[u8]) -> Option<usize> {
        answers::write(out, number, &answering.answer_to(line))
    }
}

impl<J: Keeping> Subject<J> for WhatIsKept {
    ghost kept = { J.kept };

    ghost view = { J.view };

    ghost answered = { J.answered };

    ghost cut = { J.cut };

    #[inline(never)]
    fn write_answer(answering: &mut J, out: &mut [u8], number: i64, line: &[u8]) -> Option<usize> {
        answers::write(out, number, &answering.answer_to_kept(line))
    }
}

// The line call.
pub(crate) fn call_line<S: Subject<J>, J>(
    answering: &mut J,
    out: &mut [u8],
    number: i64,
    line: &[u8],
) -> Option<usize>
    ensures call { LineCall S.answered (S.view answering.old) out.old number line.now result (S.view answering.new) out.new }
    ensures refused { (Answerable (length out.old) number → ⊥) → answering.new ≡ answering.old }
    ensures empty { length line.now ≡ 0 → answering.new ≡ answering.old }
{
    if !answers::answerable(out.len(), number) {
        return None;
    }
    if line.is_empty() {
        return Some(0);
    }
    S::write_answer(answering, out, number, line)
}
