// The input of a journal, taken byte by byte and answered line by line.
ghost use Rattle.std.specs.Prelude.{◌≡◌, ℕ, ◌+◌, ◌≤◌, List, [], ◌∷◌, ◌++◌, length, take, ◌≢◌};
ghost use Rattle.journal.specs.Lines.{Holds, Outcome, Whole, Ran, Runs, Filled, Takes, Finishes};

use crate::call::Answering;
use crate::kept::Keeping;
use crate::subject::{Itself, Subject, WhatIsKept, call_line};
use answers::ANSWER_BYTES;
use arrayvec::ArrayVec;

// No line of this number or a higher one is answered, and they are not told apart.
const PAST_LAST: u32 = 1_000_000_000;

// An input so far: the journal that it goes to, the line that is going on, and its number. Of the line its first 201 bytes are kept, one
// more than a line may have; past them it is only known that it is longer.
#[derive(Drop)]
pub struct Input<J> {
    journal: J,
    line: ArrayVec<u8, 201>,
    number: u32,
}

impl<J: Answering> Input<J> {
    // Before the first byte: line 1 begins.
    pub fn new(journal: J) -> Input<J>
        ensures ran { Ran (λ j. j) J.answered journal result [] [] }
        ensures journal { result.journal ≡ journal }
    {
        Input::begin_as::<Itself>(journal)
    }

    // Takes the next byte of the input. What is answered if it ends a line is then at the buffer's start, and its length is returned;
    // None, with nothing taken, where the buffer is under 4,096 bytes.
    pub fn take_byte(&mut self, buffer: &mut [u8], byte: u8) -> Option<usize>
        ensures { Takes (λ j. j) J.answered self.old buffer.old byte result self.new buffer.new }
    {
        self.take_as::<Itself>(buffer, byte)
    }

    // The input has ended: what answers the bytes after the last end of a line is at the buffer's start, and its length is returned, with the
    // journal as it is then; None, with the journal as it was, where the buffer is under 4,096 bytes.
    pub fn finish(self, buffer: &mut [u8]) -> (Option<usize>, J)
        ensures { Finishes (λ j. j) J.answered self buffer.old result.0 result.1 buffer.new }
    {
        self.finish_as::<Itself>(buffer)
    }
}

// The same calls, said of what is kept.
impl<J: Keeping> Input<J> {
    pub fn new_kept(journal: J) -> Input<J>
        ensures ran { Ran J.view J.answered (J.view journal) result [] [] }
        ensures journal { result.journal ≡ journal }
    {
        Input::begin_as::<WhatIsKept>(journal)
    }

    pub fn take_byte_kept(&mut self, buffer: &mut [u8], byte: u8) -> Option<usize>
        ensures { Takes J.view J.answered self.old buffer.old byte result self.new buffer.new }
    {
        self.take_as::<WhatIsKept>(buffer, byte)
    }

    pub fn finish_kept(self, buffer: &mut [u8]) -> (Option<usize>, J)
        ensures { Finishes J.view J.answered self buffer.old result.0 result.1 buffer.new }
    {
        self.finish_as::<WhatIsKept>(buffer)
    }
}

impl<J> Input<J> {
    // Before the first byte.
    pub(crate) fn begin_as<S: Subject<J>>(journal: J) -> Input<J>
        ensures ran { Ran S.view S.answered (S.view journal) result [] [] }
        ensures journal { result.journal ≡ journal }
    {
        Input {
            journal,
            line: ArrayVec::new(),
            number: 1,
        }
    }

    // Takes the next byte.
    pub(crate) fn take_as<S: Subject<J>>(&mut self, buffer: &mut [u8], byte: u8) -> Option<usize>
        ensures { Takes S.view S.answered self.old buffer.old byte result self.new buffer.new }
    {
        if buffer.len() < ANSWER_BYTES {
            return None;
        }
        if byte == b'\n' {
            Some(self.end_line::<S>(buffer))
        } else {
            self.go_on::<S>(byte);
            Some(0)
        }
    }

    // Takes the end.
    pub(crate) fn finish_as<S: Subject<J>>(self, buffer: &mut [u8]) -> (Option<usize>, J)
        ensures { Finishes S.view S.answered self buffer.old result.0 result.1 buffer.new }
    {
        if buffer.len() < ANSWER_BYTES {
            return (None, self.journal);
        }
        let mut input = self;
        let len = input.answer::<S>(buffer);
        (Some(len), input.journal)
    }

    // Answers the line as it stands, and gives the answer's length.
    fn answer<S: Subject<J>>(&mut self, out: &mut [u8]) -> usize
        requires { 4096 ≤ length out.old }
        ensures outcome { (lines : List (List ℕ)) (rest : List ℕ) → Holds self.old lines rest → Outcome S.answered (S.view self.old.journal) (length lines + 1) rest (take result out.new) (S.view self.new.journal) }
        ensures whole { (v : S.kept) (input output : List ℕ) → Ran S.view S.answered v self.old input output → Whole S.answered v input (output ++ take result out.new) (S.view self.new.journal) }
        ensures line { self.new.line ≡ self.old.line }
        ensures number { self.new.number ≡ self.old.number }
        ensures filled { Filled out.old result out.new }
    {
        call_line::<S, J>(
            &mut self.journal,
            out,
            i64::from(self.number),
            self.line.as_slice(),
        )
        .unwrap_or(0)
    }

    // The next line begins.
    fn begin_line(&mut self)
        ensures holds { (lines : List (List ℕ)) (rest : List ℕ) → Holds self.old lines rest → Holds self.new (lines ++ rest ∷ []) [] }
        ensures journal { self.new.journal ≡ self.old.journal }
    {
        self.line.clear();
        if self.number < PAST_LAST {
            self.number += 1;
        }
    }

    // Byte 10 came: the line is answered, and the next begins.
    fn end_line<S: Subject<J>>(&mut self, out: &mut [u8]) -> usize
        requires { 4096 ≤ length out.old }
        ensures runs { Runs S.view S.answered self.old (10 ∷ []) (take result out.new) self.new }
        ensures filled { Filled out.old result out.new }
    {
        let len = self.answer::<S>(out);
        self.begin_line();
        len
    }

    // Another byte came: it is one more of the line.
    fn go_on<S: Subject<J>>(&mut self, byte: u8)
        requires { byte ≢ 10 }
        ensures { Runs S.view S.answered self.old (byte ∷ []) [] self.new }
    {
        if !self.line.is_full() {
            self.line.push(byte);
        }
    }
}
