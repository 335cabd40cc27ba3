// A whole input, from the source that gives it to the output that takes its answers.
ghost use Rattle.std.specs.Prelude.{[], ◌∷◌, OnOk, IfOk};
ghost use Rattle.journal.specs.Streams.{Feeds, Ends, Answers};

use crate::call::Answering;
use crate::input::Input;
use crate::kept::Keeping;
use crate::subject::{Itself, Subject, WhatIsKept};
use answers::ANSWER_BYTES;
use std::io;
use std::io::{ErrorKind, Read, Write};

// The bytes that are read at a time.
const BLOCK: usize = 65_536;

// Takes a byte of the input, and writes the answer if it ends a line.
fn feed_byte<S: Subject<J>, J, W: Write>(
    input: &mut Input<J>,
    byte: u8,
    room: &mut [u8; ANSWER_BYTES],
    out: &mut W,
) -> io::Result<()>
    ensures { OnOk result (Feeds S.view S.answered input.old (byte ∷ []) input.new (W.contents out.old) (W.contents out.new)) }
{
    match input.take_as::<S>(room, byte) {
        Some(len) => out.write_all(&room[..len]),
        None => unreachable!(),
    }
}

// Takes a block of the input, and writes the answers to the lines that end in it.
#[tactic(auto, using(crate::proofs::Streaming::feeds_more))]
fn feed<S: Subject<J>, J, W: Write>(
    input: &mut Input<J>,
    block: &[u8],
    room: &mut [u8; ANSWER_BYTES],
    out: &mut W,
) -> io::Result<()>
    ensures { OnOk result (Feeds S.view S.answered input.old block.now input.new (W.contents out.old) (W.contents out.new)) }
{
    for byte in block {
        feed_byte::<S, J, W>(input, *byte, room, out)?;
    }
    Ok(())
}

// Writes what answers the bytes after the last end of a line.
fn end<S: Subject<J>, J: Drop, W: Write>(
    input: Input<J>,
    room: &mut [u8; ANSWER_BYTES],
    out: &mut W,
) -> io::Result<J>
    ensures { IfOk result (Ends S.view S.answered input (W.contents out.old) (W.contents out.new)) }
{
    let (Some(len), journal) = input.finish_as::<S>(room) else {
        unreachable!();
    };
    out.write_all(&room[..len])?;
    Ok(journal)
}

// Reads a source to its end, block after block. Its contract is that of `answer_input`, whomever it speaks of.
#[tactic(auto, using(crate::proofs::Streaming::going_more))]
fn answer_blocks<S: Subject<J>, J: Drop, R: Read, W: Write>(
    journal: J,
    source: &mut R,
    out: &mut W,
) -> io::Result<J>
    ensures { IfOk result (λ j. Answers S.answered (S.view journal) (R.remaining source.old) (R.remaining source.new) (W.contents out.old) (W.contents out.new) (S.view j)) }
{
    let mut input = Input::begin_as::<S>(journal);
    let mut block = [0u8; BLOCK];
    let mut room = [0u8; ANSWER_BYTES];
    for _ in 0..u64::MAX {
        let len = source.read(&mut block)?;
        if len == 0 {
            return end::<S, J, W>(input, &mut room, out);
        }
        feed::<S, J, W>(&mut input, &block[..len], &mut room, out)?;
    }
    // A loop has an end, here after 2^64 - 1 reads: a source that still gives bytes then counts as one that fails.
    Err(io::Error::from(ErrorKind::TimedOut))
}

// Reads a source to its end, writes the answers to its lines, and hands back what answered them.
pub fn answer_input<J: Answering + Drop, R: Read, W: Write>(
    journal: J,
    source: &mut R,
    out: &mut W,
) -> io::Result<J>
    ensures { IfOk result (Answers J.answered journal (R.remaining source.old) (R.remaining source.new) (W.contents out.old) (W.contents out.new)) }
{
    answer_blocks::<Itself, J, R, W>(journal, source, out)
}

// The same, said of what is kept.
pub fn answer_input_kept<J: Keeping + Drop, R: Read, W: Write>(
    journal: J,
    source: &mut R,
    out: &mut W,
) -> io::Result<J>
    ensures { IfOk result (λ j. Answers J.answered (J.view journal) (R.remaining source.old) (R.remaining source.new) (W.contents out.old) (W.contents out.new) (J.view j)) }
{
    answer_blocks::<WhatIsKept, J, R, W>(journal, source, out)
}
