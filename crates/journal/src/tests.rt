// The line call at the edges of what it answers, and an input from byte to byte.
ghost use Rattle.std.specs.Prelude.{◌≡◌};
ghost use Rattle.answers.specs.declared.Answer.TheVariants.{Accepted};

use super::{Answering, Input, Keeping, Unopened, answer_input, answer_input_kept, answer_line};
use answers::Answer;
use std::io;
use std::io::{ErrorKind, Read};
use std::test::Fail;

fn wrote(out: &[u8], len: Option<usize>, text: &[u8]) -> bool {
    match len {
        Some(n) => n <= out.len() && &out[0..n] == text,
        None => false,
    }
}

// How many bytes were answered, as these came in.
fn fed<J: Answering>(input: &mut Input<J>, out: &mut [u8], bytes: &[u8]) -> usize {
    let mut all: usize = 0;
    for b in bytes {
        all = all.saturating_add(input.take_byte(out, *b).unwrap_or(1));
    }
    all
}

#[test]
fn lines(rt: HostRuntime) {
    let mut out = [7u8; 4096];
    assert_eq!(rt; answer_line(&mut out, 1, b""), Some(0));
    assert_eq!(rt; answer_line(&mut out, 0, b""), None);
    assert_eq!(rt; answer_line(&mut out, 1_000_000_000, b"(a)"), None);
    let mut short = [7u8; 4095];
    assert_eq!(rt; answer_line(&mut short, 1, b""), None);
    let n = answer_line(&mut out, 999_999_999, b"(show (party 1))");
    assert!(rt;
        wrote(
            &out,
            n,
            b"(no (line 999999999) (layer 3) (number 13) (place 0))\n",
        )
    );
    let n = answer_line(&mut out, 2, b"(show (party 01))");
    assert!(rt; wrote(&out, n, b"(no (line 2) (layer 2) (number 33) (place 14))\n"));
    let n = answer_line(&mut out, 3, &[b'a'; 201]);
    assert!(rt;
        wrote(
            &out,
            n,
            b"(no (line 3) (layer 1) (number 23) (place 201))\n",
        )
    );
}

#[test]
fn bytes(rt: HostRuntime) {
    let mut out = [7u8; 4096];
    let mut input = Input::new(Unopened);
    let mut short = [7u8; 4095];
    assert_eq!(rt; input.take_byte(&mut short, b'('), None);
    assert_eq!(rt; input.take_byte(&mut out, b'\n'), Some(0));
    assert_eq!(rt; fed(&mut input, &mut out, &[b'('; 300]), 0);
    let n = input.take_byte(&mut out, b'\n');
    assert!(rt;
        wrote(
            &out,
            n,
            b"(no (line 2) (layer 1) (number 23) (place 201))\n",
        )
    );
    assert_eq!(rt; input.take_byte(&mut out, b'('), Some(0));
    let (n, _) = input.finish(&mut out);
    assert!(rt; wrote(&out, n, b"(no (line 3) (layer 1) (number 22) (place 2))\n"));
}

// A source that gives two bytes at a time, and fails after the last.
#[derive(Drop)]
struct Broken<'a> {
    left: &'a [u8],
}

impl Read for Broken<'_> {
    fn read(&mut self, buf: &mut [u8]) -> io::Result<usize> {
        let [first, second, left @ ..] = self.left else {
            return Err(io::Error::from(ErrorKind::ConnectionReset));
        };
        let [a, b, ..] = buf else {
            return Ok(0);
        };
        *a = *first;
        *b = *second;
        self.left = left;
        Ok(2)
    }
}

#[test]
fn streams(rt: HostRuntime) -> Result<(), Fail> {
    let mut out = Vec::new(rt.alloc());
    answer_input(Unopened, &mut &b"\n()\n("[..], &mut out)?;
    let all =
        b"(no (line 2) (layer 1) (number 22) (place 2))\n(no (line 3) (layer 1) (number 22) (place 2))\n";
    assert!(rt; out.as_slice() == all.as_slice());
    let mut out = Vec::new(rt.alloc());
    let mut source = Broken { left: b"()\n(()" };
    assert!(rt; answer_input(Unopened, &mut source, &mut out).is_err());
    assert!(rt; out.as_slice() == b"(no (line 1) (layer 1) (number 22) (place 2))\n".as_slice());
    Ok(())
}

// What accepts every line, and says of itself what it answers: nothing is left out of it.
#[derive(Drop)]
struct Counting {
    lines: u8,
}

impl Answering for Counting {
    ghost answered = { λ _ _ a _. a ≡ Accepted };

    ghost cut = { λ _ _ _ _ _ h. h };

    fn answer_to(&mut self, _line: &[u8]) -> Answer {
        self.lines = self.lines.saturating_add(1);
        Answer::Accepted
    }
}

#[test]
fn of_itself(rt: HostRuntime) -> Result<(), Fail> {
    let mut out = [7u8; 4096];
    let mut counting = Counting { lines: 0 };
    assert_eq!(rt; counting.answer_line(&mut out, 0, b"a"), None);
    assert_eq!(rt; counting.answer_line(&mut out, 1, b""), Some(0));
    assert_eq!(rt; counting.lines, 0);
    assert!(rt; matches!(counting.answer_to(b"a"), Answer::Accepted));
    let n = counting.answer_line(&mut out, 7, b"a");
    assert!(rt; wrote(&out, n, b"(ok (line 7))\n"));
    let mut input = Input::new(counting);
    assert_eq!(rt; fed(&mut input, &mut out, b"a\n\nb"), 14);
    let (n, counting) = input.finish(&mut out);
    assert!(rt; wrote(&out, n, b"(ok (line 3))\n"));
    assert_eq!(rt; counting.lines, 4);
    let mut answers = Vec::new(rt.alloc());
    let counting = answer_input(counting, &mut &b"a\n\nb"[..], &mut answers)?;
    assert!(rt; answers.as_slice() == b"(ok (line 1))\n(ok (line 3))\n".as_slice());
    assert_eq!(rt; counting.lines, 6);
    Ok(())
}

#[test]
fn of_what_is_kept(rt: HostRuntime) -> Result<(), Fail> {
    let told = b"(no (line 1) (layer 1) (number 22) (place 2))\n";
    let mut out = [7u8; 4096];
    assert_eq!(rt;
        Keeping::answer_line_kept(&mut Unopened, &mut out, 0, b"()"),
        None
    );
    assert_eq!(rt;
        Keeping::answer_line_kept(&mut Unopened, &mut out, 1, b""),
        Some(0)
    );
    assert!(rt;
        matches!(
            Unopened.answer_to_kept(b"()"),
            Answer::Refused { layer: 1, .. }
        )
    );
    assert!(rt; matches!(Unopened.answer_to(b"()"), Answer::Refused { layer: 1, .. }));
    let n = Keeping::answer_line_kept(&mut Unopened, &mut out, 1, b"()");
    assert!(rt; wrote(&out, n, told));
    let mut short = [7u8; 4095];
    let mut input = Input::new_kept(Unopened);
    assert_eq!(rt; input.take_byte_kept(&mut short, b'('), None);
    assert_eq!(rt; input.take_byte_kept(&mut out, b'('), Some(0));
    assert_eq!(rt; input.take_byte_kept(&mut out, b')'), Some(0));
    let (n, _) = input.finish_kept(&mut out);
    assert!(rt; wrote(&out, n, told));
    let mut answers = Vec::new(rt.alloc());
    answer_input_kept(Unopened, &mut &b"()"[..], &mut answers)?;
    assert!(rt; answers.as_slice() == told.as_slice());
    Ok(())
}
