// Answers the lines of standard input on standard output (docs/RULES.md, "The journal's form" and "Answers").
#![tactic(auto)]

use journal::Unopened;
use std::io;
use std::io::{BufWriter, Write};

fn main(rt: HostRuntime) -> io::Result<()> {
    let mut out = BufWriter::new(rt.alloc(), rt.stdout())?;
    journal::answer_input_kept(Unopened, &mut rt.stdin(), &mut out)?;
    out.flush()
}
