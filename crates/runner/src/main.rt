// Reads a schedule text from standard input, runs it, and prints what each line came to.
#![tactic(auto)]

use play::texts::run;
use schedule::text::MOST_READ;
use std::io;
use std::io::{Read, Write};

fn main(rt: HostRuntime) -> io::Result<()> {
    let mut text = Vec::new(rt.alloc());
    rt.stdin().take(MOST_READ).read_to_end(&mut text)?;
    let output = run(rt.alloc(), &text)?;
    rt.stdout().write_all(&output)
}
