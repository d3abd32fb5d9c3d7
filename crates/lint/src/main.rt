// Reads a schedule text from standard input and prints what is wrong with it.
#![tactic(auto)]

use schedule::report::{Report, check};
use schedule::text::MOST_READ;
use std::io;
use std::io::Read;

fn main(rt: HostRuntime) -> io::Result<()> {
    let mut text = Vec::new(rt.alloc());
    rt.stdin().take(MOST_READ).read_to_end(&mut text)?;
    let Report { faults, lines } = check(rt.alloc(), &text)?;
    let faulty = faults.len();
    for fault in &faults {
        println!(rt; "{fault}")?;
    }
    println!(rt; "lines looked at: {lines}, faulty: {faulty}")
}
