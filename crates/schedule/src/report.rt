// All that is wrong with a text.
ghost use Rattle.std.specs.Prelude.{◌≡◌, ◌++◌, length, IfOk, OnOk};
ghost use Rattle.schedule.specs.Pieces.{lines};
ghost use Rattle.schedule.specs.Grammar.{parsed};
ghost use Rattle.schedule.specs.Texts.{judged, fault_in, command_faults, faults as all_faults, looked_at};

use crate::command::Command;
use crate::fault::TextFault;
use crate::lines::{Line, Lines};
use crate::text::{header, within_limit};
use refusal::NoRefusal;
use std::alloc::{AllocError, Global};

// The faults of a text in the order of its lines, and how many lines were looked at.
#[derive(Drop)]
pub struct Report {
    pub faults: Vec<TextFault<NoRefusal>>,
    pub lines: usize,
}

fn judge<F>(line: Line) -> Result<Command, TextFault<F>>
    ensures { result ≡ judged line.entry.number (parsed line.entry.bytes.now) }
{
    Ok(line.command()?)
}

// Adds the fault that an answer holds, if it holds one.
fn note<T: Drop>(
    answer: Result<T, TextFault<NoRefusal>>,
    faults: &mut Vec<TextFault<NoRefusal>>,
) -> Result<(), AllocError>
    ensures { OnOk result (faults.new.items ≡ faults.old.items ++ fault_in answer) }
{
    if let Err(fault) = answer {
        faults.push(fault)?;
    }
    Ok(())
}

// Adds the faults of the lines after the first, and answers how many lines there are.
fn check_lines(text: &[u8], faults: &mut Vec<TextFault<NoRefusal>>) -> Result<usize, AllocError>
    ensures { IfOk result (λ n. (n ≡ length (lines text.now)) × (faults.new.items ≡ faults.old.items ++ command_faults (lines text.now))) }
{
    let mut lines = Lines::new(text);
    let mut count = lines.next().map_or(0, |first| first.number);
    for line in lines {
        count = line.number;
        note(judge(line), faults)?;
    }
    Ok(count)
}

// Every line of a text looked at, unless the text is too long.
pub fn check(heap: Global, text: &[u8]) -> Result<Report, AllocError>
    ensures { IfOk result (λ p. (p.faults.items ≡ all_faults text.now) × (p.lines ≡ looked_at text.now)) }
{
    let mut faults = Vec::new(heap);
    note(header(text), &mut faults)?;
    let lines = if within_limit(text).is_ok() {
        check_lines(text, &mut faults)?
    } else {
        0
    };
    Ok(Report { faults, lines })
}
