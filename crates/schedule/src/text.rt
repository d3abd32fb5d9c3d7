// A whole text: its first line and its commands.
ghost use Rattle.std.specs.Prelude.{◌≡◌};
ghost use Rattle.schedule.specs.Grammar.{parsed};
ghost use Rattle.schedule.specs.Texts.{header_of, command_at, short_enough};

use crate::choice::Choice;
use crate::command::Command;
use crate::fault::{BadLine, OverLong, TextFault, UnknownPolicy};
use crate::lines::{Line, Lines};
use crate::parsing::parse;

// How many bytes a text may have.
pub const LONGEST_TEXT: usize = 60_000;

// How many bytes of an input are read: one more, so that a text that is too long is seen to be.
pub const MOST_READ: u64 = LONGEST_TEXT as u64 + 1;

impl Line<'_> {
    // The command of a line after the first.
    pub fn command(&self) -> Result<Command, BadLine>
        ensures { result ≡ command_at self.now.number (parsed self.now.bytes.now) }
    {
        let line = self.number;
        parse(self.bytes).map_err(|misfit| BadLine { line, misfit })
    }
}

// A text that is not too long to be read.
pub(crate) fn within_limit(text: &[u8]) -> Result<(), OverLong>
    ensures { result ≡ short_enough text.now }
{
    if text.len() > LONGEST_TEXT {
        return Err(OverLong);
    }
    Ok(())
}

// The policy that a text is for.
pub fn header<F>(text: &[u8]) -> Result<Choice, TextFault<F>>
    ensures { result ≡ header_of text.now }
{
    within_limit(text)?;
    let line = Lines::new(text).next().ok_or(UnknownPolicy)?;
    Ok(Choice::try_from(line.bytes)?)
}
