// A command line, taken apart.
ghost use Rattle.std.specs.Prelude.{◌≡◌};
ghost use Rattle.schedule.specs.Grammar.{read_of, write_of, lettered as by_letter, parsed};
ghost use Rattle.schedule.specs.Written.{Taken};

use crate::command::{Command, Misfit, NO_LETTER, NO_TASK, NO_VALUE, NO_VARIABLE};
use crate::fields::Fields;

fn read(mut fields: Fields) -> Result<Command, Misfit>
    ensures { result ≡ read_of fields.entry }
{
    Ok(Command::Read {
        task: fields.take(NO_TASK)?,
        variable: fields.last(NO_VARIABLE)?,
    })
}

fn write(mut fields: Fields) -> Result<Command, Misfit>
    ensures { result ≡ write_of fields.entry }
{
    Ok(Command::Write {
        task: fields.take(NO_TASK)?,
        variable: fields.take(NO_VARIABLE)?,
        value: fields.last(NO_VALUE)?,
    })
}

// By its letter. A match on five letters by rule: they are all that the format has.
fn lettered(letter: char, fields: Fields) -> Result<Command, Misfit>
    ensures { result ≡ by_letter letter fields.entry }
{
    match letter {
        'B' => Ok(Command::Begin {
            task: fields.last(NO_TASK)?,
        }),
        'R' => read(fields),
        'W' => write(fields),
        'C' => Ok(Command::Commit {
            task: fields.last(NO_TASK)?,
        }),
        'A' => Ok(Command::Abort {
            task: fields.last(NO_TASK)?,
        }),
        _ => Err(NO_LETTER),
    }
}

// The command that a line is, or the first field that makes it none.
// A function and no `TryFrom`: that a line is parsed says more than that it is converted.
pub fn parse(line: &[u8]) -> Result<Command, Misfit>
    ensures value { result ≡ parsed line.now }
    ensures taken { Taken line.now result }
{
    match line {
        [letter] => lettered(char::from(*letter), Fields::none()),
        [letter, b' ', rest @ ..] => lettered(char::from(*letter), Fields::new(rest)),
        _ => Err(NO_LETTER),
    }
}
