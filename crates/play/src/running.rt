// The lines of a text, run on a new table.
ghost use Rattle.std.specs.Prelude.{◌*◌, ◌<◌, length, drop};
ghost use Rattle.schedule.specs.Pieces.{lines as lines_of};
ghost use Rattle.history.specs.Runs.{Sound};
ghost use Rattle.table.specs.Views.{view};
ghost use Rattle.play.specs.Room.{SameBuffer, Fronts, Within};
ghost use Rattle.play.specs.Printed.{reply_text, longest_line};
ghost use Rattle.play.specs.Playing.{Obeyed, Over};

use crate::outcome::{NoRoom, Outcome};
use crate::performing::perform;
use crate::printing::Reply;
use crate::room::Output;
use policy::Policy;
use schedule::fault::RefusedLine;
use schedule::lines::{Line, Lines};
use table::table::Table;

// Does what a line says, if it is a command.
fn obey<P: Policy>(table: &mut Table<P>, line: Line) -> Reply
    ensures { Sound P.Policy.facts (view table.old) → Obeyed P.Policy line.entry.bytes.now (view table.old) (reply_text result) (view table.new) }
{
    let command = line.command()?;
    let outcome = perform(table, command).map_err(|fault| RefusedLine {
        line: line.number,
        fault,
    })?;
    Ok(outcome)
}

// Runs the lines after the first, and prints what each came to.
pub(crate) fn run_over<P: Policy + Drop>(
    policy: P,
    text: &[u8],
    output: &mut Output,
) -> Result<(), NoRoom>
    requires { 0 < length (lines_of text.now) }
    ensures same_buffer { SameBuffer output.old output.new }
    ensures fronts { Fronts (Over P.Policy policy) (drop 1 (lines_of text.now)) output.old result output.new }
    ensures within { Within (longest_line * length (lines_of text.now)) output.old result output.new }
{
    let mut table = Table::new(policy);
    output.put_line(1, Ok(Outcome::Done))?;
    for line in Lines::new(text).skip(1) {
        let reply = obey(&mut table, line);
        output.put_line(line.number, reply)?;
    }
    Ok(())
}
