// A command, performed on a table.
ghost use Rattle.std.specs.Prelude.{◌≡◌};
ghost use Rattle.table.specs.Views.{Performs};
ghost use Rattle.play.specs.Performing.{call_of, outcome_or};

use crate::outcome::Outcome;
use policy::Policy;
use schedule::command::Command;
use table::fault::TableFault;
use table::table::Table;

// Makes the call that the command is. A match, since each command is a call of its own.
pub fn perform<P: Policy>(table: &mut Table<P>, command: Command) -> Result<Outcome, TableFault>
    ensures { Performs P.Policy (call_of command) table.old (outcome_or result) table.new }
{
    match command {
        Command::Begin { task } => table.begin(task).map(Outcome::from),
        Command::Read { task, variable } => table.read(task, variable).map(Outcome::from),
        Command::Write {
            task,
            variable,
            value,
        } => table.write(task, variable, value).map(Outcome::from),
        Command::Commit { task } => table.commit(task).map(Outcome::from),
        Command::Abort { task } => table.abort(task).map(Outcome::from),
    }
}
