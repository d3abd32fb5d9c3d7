// A text, run over the policy that it names.
ghost use Rattle.std.specs.Prelude.{◌*◌, ◌<◌, length};
ghost use Rattle.schedule.specs.Pieces.{lines};
ghost use Rattle.play.specs.Room.{SameBuffer, Fronts, Within};
ghost use Rattle.play.specs.Printed.{longest_line};
ghost use Rattle.play.specs.Output.{Runs, command_lines, PrintsOf, most_printed};

use crate::outcome::NoRoom;
use crate::room::Output;
use crate::running::run_over;
use clock::Clock;
use eager::Eager;
use lock::Lock;
use own::Own;
use schedule::choice::{Choice, Kind};
use schedule::text::header;

// The clock at the start of a schedule.
const CLOCK_START: u32 = 0;

// Runs a text whose first line names the choice.
// Each arm runs at a policy type of its own: a closure or an impl for each of the six would only name the type once more.
fn run_choice(choice: Choice, text: &[u8], output: &mut Output) -> Result<(), NoRoom>
    requires { 0 < length (lines text.now) }
    ensures same_buffer { SameBuffer output.old output.new }
    ensures fronts { Fronts (Runs choice) (command_lines text.now) output.old result output.new }
    ensures within { Within (longest_line * length (lines text.now)) output.old result output.new }
{
    match choice {
        Choice::Plain(Kind::Lock) => run_over(Lock::new(), text, output),
        Choice::Plain(Kind::Own) => run_over(Own::new(), text, output),
        Choice::Plain(Kind::Clock) => run_over(Clock::new(CLOCK_START), text, output),
        Choice::Eager(Kind::Lock) => run_over(Eager::new(Lock::new()), text, output),
        Choice::Eager(Kind::Own) => run_over(Eager::new(Own::new()), text, output),
        Choice::Eager(Kind::Clock) => run_over(Eager::new(Clock::new(CLOCK_START)), text, output),
    }
}

// Prints a text's run, or its refusal.
pub(crate) fn run_text(text: &[u8], output: &mut Output) -> Result<(), NoRoom>
    ensures same_buffer { SameBuffer output.old output.new }
    ensures fronts { Fronts (PrintsOf text.now) (command_lines text.now) output.old result output.new }
    ensures within { Within (most_printed text.now) output.old result output.new }
{
    match header(text) {
        Ok(choice) => run_choice(choice, text, output),
        Err(fault) => output.put_line(fault.line(), Err(fault)),
    }
}
