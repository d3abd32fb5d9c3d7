// Ten schedules worked out, each proved of every run of its calls.
#![tactic(auto)]

ghost use Rattle.std.specs.Prelude.{◌≡◌, length};
ghost use Rattle.worked.specs.Rows.{rows, Worked};

use plays::play_all;

mod plays;

// Plays the worked schedules, and says how many there are.
pub fn worked_schedules() -> usize
    ensures count { result ≡ length rows }
    ensures worked { Worked }
{
    play_all();
    10
}
