// The worked schedules, played on the policies themselves: the requests that a table makes of its policy, in order.
ghost use Rattle.std.specs.Prelude.{◌≡◌};
ghost use Rattle.policy.specs.Answers.{Moved};
ghost use Rattle.worked.specs.Requests.{answer_to, granted_move, refused_move, AskedInTurn};
ghost use Rattle.worked.specs.Rows.{Played, Worked};
ghost use Rattle.worked.specs.Rows.{locked, both_read, too_new, newly_read, behind_reads_on, behind_is_barred, behind_writer, eagerly_barred, owned, renumbered};

use Request::{Begin, Commit, Read, Write};
use clock::Clock;
use eager::Eager;
use lock::Lock;
use own::Own;
use policy::{Granted, Policy, PolicyFault};

// A request that a table makes of its policy: the task, and for an access the variable.
// An enum and no closures: theorems speak of lists of them.
#[derive(Clone, Copy)]
enum Request {
    Begin(u8),
    Read(u8, u8),
    Write(u8, u8),
    Commit(u8),
}

// Two tasks read one variable.
const TWO_READERS: [Request; 4] = [Begin(0), Begin(1), Read(0, 5), Read(1, 5)];

// Two tasks write one variable.
const TWO_WRITERS: [Request; 4] = [Begin(0), Write(0, 5), Begin(1), Write(1, 5)];

// A task reads what was committed since it began.
const LATE_READER: [Request; 5] = [Begin(0), Begin(1), Write(1, 5), Commit(1), Read(0, 5)];

// A task that is behind reads on and commits.
const READER_BEHIND: [Request; 7] = [
    Begin(0),
    Read(0, 5),
    Begin(1),
    Write(1, 5),
    Commit(1),
    Read(0, 6),
    Commit(0),
];

// A task that is behind writes and commits.
const WRITER_BEHIND: [Request; 7] = [
    Begin(0),
    Read(0, 5),
    Begin(1),
    Write(1, 5),
    Commit(1),
    Write(0, 6),
    Commit(0),
];

// Makes one request.
fn ask<P: Policy>(policy: &mut P, request: Request) -> Result<Granted, PolicyFault>
    ensures answer { result ≡ answer_to P.Policy.STRICT request (P.Policy.facts policy.old) }
    ensures moved { Moved P.Policy.after (granted_move request) (refused_move request) policy.old policy.new result }
{
    match request {
        Begin(task) => policy.begin(task),
        Read(task, variable) => policy.read(task, variable),
        Write(task, variable) => policy.write(task, variable),
        Commit(task) => policy.commit(task),
    }
}

// Makes the requests, one after another.
fn play<P: Policy>(mut policy: P, requests: &[Request]) -> P
    ensures { AskedInTurn P.Policy requests.now policy result }
{
    for request in requests {
        let _ = ask(&mut policy, *request);
    }
    policy
}

// Plays the ten schedules, each on its policy, and gives the policies back. Where the sixth request is refused, a table makes no seventh.
fn play_each() -> (
    Lock,
    Own,
    Clock,
    Own,
    Clock,
    Own,
    Clock,
    Eager<Clock>,
    Own,
    Clock,
)
    ensures locked { Played locked result.0 }
    ensures both_read { Played both_read result.1 }
    ensures too_new { Played too_new result.2 }
    ensures newly_read { Played newly_read result.3 }
    ensures behind_reads_on { Played behind_reads_on result.4 }
    ensures behind_is_barred { Played behind_is_barred result.5 }
    ensures behind_writer { Played behind_writer result.6 }
    ensures eagerly_barred { Played eagerly_barred result.7 }
    ensures owned { Played owned result.8 }
    ensures renumbered { Played renumbered result.9 }
{
    (
        play(Lock::new(), &TWO_READERS),
        play(Own::new(), &TWO_READERS),
        play(Clock::new(0), &LATE_READER),
        play(Own::new(), &LATE_READER),
        play(Clock::new(0), &READER_BEHIND),
        play(Own::new(), &READER_BEHIND[..6]),
        play(Clock::new(0), &WRITER_BEHIND),
        play(Eager::new(Clock::new(0)), &WRITER_BEHIND[..6]),
        play(Own::new(), &TWO_WRITERS),
        play(Clock::new(u32::MAX), &LATE_READER),
    )
}

// Plays the ten schedules.
pub(crate) fn play_all()
    ensures { Worked }
{
    let _ = play_each();
}
