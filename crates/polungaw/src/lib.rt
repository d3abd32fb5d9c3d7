// The C boundary: a schedule text in, what is printed of it out, without a heap.
#![tactic(auto)]

ghost use Rattle.std.specs.Prelude.{◌≡◌, ◌≤◌, length, pos};
ghost use Rattle.play.specs.Output.{most_printed_of_length};
ghost use Rattle.polungaw.specs.Boundary.{Answered, table_bytes, table_limit};

use clock::Clock;
use eager::Eager;
use lock::Lock;
use own::Own;
use play::texts::{room_for_length, run_into};
use table::table::Table;

// What a caller is told where the buffer is too short: no enum crosses to C.
const NO_ROOM: i64 = -1;

// Runs a text and fills the buffer with what is printed; the answer is how long that is.
#[unsafe(no_mangle)]
pub extern "C" fn polungaw_run(text: &[u8], out: &mut [u8]) -> i64
    ensures { Answered text.now out.old result out.new }
{
    run_into(text, out).map_or(NO_ROOM, |used| used as i64)
}

// Room that is always enough for what is printed of a text of a given length.
#[unsafe(no_mangle)]
pub extern "C" fn polungaw_room(length: usize) -> usize
    ensures { result ≡ most_printed_of_length length }
{
    room_for_length(length)
}

// How many bytes a table takes at most, whichever the policy.
#[unsafe(no_mangle)]
pub extern "C" fn polungaw_table_bytes() -> usize
    ensures size { result ≡ table_bytes }
    ensures small { result ≤ table_limit }
{
    size_of::<Table<Lock>>()
        .max(size_of::<Table<Own>>())
        .max(size_of::<Table<Eager<Clock>>>())
}
