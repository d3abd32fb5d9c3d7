// The output of a whole text, in a caller's buffer or on the heap.
ghost use Rattle.std.specs.Prelude.{◌≡◌, ◌≤◌, true, length, is_ok, IfOk};
ghost use Rattle.play.specs.Output.{Filled, Prints, most_printed_of_length, most_printed};

use crate::choosing::run_text;
use crate::outcome::NoRoom;
use crate::room::Output;
use schedule::text::LONGEST_TEXT;
use std::alloc::{AllocError, Global};

// How many bytes are printed of a line at most.
const LONGEST_LINE: usize = 35;

// Room that is always enough for the output of a text.
pub fn room_for(text: &[u8]) -> usize
    ensures { result ≡ most_printed text.now }
{
    room_for_length(text.len())
}

// Room that is always enough for the output of a text of a given length.
pub fn room_for_length(length: usize) -> usize
    ensures { result ≡ most_printed_of_length length }
{
    LONGEST_LINE * (length.min(LONGEST_TEXT) + 1)
}

// Runs a text and fills the buffer with its output; the answer is how long the output is. The buffer is the caller's: no heap here.
pub fn run_into(text: &[u8], room: &mut [u8]) -> Result<usize, NoRoom>
    ensures filled { Filled text.now room.old result room.new }
    ensures enough { most_printed text.now ≤ length room.old → is_ok result ≡ true }
{
    let mut output = Output::new(room);
    let result = run_text(text, &mut output);
    let used = if result.is_ok() { output.len() } else { 0 };
    room[used..].fill(0);
    result.map(|()| used)
}

// Runs a text and makes its output.
pub fn run(heap: Global, text: &[u8]) -> Result<Vec<u8>, AllocError>
    ensures { IfOk result (λ v. Prints text.now v.items) }
{
    let mut output = vec![in heap; 0u8; room_for(text)]?;
    let used = run_into(text, &mut output).unwrap();
    output.truncate(used);
    Ok(output)
}
