// A reader of lines, which borrows the text.
ghost use Rattle.std.specs.Prelude.{◌+◌, ◌^◌, ◌<◌};
ghost use Rattle.schedule.specs.Pieces.{bytes_left};

// The lines of a text that are still to come.
#[derive(Drop)]
pub struct Lines<'a> {
    pub(crate) rest: Option<&'a [u8]>,
    // how many lines were handed out
    pub(crate) count: usize,
    ghost few: { count + bytes_left rest < 2 ^ 64 },
}

// A line without its LF, and its number from 1.
#[derive(Clone, Copy)]
pub struct Line<'a> {
    pub number: usize,
    pub bytes: &'a [u8],
}
