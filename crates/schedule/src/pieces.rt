// A text cut at the first place of a byte.
ghost use Rattle.schedule.specs.Pieces.{Cut};

// No `split` of the library: after the last LF it hands out an empty piece, which is no line.
// What stands before the first `at`, and what stands after it if there is one.
// A loop and no `position`: with that a line took 2 percent more instructions, and parsing more than the model's.
pub(crate) fn cut(text: &[u8], at: u8) -> (&[u8], Option<&[u8]>)
    ensures { Cut at text.now result.0.now result.1 }
{
    for (i, b) in text.iter().enumerate() {
        if *b == at {
            return (&text[0..i], Some(&text[i + 1..]));
        }
    }
    (text, None)
}
