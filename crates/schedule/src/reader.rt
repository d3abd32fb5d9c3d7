// Reading a text line by line.
ghost use Rattle.std.specs.Prelude.{◌≡◌};
ghost use Rattle.schedule.specs.Pieces.{lines, lines_left, bytes_left};
ghost use Rattle.schedule.specs.Lines.{HandsOut, Whole};
ghost use Rattle.std.specs.Iterator.{at_most};

use crate::lines::{Line, Lines};
use crate::pieces::cut;

impl<'a> Lines<'a> {
    pub fn new(text: &'a [u8]) -> Lines<'a>
        ensures all { (lines_left result.rest ≡ lines text.now) × (result.count ≡ 0) }
        ensures whole { Whole text.now (lines_left result.rest) }
    {
        Lines {
            rest: Some(text),
            count: 0,
        }
    }
}

impl<'a> Iterator for Lines<'a> {
    type Item = Line<'a>;

    ghost next_gives = { λ s r t. HandsOut s.count (lines_left s.rest) r t.count (lines_left t.rest) };

    ghost remaining = { λ s. at_most (bytes_left s.rest) };

    fn next(&mut self) -> Option<Line<'a>> {
        let text = self.rest?;
        if text.is_empty() {
            return None;
        }
        let (bytes, rest) = cut(text, b'\n');
        let number = self.count + 1;
        *self = Lines {
            rest,
            count: number,
        };
        Some(Line { number, bytes })
    }
}
