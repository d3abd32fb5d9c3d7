// The fields of a line, one after another.
ghost use Rattle.std.specs.Prelude.{◌≡◌, ℕ, ◌+◌, ◌<◌, List, []};
ghost use Rattle.schedule.specs.Pieces.{fields, fields_left};
ghost use Rattle.schedule.specs.Fields.{Next, Takes, Ends};
ghost use Rattle.schedule.specs.Grammar.{no_end, last};

use crate::command::{Expected, Misfit};
use crate::number::Field;
use crate::pieces::cut;
use std::marker::Model;

// What is left of a line: nothing, or the text after a space.
#[derive(Drop)]
pub(crate) struct Fields<'a> {
    left: Option<&'a [u8]>,
}

// The fields that are left.
impl<'a> Model for Fields<'a> {
    ghost Value = { List (List ℕ) };

    ghost view = { λ f. fields_left f.left };
}

impl<'a> Fields<'a> {
    // The fields of the text after a line's letter and space.
    pub(crate) fn new(text: &'a [u8]) -> Self
        ensures { result ≡ fields text.now }
    {
        Fields { left: Some(text) }
    }

    // The fields of a line that has ended.
    pub(crate) fn none() -> Self
        ensures { result ≡ [] }
    {
        Fields { left: None }
    }

    fn next(&mut self) -> Option<&'a [u8]>
        ensures { Next self.old result self.new }
    {
        let (field, left) = cut(self.left?, b' ');
        self.left = left;
        Some(field)
    }

    // The next field, or `wrong` where there is none or it is no such field.
    pub(crate) fn take<T: Field + Drop>(&mut self, wrong: Misfit) -> Result<T, Misfit>
        ensures { Takes T.reads wrong self.old result self.new }
    {
        let field = self.next().ok_or(wrong)?;
        T::read(field).ok_or(wrong)
    }

    // Nothing may follow; `field` is the number of the next field.
    fn end(mut self, field: u8) -> Result<(), Misfit>
        ensures { Ends (no_end field) self.entry result }
    {
        let expected = Expected::End;
        self.next()
            .map_or(Ok(()), |_| Err(Misfit { field, expected }))
    }

    // The last field of a line, or `wrong`, or that another follows it.
    pub(crate) fn last<T: Field + Drop>(mut self, wrong: Misfit) -> Result<T, Misfit>
        requires { wrong.field < 255 }
        ensures { result ≡ last T.reads wrong (wrong.field + 1) self.entry }
    {
        let value = self.take(wrong)?;
        self.end(wrong.field + 1)?;
        Ok(value)
    }
}
