// Faults in words.
ghost use Rattle.std.specs.Prelude.{◌≡◌, Some};
ghost use Rattle.schedule.specs.Shown.{expected_text, fault_text};

use crate::command::{Expected, Misfit};
use crate::fault::TextFault;
use crate::text::LONGEST_TEXT;
use refusal::Refusal;
use std::fmt;

impl fmt::Display for Expected {
    ghost output = { λ e. Some (expected_text e) };

    fn fmt<W: fmt::Write>(&self, f: &mut fmt::Formatter<W>) -> fmt::Result {
        f.write_str(match self {
            Expected::Letter => "B, R, W, C or A",
            Expected::Task => "a task from 0 to 255",
            Expected::Variable => "a variable from 0 to 255",
            Expected::Value => "a value from -2147483648 to 2147483647",
            Expected::End => "the end of the line",
        })
    }
}

impl<F: Refusal> fmt::Display for TextFault<F> {
    ghost output = { λ t. Some (fault_text F.Refusal.numbered t) };

    fn fmt<W: fmt::Write>(&self, f: &mut fmt::Formatter<W>) -> fmt::Result {
        let line = self.line();
        let number = self.number();
        match self {
            TextFault::Misshapen { misfit, .. } => {
                let Misfit { field, expected } = misfit;
                write!(f, "{line} no {number}, field {field}: expected {expected}")
            }
            TextFault::NoPolicy => write!(
                f,
                "{line} no {number}: expected lock, own or clock, or eager, a space and one of these"
            ),
            TextFault::TooLong => {
                write!(
                    f,
                    "{line} no {number}: expected at most {LONGEST_TEXT} bytes"
                )
            }
            TextFault::Refused { .. } => write!(f, "{line} no {number}"),
        }
    }
}
