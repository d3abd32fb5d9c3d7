// The numbers of tasks and of variables, once they are known to be in range.
ghost use Rattle.std.specs.Prelude.{◌≡◌, ◌<◌, nat_lt, if◌then◌else◌};

use policy::{TASKS, VARIABLES};
use std::marker::Model;

// A number below a limit.
#[derive(Clone, Copy)]
pub struct Number<const LIMIT: usize> {
    pub(crate) value: u8,
}

impl<const LIMIT: usize> Model for Number<LIMIT> {
    ghost use Rattle.std.specs.Prelude.{ℕ, ◌<◌};

    ghost Value = { ℕ };

    ghost view = { λ a. a.value };

    ghost invariant = { λ a. a.value < LIMIT };

    ghost inverse = { λ n. record { value = n } };
}

pub type Task = Number<TASKS>;

pub type Variable = Number<VARIABLES>;

impl<const LIMIT: usize> Number<LIMIT> {
    // The number, where it is in range.
    pub(crate) fn new(value: u8) -> Option<Number<LIMIT>>
        ensures { result ≡ (if nat_lt value LIMIT then Some value else None) }
    {
        if usize::from(value) < LIMIT {
            Some(Number { value })
        } else {
            None
        }
    }
}

impl<const LIMIT: usize> From<Number<LIMIT>> for u8 {
    ghost from_gives = { λ n r. (r ≡ n) × (r < LIMIT) };

    fn from(number: Number<LIMIT>) -> u8 {
        number.value
    }
}

impl<const LIMIT: usize> From<Number<LIMIT>> for usize {
    ghost from_gives = { λ n r. (r ≡ n) × (r < LIMIT) };

    fn from(number: Number<LIMIT>) -> usize {
        usize::from(number.value)
    }
}
