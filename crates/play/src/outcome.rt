// What a line of a schedule comes to, and why output is refused.
ghost use Rattle.std.specs.Prelude.{◌≡◌};
ghost use Rattle.play.specs.declared.outcome.Outcome.TheVariants.{Done as done, Value as value};

use policy::Granted;
use table::answer::Reading;

// What a granted command tells.
// No `Option`: its `None` would read as no answer, and `Done` is one.
#[derive(Clone, Copy, Debug, PartialEq, Eq)]
pub enum Outcome {
    Done,
    Value(i32),
}

impl From<Granted> for Outcome {
    ghost from_gives = { λ _ r. r ≡ done };

    fn from(_granted: Granted) -> Outcome {
        Outcome::Done
    }
}

impl From<Reading> for Outcome {
    ghost from_gives = { λ reading r. r ≡ value reading.value };

    fn from(reading: Reading) -> Outcome {
        Outcome::Value(reading.value)
    }
}

// The buffer is too short for all that is printed.
#[derive(Clone, Copy, Debug, PartialEq, Eq)]
pub struct NoRoom;
