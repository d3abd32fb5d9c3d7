// The first line of a schedule: which policy it is for.
ghost use Rattle.std.specs.Prelude.{◌≡◌};
ghost use Rattle.std.specs.Option.{ok_or};
ghost use Rattle.std.specs.Result.{result_ok};
ghost use Rattle.schedule.specs.Choices.{first_line, chosen, Chosen};

use crate::fault::UnknownPolicy;
use std::convert::TryFrom;

#[derive(Clone, Copy, Debug, PartialEq, Eq)]
pub enum Kind {
    Lock,
    Own,
    Clock,
}

// A policy by itself, or under the eager layer.
#[derive(Clone, Copy, Debug, PartialEq, Eq)]
pub enum Choice {
    Plain(Kind),
    Eager(Kind),
}

const CHOICES: [Choice; 6] = [
    Choice::Plain(Kind::Lock),
    Choice::Plain(Kind::Own),
    Choice::Plain(Kind::Clock),
    Choice::Eager(Kind::Lock),
    Choice::Eager(Kind::Own),
    Choice::Eager(Kind::Clock),
];

impl Choice {
    // The first line that names it: a method and no conversion, since the bytes are only looked up and compared.
    pub fn name(self) -> &'static [u8]
        ensures { result.now ≡ first_line self }
    {
        match self {
            Choice::Plain(Kind::Lock) => b"lock",
            Choice::Plain(Kind::Own) => b"own",
            Choice::Plain(Kind::Clock) => b"clock",
            Choice::Eager(Kind::Lock) => b"eager lock",
            Choice::Eager(Kind::Own) => b"eager own",
            Choice::Eager(Kind::Clock) => b"eager clock",
        }
    }
}

// The choice that a first line names.
impl TryFrom<&[u8]> for Choice {
    type Error = UnknownPolicy;

    ghost try_from_gives = { λ line r. (r ≡ ok_or (chosen line.now) (record {})) × Chosen line.now (result_ok r) };

    fn try_from(line: &[u8]) -> Result<Choice, UnknownPolicy> {
        CHOICES
            .iter()
            .find(|choice| line == choice.name())
            .copied()
            .ok_or(UnknownPolicy)
    }
}
