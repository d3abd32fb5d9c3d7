// Refusals: each has a number, by which support staff look it up.
#![tactic(auto)]

ghost use Rattle.std.specs.Prelude.{◌≡◌, ℕ};

pub trait Refusal {
    // the number of a refusal, which is that of the innermost one where refusals are nested
    ghost numbered: { Self → ℕ };

    fn number(&self) -> u8
        ensures { result ≡ numbered self.now };
}

// What never refuses. Nothing makes one: its field is this crate's own, and no function here answers one.
// No `Infallible`: the gate refuses a contract that no call can meet, as one on a method of an empty type.
#[derive(Clone, Copy, Debug, PartialEq, Eq)]
pub struct NoRefusal {
    never: (),
}

impl Refusal for NoRefusal {
    ghost numbered = { λ _. 0 };

    fn number(&self) -> u8 {
        0
    }
}
