// TL2: a clock, a version for each variable and a read version for each transaction.
#![tactic(auto)]

ghost use Rattle.std.specs.Prelude.{◌≡◌};
ghost use Rattle.policy.specs.Facts.{Fresh};
ghost use Rattle.clock.specs.Held.{meaning};
ghost use Rattle.clock.specs.Steps.{new_policy};
ghost use Rattle.clock.specs.Clocks.{held};

mod calls;
mod changes;
mod renumbering;
mod state;

use policy::VARIABLES;
pub use state::Clock;
use transactions::Transactions;

impl Clock {
    pub fn new(start: u32) -> Clock
        ensures state { held result ≡ new_policy start }
        ensures fresh { Fresh (meaning (held result)) }
    {
        Clock {
            clock: start,
            versions: [0; VARIABLES],
            transactions: Transactions::new(),
        }
    }

    pub fn clock(&self) -> u32
        ensures { result ≡ (held self.now).clock }
    {
        self.clock
    }
}
