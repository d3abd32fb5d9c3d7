// What the policy holds.
ghost use Rattle.std.specs.Prelude.{◌≡◌, ℕ, false, nat_lt, slice_index};
ghost use Rattle.transactions.specs.Rows.{notes};
ghost use Rattle.clock.specs.Rows.{begun_after};

use policy::VARIABLES;
use transactions::Transactions;

// What the clock was when a transaction began: it is noted of each.
pub(crate) type ReadVersion = u32;

// TL2. No version and no read version is above the clock.
// No impl Model: what it holds is seen as functions of variables and tasks, which have no code.
#[derive(Drop)]
pub struct Clock {
    pub(crate) clock: u32,
    pub(crate) versions: [u32; VARIABLES],
    pub(crate) transactions: Transactions<ReadVersion>,
    ghost written: { (v : ℕ) → nat_lt clock (slice_index versions v) ≡ false },
    ghost begun: { (t : ℕ) → begun_after clock (notes transactions t) ≡ false },
}
