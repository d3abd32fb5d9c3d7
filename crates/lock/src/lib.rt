// Two-phase locking: a variable is locked by the task that reads or writes it, until the task ends.
#![tactic(auto)]

ghost use Rattle.transactions.specs.Rows.{sets};
ghost use Rattle.lock.specs.Locks.{Apart};

use transactions::Transactions;

mod calls;

// The read set and the write set of each open task are its locks; no variable is locked by two tasks.
// No impl Model: what it holds is seen by functions, and a function has no code.
#[derive(Drop)]
pub struct Lock {
    transactions: Transactions<()>,
    ghost apart: { Apart (sets transactions) },
}
