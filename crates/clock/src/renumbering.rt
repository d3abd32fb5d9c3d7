// Smaller numbers in the same order: how many different read versions there are below each.
ghost use Rattle.std.specs.Prelude.{◌≡◌};
ghost use Rattle.std.specs.List.{list_any};
ghost use Rattle.varset.specs.Below.{how_many_below};
ghost use Rattle.clock.specs.Different.{among};
ghost use Rattle.clock.specs.Steps.{read_versions};
ghost use Rattle.clock.specs.Rows.{rows, has_version, new_number, RenumberedRows, RenumberedVersions};
ghost use Rattle.policy.specs.Limits.{tasks};

use crate::state::ReadVersion;
use policy::VARIABLES;
use transactions::{Transaction, Transactions};

// Whether one of the rows has a transaction with this read version.
fn is_read_version(rows: &[Option<Transaction<ReadVersion>>], number: u32) -> bool
    ensures { result ≡ list_any (has_version number) rows.now }
{
    rows.iter().any(|row| row.is_some_and(|transaction| transaction.note == number))
}

// How many different read versions there are below the bound.
pub(crate) fn different_below(transactions: &Transactions<ReadVersion>, bound: u64) -> u32
    ensures number { result ≡ new_number transactions.now bound }
    ensures counts { result ≡ how_many_below bound (among (read_versions tasks (rows transactions.now))) }
{
    // counted here: `filter` and `count` would want a cast, and a name for each row's place and the rows before it
    let rows = &transactions.rows;
    let mut different = 0;
    for (t, row) in rows.iter().enumerate() {
        if row.is_some_and(|transaction| {
            u64::from(transaction.note) < bound && !is_read_version(&rows[..t], transaction.note)
        }) {
            different += 1;
        }
    }
    different
}

// The versions with their new numbers.
pub(crate) fn renumbered_versions(
    versions: [u32; VARIABLES],
    transactions: &Transactions<ReadVersion>,
) -> [u32; VARIABLES]
    ensures { RenumberedVersions (new_number transactions.now) versions result }
{
    versions.map(|version| different_below(transactions, u64::from(version)))
}

// The transactions with their new read versions.
pub(crate) fn renumbered_transactions(
    transactions: &Transactions<ReadVersion>,
) -> Transactions<ReadVersion>
    ensures { RenumberedRows transactions.now result }
{
    Transactions {
        rows: transactions.rows.map(|row| {
            row.map(|transaction| Transaction {
                note: different_below(transactions, u64::from(transaction.note)),
                ..transaction
            })
        }),
    }
}
