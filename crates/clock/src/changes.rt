// The changes that the calls are made of.
ghost use Rattle.std.specs.Prelude.{◌≡◌, ◌<◌, length};
ghost use Rattle.policy.specs.Limits.{variables};
ghost use Rattle.policy.specs.Facts.{some_below};
ghost use Rattle.varset.specs.Members.{member};
ghost use Rattle.clock.specs.Held.{stale_for};
ghost use Rattle.clock.specs.Steps.{top, renumbered, stamped, published, NoFactChanged};
ghost use Rattle.clock.specs.Rows.{running, StampedVersions};
ghost use Rattle.clock.specs.Clocks.{held};

use crate::renumbering::{different_below, renumbered_transactions, renumbered_versions};
use crate::state::{Clock, ReadVersion};
use policy::VARIABLES;
use transactions::Transaction;
use varset::VarSet;

// Gives the number to what was written.
fn stamp_versions(versions: &mut [u32; VARIABLES], written: VarSet, number: u32)
    ensures versions { StampedVersions (member written) number versions.old versions.new }
    ensures long { length versions.new ≡ variables }
{
    for v in written.iter() {
        versions[usize::from(v)] = number;
    }
}

impl Clock {
    // Whether a transaction has read something that was written since it began.
    pub(crate) fn is_stale(&self, transaction: Transaction<ReadVersion>) -> bool
        ensures { result ≡ some_below variables (stale_for (running transaction) (held self.now).version) }
    {
        transaction
            .reads
            .iter()
            .any(|v| self.versions[usize::from(v)] > transaction.note)
    }

    // Smaller numbers in the same order. This changes no fact.
    fn renumber(&mut self)
        ensures numbers { held self.new ≡ renumbered (held self.old) }
        ensures same { NoFactChanged (held self.old) (held self.new) }
    {
        *self = Clock {
            clock: different_below(&self.transactions, u64::from(self.clock) + 1),
            versions: renumbered_versions(self.versions, &self.transactions),
            transactions: renumbered_transactions(&self.transactions),
        };
    }

    // Raises the clock and gives it to what was written.
    fn stamp(&mut self, written: VarSet)
        requires { self.old.clock < top }
        ensures { held self.new ≡ stamped (member written) (held self.old) }
    {
        self.clock += 1;
        stamp_versions(&mut self.versions, written, self.clock);
    }

    // Makes what was written new to every transaction.
    pub(crate) fn publish(&mut self, written: VarSet)
        ensures { held self.new ≡ published (member written) (held self.old) }
    {
        if written.is_empty() {
            return;
        }
        if self.clock == u32::MAX {
            self.renumber();
        }
        self.stamp(written);
    }
}
