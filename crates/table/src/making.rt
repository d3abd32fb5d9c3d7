// The making of a table.
ghost use Rattle.policy.specs.Limits.{tasks};
ghost use Rattle.policy.specs.Facts.{Fresh};
ghost use Rattle.history.specs.Runs.{New};
ghost use Rattle.table.specs.Views.{view};
ghost use Rattle.table.specs.Making.{AbortedBelow, LawFrom};

use crate::stages::Stages;
use crate::table::Table;
use policy::{Policy, TASKS, VARIABLES};

// Aborts every task that the policy has open. The loop counts tasks, since a number of a task is all that a policy takes.
fn abort_all<P: Policy>(policy: &mut P)
    ensures aborted { AbortedBelow P.Policy tasks policy.old policy.new }
    ensures fresh { Fresh (P.Policy.facts policy.new) }
{
    for task in 0..TASKS as u8 {
        let _ = policy.abort(task);
    }
}

impl<P: Policy> Table<P> {
    // A table over any policy. Whatever calls follow, the law holds of the history that they make.
    pub fn new(mut policy: P) -> Table<P>
        ensures new { New P.Policy.facts (view result) }
        ensures aborted { AbortedBelow P.Policy tasks policy result.policy }
        ensures law { LawFrom P.Policy (view result) }
    {
        abort_all(&mut policy);
        Table {
            policy,
            stages: Stages::new(),
            shared: [0; VARIABLES],
        }
    }
}
