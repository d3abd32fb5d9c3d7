// The calls on a table, by the number of the task.
ghost use Rattle.history.specs.Calls.{begin as begins, read as reads, write as writes, commit as commits, abort as aborts};
ghost use Rattle.table.specs.Views.{Performs, done_or, value_or};

use crate::answer::Reading;
use crate::asking::ask_read;
use crate::fault::TableFault;
use crate::stage::{Call, Stage};
use crate::table::Table;
use policy::{Granted, Policy, VARIABLES};

impl<P: Policy> Table<P> {
    // Begins a transaction: nothing is pending.
    pub fn begin(&mut self, task: u8) -> Result<Granted, TableFault>
        ensures { Performs P.Policy (begins task) self.old (done_or result) self.new }
    {
        let task = self.stages.check(task, Call::Begin)?;
        let granted = self.policy.begin(u8::from(task))?;
        self.stages.set(task, Stage::Open([0; VARIABLES]));
        Ok(granted)
    }

    // Reads a variable.
    pub fn read(&mut self, task: u8, variable: u8) -> Result<Reading, TableFault>
        ensures { Performs P.Policy (reads task variable) self.old (value_or result) self.new }
    {
        let (task, variable) = self.stages.check_access(task, variable)?;
        let value = self.look(task, variable);
        let answer = ask_read(&mut self.policy, u8::from(task), u8::from(variable));
        let _ = self.stages.break_if_refused(task, answer)?;
        Ok(Reading { value })
    }

    // Writes a value, which is pending until the task commits.
    pub fn write(&mut self, task: u8, variable: u8, value: i32) -> Result<Granted, TableFault>
        ensures { Performs P.Policy (writes task variable value) self.old (done_or result) self.new }
    {
        let (task, variable) = self.stages.check_access(task, variable)?;
        let answer = self.policy.write(u8::from(task), u8::from(variable));
        let granted = self.stages.break_if_refused(task, answer)?;
        self.stages.set_pending(task, variable, value);
        Ok(granted)
    }

    // Ends the transaction: where the policy grants it, all pending values become the shared ones in one step.
    pub fn commit(&mut self, task: u8) -> Result<Granted, TableFault>
        ensures { Performs P.Policy (commits task) self.old (done_or result) self.new }
    {
        let task = self.stages.check(task, Call::Commit)?;
        let seen = self.look_all(task);
        let answer = self.policy.commit(u8::from(task));
        self.stages.set(task, Stage::Idle);
        let granted = answer?;
        self.shared = seen;
        Ok(granted)
    }

    // Ends the transaction and drops its pending values. The policy has ended that of a broken task already.
    pub fn abort(&mut self, task: u8) -> Result<Granted, TableFault>
        ensures { Performs P.Policy (aborts task) self.old (done_or result) self.new }
    {
        let task = self.stages.check(task, Call::Abort)?;
        let _ = self.policy.abort(u8::from(task));
        self.stages.set(task, Stage::Idle);
        Ok(Granted)
    }
}
