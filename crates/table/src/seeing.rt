// What a task sees in the variables.
ghost use Rattle.std.specs.Prelude.{◌≡◌, ℕ, pos, slice_index_or};
ghost use Rattle.table.specs.Views.{sight};

use crate::number::{Task, Variable};
use crate::table::Table;
use policy::{Policy, VARIABLES};

impl<P: Policy> Table<P> {
    // The pending value if the task has written the variable, else the shared one.
    pub(crate) fn look(&self, task: Task, variable: Variable) -> i32
        ensures { result ≡ sight P.Policy.facts self.now task variable }
    {
        match self.policy.has_written(u8::from(task), u8::from(variable)) {
            Ok(true) => self.stages.pending(task, variable),
            _ => self.shared[usize::from(variable)],
        }
    }

    // All that the task sees: the shared values after its commit.
    pub(crate) fn look_all(&self, task: Task) -> [i32; VARIABLES]
        ensures { (v : ℕ) → slice_index_or result v (pos 0) ≡ sight P.Policy.facts self.now task v }
    {
        let mut seen = self.shared;
        // `as`, since no place is above a variable's number
        for (place, value) in seen.iter_mut().enumerate() {
            *value = self.look(task, Variable { value: place as u8 });
        }
        seen
    }
}
