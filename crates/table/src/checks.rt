// The checks that a call passes before the policy is asked.
ghost use Rattle.std.specs.Prelude.{◌≡◌, slice_index_or};
ghost use Rattle.std.proofs.Math.Option.{none as nothing};
ghost use Rattle.history.specs.Calls.{read as reading};
ghost use Rattle.history.specs.Answers.{wrong, must_be_active};
ghost use Rattle.table.specs.Checks.{passed, task_wrong, call_untimely, all_once_called};
ghost use Rattle.table.specs.Views.{stage_of};
ghost use Rattle.table.specs.declared.stage.Stage.TheVariants.{Idle as idle};

use crate::fault::{Place, TableFault};
use crate::number::{Task, Variable};
use crate::stage::Call;
use crate::stages::Stages;

// The task of this number, if there is one.
pub(crate) fn check_task(task: u8) -> Result<Task, TableFault>
    ensures { result ≡ passed task (task_wrong task) nothing }
{
    Task::new(task).ok_or(TableFault::NoTask)
}

impl Stages {
    // The task of this number, if there is one, and the call comes at the right time for it.
    pub(crate) fn check(&mut self, task: u8, call: Call) -> Result<Task, TableFault>
        ensures answer { result ≡ passed task (task_wrong task) (call_untimely call (slice_index_or self.old.all task idle)) }
        ensures moved { self.new.all ≡ all_once_called call task self.old.all }
    {
        let task = check_task(task)?;
        self.admit(task, call)?;
        Ok(task)
    }

    // The task and the variable of these numbers, if there are such, and an access comes at the right time.
    pub(crate) fn check_access(
        &mut self,
        task: u8,
        variable: u8,
    ) -> Result<(Task, Variable), TableFault>
        ensures answer { result ≡ passed (task, variable) (wrong (reading task variable)) (must_be_active (stage_of (slice_index_or self.old.all task idle))) }
        ensures same { self.new.all ≡ self.old.all }
    {
        let task = check_task(task)?;
        let variable = Variable::new(variable).ok_or(TableFault::NoVariable(Place::Single))?;
        self.admit(task, Call::Access)?;
        Ok((task, variable))
    }
}
