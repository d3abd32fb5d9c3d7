// The stages of all tasks.
ghost use Rattle.std.specs.Prelude.{◌≡◌, length, slice_set};
ghost use Rattle.policy.specs.Limits.{tasks, variables};

use crate::fault::TableFault;
use crate::number::{Task, Variable};
use crate::stage::{Call, Stage};
use policy::{TASKS, VARIABLES};

// The stage of each task.
#[derive(Drop)]
pub struct Stages {
    pub(crate) all: [Stage; TASKS],
    ghost complete: { length all ≡ tasks },
}

impl Stages {
    ghost use Rattle.std.specs.Prelude.{replicate, slice_index_or};
    ghost use Rattle.std.proofs.Math.Option.{none as nothing};
    ghost use Rattle.table.specs.Checks.{passed, call_untimely, all_once_called, once_answered, with_pending, Whole};
    ghost use Rattle.table.specs.Views.{pending_in};
    ghost use Rattle.table.specs.declared.stage.Stage.TheVariants.{Idle as idle};

    // Every task is idle.
    pub(crate) fn new() -> Stages
        ensures { result.all ≡ replicate tasks Stage.Idle }
    {
        Stages {
            all: [Stage::Idle; TASKS],
        }
    }

    // The pending value of a variable: 0 where the task isn't in a transaction.
    pub(crate) fn pending(&self, task: Task, variable: Variable) -> i32
        ensures { result ≡ pending_in (slice_index_or self.now.all task idle) variable }
    {
        match &self.all[usize::from(task)] {
            Stage::Open(pending) => pending[usize::from(variable)],
            _ => 0,
        }
    }

    // Whether the call comes at the right time for its task. A commit makes a broken task idle.
    // By rule one match on the task's own stage and the call, which moves the stage in place: all that may come when stands here.
    pub(crate) fn admit(&mut self, task: Task, call: Call) -> Result<(), TableFault>
        ensures answer { result ≡ passed tt nothing (call_untimely call (slice_index_or self.old.all task idle)) }
        ensures moved { self.new.all ≡ all_once_called call task self.old.all }
    {
        match (&mut self.all[usize::from(task)], call) {
            (Stage::Idle, Call::Begin) => Ok(()),
            (_, Call::Begin) => Err(TableFault::NotIdle),
            (Stage::Idle, _) => Err(TableFault::IsIdle),
            (Stage::Broken, Call::Access) => Err(TableFault::IsBroken),
            (broken @ Stage::Broken, Call::Commit) => {
                *broken = Stage::Idle;
                Err(TableFault::IsBroken)
            }
            _ => Ok(()),
        }
    }

    // Puts a task into another stage.
    pub(crate) fn set(&mut self, task: Task, stage: Stage)
        ensures { self.new.all ≡ slice_set self.old.all task stage }
    {
        self.all[usize::from(task)] = stage;
    }

    // Changes a pending value of a task in a transaction.
    pub(crate) fn set_pending(&mut self, task: Task, variable: Variable, value: i32)
        ensures whole { Whole (slice_index_or self.old.all task idle) }
        ensures changed { self.new.all ≡ slice_set self.old.all task (with_pending (slice_index_or self.old.all task idle) variable value) }
    {
        if let Stage::Open(pending) = &mut self.all[usize::from(task)] {
            set_value(pending, variable, value);
        }
    }

    // Hands on what an access was answered. A refusal throws the task out of its transaction: nothing of it stays pending.
    pub(crate) fn break_if_refused<T, E>(
        &mut self,
        task: Task,
        answer: Result<T, E>,
    ) -> Result<T, E>
        ensures same { result ≡ answer }
        ensures moved { self.new.all ≡ once_answered result task self.old.all }
    {
        if answer.is_err() {
            self.set(task, Stage::Broken);
        }
        answer
    }
}

// Changes the value of one variable. A function of its own, since a proof learns an array's length where it is a parameter.
fn set_value(values: &mut [i32; VARIABLES], variable: Variable, value: i32)
    ensures all { length values.old ≡ variables }
    ensures changed { values.new ≡ slice_set values.old variable value }
{
    values[usize::from(variable)] = value;
}
