// What a table holds.
use crate::stages::Stages;
use policy::{Policy, VARIABLES};

// The shared values, the stage of each task, and the policy that decides about conflicts.
#[derive(Drop)]
pub struct Table<P: Policy> {
    pub(crate) policy: P,
    pub(crate) stages: Stages,
    pub(crate) shared: [i32; VARIABLES],
}
