// Where a task stands.
use policy::VARIABLES;

// A task without a transaction, in one with its pending values, or thrown out of one and not yet told to end it.
#[derive(Clone, Copy)]
pub enum Stage {
    Idle,
    Open([i32; VARIABLES]),
    Broken,
}

// The calls, by when they may come: a snapshot when a begin may, and all accesses to variables at the same time.
#[derive(Clone, Copy)]
pub enum Call {
    Begin,
    Access,
    Commit,
    Abort,
}
