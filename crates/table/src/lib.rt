// Transactions over 64 shared variables for 8 tasks, under any policy.
#![tactic(auto)]

pub mod answer;
pub mod apart;
mod asking;
pub mod calls;
pub mod checks;
pub mod collect;
pub mod fault;
pub mod list;
pub mod making;
mod number;
pub mod seeing;
pub mod snapshot;
pub mod stage;
mod stages;
pub mod table;
pub mod ticket;
