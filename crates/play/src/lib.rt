// A schedule text, run line by line over a new table under the policy that it names.
#![tactic(auto)]

mod choosing;
pub mod outcome;
pub mod performing;
mod printing;
mod room;
mod running;
pub mod texts;
