// Runs of the table over several policies.
#![tactic(auto)]

#[cfg(test)]
mod calls;
pub mod counting;
#[cfg(test)]
mod counts;
#[cfg(test)]
mod lists;
#[cfg(test)]
mod tickets;
