// Schedules with what they print.
#![tactic(auto)]

#[cfg(test)]
mod rooms;
#[cfg(test)]
mod schedules;
