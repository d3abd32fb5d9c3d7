// Damaged lines and texts, beside good ones at the limits.
#![tactic(auto)]

#[cfg(test)]
mod commands;
#[cfg(test)]
mod first_lines;
#[cfg(test)]
mod texts;
